//! The settings record, and what follows it.
ghost use Rattle.std.specs.Prelude.{◌≡◌, ◌≤◌, length};
ghost use Rattle.trace_file.specs.Form.{settings_of, contents_of, Takes};
ghost use Rattle.trace_file.specs.Steps.{settings_read};

use crate::records::Records;
use protocol::list::List;
use protocol::refusal::{Cause, Refusal};
use protocol::settings::{Cycles, Settings};

// The bytes of a settings record.
const SETTINGS: usize = 10;

// The settings record that begins a file, each byte named by one pattern, and the sample records behind it.
fn take_settings(file: &[u8]) -> Result<(Settings, Records), Refusal>
    requires { length file.now ≤ 65536 }
    ensures { settings_read result ≡ settings_of file.now }
{
    match file {
        [
            0x93,
            0x01,
            part,
            edition,
            write_high,
            write_low,
            eral_high,
            eral_low,
            wrall_high,
            wrall_low,
            bytes @ ..,
        ] => {
            let cycles = Cycles {
                write: u16::from_be_bytes([*write_high, *write_low]),
                eral: u16::from_be_bytes([*eral_high, *eral_low]),
                wrall: u16::from_be_bytes([*wrall_high, *wrall_low]),
            };
            let settings = Settings {
                part: *part,
                edition: *edition,
                cycles,
            };
            let records = Records {
                place: SETTINGS,
                bytes,
            };
            Ok((settings, records))
        }
        _ => Err(Cause::FileForm.into()),
    }
}

// The settings, once there is a record, every record has its form and the list has all samples.
#[tactic(auto, unfolding(crate::specs::Form::samples_up_to))]
pub(crate) fn take_contents(file: &[u8], samples: &mut List<u8>) -> Result<Settings, Refusal>
    requires { length file.now ≤ 65536 }
    ensures { Takes (contents_of file.now) samples.old samples.new result }
{
    let (settings, records) = take_settings(file)?;
    if records.bytes.is_empty() {
        return Err(Cause::FileForm.at(records.place));
    }
    let count = records.count_samples()?;
    if count > samples.left() {
        return Err(Cause::NoRoom.into());
    }
    records.add_samples(samples)?;
    Ok(settings)
}
