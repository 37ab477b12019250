//! A blank chip that writes down, in a list of the caller's, what is put into it.
ghost use Rattle.std.specs.Prelude.{◌≡◌, ◌+◌, ◌≤◌, length};
ghost use Rattle.protocol.specs.Lists.{room, Adds};
ghost use Rattle.wire.specs.Fields.{samples_in};
ghost use Rattle.frame_writer.specs.Kept.{Kept, kept, keep, blank_at};
ghost use Rattle.frame_writer.specs.Written.{bytes_of};
ghost use Rattle.frame_writer.specs.Wrote.{Wrote};

use chips::chip::{Chip, HIGH_IMPEDANCE};
use protocol::list::List;
use protocol::refusal::{Cause, Refusal};
use protocol::sample::Straps;
use wire::frame::Frame;

#[derive(Drop)]
pub(crate) struct Writer<'t, 's> {
    pub(crate) samples: &'t mut List<'s, u8>,
    pub(crate) straps: Straps,
}

impl Chip for Writer<'_, '_> {
    ghost meaning = { λ w. blank_at w.straps };

    // what the list holds, and whose it is
    ghost View = { Kept };

    ghost view = { λ w. kept w.samples.ghost_name w.samples.now };

    ghost next = { keep };

    fn facts(&self) -> (u8, u8, u8) {
        (0, 0, 0)
    }

    // A full list stays as it is, and a blank never drives DO.
    #[tactic(auto, using(crate::proofs::Keeping::kept_more), unfolding(chips::specs::Pins::put_on))]
    fn put(&mut self, cs: bool, sk: bool, di: bool) -> u8 {
        let sample = self.straps.sample(cs, sk, di);
        let _ = self.samples.push(sample.into(), 0);
        HIGH_IMPEDANCE
    }
}

impl Writer<'_, '_> {
    // A frame for which there is room.
    fn add(&mut self, frame: Frame)
        requires { self.old.samples.now.count + length (samples_in frame) ≤ room self.old.samples.now }
        ensures { Wrote self.old self.new (samples_in frame) }
    {
        frame.send(self);
    }

    // A frame, if there is room for the whole of it.
    #[tactic(auto, using(crate::proofs::Lengths::length_bytes))]
    pub(crate) fn write(&mut self, frame: Frame) -> Result<(), Refusal>
        ensures adds { Adds self.old.samples.now (bytes_of self.old.straps.org self.old.straps.pe (samples_in frame)) 0 self.new.samples.now result }
        ensures lender { self.new.samples.ghost_name ≡ self.old.samples.ghost_name }
    {
        if frame.length() > self.samples.left() {
            return Err(Cause::NoRoom.into());
        }
        self.add(frame);
        Ok(())
    }
}
