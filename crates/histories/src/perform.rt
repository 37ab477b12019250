//! Calls performed by a driver: one call at a time, or a list of them by a new driver.
ghost use Rattle.std.specs.Prelude.{◌≡◌, ◌+◌, ◌≤◌, true, [], ◌∷◌, length, Ok, nat_le};
ghost use Rattle.protocol.specs.Lists.{room};
ghost use Rattle.chips.specs.Seen.{seen};
ghost use Rattle.wire.specs.Sent.{Sends};
ghost use Rattle.driver.specs.Held.{held};
ghost use Rattle.histories.specs.Performing.{wanted_by, words_wanted, has_room, Performed, PerformsOn, PerformsNext, PerformedOne};
ghost use Rattle.histories.specs.Recorded.{BytesAccounted};
ghost use Rattle.histories.specs.Samples.{samples_from};
ghost use Rattle.histories.specs.Told.{CountedTold, TruthfulTold, BelievedTold, BusyTold};

use crate::call::Call;
use crate::told::Told;
use chips::chip::Chip;
use driver::driver::Driver;
use protocol::list::List;
use protocol::refusal::{Cause, Refusal};

// Do the words of all calls find so many places?
#[tactic(auto, using(crate::proofs::Performs::fitting))]
fn words_fit(calls: &[Call], places: usize) -> bool
    ensures { result ≡ nat_le (words_wanted calls.now) places }
{
    let mut left = places;
    for call in calls {
        let Some(rest) = left.checked_sub(call.words_wanted()) else {
            return false;
        };
        left = rest;
    }
    true
}

// Is there room for an answer to each call, and for the most words that they hand out?
pub fn has_room(calls: &[Call], told: &Told) -> bool
    ensures { result ≡ has_room calls.now told.now }
{
    calls.len() <= told.answers.left() && words_fit(calls, told.words.left())
}

// A read, with its word added to the list.
#[tactic(auto, using(crate::proofs::Performs::reading))]
fn read_into<C: Chip>(
    driver: &mut Driver<C>,
    address: u16,
    words: &mut List<u16>,
) -> Result<(), Refusal>
    requires { words.old.count + 1 ≤ room words.old }
    ensures { PerformedOne C.Chip.next (Call.Read address) (held C.Chip driver.old) (held C.Chip driver.new) words.old words.new result }
{
    let word = driver.read(address)?;
    words.push(word, 0)
}

// A run that reads straight into free places of the list.
fn run_into<C: Chip>(
    driver: &mut Driver<C>,
    address: u16,
    count: usize,
    words: &mut List<u16>,
) -> Result<(), Refusal>
    requires { words.old.count + count ≤ room words.old }
    ensures { PerformedOne C.Chip.next (Call.Run address count) (held C.Chip driver.old) (held C.Chip driver.new) words.old words.new result }
{
    words.extend_from(driver, address, count, 0)
}

// Any call, with its words added to the list.
fn perform_one<C: Chip>(
    driver: &mut Driver<C>,
    call: Call,
    words: &mut List<u16>,
) -> Result<(), Refusal>
    requires { words.old.count + wanted_by call ≤ room words.old }
    ensures { PerformedOne C.Chip.next call (held C.Chip driver.old) (held C.Chip driver.new) words.old words.new result }
{
    match call {
        Call::Greet => driver.greet(),
        Call::Settle => driver.settle(),
        Call::Open => driver.open(),
        Call::Shut => driver.shut(),
        Call::Read { address } => read_into(driver, address, words),
        Call::Run { address, count } => run_into(driver, address, count, words),
        Call::Write { address, value } => driver.write(address, value),
        Call::Erase { address } => driver.erase(address),
        Call::Fill { value } => driver.fill(value),
        Call::Clear => driver.clear(),
    }
}

// Performs one call by a driver that goes on: its answer, and the words that it hands out. Without room for an answer and for the most
// words of the call nothing is done.
#[tactic(auto, using(crate::proofs::Going::fits_next))]
pub fn perform_next<C: Chip>(
    driver: &mut Driver<C>,
    call: Call,
    told: &mut Told,
) -> Result<(), Refusal>
    ensures { PerformsNext C.Chip.next (has_room (call ∷ []) told.old) call (held C.Chip driver.old) (held C.Chip driver.new)
        told.old told.new result }
{
    if !has_room(&[call], told) {
        return Err(Cause::NoRoom.into());
    }
    let answer = perform_one(driver, call, &mut told.words);
    told.answers.push(answer, 0)
}

fn perform_all<C: Chip>(
    driver: &mut Driver<C>,
    calls: &[Call],
    told: &mut Told,
) -> Result<(), Refusal>
    requires { has_room calls.now told.old ≡ true }
    ensures done { result ≡ Ok tt }
    ensures performed { Performed C.Chip.next calls.now (held C.Chip driver.old) (held C.Chip driver.new) told.old told.new }
{
    for call in calls {
        perform_next(driver, *call, told)?;
    }
    Ok(())
}

// By a new driver, if there is room for all.
fn perform_in_room<C: Chip>(chip: &mut C, calls: &[Call], told: &mut Told) -> Result<(), Refusal>
    ensures { PerformsOn C.Chip calls.now chip.old chip.new told.old told.new result }
{
    if !has_room(calls, told) {
        return Err(Cause::NoRoom.into());
    }
    let mut driver = Driver::new(chip);
    perform_all(&mut driver, calls, told)
}

// Performs the calls with a new driver on the chip: an answer for each call, and the words that they hand out, one after the other.
// Without room for all of them nothing is done.
pub fn perform<C: Chip>(chip: &mut C, calls: &[Call], told: &mut Told) -> Result<(), Refusal>
    ensures performs { PerformsOn C.Chip calls.now chip.old chip.new told.old told.new result }
    ensures counted { result ≡ Ok tt → CountedTold C.Chip calls.now chip.old told.old told.new }
    ensures truthful { TruthfulTold C.Chip calls.now chip.old told.old told.new }
    ensures believed { BelievedTold C.Chip calls.now chip.old chip.new told.old told.new }
    ensures busy { BusyTold C.Chip calls.now chip.old told.old told.new }
    ensures sent { result ≡ Ok tt → Sends C.Chip chip.old chip.new (samples_from calls.now (C.Chip.meaning chip.old)) }
    ensures recorded { result ≡ Ok tt → BytesAccounted calls.now (C.Chip.meaning chip.old) (C.Chip.meaning chip.new) }
{
    // facts promises that the chip fits, on which the laws rest
    let _ = chip.facts();
    perform_in_room(chip, calls, told)
}
