// The checks of a spare module: each runs a module, and gives what it reads beside what a good module reads.
#![tactic(auto)]

ghost use Rattle.std.specs.Prelude.{◌≡◌, Ok, MatchResult};
ghost use Rattle.checks.specs.Bench.{bench, configured, fresh, maximum_set};
ghost use Rattle.checks.specs.Good.{all_readings, full_turn, maximum_current, no_current, there_and_back};
ghost use Rattle.checks.specs.declared.error.CheckError.TheVariants.{Memory};

use coil::CoilId;
use refusal::Refusal;

mod bench;
mod error;
mod reading;
mod runs;
mod summary;

use bench::{Prepared, Spare, Words, greatest, position, prepare, send, send_times, while_running};
pub use error::CheckError;
pub use reading::{Quantity, Reading, Sent};
pub use runs::trip;
use std::alloc::Global;
pub use summary::Summary;

fn read_full_turn(spare: &mut Spare) -> Result<[Reading; 4], Refusal>
    ensures { bench spare.old.inner ≡ fresh 0 0 → result ≡ Ok full_turn }
{
    let answer = send_times(spare, 32, Words(0x0000, 0x80C8))?;
    let byte = u32::from(greatest(&answer[0..8]));
    let steps = position(&answer, CoilId::Second);
    let sent = Sent::FullTurn;
    Ok([
        sent.reading(CoilId::First, Quantity::Count, spare.count(1)?, 0),
        sent.reading(CoilId::First, Quantity::GreatestByte, byte, 0),
        sent.reading(CoilId::Second, Quantity::Position, steps, 6400),
        sent.reading(CoilId::Second, Quantity::Count, spare.count(2)?, 51_200),
    ])
}

// Motor 2 makes a full turn, which is 200 full steps, while motor 1 is sent nothing.
pub fn full_turn() -> Result<[Reading; 4], Refusal>
    ensures { result ≡ Ok full_turn }
{
    while_running(prepare(0, 0), read_full_turn)
}

fn read_no_current(spare: &mut Spare) -> Result<[Reading; 4], Refusal>
    ensures { bench spare.old.inner ≡ fresh 0 0 → result ≡ Ok no_current }
{
    let answer = send(spare, Words(0x0005, 0x0005))?;
    let first = position(&answer, CoilId::First);
    let second = position(&answer, CoilId::Second);
    let sent = Sent::NoCurrent;
    Ok([
        sent.reading(CoilId::First, Quantity::Count, spare.count(1)?, 0),
        sent.reading(CoilId::First, Quantity::Position, first, 0),
        sent.reading(CoilId::Second, Quantity::Count, spare.count(2)?, 0),
        sent.reading(CoilId::Second, Quantity::Position, second, 0),
    ])
}

// Steps with the current code none move no motor.
pub fn no_current() -> Result<[Reading; 4], Refusal>
    ensures { result ≡ Ok no_current }
{
    while_running(prepare(0, 0), read_no_current)
}

#[tactic(auto, using(crate::proofs::Sending::set_number), unfolding(crate::specs::Bench::fresh))]
fn set_maximum(prepared: &mut Prepared) -> Result<(), Refusal>
    requires { bench prepared.old.inner ≡ fresh 0 0 }
    ensures after { bench prepared.new.inner ≡ maximum_set }
    ensures answer { result ≡ Ok tt }
{
    prepared.setting(35, 167)?;
    prepared.setting(38, 167)
}

fn read_maximum(spare: &mut Spare) -> Result<[Reading; 2], Refusal>
    ensures { bench spare.old.inner ≡ maximum_set → result ≡ Ok maximum_current }
{
    let _answer = send(spare, Words(0xC000, 0xC000))?;
    let first = u32::from(spare.points(1)?);
    let second = u32::from(spare.points(2)?);
    let sent = Sent::MaximumCurrent;
    Ok([
        sent.reading(CoilId::First, Quantity::Points, first, 167),
        sent.reading(CoilId::Second, Quantity::Points, second, 100),
    ])
}

// Both motors want the maximum current, which is more than the supply has.
pub fn maximum_current() -> Result<[Reading; 2], Refusal>
    ensures { result ≡ Ok maximum_current }
{
    let mut prepared = prepare(0, 0);
    let set = set_maximum(&mut prepared);
    let readings = while_running(prepared, read_maximum);
    set.and(readings)
}

fn read_there_and_back(spare: &mut Spare) -> Result<[Reading; 4], Refusal>
    ensures { bench spare.old.inner ≡ configured → result ≡ Ok there_and_back }
{
    let there = position(&send(spare, Words(0x8200, 0x0000))?, CoilId::First);
    let far = spare.count(1)?;
    let back = position(&send_times(spare, 8, Words(0xA040, 0x0000))?, CoilId::First);
    Ok([
        Sent::There.reading(CoilId::First, Quantity::Count, far, 5096),
        Sent::There.reading(CoilId::First, Quantity::Position, there, 512),
        Sent::Back.reading(CoilId::First, Quantity::Count, spare.count(1)?, 1000),
        Sent::Back.reading(CoilId::First, Quantity::Position, back, 0),
    ])
}

// 512 steps in one word, and the same steps back in eight, from a count that is not 0.
#[tactic(auto, using(crate::proofs::Sending::set_bench), unfolding(crate::specs::Bench::configured))]
pub fn there_and_back() -> Result<[Reading; 4], Refusal>
    ensures { result ≡ Ok there_and_back }
{
    let mut prepared = prepare(1000, 0);
    let set = prepared.setting(46, 0x0800);
    let readings = while_running(prepared, read_there_and_back);
    set.and(readings)
}

// All checks, in order.
pub fn all(heap: Global) -> Result<Vec<Reading>, CheckError>
    ensures { MatchResult result (λ v. v.items ≡ all_readings) (λ e. e ≡ Memory) }
{
    let mut readings = Vec::new(heap);
    readings.extend_from_slice(&full_turn()?)?;
    readings.extend_from_slice(&no_current()?)?;
    readings.extend_from_slice(&maximum_current()?)?;
    readings.extend_from_slice(&there_and_back()?)?;
    readings.extend_from_slice(&trip(heap)?)?;
    Ok(readings)
}
