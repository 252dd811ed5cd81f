// Two runs that differ in one call: a report that trips motor 1 while motor 2 is halfway through a move.
ghost use Rattle.std.specs.Prelude.{◌≡◌, ◌-◌, ◌^◌, Bool, min, [], map, count_by, IfOk, Ok, MatchResult};
ghost use Rattle.std.specs.List.{zip};
ghost use Rattle.checks.specs.Bench.{bench, word_query};
ghost use Rattle.checks.specs.Good.{both_runs, one_run, trip as trip_readings};
ghost use Rattle.checks.specs.Runs.{Computes, Shows, asked_in, calls_in, report_query, second_answer, trip_calls};
ghost use Rattle.checks.specs.declared.error.CheckError.TheVariants.{Memory};
ghost use Rattle.checks.specs.declared.reading.Sent.TheVariants.{WithTrip, WithoutTrip};
ghost use Rattle.history.specs.Lists.{operated};
ghost use Rattle.history.specs.declared.Call.{Call};
ghost use Rattle.history.specs.declared.Entry.{Entry};
ghost use Rattle.refusal.specs.Numbers.{answer_number};

use crate::bench::Words;
use crate::error::CheckError;
use crate::reading::{Quantity, Reading, Sent};
use coil::{CoilId, OVERCURRENT};
use drivers::PulseDriver;
use history::{Call, Entry, History};
use law::compare;
use module::{Closed, Module};
use refusal::{Refusal, answer_number};
use std::alloc::{AllocError, Global};
use step_axis::StepAxis;

type Ended = Module<Closed, StepAxis, PulseDriver>;

// A cycle of 100 steps for motor 1 and 200 steps for motor 2.
fn cycle(heap: Global) -> Result<Entry<Call>, AllocError>
    ensures { IfOk result (λ e. (operated e).query ≡ word_query 0x8064 0x80C8) }
{
    let orders = Vec::from_slice(heap, &Words(0x8064, 0x80C8).record())?;
    let answer = vec![in heap; 0; 16]?;
    Ok(Entry {
        call: Call::Cycle { orders, answer },
        ended: Ok(()),
    })
}

fn report(flags: u8) -> Entry<Call>
    ensures { (operated result).query ≡ report_query flags }
{
    Entry {
        call: Call::Report { motor: 1, flags },
        ended: Ok(()),
    }
}

// Four cycles, and halfway a report of these flags for motor 1.
#[tactic(auto, unfolding(crate::specs::Runs::asked_in, crate::specs::Runs::trip_calls))]
fn history(heap: Global, flags: u8) -> Result<History, AllocError>
    ensures settings { IfOk result (λ h. h.preparation.items ≡ []) }
    ensures calls { IfOk result (λ h. asked_in h ≡ trip_calls flags) }
{
    let calls = vec![in heap;
        cycle(heap)?,
        cycle(heap)?,
        report(flags),
        cycle(heap)?,
        cycle(heap)?,
    ]?;
    Ok(History {
        preparation: Vec::new(heap),
        running: Some(calls),
    })
}

// What one run leaves: motor 1's count, and all that motor 2 shows.
fn read_run(ended: &Ended, sent: Sent, count: u32) -> Result<[Reading; 4], Refusal>
    requires { Shows count (bench ended.now.inner) }
    ensures { result ≡ Ok (one_run sent count) }
{
    let flags = u32::from(ended.flags(2)?);
    let faults = u32::from(ended.state(CoilId::Second).fault.is_some());
    Ok([
        sent.reading(CoilId::First, Quantity::Count, ended.count(1)?, count),
        sent.reading(CoilId::Second, Quantity::Count, ended.count(2)?, 6400),
        sent.reading(CoilId::Second, Quantity::Flags, flags, 0),
        sent.reading(CoilId::Second, Quantity::Faults, faults, 0),
    ])
}

fn read_runs(one: &Ended, other: &Ended) -> Result<([Reading; 4], [Reading; 4]), Refusal>
    requires without { Shows 3200 (bench one.now.inner) }
    requires with { Shows 1600 (bench other.now.inner) }
    ensures { result ≡ Ok (one_run WithoutTrip 3200, one_run WithTrip 1600) }
{
    let without = read_run(one, Sent::WithoutTrip, 3200)?;
    let with = read_run(other, Sent::WithTrip, 1600)?;
    Ok((without, with))
}

// The calls of a running module.
fn calls(history: &History) -> &[Entry<Call>]
    ensures { result.now ≡ calls_in history.now }
{
    match &history.running {
        Some(calls) => calls.as_slice(),
        None => &[],
    }
}

// Motor 2's half of the answer, where the call is a cycle that was accepted.
fn second_half(entry: &Entry<Call>) -> &[u8]
    ensures { result.now ≡ second_answer entry.now }
{
    match (&entry.call, entry.ended) {
        (Call::Cycle { answer, .. }, Ok(())) if answer.len() >= 8 => &answer.as_slice()[8..],
        _ => &[],
    }
}

// How many entries of two runs, side by side, are unlike.
// The test takes both entries: a chain whose closure calls a key function that lends from the entry gets no proof.
fn count_unlike<'a, F: FnMut(&(&'a Entry<Call>, &'a Entry<Call>)) -> bool>(
    one: &'a [Entry<Call>],
    other: &'a [Entry<Call>],
    are_unlike: F,
) -> u32
    requires { (state : F) (pair : _) → F.pre state pair }
    ensures { (test : Entry Call → Entry Call → Bool) → Computes F.FnMut are_unlike test → result ≡ min (count_by (λ p. test p.0 p.1) (zip one.now other.now)) (2 ^ 32 - 1) }
{
    let unlike = one.iter().zip(other).filter(are_unlike).count();
    u32::try_from(unlike).unwrap_or(u32::MAX)
}

fn read_both(one: &History, other: &History) -> [Reading; 2]
    requires numbers { map (λ e. answer_number e.ended) (calls_in one.now) ≡ map (λ e. answer_number e.ended) (calls_in other.now) }
    requires answers { map second_answer (calls_in one.now) ≡ map second_answer (calls_in other.now) }
    ensures { result ≡ both_runs }
{
    let numbers = count_unlike(calls(one), calls(other), |(left, right)| {
        answer_number(left.ended) != answer_number(right.ended)
    });
    let answers = count_unlike(calls(one), calls(other), |(left, right)| {
        second_half(left) != second_half(right)
    });
    let sent = Sent::BothRuns;
    [
        sent.reading(CoilId::Second, Quantity::OtherNumbers, numbers, 0),
        sent.reading(CoilId::Second, Quantity::OtherAnswers, answers, 0),
    ]
}

// Motor 1 trips while motor 2 is halfway through a move: what motor 2 shows is as without the trip.
pub fn trip(heap: Global) -> Result<Vec<Reading>, CheckError>
    ensures { MatchResult result (λ v. v.items ≡ trip_readings) (λ e. e ≡ Memory) }
{
    let mut one = history(heap, 0)?;
    let mut other = history(heap, OVERCURRENT)?;
    let (first, second): (Ended, Ended) = compare(
        PulseDriver::new(0, 0),
        &mut one,
        PulseDriver::new(0, 0),
        &mut other,
    );
    let read = read_runs(&first, &second);
    let _driver = first.end();
    let _driver = second.end();
    let (without, with) = read?;
    let mut readings = Vec::from_slice(heap, &without)?;
    readings.extend_from_slice(&with)?;
    readings.extend_from_slice(&read_both(&one, &other))?;
    Ok(readings)
}
