// A module on the bench: what is sent to it, and what is read of its answer.
ghost use Rattle.std.specs.Prelude.{◌≡◌, max, Ok, fold};
ghost use Rattle.std.specs.Fn.{FnOnceReturnsAtMut};
ghost use Rattle.checks.specs.Bench.{answer_to, bench, fresh, last_answer, position_in, sent, sent_times, word_record};

use coil::CoilId;
use drivers::PulseDriver;
use module::{Module, Preparation, Running};
use refusal::Refusal;
use step_axis::StepAxis;

pub(crate) type Prepared = Module<Preparation, StepAxis, PulseDriver>;

pub(crate) type Spare = Module<Running, StepAxis, PulseDriver>;

// A module in preparation over coils at these counts, which are read by place as the driver reads them.
pub(crate) fn prepare(first: u32, second: u32) -> Prepared
    ensures { bench result.inner ≡ fresh first second }
{
    Module::new(PulseDriver::new(first, second))
}

// Starts the module, lets it be read, and ends it whatever that gave. It is no call of a module, since a public call
// asks nothing of its caller, and this one asks for a function that may be called.
pub(crate) fn while_running<T, F: FnOnce(&mut Spare) -> T>(prepared: Prepared, read: F) -> T
    requires { F.IsAlwaysCallable read }
    ensures { (spare ended : _) × (spare.inner ≡ prepared.inner) × FnOnceReturnsAtMut F.FnOnce read spare result ended }
{
    let mut spare = prepared.start();
    let given = read(&mut spare);
    let _driver = spare.end();
    given
}

// A word for motor 1 and a word for motor 2; no PerCoil, so that a send reads its words by place.
#[derive(Clone, Copy)]
pub(crate) struct Words(pub(crate) u16, pub(crate) u16);

impl Words {
    // The cycle record with these words.
    pub(crate) fn record(self) -> [u8; 16]
        ensures { result ≡ word_record self.0 self.1 }
    {
        let [a, b] = self.0.to_le_bytes();
        let [c, d] = self.1.to_le_bytes();
        [a, b, 0, 0, 0, 0, 0, 0, c, d, 0, 0, 0, 0, 0, 0]
    }
}

// One cycle with these words; gives the answer.
#[tactic(auto, using(crate::proofs::Sending::sent_stand, crate::proofs::Sending::sent_answer))]
pub(crate) fn send(spare: &mut Spare, words: Words) -> Result<[u8; 16], Refusal>
    ensures after { bench spare.new.inner ≡ sent words.0 words.1 (bench spare.old.inner) }
    ensures answer { result ≡ Ok (answer_to words.0 words.1 (bench spare.old.inner)) }
{
    let mut answer = [0; 16];
    spare.cycle(&words.record(), &mut answer)?;
    Ok(answer)
}

// The same cycle so many times; gives the last answer.
#[tactic(auto, unfolding(crate::specs::Bench::sent_times, crate::specs::Bench::last_answer))]
pub(crate) fn send_times(spare: &mut Spare, times: u32, words: Words) -> Result<[u8; 16], Refusal>
    ensures after { bench spare.new.inner ≡ sent_times times words.0 words.1 (bench spare.old.inner) }
    ensures answer { result ≡ Ok (last_answer times words.0 words.1 (bench spare.old.inner)) }
{
    // A `for`, since a chain tells nothing of a module that its closure changes.
    let mut answer = [0; 16];
    for _ in 0..times {
        answer = send(spare, words)?;
    }
    Ok(answer)
}

// A motor's position in an answer.
pub(crate) fn position(answer: &[u8; 16], motor: CoilId) -> u32
    ensures { result ≡ position_in motor answer.now }
{
    let (low, high) = match motor {
        CoilId::First => (answer[0], answer[1]),
        CoilId::Second => (answer[8], answer[9]),
    };
    u32::from(u16::from_le_bytes([low, high]))
}

// The greatest of some bytes, 0 where there are none.
pub(crate) fn greatest(bytes: &[u8]) -> u8
    ensures { result ≡ fold max 0 bytes.now }
{
    bytes.iter().copied().fold(0, u8::max)
}
