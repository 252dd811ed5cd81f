// One motor driven by step words: up to four words a cycle, each with signed steps and a current code.
#![tactic(auto)]

ghost use Rattle.std.specs.Prelude.{◌≡◌, ◌≤◌, [], ◌∷◌, length, pos, neg_ℤ, ◌≤ℤ◌};
ghost use Rattle.coil.specs.Coils.{at as coil_at};
ghost use Rattle.step_axis.specs.Taken.{Took, answer_bytes, code_after, step_kind, taking};
ghost use Rattle.step_axis.specs.Words.{code, scale, steps, words};
ghost use Rattle.std.proofs.Common.{rules};

use axis::{Axis, AxisFault, Current};
use coil::{CoilDriver, CoilId, OutOfRange};

mod config;

pub use config::{Resolution, StepConfig, WordCount};

#[derive(Clone, Copy)]
pub struct StepAxis {
    // steps, modulo 65,536
    position: u16,
    // the code in force
    current: Current,
}

// The signed steps and the current code of a word, a layout of bits.
pub fn decode(word: u16) -> (i16, Current)
    ensures value { result ≡ (steps word, code word) }
    ensures least { neg_ℤ (pos 8191) ≤ℤ result.0 }
    ensures most { result.0 ≤ℤ pos 8191 }
{
    let size = (word % 8192) as i16;
    let steps = if word / 8192 % 2 == 1 { -size } else { size };
    let code = match word / 16384 {
        0 => Current::Off,
        1 => Current::Holding,
        2 => Current::Nominal,
        _ => Current::Maximum,
    };
    (steps, code)
}

// The four words of a motor's eight bytes.
fn words_in(orders: &[u8; 8]) -> [u16; 4]
    ensures { result ≡ words orders.now }
{
    let [a, b, c, d, e, f, g, h] = *orders;
    [
        u16::from_le_bytes([a, b]),
        u16::from_le_bytes([c, d]),
        u16::from_le_bytes([e, f]),
        u16::from_le_bytes([g, h]),
    ]
}

// Takes one word, unless its code is none: the coil advances. Tells the steps that it took.
fn take_word<D: CoilDriver>(
    resolution: Resolution,
    driver: &mut D,
    coil: CoilId,
    word: u16,
) -> Result<i16, AxisFault>
    ensures took { Took D.CoilDriver.meaning D.CoilDriver.did coil (scale resolution) (word ∷ []) driver.old driver.new }
    ensures taking { result ≡ taking (coil_at (D.CoilDriver.meaning driver.old) coil).flags (word ∷ []) }
{
    let (steps, code) = decode(word);
    if !code.is_powered() {
        return Ok(0);
    }
    driver.advance(coil, resolution.microsteps(steps))?;
    Ok(steps)
}

// Takes words in order until the coil declines one. Tells the signed sum of their steps, which is the loop's invariant
// by the rules; so this is no fold.
fn take_words<D: CoilDriver>(
    resolution: Resolution,
    driver: &mut D,
    coil: CoilId,
    words: &[u16],
) -> Result<i16, AxisFault>
    requires { length words.now ≤ 4 }
    ensures took { Took D.CoilDriver.meaning D.CoilDriver.did coil (scale resolution) words.now driver.old driver.new }
    ensures taking { result ≡ taking (coil_at (D.CoilDriver.meaning driver.old) coil).flags words.now }
{
    let mut sum: i16 = 0;
    for word in words {
        sum += take_word(resolution, driver, coil, *word)?;
    }
    Ok(sum)
}

// The code of the last word that counts, or none after a decline.
fn code_in_force(last: u16, taken: Result<i16, AxisFault>) -> Current
    ensures { result ≡ code_after taken last }
{
    taken.map_or(Current::Off, |_| decode(last).1)
}

impl StepAxis {
    // Position, flags, code in force and four zero bytes.
    fn answer(&self, flags: u8) -> [u8; 8]
        ensures { result ≡ answer_bytes self.now.position flags self.now.current }
    {
        let [low, high] = self.position.to_le_bytes();
        let code = self.current as u8;
        [low, high, flags, code, 0, 0, 0, 0]
    }
}

impl Axis for StepAxis {
    type Config = StepConfig;

    ghost kind = { step_kind };

    ghost rests = { Prim.search rules };

    ghost starts = { Prim.search rules };

    fn new() -> StepAxis {
        StepAxis {
            position: 0,
            current: Current::Off,
        }
    }

    fn first_config() -> StepConfig {
        StepConfig {
            words: WordCount::One,
            resolution: Resolution::Five,
        }
    }

    fn config(value: i32) -> Result<StepConfig, OutOfRange> {
        StepConfig::try_from(value)
    }

    fn current(&self) -> Current {
        self.current
    }

    fn cycle<D: CoilDriver>(
        &mut self,
        config: StepConfig,
        driver: &mut D,
        coil: CoilId,
        orders: &[u8; 8],
        answer: &mut [u8; 8],
    ) -> Result<(), AxisFault> {
        let words = words_in(orders);
        let count = config.words.count();
        let taken = take_words(config.resolution, driver, coil, &words[..count]);
        self.position = self.position.wrapping_add_signed(taken.unwrap_or(0));
        self.current = code_in_force(words[count - 1], taken);
        *answer = self.answer(driver.flags(coil));
        taken.map(|_| ())
    }
}

#[cfg(test)]
mod tests {
    use super::*;

    #[test]
    fn words_are_read(rt: HostRuntime) {
        assert!(rt; matches!(decode(0x8005), (5, Current::Nominal)));
        assert!(rt; matches!(decode(0xA001), (-1, Current::Nominal)));
        assert!(rt; matches!(decode(0x0005), (5, Current::Off)));
        assert!(rt; matches!(decode(0x9FFF), (8191, Current::Nominal)));
        assert_eq!(rt; Resolution::Five.microsteps(5).value, 40);
        assert_eq!(rt; Resolution::Five.microsteps(8191).value, 65_528);
    }

    fn config(words: WordCount, resolution: Resolution) -> Result<StepConfig, OutOfRange> {
        Ok(StepConfig { words, resolution })
    }

    #[test]
    fn configuration_is_read(rt: HostRuntime) {
        let one_five = config(WordCount::One, Resolution::Five);
        let four_five = config(WordCount::Four, Resolution::Five);
        let two_eight = config(WordCount::Two, Resolution::Eight);
        assert_eq!(rt; StepConfig::try_from(0x0800), one_five);
        assert_eq!(rt; StepConfig::try_from(0x0810), four_five);
        assert_eq!(rt; StepConfig::try_from(0x0868), two_eight);
        for bits in [0x0818, 0x0000, 0x0801, -1, 0x10800] {
            assert_eq!(rt; StepConfig::try_from(bits), Err(OutOfRange));
        }
    }
}
