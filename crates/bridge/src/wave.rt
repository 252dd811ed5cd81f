// The levels of the two windings of a coil, from a quarter of a sine wave.
ghost use Rattle.std.specs.Prelude.{◌≡◌, ◌≤◌};
ghost use Rattle.bridge.specs.Wave.{OnCircle, QuarterWaveStands, entries, levels_at, quarter};

use crate::table::QUARTER;

// What drives windings A and B, in ten-thousandths of full level; the sign is the direction of the current.
#[derive(Clone, Copy, PartialEq, Eq, Debug)]
pub struct Levels {
    pub a: i16,
    pub b: i16,
}

impl Levels {
    // The levels at a count of microsteps, of which 1024 are a turn of the wave.
    pub fn at(count: u32) -> Levels
        ensures value { result ≡ levels_at count }
        ensures circle { OnCircle result }
    {
        levels_of(count)
    }
}

// Quarters are told by number, since a turn of the wave is a layout of counts.
fn levels_of(count: u32) -> Levels
    ensures { result ≡ levels_at count }
{
    let j = (count % 256) as usize;
    let sine = entry(j) as i16;
    let cosine = entry(256 - j) as i16;
    match count % 1024 / 256 {
        0 => Levels { a: cosine, b: sine },
        1 => Levels {
            a: -sine,
            b: cosine,
        },
        2 => Levels {
            a: -cosine,
            b: -sine,
        },
        _ => Levels {
            a: sine,
            b: -cosine,
        },
    }
}

fn entry(k: usize) -> u16
    requires { k ≤ 256 }
    ensures value { result ≡ quarter k }
    ensures bound { result ≤ 10000 }
{
    table()[k]
}

fn table() -> &'static [u16; 257]
    ensures { result.now ≡ entries }
{
    &QUARTER
}

// The whole table, from 0 to 90 degrees, with the rules that it keeps.
pub fn quarter_wave() -> [u16; 257]
    ensures table { result ≡ entries }
    ensures rules { QuarterWaveStands }
{
    *table()
}
