// One layer: a driver that tells the counts of the driver below by a rule, and passes all else on.
ghost use Rattle.std.specs.Prelude.{◌≡◌, ℕ, ◌^◌, ◌<◌, ℤ};
ghost use Rattle.coil.specs.Meaning.{stepped};
ghost use Rattle.layers.specs.Piles.{LayerDid, layer_meaning};
ghost use Rattle.layers.specs.Recounts.{recounted_sound};

use coil::{CoilDriver, CoilFault, CoilId, Microsteps, Points};

// How a layer tells counts, and what it makes of steps on their way down.
pub trait Recount: Copy {
    // the count that is told for a count below
    ghost recount: { Self → ℕ → ℕ };

    // the steps below for steps above
    ghost turn: { Self → ℤ → ℤ };

    fn count(self, below: u32) -> u32
        ensures { result ≡ recount self below };

    fn steps(self, above: Microsteps) -> Microsteps
        ensures { result.value ≡ turn self above.value };

    // what is told is a count
    ghost fits: { (rule : Self) (n : ℕ) → recount rule n < 2 ^ 32 };

    // the count told moves by the steps above where the count below moves by the steps below
    ghost follows: { (rule : Self) (steps : ℤ) (n : ℕ) → n < 2 ^ 32 → recount rule (stepped n (turn rule steps)) ≡ stepped (recount rule n) steps };
}

#[derive(Drop)]
pub struct Layer<R, D> {
    rule: R,
    below: D,
}

impl<R: Recount, D: CoilDriver> Layer<R, D> {
    pub fn new(rule: R, below: D) -> Layer<R, D>
        ensures { result ≡ record { rule = rule; below = below } }
    {
        Layer { rule, below }
    }

    // The rule by which the counts are told.
    pub fn rule(&self) -> R
        ensures { result ≡ self.now.rule }
    {
        self.rule
    }

    // The driver below, to look at.
    pub fn below(&self) -> &D
        ensures { result.now ≡ self.now.below }
    {
        &self.below
    }

    // Gives the driver below back.
    pub fn into_below(self) -> D
        ensures { result ≡ self.below }
    {
        let Layer { rule: _, below } = self;
        below
    }
}

impl<R: Recount, D: CoilDriver> CoilDriver for Layer<R, D> {
    ghost meaning = { layer_meaning R.recount D.CoilDriver.meaning };

    ghost did = { LayerDid R.turn D.CoilDriver.did };

    ghost sound = { λ x. recounted_sound (R.recount x.rule) (D.CoilDriver.meaning x.below) (R.fits x.rule) (D.CoilDriver.sound x.below) };

    fn advance(&mut self, coil: CoilId, steps: Microsteps) -> Result<(), CoilFault> {
        self.below.advance(coil, self.rule.steps(steps))
    }

    fn feed(&mut self, coil: CoilId, points: Points) -> Result<(), CoilFault> {
        self.below.feed(coil, points)
    }

    fn note(&mut self, coil: CoilId, flags: u8) {
        self.below.note(coil, flags);
    }

    fn clear(&mut self, coil: CoilId) {
        self.below.clear(coil);
    }

    fn count(&self, coil: CoilId) -> u32 {
        self.rule.count(self.below.count(coil))
    }

    fn points(&self, coil: CoilId) -> Points {
        self.below.points(coil)
    }

    fn flags(&self, coil: CoilId) -> u8 {
        self.below.flags(coil)
    }
}
