ghost use Rattle.std.specs.Prelude.{◌≡◌, ◌+◌, ◌-◌, ◌^◌, ◌<◌};
ghost use Rattle.load_gen.specs.Sequence.{next_number};
ghost use Rattle.load_gen.specs.Draw.{draw_at};

use crate::Draw;
use std::marker::Model;

/// The draws of a seed, one after the other.
#[derive(Drop)]
pub struct Draws {
    seed: u64,
    given: u32,
    // The number of the last draw, or the seed before the first.
    number: u64,
}

impl Model for Draws {
    ghost use Rattle.std.specs.Prelude.{◌≡◌};
    ghost use Rattle.load_gen.specs.Draws.{PlainDraws};
    ghost use Rattle.load_gen.specs.Sequence.{number_at};

    ghost Value = { PlainDraws };

    ghost view = { λ d. record { seed = d.seed; given = d.given } };

    ghost invariant = { λ d. d.number ≡ number_at d.seed d.given };
}

/// The number that follows another.
#[tactic(auto, using(crate::proofs::Wraps::wraps_once))]
fn next_number(x: u64) -> u64
    ensures { result ≡ next_number x }
{
    x.wrapping_mul(6_364_136_223_846_793_005)
        .wrapping_add(1_442_695_040_888_963_407)
}

impl Draws {
    /// The draws of this seed, from the first on.
    pub fn new(seed: u64) -> Draws
        ensures { result ≡ record { seed = seed; given = 0 } }
    {
        Draws {
            seed,
            given: 0,
            number: seed,
        }
    }

    /// How many draws were given.
    pub fn given(&self) -> u32
        ensures { result ≡ self.now.given }
    {
        self.given
    }

    /// The next draw. A seed has 2^32 - 1 of them.
    pub fn next(&mut self) -> Draw
        requires left { self.old.given < 2 ^ 32 - 1 }
        ensures draw { result ≡ draw_at self.old.seed (self.old.given + 1) }
        ensures draws { self.new ≡ record { seed = self.old.seed; given = self.old.given + 1 } }
    {
        self.number = next_number(self.number);
        self.given += 1;
        Draw::of(self.given, self.number)
    }
}
