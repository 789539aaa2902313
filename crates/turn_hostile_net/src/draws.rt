//! Drawn numbers: the same ones for the same seed.

use rand_core::{Rng, SeedableRng};
use rand_xoshiro::Xoshiro256PlusPlus;

/// A source of drawn numbers.
#[derive(Drop)]
pub struct Draws {
    source: Xoshiro256PlusPlus,
}

impl Draws {
    /// The numbers of this seed.
    pub fn new(seed: u64) -> Draws {
        Draws {
            source: Xoshiro256PlusPlus::seed_from_u64(seed),
        }
    }

    /// A number below `bound`, or 0 if that is 0.
    pub fn below(&mut self, bound: u64) -> u64 {
        self.source.next_u64() % bound.max(1)
    }

    /// Whether a draw of this many percent came out.
    pub fn percent(&mut self, chance: u64) -> bool {
        self.below(100) < chance
    }

    /// A drawn byte.
    pub fn byte(&mut self) -> u8 {
        let [first, ..] = self.source.next_u32().to_le_bytes();
        first
    }

    /// A drawn number.
    pub fn number(&mut self) -> u32 {
        self.source.next_u32()
    }

    /// A drawn transaction ID.
    pub fn id(&mut self) -> [u8; 12] {
        let [a, b, c, d, e, f, g, h] = self.source.next_u64().to_le_bytes();
        let [i, j, k, l] = self.source.next_u32().to_le_bytes();
        [a, b, c, d, e, f, g, h, i, j, k, l]
    }
}
