//! Numbers as if by chance, the same for the same seed.

ghost use Rattle.std.specs.Prelude.{◌<◌};

/// A linear congruential generator, of whose 64 bits the upper ones are given.
#[derive(Drop)]
pub struct Chance {
    state: u64,
}

impl Chance {
    pub fn new(seed: u32) -> Chance {
        let mut chance = Chance {
            state: u64::from(seed),
        };
        for _ in 0..4 {
            chance.step();
        }
        chance
    }

    fn step(&mut self) -> u64 {
        self.state = self
            .state
            .wrapping_mul(6_364_136_223_846_793_005)
            .wrapping_add(1_442_695_040_888_963_407);
        self.state >> 24
    }

    /// A number below `end`.
    pub fn below(&mut self, end: u64) -> u64
        requires { 0 < end }
        ensures { result < end }
    {
        self.step() % end
    }

    /// A number up to `most`.
    pub fn up_to(&mut self, most: u64) -> u64 {
        self.below(most.max(1).saturating_add(1)).min(most)
    }

    /// A letter, or every so often a blank.
    pub fn letter(&mut self) -> u8 {
        let k = self.below(31) as u8;
        if k < 26 { b'a' + k } else { b' ' }
    }
}
