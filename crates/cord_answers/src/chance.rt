//! Numbers as if by chance, the same for the same seed.

/// A splitmix generator.
#[derive(Drop)]
pub struct Chance {
    state: u64,
}

impl Chance {
    /// One of a group of inputs: the same numbers for the same group and seed.
    pub fn new(group: u64, seed: u64) -> Chance {
        let state = group.wrapping_mul(0xD1B5_4A32_D192_ED03).wrapping_add(seed);
        let mut chance = Chance { state };
        chance.step();
        chance
    }

    fn step(&mut self) -> u64 {
        self.state = self.state.wrapping_add(0x9E37_79B9_7F4A_7C15);
        let z = (self.state ^ (self.state >> 30)).wrapping_mul(0xBF58_476D_1CE4_E5B9);
        let z = (z ^ (z >> 27)).wrapping_mul(0x94D0_49BB_1331_11EB);
        z ^ (z >> 31)
    }

    /// A number below `end`, or 0 where that is 0.
    pub fn below(&mut self, end: u64) -> u64 {
        self.step().checked_rem(end).unwrap_or(0)
    }

    /// A number from `least` up to `most`.
    pub fn between(&mut self, least: u64, most: u64) -> u64 {
        let room = most.saturating_sub(least).saturating_add(1);
        least.saturating_add(self.below(room))
    }

    /// One of these numbers, or 0 where there are none.
    pub fn pick(&mut self, numbers: &[u64]) -> u64 {
        let k = self.below(numbers.len() as u64) as usize;
        numbers.get(k).copied().unwrap_or(0)
    }
}
