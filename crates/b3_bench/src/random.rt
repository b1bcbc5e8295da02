//! Numbers that look random, and depend on a seed alone.

ghost use Rattle.std.specs.Prelude.{◌^◌, ◌<◌, ◌≤◌};

/// The generator SplitMix64.
#[derive(Drop)]
pub struct Random {
    state: u64,
}

impl Random {
    /// The numbers of this seed.
    pub fn new(seed: u64) -> Random {
        Random { state: seed }
    }

    /// The next number.
    pub fn word(&mut self) -> u64 {
        self.state = self.state.wrapping_add(0x9E37_79B9_7F4A_7C15);
        let mut word = self.state;
        word = (word ^ (word >> 30)).wrapping_mul(0xBF58_476D_1CE4_E5B9);
        word = (word ^ (word >> 27)).wrapping_mul(0x94D0_49BB_1331_11EB);
        word ^ (word >> 31)
    }

    /// The next number, brought below a bound.
    pub fn below(&mut self, bound: u64) -> u64
        requires { 0 < bound }
        ensures { result < bound }
    {
        self.word() % bound
    }

    /// The next number, brought between these two.
    pub fn between(&mut self, least: u64, most: u64) -> u64
        requires order { least ≤ most }
        requires few { most < 2 ^ 32 }
        ensures least { least ≤ result }
        ensures most { result ≤ most }
    {
        least + self.below(most - least + 1)
    }

    /// The next 32 bytes.
    pub fn key(&mut self) -> [u8; 32] {
        let mut key = [0; 32];
        key[..8].copy_from_slice(&self.word().to_le_bytes());
        key[8..16].copy_from_slice(&self.word().to_le_bytes());
        key[16..24].copy_from_slice(&self.word().to_le_bytes());
        key[24..].copy_from_slice(&self.word().to_le_bytes());
        key
    }
}
