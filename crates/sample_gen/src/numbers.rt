//! The numbers that instructions are made from.
ghost use Rattle.std.specs.Prelude.{◌≡◌, ◌^◌, ◌/◌};
ghost use Rattle.sample_gen.specs.Numbers.{next_state};

/// The factor and the summand of a step (Knuth's for MMIX), modulo 2^64.
const FACTOR: u64 = 6_364_136_223_846_793_005;

const SUMMAND: u64 = 1_442_695_040_888_963_407;

/// A sequence of numbers, by its state.
#[derive(Drop)]
pub struct Numbers {
    pub state: u64,
}

impl Numbers {
    /// The next number of the sequence, the upper bits of the state after a step.
    pub fn next_number(&mut self) -> u32
        ensures state { self.new.state ≡ next_state self.old.state }
        ensures number { result ≡ self.new.state / 2 ^ 33 }
    {
        self.state = self.state.wrapping_mul(FACTOR).wrapping_add(SUMMAND);
        (self.state >> 33) as u32
    }
}
