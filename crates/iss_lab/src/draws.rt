//! Pseudorandom numbers.
ghost use Rattle.std.specs.Prelude.{◌≡◌, ◌<◌};
ghost use Rattle.iss_lab.specs.Draws.{drawn, next};

// The generator: a linear congruence modulo 2^64 (Knuth, MMIX), of which the high bits are used.
#[derive(Drop)]
pub(crate) struct Draws {
    pub(crate) state: u64,
}

const FACTOR: u64 = 6_364_136_223_846_793_005;

const SUMMAND: u64 = 1_442_695_040_888_963_407;

// The low 33 bits of a state are not used, since their periods are short.
const UNUSED: u64 = 8_589_934_592;

impl Draws {
    // Draws the next number below `end`.
    // rule: Lab: A draw takes the high bits of the next state
    pub(crate) fn draw(&mut self, end: u32) -> u32
        requires { 0 < end }
        ensures value { result ≡ drawn end (next self.old.state) }
        ensures below { result < end }
        ensures state { self.new.state ≡ next self.old.state }
    {
        let state = self.state.wrapping_mul(FACTOR).wrapping_add(SUMMAND);
        self.state = state;
        below(state, end)
    }
}

// The number below `end` that a state gives.
fn below(state: u64, end: u32) -> u32
    requires { 0 < end }
    ensures value { result ≡ drawn end state }
    ensures below { result < end }
{
    let high = state / UNUSED;
    let number = high % u64::from(end);
    number as u32
}
