//! The generator of random words.

ghost use Rattle.std.specs.Prelude.{◌≡◌};
ghost use Rattle.sls_base.specs.Lcg.{next_state};

/// A linear congruential generator. It isn't secret, and the same state gives the same words.
#[derive(Clone, Copy, Debug, PartialEq, Eq)]
pub struct Lcg {
    pub state: u64,
}

impl Lcg {
    /// Goes on to the next state, and gives it.
    pub fn next(&mut self) -> u64
        ensures state { self.new.state ≡ next_state self.old.state }
        ensures given { result ≡ self.new.state }
    {
        self.state = self
            .state
            .wrapping_mul(6_364_136_223_846_793_005)
            .wrapping_add(1_442_695_040_888_963_407);
        self.state
    }
}
