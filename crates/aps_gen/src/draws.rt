//! Numbers that look random, drawn one after the other.
ghost use Rattle.std.specs.Prelude.{◌≡◌, ◌<◌};
ghost use Rattle.aps_gen.specs.Draws.{next, drawn};

/// The state of a linear congruential generator of 64 bits.
#[derive(Drop)]
pub struct Draws {
    pub state: u64,
}

impl Draws {
    /// A number below `n`. The state takes one step first, and its upper bits give the number.
    pub fn draw(&mut self, n: u64) -> u64
        requires { 0 < n }
        ensures step { self.new.state ≡ next self.old.state }
        ensures value { result ≡ drawn n self.new.state }
        ensures below { result < n }
    {
        self.state = self
            .state
            .wrapping_mul(6_364_136_223_846_793_005)
            .wrapping_add(1_442_695_040_888_963_407);
        (self.state >> 33) % n
    }
}
