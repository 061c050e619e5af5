//! Positions of the plant as numbers of the picture.

ghost use Rattle.std.specs.Prelude.{◌≡◌};
ghost use Rattle.cell_picture.specs.Ramps as ramps;

/// The positions over which a ramp rises once.
const RUN: i32 = 500;

/// A number of the picture that follows a position of the plant.
#[derive(Clone, Copy)]
pub(crate) struct Ramp {
    /// The number at position 0.
    pub base: i32,
    /// What is added to it by position 500.
    pub rise: i32,
}

impl Ramp {
    /// The number at a position, rounded towards the base.
    #[tactic(auto, unfolding(crate::specs::Ramps::ramp_at))]
    pub(crate) fn at(self, position: i32) -> i32
        ensures { result ≡ ramps.ramp_at self position }
    {
        let risen = position.saturating_mul(self.rise) / RUN;
        self.base.saturating_add(risen)
    }
}
