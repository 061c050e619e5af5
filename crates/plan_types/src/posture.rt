//! The postures of zones.

/// The posture of a zone, which its host sets.
#[derive(Clone, Copy, Debug, PartialEq, Eq)]
pub enum Posture {
    /// The guest may not enter, and nothing moves.
    Closed,
    /// The host moves in it.
    Moving,
    /// Open for a plate of the guest.
    OpenIn,
    /// Open for a plate of the host.
    OpenOut,
}
