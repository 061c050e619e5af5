//! The calls of the interlock.

/// What a machine asks of the interlock, about a zone or a pose by its number.
#[derive(Clone, Copy, Debug, PartialEq, Eq)]
pub enum Call {
    /// To own a zone.
    Claim(u8),
    /// To hand a zone over to its other party, with a plate.
    Give(u8),
    /// To hand a zone over to its other party, without a plate.
    Yield(u8),
    /// To take the plate that came with a zone.
    Take(u8),
    /// To leave a zone.
    Release(u8),
    /// To give the zones that the caller hosts the postures of a pose.
    SetPose(u8),
    /// To be shown a zone.
    Inquire(u8),
    /// To bar new claims, handovers of plates, movements and advances.
    Stop,
    /// To let them go on.
    Resume,
    /// To let a plate come from outside to an own place that is a source, or one go outside from a sink.
    Advance(u8),
}
