//! What a controller moves: a part of the plant with its sensors.

use cell_types::Event;

/// The part of the plant that a machine's controller moves, with its sensors.
///
/// Its behaviour is in `rig`.
pub trait Part: Drop {
    ghost use Rattle.std.specs.Prelude.{◌≡◌};
    ghost use Rattle.cell_control.specs.Rigs.{Rig};

    /// What the sensors show.
    type Sense: Copy;

    /// The commands to the actuators.
    type Act: Copy;

    // What is known of it: its position, and its last commands.
    ghost State: { Type 0 };

    // What never changes of it, such as the scale of a potentiometer.
    ghost Make: { Type 0 };

    ghost rig: { Make → Rig State Self.Sense Self.Act };

    ghost make: { Self → Make };

    ghost state: { Self → State };

    /// What its sensors show.
    fn sensors(&self) -> Self::Sense
        ensures { (rig (make self.now)).shows (state self.now) result };

    /// Notes an event: a belt, for example, notes that it was given a plate.
    fn note(&mut self, event: &Event)
        ensures state { state self.new ≡ (rig (make self.old)).notes (state self.old) event.now }
        ensures make { make self.new ≡ make self.old };

    /// Sets its actuators, and moves for a tick.
    fn tick(&mut self, act: &Self::Act)
        ensures state { state self.new ≡ (rig (make self.old)).moves
            ((rig (make self.old)).set (state self.old) act.now) }
        ensures make { make self.new ≡ make self.old };
}

/// Whatever shows a machine's sensors: its part, or values that were read elsewhere. A step that asks
/// reads them only for their check, so the compiler can leave out what the check doesn't need.
pub trait Sensors {
    /// What the sensors show.
    type Sense: Copy;

    // What they may show.
    ghost shows: { Self → Self.Sense → Type 0 };

    /// Reads the sensors.
    fn read(&self) -> Self::Sense
        ensures { shows self.now result };
}

/// Values of sensors that were read elsewhere.
#[derive(Clone, Copy)]
pub struct Values<S: Copy> {
    /// What the sensors showed.
    pub sense: S,
}

impl<S: Copy> Sensors for Values<S> {
    ghost use Rattle.std.specs.Prelude.{◌≡◌};

    type Sense = S;

    ghost shows = { λ values sense. sense ≡ values.sense };

    fn read(&self) -> S {
        self.sense
    }
}

/// The sensors of a part.
#[derive(Drop)]
pub struct PartSensors<'a, B: Part> {
    /// The part.
    pub part: &'a B,
}

impl<B: Part> Sensors for PartSensors<'_, B> {
    type Sense = B::Sense;

    ghost shows = { λ s sense. (B.rig (B.make s.part.now)).shows (B.state s.part.now) sense };

    fn read(&self) -> B::Sense {
        self.part.sensors()
    }
}
