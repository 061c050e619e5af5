//! The calls, with their words, for scripts and for every interlock.
ghost use Rattle.std.specs.Prelude.{◌≡◌, ◌↔◌, ◌∷◌, [], Some, option_map};
ghost use Rattle.cell_types.specs.CallWords.{call_fields, object_of, verb_of, with_object};

use crate::pose::Pose;
use crate::words::{Worded, find_by_word};
use crate::zone::Zone;
use std::fmt;

/// What a machine asks of the interlock.
#[derive(Clone, Copy, Debug, PartialEq, Eq)]
pub enum Call {
    /// To own a zone.
    Claim(Zone),
    /// To hand a zone over to its other party, with a plate.
    Give(Zone),
    /// To hand a zone over to its other party, without a plate.
    Yield(Zone),
    /// To take the plate that came with a zone.
    Take(Zone),
    /// To leave a zone.
    Release(Zone),
    /// To give the zones that the caller hosts the postures of a pose.
    SetPose(Pose),
    /// To move the plate on: along a belt, or from loaded to forged.
    Advance,
    /// To be shown a zone.
    Inquire(Zone),
    /// To bar new claims, handovers of plates and movements.
    Stop,
    /// To let them go on.
    Resume,
}

impl Call {
    /// The call's verb in scripts.
    pub fn verb(self) -> &'static str
        ensures { result.now ≡ verb_of self }
    {
        match self {
            Call::Claim(_) => "claim",
            Call::Give(_) => "give",
            Call::Yield(_) => "yield",
            Call::Take(_) => "take",
            Call::Release(_) => "release",
            Call::SetPose(_) => "pose",
            Call::Advance => "advance",
            Call::Inquire(_) => "inquire",
            Call::Stop => "stop",
            Call::Resume => "resume",
        }
    }

    // The word of the zone or the pose that the call names.
    fn object_word(self) -> Option<&'static str>
        ensures { option_map (λ s. s.now) result ≡ object_of self }
    {
        match self {
            Call::Advance | Call::Stop | Call::Resume => None,
            Call::SetPose(pose) => Some(pose.word()),
            Call::Claim(zone)
            | Call::Give(zone)
            | Call::Yield(zone)
            | Call::Take(zone)
            | Call::Release(zone)
            | Call::Inquire(zone) => Some(zone.word()),
        }
    }

    /// The call that a verb and the field after it spell; `None` if they spell none.
    pub fn read(verb: &[u8], object: Option<&[u8]>) -> Option<Call>
        ensures { (call : Call) → (result ≡ Some call)
            ↔ (with_object verb.now (option_map (λ s. s.now) object.entry) ≡ call_fields call) }
    {
        match object {
            None if verb == b"advance".as_slice() => Some(Call::Advance),
            None if verb == b"stop".as_slice() => Some(Call::Stop),
            None if verb == b"resume".as_slice() => Some(Call::Resume),
            None => None,
            Some(object) => read_with(verb, object),
        }
    }
}

fn read_with(verb: &[u8], object: &[u8]) -> Option<Call>
    ensures { (call : Call)
        → (result ≡ Some call) ↔ (verb.now ∷ object.now ∷ [] ≡ call_fields call) }
{
    if verb == b"pose".as_slice() {
        return Pose::read(object).map(Call::SetPose);
    }
    let zone = Zone::read(object)?;
    let calls = [
        Call::Claim(zone),
        Call::Give(zone),
        Call::Yield(zone),
        Call::Take(zone),
        Call::Release(zone),
        Call::Inquire(zone),
    ];
    find_by_word(&calls, verb)
}

impl Worded for Call {
    ghost use Rattle.cell_types.specs.CallWords.{verb_of};

    ghost word_of = { λ call. verb_of call };

    fn own_word(self) -> &'static str {
        self.verb()
    }
}

impl fmt::Display for Call {
    ghost use Rattle.cell_types.specs.CallWords.{call_text};

    ghost output = { λ call. Some (call_text call) };

    fn fmt<W: fmt::Write>(&self, f: &mut fmt::Formatter<W>) -> fmt::Result {
        let verb = self.verb();
        match self.object_word() {
            Some(object) => write!(f, "{verb} {object}"),
            None => f.write_str(verb),
        }
    }
}
