//! Why a pose or an advance is refused.
ghost use Rattle.std.specs.Prelude.{◌≡◌};
ghost use Rattle.cell_rules.specs.Refusals as refusals;

use crate::sound::is_onto_full;
use crate::state::State;
use cell_types::{
    Machine, Place, Pose, Posture, Refusal, Zone, host, own_move, posture_in, transfer,
};

/// Whether a machine has a pose: it gives some zone a posture.
fn has_pose(machine: Machine, pose: Pose) -> bool
    ensures { result ≡ refusals.has_pose machine pose }
{
    Zone::ALL
        .iter()
        .any(|zone| posture_in(machine, pose, *zone).is_some())
}

fn is_moving_pose(pose: Pose) -> bool
    ensures { result ≡ refusals.is_moving_pose pose }
{
    matches!(pose, Pose::Turning | Pose::Travelling | Pose::Running)
}

fn passes_through_moving(machine: Machine) -> bool
    ensures { result ≡ refusals.passes_through_moving machine }
{
    matches!(machine, Machine::Table | Machine::Press)
}

fn has_no_work(machine: Machine) -> Option<Refusal>
    ensures { result ≡ refusals.has_no_work machine }
{
    own_move(machine).is_none().then_some(Refusal::NoPose)
}

impl State {
    fn posture_with(&self, machine: Machine, pose: Pose, zone: Zone) -> Posture
        ensures { result ≡ refusals.posture_with self.now machine pose zone }
    {
        posture_in(machine, pose, zone).unwrap_or(self.posture(zone))
    }

    fn is_concerned(&self, machine: Machine, pose: Pose, zone: Zone) -> bool
        ensures { result ≡ refusals.is_concerned self.now machine pose zone }
    {
        host(zone) == machine
            && (is_moving_pose(pose)
                || self.posture_with(machine, pose, zone) != self.posture(zone))
    }

    fn moves_while_stopped(&self, pose: Pose) -> Option<Refusal>
        ensures { result ≡ refusals.moves_while_stopped self.now pose }
    {
        (is_moving_pose(pose) && self.stopped()).then_some(Refusal::Stopped)
    }

    fn unowned_by_pose(&self, machine: Machine, pose: Pose, zone: Zone) -> Option<Refusal>
        ensures { result ≡ refusals.unowned_by_pose self.now machine pose zone }
    {
        (self.is_concerned(machine, pose, zone) && !self.owns(machine, zone)).then_some(
            Refusal::NotOwner(self.owner(zone)),
        )
    }

    fn any_unowned_by_pose(&self, machine: Machine, pose: Pose) -> Option<Refusal>
        ensures { result ≡ refusals.first_zone (refusals.unowned_by_pose self.now machine pose) }
    {
        self.unowned_by_pose(machine, pose, Zone::Z1)
            .or(self.unowned_by_pose(machine, pose, Zone::Z2))
            .or(self.unowned_by_pose(machine, pose, Zone::Z3))
            .or(self.unowned_by_pose(machine, pose, Zone::Z4))
            .or(self.unowned_by_pose(machine, pose, Zone::Z5))
            .or(self.unowned_by_pose(machine, pose, Zone::Z6))
    }

    fn plate_under_pose(&self, machine: Machine, pose: Pose, zone: Zone) -> Option<Refusal>
        ensures { result ≡ refusals.plate_under_pose self.now machine pose zone }
    {
        (self.is_concerned(machine, pose, zone) && self.flag(zone)).then_some(Refusal::PlateInZone(
            zone,
        ))
    }

    fn any_plate_under_pose(&self, machine: Machine, pose: Pose) -> Option<Refusal>
        ensures { result ≡ refusals.first_zone (refusals.plate_under_pose self.now machine pose) }
    {
        self.plate_under_pose(machine, pose, Zone::Z1)
            .or(self.plate_under_pose(machine, pose, Zone::Z2))
            .or(self.plate_under_pose(machine, pose, Zone::Z3))
            .or(self.plate_under_pose(machine, pose, Zone::Z4))
            .or(self.plate_under_pose(machine, pose, Zone::Z5))
            .or(self.plate_under_pose(machine, pose, Zone::Z6))
    }

    fn moves_at(&self, machine: Machine, zone: Zone) -> bool
        ensures { result ≡ refusals.moves_at self.now machine zone }
    {
        host(zone) != machine || self.is_moving(zone)
    }

    fn all_move(&self, machine: Machine) -> bool
        ensures { result ≡ refusals.all_move self.now machine }
    {
        Zone::ALL.iter().all(|zone| self.moves_at(machine, *zone))
    }

    fn jump(&self, machine: Machine, pose: Pose) -> Option<Refusal>
        ensures { result ≡ refusals.jump self.now machine pose }
    {
        (passes_through_moving(machine)
            && !is_moving_pose(pose)
            && !self.all_move(machine)).then_some(Refusal::Jump)
    }

    fn is_blocked(&self, zone: Zone) -> bool
        ensures { result ≡ refusals.is_blocked self.now zone }
    {
        match zone {
            Zone::Z3 => self.is_full(Place::PressIn) || self.is_full(Place::PressOut),
            _ => is_onto_full(&self.full(), transfer(zone, Posture::OpenIn)),
        }
    }

    fn opens_onto_plate(&self, machine: Machine, pose: Pose, zone: Zone) -> Option<Refusal>
        ensures { result ≡ refusals.opens_onto_plate self.now machine pose zone }
    {
        let opens = self.posture_with(machine, pose, zone) == Posture::OpenIn
            && self.posture(zone) != Posture::OpenIn;
        (opens && self.is_blocked(zone)).then_some(Refusal::PlaceFull)
    }

    fn any_opens_onto_plate(&self, machine: Machine, pose: Pose) -> Option<Refusal>
        ensures { result ≡ refusals.first_zone (refusals.opens_onto_plate self.now machine pose) }
    {
        self.opens_onto_plate(machine, pose, Zone::Z1)
            .or(self.opens_onto_plate(machine, pose, Zone::Z2))
            .or(self.opens_onto_plate(machine, pose, Zone::Z3))
            .or(self.opens_onto_plate(machine, pose, Zone::Z4))
            .or(self.opens_onto_plate(machine, pose, Zone::Z5))
            .or(self.opens_onto_plate(machine, pose, Zone::Z6))
    }

    fn runs_onto_plate(&self, machine: Machine, pose: Pose) -> Option<Refusal>
        ensures { result ≡ refusals.runs_onto_plate self.now machine pose }
    {
        let is_deposit_full = machine == Machine::Deposit && self.is_full(Place::DepEnd);
        let is_feed_full = machine == Machine::Feed
            && self.is_full(Place::FeedEnd)
            && !self.owns(Machine::Feed, Zone::Z1);
        (pose == Pose::Running && (is_deposit_full || is_feed_full)).then_some(Refusal::PlaceFull)
    }

    pub(crate) fn pose_refusal(&self, machine: Machine, pose: Pose) -> Option<Refusal>
        ensures { result ≡ refusals.pose_refusal self.now machine pose }
    {
        if !has_pose(machine, pose) {
            return Some(Refusal::NoPose);
        }
        self.moves_while_stopped(pose)
            .or(self.any_unowned_by_pose(machine, pose))
            .or(self.any_plate_under_pose(machine, pose))
            .or(self.jump(machine, pose))
            .or(self.any_opens_onto_plate(machine, pose))
            .or(self.runs_onto_plate(machine, pose))
            .or(self.worn_refusal())
    }

    fn press_unowned(&self, machine: Machine) -> Option<Refusal>
        ensures { result ≡ refusals.press_unowned self.now machine }
    {
        (machine == Machine::Press && !self.owns(Machine::Press, Zone::Z3)).then_some(
            Refusal::NotOwner(self.owner(Zone::Z3)),
        )
    }

    fn is_at_work(&self, machine: Machine) -> bool
        ensures { result ≡ refusals.is_at_work self.now machine }
    {
        match machine {
            Machine::Feed => self.is_moving(Zone::Z6),
            Machine::Deposit => self.is_moving(Zone::Z4) && self.is_moving(Zone::Z5),
            Machine::Press => self.posture(Zone::Z3) == Posture::Closed,
            _ => false,
        }
    }

    fn nothing_to_work(&self, way: Option<(Place, Place)>) -> Option<Refusal>
        ensures { result ≡ refusals.nothing_to_work self.now way }
    {
        match way {
            Some((from, _)) => (!self.is_full(from)).then_some(Refusal::NoPlate),
            None => None,
        }
    }

    fn no_room_for_work(&self, way: Option<(Place, Place)>) -> Option<Refusal>
        ensures { result ≡ refusals.no_room_for_work self.now way }
    {
        match way {
            Some((_, to)) => self.is_full(to).then_some(Refusal::PlaceFull),
            None => None,
        }
    }

    fn not_at_work(&self, machine: Machine) -> Option<Refusal>
        ensures { result ≡ refusals.not_at_work self.now machine }
    {
        (!self.is_at_work(machine)).then_some(Refusal::NotAtWork)
    }

    pub(crate) fn advance_refusal(&self, machine: Machine) -> Option<Refusal>
        ensures { result ≡ refusals.advance_refusal self.now machine }
    {
        has_no_work(machine)
            .or(self.press_unowned(machine))
            .or(self.not_at_work(machine))
            .or(self.nothing_to_work(own_move(machine)))
            .or(self.no_room_for_work(own_move(machine)))
            .or(self.worn_refusal())
    }
}
