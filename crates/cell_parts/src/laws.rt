//! Laws of each state of the plant. Each is a function that does nothing: its contract is the law.
ghost use Rattle.std.specs.Prelude.{◌≡◌, true};
ghost use Rattle.cell_rules.specs.Types.{Machine, Zone, host_of};
ghost use Rattle.cell_rules.specs.Names.{IsSound, ModelState, RunsClear, is_open, owns, posture_at};
ghost use Rattle.cell_parts.specs.declared.plant.PlantState.{PlantState};
ghost use Rattle.cell_parts.specs.AtWork.{DemandsCanBeMet};
ghost use Rattle.cell_parts.specs.Bounds.{BoundsAreMet};
ghost use Rattle.cell_parts.specs.Collisions.{NothingCollides};
ghost use Rattle.cell_parts.specs.MotorDemands.{DrivesIn, GripperErrand, MotorDemands, Rests};
ghost use Rattle.cell_parts.specs.MotorDemands.{RotatesRetracted, TravelsHigh};
ghost use Rattle.cell_parts.specs.PositionDemands.{EndPlatesStand, PositionDemands};
ghost use Rattle.cell_parts.specs.Laws.{DemandsPreventCollisions, MotorDemandsKeepApart};

/// Nothing collides in a state of interlock and plant, however it arose, if the interlock is sound,
/// its belts run clear, positions and motors have what they demand, the crane travels only with its
/// gripper up, and the robot rotates only with its arms in.
pub fn nothing_collides()
    ensures law { DemandsPreventCollisions }
    ensures by_demands { (errand : GripperErrand) (s : ModelState) (p : PlantState) →
        IsSound s → RunsClear s → PositionDemands s p → MotorDemands errand s p →
        TravelsHigh p.crane → RotatesRetracted p.robot → NothingCollides p }
{}

/// Motors that have what they demand keep the machines apart, where plates are at the belts' ends
/// exactly if those places are full. A machine rests while a zone that it hosts is open, a machine
/// that drives in a zone holds it, and two machines never drive in the same zone.
pub fn machines_keep_apart()
    ensures law { MotorDemandsKeepApart }
    ensures by_demands { (errand : GripperErrand) (s : ModelState) (p : PlantState) →
        EndPlatesStand s p → MotorDemands errand s p →
        ((z : Zone) → is_open (posture_at s z) ≡ true → Rests p (host_of z)) ×
        ((m : Machine) (z : Zone) → DrivesIn errand p m z → owns s m z ≡ true) ×
        ((m n : Machine) (z : Zone) → DrivesIn errand p m z → DrivesIn errand p n z → m ≡ n) }
{}

/// All demands can be met at once while every machine moves, and while feed, the second arm and the
/// crane work as guests. Machines don't keep apart where the press works in an open zone, or an arm
/// in one that isn't the robot's.
pub fn demands_can_be_met()
    ensures { DemandsCanBeMet }
{}

/// The plant in numbers: collisions, the demands of positions and motors, switches and light
/// barriers, each for all positions and motors of its parts. Also the ends of the axes, the zone
/// and posture of each demand, how each part obeys its commands, moves, shows and notes, and its
/// start. The scales of its axes, and the ends within which they stay.
pub fn bounds_are_met()
    ensures { BoundsAreMet }
{}
