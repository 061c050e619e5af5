//! Laws of all tables, each the contract of a function that does nothing.
ghost use Rattle.std.specs.Prelude.{ℕ};
ghost use Rattle.plan_types.specs.FaultLaws.{FaultsAreTrue, FirstFaultsAreTold};
ghost use Rattle.plan_types.specs.Table.{PlanTable};
ghost use Rattle.plan_types.specs.TableLaws.{RowsByNumber, TransfersByRow, PosesByZone, PlansKeepRules, RightsByRow};
ghost use Rattle.plan_types.specs.TableLaws.{ShapesByRow, SpacesByRow};

/// In all tables a row's number is how many rows come before it; past the end stands a row that says nothing.
pub fn rows_by_number()
    ensures { RowsByNumber }
{}

/// In all tables a plate goes through a zone by the zone's row: inward, from guest to host, while the zone is OpenIn;
/// outward, from host to guest, while it is OpenOut; and by no other way.
pub fn transfers_by_row()
    ensures { TransfersByRow }
{}

/// In all tables a pose moves exactly if it gives some zone Moving.
pub fn poses_by_zone()
    ensures { PosesByZone }
{}

/// In all tables who hosts a zone, is its party, keeps a place or has a pose is whom the row of this number names.
pub fn rights_by_row()
    ensures { (t : PlanTable) (m : ℕ) → RightsByRow t m }
{}

/// In all tables a zone has a flag in the word unless no plate has a way through it, and a posture counts for its bits
/// exactly if some pose gives it.
pub fn shapes_by_row()
    ensures { (t : PlanTable) (z : ℕ) → ShapesByRow t z }
{}

/// In all tables a zone that doesn't join is the first of its space, and one that does is of the space before it. Where
/// no zone joins, each has two bits for its owner.
pub fn spaces_by_row()
    ensures { (t : PlanTable) (z : ℕ) → SpacesByRow t z }
{}

/// A fault that is found in tables is there, at the place, zone or pose that it names.
pub fn faults_are_true()
    ensures { FaultsAreTrue }
{}

/// No fault that comes before the one that is found is in the tables. First come the counts and the width, then the
/// places, the zones and the poses by their numbers; of a pose first its machine, then the zones by their numbers; and
/// last the spaces.
pub fn first_faults_are_told()
    ensures { FirstFaultsAreTold }
{}

/// Plans are the tables that keep the rules, said again on the rows themselves, and no others.
pub fn plans_keep_rules()
    ensures { PlansKeepRules }
{}
