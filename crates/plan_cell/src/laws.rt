//! Laws of the cell and its plan, each the contract of a function that does nothing.
ghost use Rattle.std.specs.Prelude.{◌≡◌};
ghost use Rattle.plan_types.specs.Plan.{IsPlan};
ghost use Rattle.plan_rules.specs.declared.state.State.{State};
ghost use Rattle.plan_cell.specs.CellPlan.{cell_table};
ghost use Rattle.plan_cell.specs.Laws.{CellRefusesMore, RefusesByItsOwnRules, OwnRulesRefuse};
ghost use Rattle.plan_cell.specs.Laws.{AdvanceAloneIsMissing, InquiriesAreAlike, SoundByPlan};
ghost use Rattle.plan_cell.specs.OwnRuleExamples.{OwnRuleExamples};
ghost use Rattle.plan_cell.specs.OwnRuleLaws.{OwnRulesAreThese};
ghost use Rattle.plan_cell.specs.LawExamples.{LawExamples, InquiriesTell, NumbersAreRight};
ghost use Rattle.plan_cell.specs.TableExamples.{TableExamples};
ghost use Rattle.plan_cell.specs.LawRows.{LawRows};
ghost use Rattle.plan_cell.specs.LastStamp.{LastStampTells};

/// The tables of the cell are a plan.
pub fn cell_is_plan()
    ensures { IsPlan cell_table }
{}

/// Whatever call by its plan the cell answers Done the plan answers Done too, and both leave the same state: the cell
/// only refuses more. The cell's `Advance`, of a belt, is no call by its plan.
pub fn cell_refuses_more()
    ensures { CellRefusesMore }
{}

/// What the plan does and the cell refuses, the cell refuses by one of three rules that its plan hasn't: feed stays in
/// z1 while its belt holds a plate back (`InUse`); no belt runs with a plate at its end, but feed's while feed owns z1;
/// and the press doesn't open for loading onto a forged plate (`PlaceFull`).
pub fn cell_refuses_by_its_own_rules()
    ensures { RefusesByItsOwnRules }
{}

/// The cell's own rules, one by one: by which machine, in which call, with which refusal and in which states. There are
/// these and no others, and what the plan does and the cell refuses, the cell refuses by one of them.
pub fn own_rules_are_these()
    ensures { OwnRulesAreThese }
{}

/// Where one of these rules holds, the cell doesn't do the call.
pub fn own_rules_refuse()
    ensures { OwnRulesRefuse }
{}

/// In an empty cell none of these rules holds, and a refusal by the plan's rules is none by the cell's own.
pub fn own_rule_examples_are_right()
    ensures { OwnRuleExamples }
{}

/// Each call of the cell but `Advance` is a call by its plan.
pub fn advance_alone_is_missing()
    ensures { AdvanceAloneIsMissing }
{}

/// An inquiry, as a call by the plan, shows the same zone there as in the cell.
pub fn inquiries_are_alike()
    ensures { InquiriesAreAlike }
{}

/// A sound state of the cell is sound by its plan.
pub fn sound_by_plan()
    ensures { SoundByPlan }
{}

/// What these laws say of literal calls, whatever answers them; answers to inquiries that they don't allow; the numbers
/// of names; and the plan of the cell, row by row.
pub fn law_examples_are_right()
    ensures laws { LawExamples }
    ensures inquiries { InquiriesTell }
    ensures numbers { NumbersAreRight }
    ensures tables { TableExamples }
{}

/// What each of these laws says of the cell's plan, of any state, of literal ones that are stopped and of such with the
/// last stamp. And what the laws of refusals of `plan_rules` say of it with the last stamp.
pub fn each_law_is_said()
    ensures rows { LawRows }
    ensures stamps { (s : State) (last : s.stamp ≡ 1048575) → LastStampTells s last }
{}
