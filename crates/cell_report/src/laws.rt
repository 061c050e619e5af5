//! Laws of audits and reports, each the contract of a function that does nothing.

ghost use Rattle.std.specs.Prelude.{◌≡◌, ◌≢◌, List, Option};
ghost use Rattle.cell_rules.specs.Types.{Entry, Machine};
ghost use Rattle.cell_rules.specs.ModelState.{ModelState};
ghost use Rattle.cell_report.specs.declared.audit_faults.AuditFault.{AuditFault};
ghost use Rattle.cell_report.specs.declared.audit_faults.AuditFault.TheVariants.{Memory};
ghost use Rattle.cell_report.specs.declared.ordered.Noted.{Noted};
ghost use Rattle.cell_report.specs.AuditFaults.{IsFault};
ghost use Rattle.cell_report.specs.Order.{InOrder};
ghost use Rattle.cell_report.specs.AuditExamples.{FaultExamples, OrderExamples};
ghost use Rattle.cell_report.specs.AuditLaws.{FaultIsOne, OrderIsOne};
ghost use Rattle.cell_report.specs.LinesByNumber.{LinesByNumber};
ghost use Rattle.cell_report.specs.ReportExamples.{ReportsAreMet};
ghost use Rattle.cell_report.specs.StampExamples.{StampExamples};

/// The journals alone decide an audit: their entries have only one order, and they have at most one
/// fault, `Memory` apart.
#[tactic(auto, using(crate::proofs::OneFault::fault_is_one))]
pub fn audits_are_one()
    ensures order { OrderIsOne }
    ensures fault { FaultIsOne }
    ensures one_order { (all one other : List Noted) →
        InOrder all one → InOrder all other → one ≡ other }
    ensures one_fault { (start : ModelState) (journals : Machine → List Entry)
        (end : Option ModelState) (one other : AuditFault) →
        IsFault start journals end one → IsFault start journals end other →
        one ≢ Memory → other ≢ Memory → one ≡ other }
{}

/// Examples: journals of a few entries, their order, and why an audit refuses them: the least of
/// several stamps, and the first of several causes; the figures of their entries, and which of them fit.
#[tactic(auto, using(crate::proofs::StampRows::audit_rows))]
pub fn audits_are_met()
    ensures order { OrderExamples }
    ensures fault { FaultExamples }
    ensures stamps { StampExamples }
{}

/// The lines of a report, whatever their numbers, words and machines are, and the order of the lines.
#[tactic(auto, using(crate::proofs::NumberLines::lines_by_number))]
pub fn lines_by_number()
    ensures { LinesByNumber }
{}

/// Examples: runs with their whole reports, two with an end, of which one is stopped, and one
/// without, and the line of each audit.
#[tactic(auto, using(crate::proofs::ReportRows::reports_are_met))]
pub fn reports_are_met()
    ensures { ReportsAreMet }
{}
