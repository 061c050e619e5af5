//! Literal histories of five plants, and literal refusals.
ghost use Rattle.plan_rules.specs.Examples.{ExamplesAreLegal};
ghost use Rattle.plan_rules.specs.OrderExamples.{OrdersAreMet};
ghost use Rattle.plan_rules.specs.CauseExamples.{CausesAreMet};
ghost use Rattle.plan_rules.specs.StateExamples.{StatesAreMet};
ghost use Rattle.plan_rules.specs.EventExamples.{EventsAreMet};
ghost use Rattle.plan_rules.specs.HoldingExamples.{HoldingIsMet};
ghost use Rattle.plan_rules.specs.PartExamples.{PartsAreMet};
ghost use Rattle.plan_rules.specs.AdvanceExamples.{AdvancesAreMet};
ghost use Rattle.plan_rules.specs.SpaceExamples.{RobotsAreMet};

/// Histories of a press, of a lift, of two doors, of two presses and of two gates, written out, are legal: each refusal
/// stands in one of them, and each call but `Advance` is done in one. The pose that moves one door leaves the other
/// alone, and wants it all the same; one that opens a door, or a press, wants no other zone. A pose that wants both
/// gates is refused by the first.
pub fn examples_are_legal()
    ensures { ExamplesAreLegal }
{}

/// Where two causes of a refusal are there, the answer is the one that comes first in the call's order.
pub fn orders_are_met()
    ensures { OrdersAreMet }
{}

/// In literal states each call has these causes to be refused and no others, with whatever they name: an owner, a
/// posture, a zone. And the orders of the causes, by name.
pub fn causes_are_met()
    ensures { CausesAreMet }
{}

/// What literal states say of a zone, of a place, and of plates; the whole state that each call leaves; states that
/// are sound, or aren't, by each rule; and states that are no start. And each part of a refusal, of a cause and of a
/// change by itself, by a lift.
pub fn states_are_met()
    ensures states { StatesAreMet }
    ensures parts { PartsAreMet }
{}

/// Who gains and loses a zone by literal events, what stops and resumes, and the postures that events give. A history
/// with a wrong answer isn't legal, be it the first or a later one, a wrong kind or a wrong posture. And who holds a
/// zone after literal events, and after which the plant is stopped.
pub fn events_are_met()
    ensures events { EventsAreMet }
    ensures holding { HoldingIsMet }
{}

/// What advances are answered in literal states of two presses with sources and sinks, and of one without; what they
/// leave; the order of their refusals, and each cause. Literal histories, in which plates come and go, are counted; and
/// some that aren't legal break the laws of advances.
pub fn advances_are_met()
    ensures { AdvancesAreMet }
{}

/// A press with two robots: claims, handovers to the right robot, and refusals. A zone has the owner of its space, and
/// a plate bars its whole space. And literal states that break the rules of spaces.
pub fn robots_are_met()
    ensures { RobotsAreMet }
{}
