//! Pictures of plans and of plants, as SVG: machines, their places and motors, the zones between them, and the hazards.
ghost use Rattle.std.specs.Prelude.{◌≡◌, ◌≤◌, ◌++◌, IfOk, OnOk, flat_map, length, string_bytes};
ghost use Rattle.std.specs.List.{AllZip, range_with_len};
ghost use Rattle.plan_picture.specs.Pictures as spec;
ghost use Rattle.plan_picture.specs.Pictures.{IsPicture};
ghost use Rattle.plan_picture.specs.Scenes.{plant_scene, scene};

use crate::elements::{Spot, push_box, push_circle, push_label, push_level};
use crate::findings::{Finding, findings_of};
use crate::hazards::push_hazards;
use crate::positions::{
    height, lane, lane_height, lanes_end, motor_thing, place_thing, row, sink_line, source_line,
    width,
};
use crate::shown::{Shown, owners_of};
use crate::zones::push_words;
use plan_document::ProgrammedPlan;
use std::alloc::{AllocError, Global};
use std::slice;

/// How each class looks, and the marks at the ends of lines.
const STYLE: &str = "\
<style>
text { fill: #222222; }
.paper { fill: #ffffff; }
.lane { fill: #f0f0f0; }
.machine { fill: #ffffff; stroke: #222222; }
.name, text.zone, text.hazard { font-weight: bold; }
line.zone { stroke: #222222; stroke-width: 2; }
.host { fill: #222222; }
.guest { fill: #ffffff; stroke: #222222; stroke-width: 2; }
.way { stroke: #1450a0; stroke-width: 2; marker-start: url(#from); marker-end: url(#to); }
circle.place { fill: #ffffff; stroke: #1450a0; stroke-width: 2; }
.source, .sink { stroke: #1450a0; stroke-width: 2; marker-end: url(#to); }
text.place, .end { fill: #1450a0; }
circle.motor, text.motor, .danger, text.hazard, .unkept { fill: #b01818; }
line.hazard { stroke: #b01818; stroke-width: 2; stroke-dasharray: 6 4; }
line.hazard { marker-start: url(#danger); marker-end: url(#danger); }
.kept { fill: #106030; }
.unkept { font-weight: bold; }
</style>
<defs>
<marker id=\"from\" viewBox=\"0 0 10 10\" refX=\"5\" refY=\"5\" markerWidth=\"3\" markerHeight=\"3\">
<circle cx=\"5\" cy=\"5\" r=\"5\" fill=\"#1450a0\"/></marker>
<marker id=\"to\" viewBox=\"0 0 10 10\" refX=\"9\" refY=\"5\" markerWidth=\"5\" markerHeight=\"5\" orient=\"auto\">
<path d=\"M0 0L10 5L0 10z\" fill=\"#1450a0\"/></marker>
<marker id=\"danger\" viewBox=\"0 0 10 10\" refX=\"5\" refY=\"5\" markerWidth=\"5\" markerHeight=\"5\">
<circle cx=\"5\" cy=\"5\" r=\"5\" fill=\"#b01818\"/></marker>
</defs>
";

/// How words look, in the picture of a plant.
const WORDS_STYLE: &str = "\
<style>
line.word { stroke: #888888; stroke-width: 3; }
text.word { fill: #666666; }
</style>
";

/// What the marks of lanes mean.
const FIRST: &str = "Box: machine. Rings: places, arrows from or to outside. Dots: motors.";

/// What the marks of zones mean.
const SECOND: &str = "A column is a zone: host (square), guest (ring), ways of plates.";

/// What the marks of hazards mean.
const THIRD: &str = "Dashed: motors that are never to run both, and what keeps them apart.";

/// What the numbers of words mean, in the picture of a plant.
const FOURTH: &str = "A grey line begins the columns of a word, whose number they have.";

/// The picture of a plan. An error says that memory ran out.
pub fn picture_of(alloc: Global, plan: &ProgrammedPlan) -> Result<String, AllocError>
    ensures { IfOk result (λ text. IsPicture plan.now (string_bytes text)) }
{
    let found = findings_of(alloc, plan)?;
    picture_by(alloc, plan, found.as_slice())
}

/// The picture of a plan, by what is said of its hazards.
fn picture_by(alloc: Global, plan: &ProgrammedPlan, found: &[Finding]) -> Result<String, AllocError>
    ensures { IfOk result (λ text. string_bytes text
        ≡ spec.picture_text (scene plan.now) found.now) }
{
    let plans = slice::from_ref(plan);
    let owners = owners_of(alloc, &plan.motors, plans)?;
    picture_with(
        alloc,
        &Shown::of_plan(plan, plans, owners.as_slice()),
        found,
    )
}

/// The picture of a plant, by the plans of its words, with what is said of each hazard; nothing of a plant without
/// words. An error says that memory ran out.
pub fn plant_picture_of(
    alloc: Global,
    plans: &[ProgrammedPlan],
    found: &[Finding],
) -> Result<String, AllocError>
    requires { length plans.now ≤ 16 }
    ensures { IfOk result (λ text. string_bytes text
        ≡ spec.plant_picture_text plans.now found.now) }
{
    match plans.get(0) {
        Some(first) => plant_picture_by(alloc, first, plans, found),
        None => Ok(String::new(alloc)),
    }
}

/// The picture of a plant that has a first word.
fn plant_picture_by(
    alloc: Global,
    first: &ProgrammedPlan,
    plans: &[ProgrammedPlan],
    found: &[Finding],
) -> Result<String, AllocError>
    requires { length plans.now ≤ 16 }
    ensures { IfOk result (λ text. string_bytes text
        ≡ spec.picture_text (plant_scene first.now plans.now) found.now) }
{
    let owners = owners_of(alloc, &first.motors, plans)?;
    picture_with(
        alloc,
        &Shown::of_plant(first, plans, owners.as_slice()),
        found,
    )
}

/// The picture of what is shown.
fn picture_with(alloc: Global, shown: &Shown<'_>, found: &[Finding]) -> Result<String, AllocError>
    ensures { IfOk result (λ text. string_bytes text ≡ spec.picture_text shown.now found.now) }
{
    let mut text = String::new(alloc);
    match push_picture(&mut text, shown, found) {
        Ok(()) => Ok(text),
        Err(error) => Err(error),
    }
}

#[tactic(auto, unfolding(crate::specs::Pictures::picture_text))]
fn push_picture(text: &mut String, shown: &Shown<'_>, found: &[Finding]) -> Result<(), AllocError>
    ensures { OnOk result (string_bytes text.new
        ≡ string_bytes text.old ++ spec.picture_text shown.now found.now) }
{
    push_begin(text, shown)?;
    push_lanes(text, shown)?;
    push_columns(text, shown, found)?;
    push_finish(text, shown)
}

/// Adds how the picture begins.
fn push_begin(text: &mut String, shown: &Shown<'_>) -> Result<(), AllocError>
    ensures { OnOk result (string_bytes text.new
        ≡ string_bytes text.old ++ spec.begin shown.now) }
{
    push_begin_by(text, width(shown), height(shown))?;
    push_words_style(text, shown)
}

/// Adds how words look, in the picture of a plant.
fn push_words_style(text: &mut String, shown: &Shown<'_>) -> Result<(), AllocError>
    ensures { OnOk result (string_bytes text.new
        ≡ string_bytes text.old ++ spec.words_style shown.now) }
{
    if shown.says_word() {
        text.push_str(WORDS_STYLE)
    } else {
        Ok(())
    }
}

/// Adds how a picture of this size begins: how each class looks, and what is below all.
fn push_begin_by(text: &mut String, width: usize, height: usize) -> Result<(), AllocError>
    ensures { OnOk result (string_bytes text.new
        ≡ string_bytes text.old ++ spec.begin_by width height) }
{
    push_head(text, width, height)?;
    push_style(text)?;
    push_box(text, "paper", 0, 0, width, height)
}

/// Adds the size of a picture.
fn push_head(text: &mut String, width: usize, height: usize) -> Result<(), AllocError>
    ensures { OnOk result (string_bytes text.new
        ≡ string_bytes text.old ++ spec.head width height) }
{
    write!(
        text,
        "<svg xmlns=\"http://www.w3.org/2000/svg\" width=\"{width}\" height=\"{height}\" \
         viewBox=\"0 0 {width} {height}\" font-family=\"monospace\">\n"
    )
}

/// Adds how each class looks.
fn push_style(text: &mut String) -> Result<(), AllocError>
    ensures { OnOk result (string_bytes text.new ≡ string_bytes text.old ++ STYLE.now) }
{
    text.push_str(STYLE)
}

/// Adds how the picture ends.
fn push_finish(text: &mut String, shown: &Shown<'_>) -> Result<(), AllocError>
    ensures { OnOk result (string_bytes text.new
        ≡ string_bytes text.old ++ spec.finish shown.now) }
{
    push_legend(text, shown)?;
    push_words_legend(text, shown)?;
    text.push_str("</svg>\n")
}

/// Adds what the numbers of words mean, in the picture of a plant.
fn push_words_legend(text: &mut String, shown: &Shown<'_>) -> Result<(), AllocError>
    ensures { OnOk result (string_bytes text.new
        ≡ string_bytes text.old ++ spec.words_legend shown.now) }
{
    if shown.says_word() {
        push_legend_line(text, shown, 62, FOURTH)
    } else {
        Ok(())
    }
}

/// Adds what the marks mean.
fn push_legend(text: &mut String, shown: &Shown<'_>) -> Result<(), AllocError>
    ensures { OnOk result (string_bytes text.new
        ≡ string_bytes text.old ++ spec.legend shown.now) }
{
    push_legend_line(text, shown, 14, FIRST)?;
    push_legend_line(text, shown, 30, SECOND)?;
    push_legend_line(text, shown, 46, THIRD)
}

/// Adds what some marks mean, so far below the lanes.
fn push_legend_line(
    text: &mut String,
    shown: &Shown<'_>,
    below: usize,
    line: &str,
) -> Result<(), AllocError>
    requires { below ≤ 100 }
    ensures { OnOk result
        (string_bytes text.new ≡ string_bytes text.old
        ++ spec.legend_line shown.now below line.now) }
{
    let y = lanes_end(shown) + below;
    let spot = Spot {
        x: 20,
        y,
        most: 12,
        width: 500,
    };
    push_label(text, "legend", spot, line)
}

// ---- lanes

/// Adds the machines, the places and the motors.
fn push_lanes(text: &mut String, shown: &Shown<'_>) -> Result<(), AllocError>
    ensures { OnOk result (string_bytes text.new
        ≡ string_bytes text.old ++ spec.lanes_part shown.now) }
{
    push_machines(text, shown)?;
    push_places_of_words(text, shown)?;
    push_motors(text, shown)
}

/// Adds each machine.
fn push_machines(text: &mut String, shown: &Shown<'_>) -> Result<(), AllocError>
    ensures { OnOk result (string_bytes text.new
        ≡ string_bytes text.old ++ spec.machines_part shown.now) }
{
    'machines: for machine in 0..shown.named_plan().machines().len() as u8 {
        push_machine(text, shown, machine)?;
    }
    Ok(())
}

/// Adds a machine's lane, its box and its name.
fn push_machine(text: &mut String, shown: &Shown<'_>, machine: u8) -> Result<(), AllocError>
    ensures { OnOk result
        (string_bytes text.new ≡ string_bytes text.old
        ++ spec.machine_part shown.now machine) }
{
    push_lane(text, shown, machine)?;
    push_machine_box(text, shown, machine)?;
    push_machine_title(text, shown, machine)
}

/// Adds a machine's lane.
fn push_lane(text: &mut String, shown: &Shown<'_>, machine: u8) -> Result<(), AllocError>
    ensures { OnOk result
        (string_bytes text.new ≡ string_bytes text.old ++ spec.lane_box shown.now machine) }
{
    let y = lane(shown, machine);
    push_box(
        text,
        "lane",
        20,
        y,
        width(shown),
        lane_height(shown, machine),
    )
}

/// Adds a machine's box.
fn push_machine_box(text: &mut String, shown: &Shown<'_>, machine: u8) -> Result<(), AllocError>
    ensures { OnOk result
        (string_bytes text.new ≡ string_bytes text.old
        ++ spec.machine_box shown.now machine) }
{
    let y = lane(shown, machine);
    push_box(text, "machine", 20, y, 260, lane_height(shown, machine))
}

/// Adds a machine's name.
fn push_machine_title(text: &mut String, shown: &Shown<'_>, machine: u8) -> Result<(), AllocError>
    ensures { OnOk result
        (string_bytes text.new ≡ string_bytes text.old
        ++ spec.machine_title shown.now machine) }
{
    let spot = Spot {
        x: 30,
        y: lane(shown, machine) + 26,
        most: 22,
        width: 240,
    };
    push_label(
        text,
        "name",
        spot,
        shown.named_plan().machines().name(machine),
    )
}

/// Adds the places of each word.
fn push_places_of_words(text: &mut String, shown: &Shown<'_>) -> Result<(), AllocError>
    ensures { OnOk result (string_bytes text.new
        ≡ string_bytes text.old ++ spec.each_word spec.places_part shown.now) }
{
    'words: for word in 0..shown.word_count() {
        push_places(text, &shown.on_word(word))?;
    }
    Ok(())
}

/// Adds each place.
fn push_places(text: &mut String, shown: &Shown<'_>) -> Result<(), AllocError>
    ensures { OnOk result (string_bytes text.new
        ≡ string_bytes text.old ++ spec.places_part shown.now) }
{
    'places: for place in 0..shown.named_plan().places().len() as u8 {
        push_place(text, shown, place)?;
    }
    Ok(())
}

/// Adds a place, with an arrow if it is a source, and one if it is a sink.
fn push_place(text: &mut String, shown: &Shown<'_>, place: u8) -> Result<(), AllocError>
    ensures { OnOk result
        (string_bytes text.new ≡ string_bytes text.old ++ spec.place_part shown.now place) }
{
    push_ring(text, shown, place)?;
    push_source(text, shown, place)?;
    push_sink(text, shown, place)
}

/// Adds the ring of a place, and its name.
fn push_ring(text: &mut String, shown: &Shown<'_>, place: u8) -> Result<(), AllocError>
    ensures { OnOk result
        (string_bytes text.new ≡ string_bytes text.old ++ spec.ring_part shown.now place) }
{
    let name = shown.named_plan().places().name(place);
    push_thing(text, shown, "place", place_thing(shown, place), name)
}

/// Adds an arrow from outside to a place, if it is a source.
fn push_source(text: &mut String, shown: &Shown<'_>, place: u8) -> Result<(), AllocError>
    ensures { OnOk result
        (string_bytes text.new ≡ string_bytes text.old ++ spec.source_part shown.now place) }
{
    if shown.named_plan().plan().place(place).source {
        push_level(text, "source", source_line(shown, place), 2, 32)
    } else {
        Ok(())
    }
}

/// Adds an arrow from a place to outside, if it is a sink.
fn push_sink(text: &mut String, shown: &Shown<'_>, place: u8) -> Result<(), AllocError>
    ensures { OnOk result
        (string_bytes text.new ≡ string_bytes text.old ++ spec.sink_part shown.now place) }
{
    if shown.named_plan().plan().place(place).sink {
        push_level(text, "sink", sink_line(shown, place), 32, 2)
    } else {
        Ok(())
    }
}

/// Adds each motor.
fn push_motors(text: &mut String, shown: &Shown<'_>) -> Result<(), AllocError>
    ensures { OnOk result (string_bytes text.new
        ≡ string_bytes text.old ++ spec.motors_part shown.now) }
{
    'motors: for motor in 0..shown.motor_names().len() as u8 {
        push_motor(text, shown, motor)?;
    }
    Ok(())
}

/// Adds a motor.
fn push_motor(text: &mut String, shown: &Shown<'_>, motor: u8) -> Result<(), AllocError>
    ensures { OnOk result
        (string_bytes text.new ≡ string_bytes text.old ++ spec.motor_part shown.now motor) }
{
    let name = shown.motor_names().name(motor);
    push_thing(text, shown, "motor", motor_thing(shown, motor), name)
}

/// Adds a place or a motor in the box of its machine.
fn push_thing(
    text: &mut String,
    shown: &Shown<'_>,
    class: &str,
    thing: usize,
    name: &str,
) -> Result<(), AllocError>
    requires { thing ≤ 511 }
    ensures { OnOk result (string_bytes text.new
        ≡ string_bytes text.old ++ spec.thing_part shown.now class.now thing name.now) }
{
    push_thing_at(text, class, row(shown, thing), name)
}

/// Adds a place or a motor at this height.
fn push_thing_at(text: &mut String, class: &str, y: usize, name: &str) -> Result<(), AllocError>
    requires { y ≤ 50000 }
    ensures { OnOk result
        (string_bytes text.new ≡ string_bytes text.old ++ spec.thing_at class.now y name.now) }
{
    push_circle(text, class, 38, y, 5)?;
    let spot = Spot {
        x: 52,
        y: y + 4,
        most: 13,
        width: 210,
    };
    push_label(text, class, spot, name)
}

// ---- columns

/// Adds the zones and the hazards.
fn push_columns(text: &mut String, shown: &Shown<'_>, found: &[Finding]) -> Result<(), AllocError>
    ensures { OnOk result (string_bytes text.new
        ≡ string_bytes text.old ++ spec.columns_part shown.now found.now) }
{
    push_words(text, shown)?;
    push_hazards(text, shown, found)
}
