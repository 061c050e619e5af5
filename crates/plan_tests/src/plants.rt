//! Plants on several words, and their documents.
use plan_document::plant_of;
use plan_explorer::RoutedCall;
use plan_types::{Call, PlanPlace, PlanZone, Way};
use plan_words::{OnWord, PlantTables, Routed, Words};
use std::alloc::{AllocError, Global};
use std::test::Fail;

/// A document of a host and a guest, who share this many zones. Each has a pose that opens it, and two lines of the
/// guest's program, on a line of the document.
fn sharing_pair(alloc: Global, count: usize) -> Result<String, AllocError> {
    let mut text = String::new(alloc);
    text.push_str("[[machine]]\nname = \"guest\"\nplaces = [\"hand\"]\nprogram = [\n")?;
    for zone in 0..count {
        writeln!(text, "\"claim zone{zone}\", \"release zone{zone}\",")?;
    }
    text.push_str("]\n[[machine]]\nname = \"host\"\nposes = [\n")?;
    for zone in 0..count {
        writeln!(
            text,
            "{{ name = \"open{zone}\", gives = {{ zone{zone} = \"openin\" }} }},"
        )?;
    }
    text.push_str("]\n")?;
    for zone in 0..count {
        write!(
            text,
            "[[zone]]\nname = \"zone{zone}\"\nhost = \"host\"\nguest = \"guest\"\n"
        )?;
    }
    Ok(text)
}

/// Forty zones: no word has more than ten of them, and each program has the lines of its word.
#[test]
fn forty_zones_are_read(rt: HostRuntime) -> Result<(), Fail> {
    let text = sharing_pair(rt.alloc(), 40)?;
    let Ok(plant) = plant_of(rt.alloc(), text.as_str().as_bytes()) else {
        assert!(rt; false, "no plant");
        return Ok(());
    };
    let mut zones = 0usize;
    let mut steps = 0usize;
    for plan in &plant.plans {
        zones = zones.saturating_add(plan.named.zones().len());
        if let Some(guest) = plan.steps.get(0) {
            steps = steps.saturating_add(guest.len());
        }
    }
    assert!(rt; zones == 40 && steps == 80);
    Ok(())
}

/// Of twelve zones the last two are on a second word, and so are the last four calls of the guest.
#[test]
fn programs_go_from_word_to_word(rt: HostRuntime) -> Result<(), Fail> {
    let text = sharing_pair(rt.alloc(), 12)?;
    let Ok(plant) = plant_of(rt.alloc(), text.as_str().as_bytes()) else {
        assert!(rt; false, "no plant");
        return Ok(());
    };
    let rows = [
        (0, 0, Call::Claim(0)),
        (19, 0, Call::Release(9)),
        (20, 1, Call::Claim(0)),
        (23, 1, Call::Release(1)),
    ];
    for (step, word, call) in rows {
        assert_eq!(rt;
            plant.programs.call(0, step),
            Some(RoutedCall { word, call })
        );
    }
    assert_eq!(rt; plant.programs.call(0, 24), None);
    assert_eq!(rt; plant.programs.call(1, 0), None);
    Ok(())
}

/// The fault of a plant's document with this many zones, in words, with a text of it instead of another one.
fn fault_with(alloc: Global, zones: usize, old: &str, new: &str) -> Result<String, AllocError> {
    let text = sharing_pair(alloc, zones)?;
    let text = text.as_str().replace(alloc, old, new)?;
    match plant_of(alloc, text.as_str().as_bytes()) {
        Ok(_) => String::from_str(alloc, "no fault"),
        Err(fault) => format!(in alloc; "{fault}"),
    }
}

/// A line that no guest does, a pose's name that stands twice, and a motor's place that isn't there: of twelve zones the
/// last two are on a second word.
const ON_LATER_WORDS: &[(&str, &str, &str)] = &[
    (
        "release zone11",
        "give zone11",
        "plan line 16: machine guest: program: \"give zone11\" is never done: the machine gives \
         no plates through the zone",
    ),
    (
        "open11",
        "open10",
        "plan line 32: machine host: pose 12: name: \"open10\" is defined twice, first on line 31",
    ),
    (
        "[[zone]]\nname = \"zone0\"",
        "[[motor]]\nname = \"arm\"\nmachine = \"guest\"\nfull = [\n\"hand\",\n\"head\"]\n\
         [[zone]]\nname = \"zone0\"",
        "plan line 39: motor arm: full: no place is named \"head\"",
    ),
];

/// A fault in the document of a word has the line, and the rows, of the plant's document.
#[test]
fn faults_have_the_plants_lines(rt: HostRuntime) -> Result<(), Fail> {
    for (old, new, fault) in ON_LATER_WORDS {
        let found = fault_with(rt.alloc(), 12, old, new)?;
        assert!(rt; found.as_str() == *fault, "{}", found.as_str());
    }
    Ok(())
}

/// More zones than a plant may have; and zones that one pose joins, more than a word may have.
#[test]
fn large_plants_are_refused(rt: HostRuntime) -> Result<(), Fail> {
    let found = fault_with(rt.alloc(), 41, "zone0", "zone0")?;
    assert!(rt; found.as_str() == "plan line 253: zone 41: name: there are more than 40");
    let mut joined = String::new(rt.alloc());
    for zone in 1..12 {
        write!(joined, "zone{zone} = \"openin\", ")?;
    }
    joined.push_str("zone0 = \"openin\"")?;
    let found = fault_with(rt.alloc(), 12, "zone0 = \"openin\"", joined.as_str())?;
    let line =
        "plan wide: no word holds \"zone0\" and the zones that poses, places and spaces join \
                to it: there are more than 10 zones";
    assert!(rt; found.as_str() == line, "{}", found.as_str());
    Ok(())
}

// ---- words of tables

/// A plant of two machines without poses.
fn gates(
    count: usize,
    inward: Option<Way>,
    places: Vec<PlanPlace>,
    alloc: Global,
) -> Result<PlantTables, AllocError> {
    let zone = PlanZone {
        host: 1,
        guest: 0,
        joins: false,
        inward,
        outward: None,
    };
    let mut zones = Vec::new(alloc);
    for _ in 0..count {
        zones.push(zone)?;
    }
    Ok(PlantTables {
        machines: 2,
        zones,
        poses: Vec::new(alloc),
        places,
    })
}

/// Zones that nothing joins are ten on a word.
#[test]
fn forty_zones_are_on_four_words(rt: HostRuntime) -> Result<(), Fail> {
    let forty = gates(40, None, Vec::new(rt.alloc()), rt.alloc())?;
    let words = Words::new(forty, rt.alloc())?;
    assert_eq!(rt; words.count(), 4);
    assert_eq!(rt; words.zone(39), Some(OnWord { word: 3, number: 9 }));
    let claim = Routed {
        word: 3,
        call: Call::Claim(9),
    };
    assert_eq!(rt; words.route(Call::Claim(39)), Some(claim));
    Ok(())
}

/// The hand of a pair has one exit, at which its way starts, and no other entry.
#[test]
fn hand_is_cut(rt: HostRuntime) -> Result<(), Fail> {
    let places = vec![in rt.alloc(); PlanPlace::kept_by(0), PlanPlace::kept_by(1)]?;
    let pair = gates(1, Some(Way { from: 0, to: 1 }), places, rt.alloc())?;
    let cut = pair.cut_at(&[0], rt.alloc())?;
    assert_eq!(rt; cut.exits.len(), 1);
    assert_eq!(rt; cut.entries.len(), 0);
    Ok(())
}
