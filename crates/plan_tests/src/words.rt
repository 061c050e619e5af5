//! The widths of words, and the words of the largest plan.

use plan_rules::State;
use plan_types::{
    Answer, Call, MAX_ZONES, Plan, PlanFault, PlanPlace, PlanPose, PlanZone, Posture, Tables,
    WATCH, Way,
};
use plan_word::{Layout, pack, stamp_of, step_word, unpack};
use std::alloc::{AllocError, Global};

/// How many zones and places, to how many postures besides closed poses bring each zone, and whether a plate has a way
/// through it.
type Size = (u8, u8, u8, bool);

/// Tables of two machines of this size. The first place is the guest's of all zones, the others are the host's.
fn tables_of(alloc: Global, size: Size) -> Result<Tables, AllocError> {
    let (zones, places, postures, has_way) = size;
    let zone = PlanZone {
        host: 0,
        guest: 1,
        joins: false,
        inward: if has_way {
            Some(Way { from: 0, to: 1 })
        } else {
            None
        },
        outward: None,
    };
    let mut tables = Tables {
        machines: 2,
        zones: Vec::new(alloc),
        poses: Vec::new(alloc),
        places: Vec::new(alloc),
    };
    for _ in 0..zones {
        tables.zones.push(zone)?;
    }
    for number in 0..postures {
        let posture = if number == 0 {
            Posture::OpenIn
        } else {
            Posture::Moving
        };
        let mut gives = [None; MAX_ZONES];
        for zone in 0..MAX_ZONES {
            if zone < usize::from(zones) {
                gives[zone] = Some(posture);
            }
        }
        tables.poses.push(PlanPose {
            machine: 0,
            after_moving: false,
            gives,
        })?;
    }
    for place in 0..places {
        tables
            .places
            .push(PlanPlace::kept_by(u8::from(place == 0)))?;
    }
    Ok(tables)
}

/// The width of the word of such a plan, or how many bits are missing.
fn width_of(alloc: Global, size: Size) -> Option<Result<u8, u8>> {
    match Plan::new(tables_of(alloc, size).ok()?) {
        Ok(plan) => Some(Ok(Layout::of(&plan).width())),
        Err(PlanFault::TooWide { missing }) => Some(Err(missing)),
        Err(_) => None,
    }
}

// Sizes, and the width or the number of missing bits: zones of five bits, of four, of three and of two.
const WIDTHS: [(Size, Result<u8, u8>); 11] = [
    ((0, 0, 2, true), Ok(21)),
    ((8, 3, 2, true), Ok(64)),
    ((8, 4, 2, true), Err(1)),
    ((6, 13, 2, true), Ok(64)),
    ((6, 14, 2, true), Err(1)),
    ((10, 16, 2, true), Err(23)),
    ((10, 3, 1, true), Ok(64)),
    ((10, 4, 2, false), Err(1)),
    ((9, 16, 1, false), Ok(64)),
    ((10, 16, 1, false), Err(3)),
    ((10, 16, 0, false), Ok(57)),
];

#[test]
fn plans_fit_or_not(rt: HostRuntime) {
    for (size, wanted) in WIDTHS {
        assert!(rt; width_of(rt.alloc(), size) == Some(wanted));
    }
}

#[test]
fn the_largest_plan_fills_its_word(rt: HostRuntime) {
    let tables = tables_of(rt.alloc(), (8, 3, 2, true)).expect(&rt, "memory");
    let plan = Plan::new(tables).expect(&rt, "a plan");
    let layout = Layout::of(&plan);
    let mut full = [false; 16];
    full[2] = true;
    let start = State::start(full, 1_048_574);
    let word = pack(&plan, &layout, &start);
    assert!(rt; word == 0x7FFF_F400_0000_0000 && stamp_of(&layout, word) == 1_048_574);
    let stopped = 0xFFFF_FC00_0000_0000;
    assert!(rt;
        step_word(&plan, &layout, word, WATCH, Call::Stop) == Some((Answer::Done, stopped))
    );
    let mut after = start;
    after.stamp = 1_048_575;
    after.stopped = true;
    assert!(rt; unpack(&plan, &layout, stopped) == Some(after));
    assert!(rt; unpack(&plan, &layout, u64::MAX).is_none());
    assert!(rt; start.zone(9).posture == Posture::Closed);
}
