//! Places that are cut: each way from such a place starts at an exit of its own, and each way to it but the last one
//! ends at an entry of its own.
ghost use Rattle.std.specs.Prelude.{◌≡◌, ◌+◌, ◌++◌, ◌≤◌, ◌<◌, IfOk, IfErr, OnOk, drop, length, map, if◌then◌else◌};
ghost use Rattle.std.specs.List.{range_with_len};
ghost use mir.Val.{bool_byte};
ghost use Rattle.plan_types.specs.Table as table;
ghost use Rattle.plan_words.specs.CutTable as cut;
ghost use Rattle.plan_words.specs.PlantCut as own;
ghost use Rattle.plan_words.specs.PlantCut.{cuts_at, cut_of};

use crate::fault::{Limit, PlantFault};
use crate::joining::{contains, push_if};
use crate::plant::{MAX_PLANT_ZONES, PlantTables};
use plan_types::{PlanPlace, PlanZone, Way};
use std::alloc::{AllocError, Global};

/// A plant with places cut: these keep their numbers. After them come the exits, and then the entries.
#[derive(Debug, Drop)]
pub struct CutPlant {
    /// The tables, with ways from exits and to entries.
    pub tables: PlantTables,
    /// The place of each exit.
    pub exits: Vec<usize>,
    /// The place of each entry.
    pub entries: Vec<usize>,
}

/// The rows that a cut changes, and the place of each exit and of each entry.
#[derive(Drop)]
struct CutRows {
    zones: Vec<PlanZone>,
    places: Vec<PlanPlace>,
    exits: Vec<usize>,
    entries: Vec<usize>,
}

/// What is next: the numbers of an exit and of an entry.
#[derive(Clone, Copy)]
struct Next {
    exit: usize,
    entry: usize,
}

/// The one number, or the other.
fn either(first: bool, number: usize, other: u8) -> u8
    requires { number < 256 }
    ensures { result ≡ (if first then number else other) }
{
    if first { number as u8 } else { other }
}

fn ends_at(place: usize, way: Option<Way>) -> bool
    ensures { result ≡ cut.ends_at place way }
{
    match way {
        Some(way) => place == usize::from(way.to),
        None => false,
    }
}

/// Whether a way through some zones ends at a place.
fn ends_in(rows: &[PlanZone], place: usize) -> bool
    ensures { result ≡ cut.ends_in rows.now place }
{
    rows.iter().any(|row| ends_at(place, row.inward) || ends_at(place, row.outward))
}

impl PlantTables {
    /// Whether a place of these is cut: sources and sinks aren't.
    fn is_cut(&self, places: &[usize], place: usize) -> bool
        ensures { result ≡ cuts_at self.now places.now place }
    {
        let row = self.place(place);
        contains(places, place) && !(row.source || row.sink)
    }

    /// The zones after a zone.
    fn later(&self, zone: usize) -> &[PlanZone]
        requires { zone < table.zone_count self.now }
        ensures { result.now ≡ drop (zone + 1) self.now.zones }
    {
        &self.zones[zone + 1..]
    }

    #[tactic(auto, using(crate::proofs::CutLoops::one_long))]
    /// Whether a way starts at a place that is cut.
    fn starts_cut(&self, places: &[usize], way: Option<Way>) -> bool
        ensures { bool_byte result ≡ length (cut.start_cut (cuts_at self.now places.now) way) }
    {
        match way {
            Some(way) => self.is_cut(places, usize::from(way.from)),
            None => false,
        }
    }

    #[tactic(auto, using(crate::proofs::CutLoops::one_long))]
    /// Whether a way ends at a place that is cut, and ways through later zones too.
    fn ends_cut(&self, places: &[usize], later: &[PlanZone], way: Option<Way>) -> bool
        ensures { bool_byte result
            ≡ length (cut.end_cut (cuts_at self.now places.now) (cut.ends_in later.now) way) }
    {
        match way {
            Some(way) => {
                let to = usize::from(way.to);
                self.is_cut(places, to) && ends_in(later, to)
            }
            None => false,
        }
    }

    /// A way, with the next exit and the next entry.
    fn way_cut(
        &self,
        places: &[usize],
        later: &[PlanZone],
        next: Next,
        way: Option<Way>,
    ) -> Option<Way>
        requires exit { next.exit < 256 }
        requires entry { next.entry < 256 }
        ensures { let cuts = cuts_at self.now places.now in
            result ≡ cut.way_cut cuts (cut.ends_in later.now) next.exit next.entry way }
    {
        match way {
            Some(Way { from, to }) => {
                let starts = self.is_cut(places, usize::from(from));
                let ends = self.is_cut(places, usize::from(to)) && ends_in(later, usize::from(to));
                Some(Way {
                    from: either(starts, next.exit, from),
                    to: either(ends, next.entry, to),
                })
            }
            None => None,
        }
    }

    /// What is next after a way.
    fn after(&self, places: &[usize], later: &[PlanZone], next: Next, way: Option<Way>) -> Next
        requires exit { next.exit < 256 }
        requires entry { next.entry < 256 }
        ensures exit { let cuts = cuts_at self.now places.now in
            result.exit ≡ next.exit + length (cut.start_cut cuts way) }
        ensures entry { let cuts = cuts_at self.now places.now in
            result.entry ≡ next.entry + length (cut.end_cut cuts (cut.ends_in later.now) way) }
        ensures few_exits { result.exit ≤ next.exit + 1 }
        ensures few_entries { result.entry ≤ next.entry + 1 }
    {
        Next {
            exit: next.exit + usize::from(self.starts_cut(places, way)),
            entry: next.entry + usize::from(self.ends_cut(places, later, way)),
        }
    }

    /// Appends the place at which a way starts, if it is cut.
    fn push_start(
        &self,
        places: &[usize],
        way: Option<Way>,
        exits: &mut Vec<usize>,
    ) -> Result<(), AllocError>
        ensures { OnOk result (exits.new.items
            ≡ exits.old.items ++ cut.start_cut (cuts_at self.now places.now) way) }
    {
        match way {
            Some(way) => {
                let from = usize::from(way.from);
                push_if(exits, from, self.is_cut(places, from))
            }
            None => Ok(()),
        }
    }

    /// Appends the place at which a way ends, if it is cut and ways through later zones end there.
    fn push_end(
        &self,
        places: &[usize],
        later: &[PlanZone],
        way: Option<Way>,
        entries: &mut Vec<usize>,
    ) -> Result<(), AllocError>
        ensures { let cuts = cuts_at self.now places.now in OnOk result (entries.new.items
            ≡ entries.old.items ++ cut.end_cut cuts (cut.ends_in later.now) way) }
    {
        match way {
            Some(way) => {
                let to = usize::from(way.to);
                push_if(entries, to, self.is_cut(places, to) && ends_in(later, to))
            }
            None => Ok(()),
        }
    }

    #[tactic(auto, using(crate::proofs::CutLoops::exits_step, crate::proofs::CutLoops::exits_end))]
    /// The place of each exit.
    fn exits(&self, places: &[usize], alloc: Global) -> Result<Vec<usize>, AllocError>
        ensures { IfOk result (λ exits. exits.items
            ≡ cut.exits_of (cuts_at self.now places.now) self.now.zones) }
    {
        let mut exits = Vec::new(alloc);
        for zone in 0..self.zone_count() {
            let row = self.zone(zone);
            self.push_start(places, row.inward, &mut exits)?;
            self.push_start(places, row.outward, &mut exits)?;
        }
        Ok(exits)
    }

    #[tactic(auto, using(crate::proofs::CutLoops::entries_step, crate::proofs::CutLoops::entries_end))]
    /// The place of each entry.
    fn entries(&self, places: &[usize], alloc: Global) -> Result<Vec<usize>, AllocError>
        ensures { IfOk result (λ entries. entries.items
            ≡ cut.entries_of (cuts_at self.now places.now) self.now.zones) }
    {
        let mut entries = Vec::new(alloc);
        for zone in 0..self.zone_count() {
            let row = self.zone(zone);
            let later = self.later(zone);
            self.push_end(places, later, row.inward, &mut entries)?;
            self.push_end(places, later, row.outward, &mut entries)?;
        }
        Ok(entries)
    }

    /// The row of a zone, with the next exit and the next entry.
    fn row_cut(&self, places: &[usize], zone: usize, next: Next) -> PlanZone
        requires zone { zone < table.zone_count self.now }
        requires exit { next.exit < 255 }
        requires entry { next.entry < 255 }
        ensures { result ≡ own.row_cut self.now places.now zone next.exit next.entry }
    {
        let row = self.zone(zone);
        let later = self.later(zone);
        let between = self.after(places, later, next, row.inward);
        PlanZone {
            host: row.host,
            guest: row.guest,
            joins: row.joins,
            inward: self.way_cut(places, later, next, row.inward),
            outward: self.way_cut(places, later, between, row.outward),
        }
    }

    /// What is next after a zone.
    fn next_after(&self, places: &[usize], zone: usize, next: Next) -> Next
        requires zone { zone < table.zone_count self.now }
        requires exit { next.exit < 255 }
        requires entry { next.entry < 255 }
        ensures exit { result.exit ≡ own.exit_after self.now places.now zone next.exit }
        ensures entry { result.entry ≡ own.entry_after self.now places.now zone next.entry }
        ensures few_exits { result.exit ≤ next.exit + 2 }
        ensures few_entries { result.entry ≤ next.entry + 2 }
    {
        let row = self.zone(zone);
        let later = self.later(zone);
        let between = self.after(places, later, next, row.inward);
        self.after(places, later, between, row.outward)
    }

    /// The zones, with ways from exits and to entries.
    fn zones_cut(
        &self,
        places: &[usize],
        first: Next,
        alloc: Global,
    ) -> Result<Vec<PlanZone>, AllocError>
        requires zones { table.zone_count self.now ≤ 40 }
        requires exit { first.exit ≤ 64 }
        requires entry { first.entry ≤ 144 }
        ensures { let cuts = cuts_at self.now places.now in IfOk result (λ zones. zones.items
            ≡ cut.zones_cut cuts first.exit first.entry self.now.zones) }
    {
        let mut rows = Vec::new(alloc);
        let mut next = first;
        for zone in 0..self.zone_count() {
            let made = self.row_cut(places, zone, next);
            let then = self.next_after(places, zone, next);
            rows.push(made)?;
            next = then;
        }
        Ok(rows)
    }

    #[tactic(auto, using(crate::proofs::CutLoops::any_append))]
    /// The row of a place, in the cut plant.
    fn place_cut(&self, exits: &[usize], entries: &[usize], place: usize) -> PlanPlace
        ensures { result ≡ cut.place_cut self.now exits.now entries.now place }
    {
        let row = self.place(place);
        let refilled = contains(entries, place);
        let cut = contains(exits, place) || refilled;
        if cut {
            PlanPlace {
                keeper: row.keeper,
                source: refilled,
                sink: true,
            }
        } else {
            row
        }
    }

    fn exit_row(&self, place: usize) -> PlanPlace
        ensures { result ≡ cut.exit_row self.now place }
    {
        PlanPlace {
            keeper: self.place(place).keeper,
            source: true,
            sink: false,
        }
    }

    fn entry_row(&self, place: usize) -> PlanPlace
        ensures { result ≡ cut.entry_row self.now place }
    {
        PlanPlace {
            keeper: self.place(place).keeper,
            source: true,
            sink: true,
        }
    }

    #[tactic(auto, using(crate::proofs::CutLoops::own_more))]
    /// The rows of the places.
    fn own_rows(
        &self,
        exits: &[usize],
        entries: &[usize],
        alloc: Global,
    ) -> Result<Vec<PlanPlace>, AllocError>
        ensures { let row = cut.place_cut self.now exits.now entries.now in
            let count = table.place_count self.now in
            IfOk result (λ rows. rows.items ≡ map row (range_with_len 0 count)) }
    {
        let mut rows = Vec::new(alloc);
        for place in 0..self.place_count() {
            rows.push(self.place_cut(exits, entries, place))?;
        }
        Ok(rows)
    }

    #[tactic(auto, using(crate::proofs::CutLoops::rows_more))]
    /// Appends the rows of the exits.
    fn push_exits(&self, exits: &[usize], rows: &mut Vec<PlanPlace>) -> Result<(), AllocError>
        ensures { OnOk result (rows.new.items
            ≡ rows.old.items ++ map (cut.exit_row self.now) exits.now) }
    {
        for exit in exits {
            rows.push(self.exit_row(*exit))?;
        }
        Ok(())
    }

    #[tactic(auto, using(crate::proofs::CutLoops::rows_more))]
    /// Appends the rows of the entries.
    fn push_entries(&self, entries: &[usize], rows: &mut Vec<PlanPlace>) -> Result<(), AllocError>
        ensures { OnOk result (rows.new.items
            ≡ rows.old.items ++ map (cut.entry_row self.now) entries.now) }
    {
        for entry in entries {
            rows.push(self.entry_row(*entry))?;
        }
        Ok(())
    }

    /// The rows of the places, of the exits, and of the entries.
    fn places_cut(
        &self,
        exits: &[usize],
        entries: &[usize],
        alloc: Global,
    ) -> Result<Vec<PlanPlace>, AllocError>
        ensures { IfOk result (λ rows. rows.items ≡ own.rows_cut self.now exits.now entries.now) }
    {
        let mut rows = self.own_rows(exits, entries, alloc)?;
        self.push_exits(exits, &mut rows)?;
        self.push_entries(entries, &mut rows)?;
        Ok(rows)
    }

    /// The rows with some places cut.
    fn cut_rows(&self, places: &[usize], alloc: Global) -> Result<CutRows, PlantFault>
        ensures zones { let cuts = cut_of self.now places.now in
            IfOk result (λ made. made.zones.items ≡ cuts.cut.zones) }
        ensures places { let cuts = cut_of self.now places.now in
            IfOk result (λ made. made.places.items ≡ cuts.cut.places) }
        ensures exits { let cuts = cut_of self.now places.now in
            IfOk result (λ made. made.exits.items ≡ cuts.exits) }
        ensures entries { let cuts = cut_of self.now places.now in
            IfOk result (λ made. made.entries.items ≡ cuts.entries) }
        ensures fault { IfErr result (own.SaysOfCut self.now places.now) }
    {
        if self.zone_count() > MAX_PLANT_ZONES {
            return Err(PlantFault::TooMany(Limit::Zones));
        }
        if self.place_count() > 64 {
            return Err(PlantFault::TooMany(Limit::Places));
        }
        let exits = self.exits(places, alloc)?;
        let first = Next {
            exit: self.place_count(),
            entry: self.place_count() + exits.len(),
        };
        if first.entry > 144 {
            return Err(PlantFault::TooMany(Limit::Places));
        }
        let entries = self.entries(places, alloc)?;
        let zones = self.zones_cut(places, first, alloc)?;
        let rows = self.places_cut(&exits, &entries, alloc)?;
        Ok(CutRows {
            zones,
            places: rows,
            exits,
            entries,
        })
    }

    /// This plant with some of its places cut; sources and sinks stay whole. It may have up to 64 places, up to 144
    /// with the exits, and up to 40 zones.
    pub fn cut_at(self, places: &[usize], alloc: Global) -> Result<CutPlant, PlantFault>
        ensures tables { IfOk result (λ made. made.tables ≡ (cut_of self places.now).cut) }
        ensures exits { IfOk result (λ made. made.exits.items ≡ (cut_of self places.now).exits) }
        ensures entries { IfOk result
            (λ made. made.entries.items ≡ (cut_of self places.now).entries) }
        ensures fault { IfErr result (own.SaysOfCut self places.now) }
    {
        match self.cut_rows(places, alloc) {
            Ok(rows) => Ok(CutPlant {
                tables: PlantTables {
                    machines: self.machines,
                    zones: rows.zones,
                    poses: self.poses,
                    places: rows.places,
                },
                exits: rows.exits,
                entries: rows.entries,
            }),
            Err(fault) => Err(fault),
        }
    }
}
