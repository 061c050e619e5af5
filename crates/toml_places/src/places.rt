//! Places, and which of them steps lead to.
ghost use Rattle.std.specs.Prelude.{◌≡◌, ◌≤◌, ◌<◌, IfSome, IfNone, IsTrue, option_copied};
ghost use Rattle.toml_places.specs.Leading as leading;
ghost use Rattle.toml_places.specs.Around.{IsAround};

/// A step from a value to one in it.
#[derive(Clone, Copy)]
pub enum Step<'a> {
    /// To the value of a key.
    Key(&'a str),
    /// To an item of an array, counted from 0.
    Item(usize),
}

/// A step to a place, with a key of its own.
#[derive(Clone, PartialEq, Drop)]
pub enum OwnedStep {
    /// To the value of a key.
    Key(String),
    /// To an item of an array, counted from 0.
    Item(usize),
}

impl OwnedStep {
    /// Whether it is this step.
    fn is(&self, step: Step<'_>) -> bool
        ensures { result ≡ leading.same_step step.entry self.now }
    {
        match (self, step) {
            (OwnedStep::Key(name), Step::Key(key)) => name.as_str() == key,
            (OwnedStep::Item(own), Step::Item(item)) => *own == item,
            _ => false,
        }
    }

    /// The key, if it is a step to the value of one.
    pub fn key(&self) -> Option<&str> {
        match self {
            OwnedStep::Key(name) => Some(name.as_str()),
            OwnedStep::Item(_) => None,
        }
    }
}

/// Where a head, a key or an item stands. Each place is an offset, in bytes.
#[derive(Drop)]
pub struct Place {
    /// The steps that lead to its value.
    pub steps: Vec<OwnedStep>,
    /// Where it stands: the bracket of a head, the first byte of a key or of an item.
    pub start: usize,
    /// Where its value begins; of a head, where its name ends.
    pub value: usize,
    /// Where the value ends of the pair in which it stands; `None` if that is left open. Of a head, where its name
    /// ends.
    pub end: Option<usize>,
}

impl Place {
    /// Whether these steps lead to it, or to a value that it is in.
    pub fn begins_with(&self, steps: &[Step<'_>]) -> bool
        ensures { result ≡ leading.leads_to steps.now self.now }
    {
        begin_with(self.steps.as_slice(), steps)
    }

    /// Its number, if it is an item of the array to which these steps lead.
    pub(crate) fn item_in(&self, array: &[OwnedStep]) -> Option<usize> {
        match self.steps.as_slice() {
            [first @ .., OwnedStep::Item(number)] if first == array => Some(*number),
            _ => None,
        }
    }

    /// Whether it is that of a key, and of no item or head of an array, and begins at or before this byte.
    fn is_key_until(&self, before: usize) -> bool {
        self.start <= before && self.steps.last().is_some_and(|step| step.key().is_some())
    }

    /// Whether the value of its pair has begun before this byte, and hasn't ended.
    fn is_open_at(&self, before: usize) -> bool
        ensures { IsTrue result → IsAround before self.now }
    {
        self.value <= before && self.end.is_none_or(|end| before < end)
    }
}

/// Whether the steps to a place begin with these.
fn begin_with(own: &[OwnedStep], steps: &[Step<'_>]) -> bool
    ensures { result ≡ leading.begin steps.now own.now }
{
    let [step, more @ ..] = steps else {
        return true;
    };
    match own {
        [first, rest @ ..] => first.is(*step) && begin_with(rest, more),
        [] => false,
    }
}

/// The first place to which these steps lead, or that is in what they lead to.
pub fn place_of<'a>(places: &'a [Place], steps: &[Step<'_>]) -> Option<&'a Place>
    ensures { option_copied result ≡ leading.place_of places.now steps.now }
{
    places.iter().find(|place| place.begins_with(steps))
}

/// The place of these steps, or if there is none, of the most first ones of them that have a place; of one at least.
pub fn nearest_place<'a>(places: &'a [Place], steps: &[Step<'_>]) -> Option<&'a Place>
    ensures nearest { IfSome result (λ place. leading.IsNearest places.now steps.now place.now) }
    ensures none { IfNone result (leading.NoMoreLead 0 places.now steps.now) }
{
    for left in 0..steps.len() {
        let found = place_of(places, &steps[..steps.len() - left]);
        if found.is_some() {
            return found;
        }
    }
    None
}

/// The last key at or before the byte at offset `before`, if that byte is in the value of the key's pair.
pub fn key_around(places: &[Place], before: usize) -> Option<&Place>
    ensures around { IfSome result (λ place. IsAround before place.now) }
{
    let last = places
        .iter()
        .rev()
        .find(|place| place.is_key_until(before))?;
    if last.is_open_at(before) {
        Some(last)
    } else {
        None
    }
}
