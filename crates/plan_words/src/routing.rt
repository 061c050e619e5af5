//! Where a call goes: to the word of its zone, pose or place, by the number there.
ghost use Rattle.std.specs.Prelude.{◌≡◌, ◌<◌, IfSome, IsNone, length};
ghost use Rattle.plan_words.specs.Plant.{word_at};
ghost use Rattle.plan_words.specs.PlantRoutes as routes;

use crate::members::number_in;
use crate::words::Words;
use plan_types::Call;

/// Where a zone, a pose or a place is.
#[derive(Clone, Copy, Debug, PartialEq, Eq)]
pub struct OnWord {
    /// The word.
    pub word: usize,
    /// The number there.
    pub number: u8,
}

/// A call of one word, by its numbers.
#[derive(Clone, Copy, Debug, PartialEq, Eq)]
pub struct Routed {
    /// The word.
    pub word: usize,
    /// The call there.
    pub call: Call,
}

/// A call, with this number instead of its own.
fn with_number(call: Call, number: u8) -> Call
    ensures { result ≡ routes.renumbered call number }
{
    match call {
        Call::Claim(_) => Call::Claim(number),
        Call::Give(_) => Call::Give(number),
        Call::Yield(_) => Call::Yield(number),
        Call::Take(_) => Call::Take(number),
        Call::Release(_) => Call::Release(number),
        Call::SetPose(_) => Call::SetPose(number),
        Call::Inquire(_) => Call::Inquire(number),
        Call::Advance(_) => Call::Advance(number),
        Call::Stop => Call::Stop,
        Call::Resume => Call::Resume,
    }
}

impl Words {
    /// Where a zone is; `None` if the plant has no such zone.
    #[tactic(auto, using(crate::proofs::WordNumbers::zone_is, crate::proofs::WordNumbers::no_zone))]
    pub fn zone(&self, zone: usize) -> Option<OnWord>
        ensures there { IfSome result (routes.IsZone self.now zone) }
        ensures none { IsNone result → routes.HasNoZone self.now zone }
    {
        for word in 0..self.count() {
            let zones = self.zones(word);
            let number = number_in(zones, zone);
            if number < zones.len() {
                return Some(OnWord {
                    word,
                    number: number as u8,
                });
            }
        }
        None
    }

    /// Where a pose is; `None` if the plant has no such pose.
    #[tactic(auto, using(crate::proofs::WordNumbers::pose_is, crate::proofs::WordNumbers::no_pose))]
    pub fn pose(&self, pose: usize) -> Option<OnWord>
        ensures there { IfSome result (routes.IsPose self.now pose) }
        ensures none { IsNone result → routes.HasNoPose self.now pose }
    {
        for word in 0..self.count() {
            let poses = self.poses(word);
            let number = number_in(poses, pose);
            if number < poses.len() {
                return Some(OnWord {
                    word,
                    number: number as u8,
                });
            }
        }
        None
    }

    /// Where a place is; `None` if the plant has no such place.
    #[tactic(auto, using(crate::proofs::WordNumbers::place_is, crate::proofs::WordNumbers::no_place))]
    pub fn place(&self, place: usize) -> Option<OnWord>
        ensures there { IfSome result (routes.IsPlace self.now place) }
        ensures none { IsNone result → routes.HasNoPlace self.now place }
    {
        for word in 0..self.count() {
            let places = self.places(word);
            let number = number_in(places, place);
            if number < places.len() {
                return Some(OnWord {
                    word,
                    number: number as u8,
                });
            }
        }
        None
    }

    /// Where the row that a call is about is; `None` for a stop and for a resumption.
    fn row(&self, call: Call) -> Option<OnWord>
        ensures there { IfSome result (routes.IsRow self.now call) }
        ensures none { IsNone result → routes.IsOfNoWord self.now call }
    {
        match call {
            Call::Claim(zone)
            | Call::Give(zone)
            | Call::Yield(zone)
            | Call::Take(zone)
            | Call::Release(zone)
            | Call::Inquire(zone) => self.zone(usize::from(zone)),
            Call::SetPose(pose) => self.pose(usize::from(pose)),
            Call::Advance(place) => self.place(usize::from(place)),
            Call::Stop | Call::Resume => None,
        }
    }

    /// Where a call goes, and what it is there. `None` for a stop and for a resumption, which each word has of its own,
    /// and for a call about a row that the plant hasn't.
    #[tactic(auto, using(crate::proofs::WordNumbers::row_routes))]
    pub fn route(&self, call: Call) -> Option<Routed>
        ensures there { IfSome result (routes.IsRoute self.now call) }
        ensures none { IsNone result → routes.IsOfNoWord self.now call }
    {
        let on = self.row(call)?;
        Some(Routed {
            word: on.word,
            call: with_number(call, on.number),
        })
    }
}
