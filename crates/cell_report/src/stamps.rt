//! The stamps of the Done entries: which one occurs twice, and which one is missing.
ghost use Rattle.std.specs.Prelude.{◌≡◌, ◌≤◌, All, MatchOption};
ghost use Rattle.std.specs.List.Sorted.{IsNonDecreasing};
ghost use Rattle.cell_report.specs.AuditFaults.{times, IsTwice, HasNoTwice, IsGap, HasNoGap};

/// The least stamp that occurs twice in a non-decreasing list.
pub fn least_twice(stamps: &[u32]) -> Option<u32>
    requires { IsNonDecreasing stamps.now }
    ensures { MatchOption result (HasNoTwice (times stamps.now)) (IsTwice (times stamps.now)) }
{
    let mut last: Option<u32> = None;
    for stamp in stamps {
        if last == Some(*stamp) {
            return last;
        }
        last = Some(*stamp);
    }
    None
}

/// The least stamp after a start, up to a top, that is missing in a non-decreasing list.
pub fn least_gap(stamps: &[u32], start: u32, top: u32) -> Option<u32>
    requires rising { IsNonDecreasing stamps.now }
    requires within { All (λ stamp. stamp ≤ top) stamps.now }
    ensures { MatchOption result
        (HasNoGap start top (times stamps.now)) (IsGap start top (times stamps.now)) }
{
    let mut last = start;
    for stamp in stamps {
        if stamp.saturating_sub(last) > 1 {
            return Some(last + 1);
        }
        last = last.max(*stamp);
    }
    if last < top { Some(last + 1) } else { None }
}
