//! Searches for windows that share bytes.
ghost use Rattle.std.specs.Prelude.{◌≡◌, ◌+◌, ◌<◌, ◌≤◌, length, None, MatchOption};
ghost use Rattle.std.specs.List.{list_any};
ghost use Rattle.css_record.specs.Windows as windows;
ghost use Rattle.css_semantics.specs.WindowRanges.{window_meets};
ghost use Rattle.css_objects.specs.Ordered.{IsSearch};
ghost use Rattle.css_objects.specs.Stored.{IsLater};
ghost use Rattle.css_arguments.specs.Lists.{Each};
ghost use Rattle.css_objects.specs.Found.{AreRows, NoneMeets, IsLastMeeting, IsGreatestMeeting, NoneShares, IsLastSharing, TakesAtMost};

use crate::ordered::{Found, Ordered};
use crate::steps::Steps;
use css_arguments::{meets, row_base, row_end, shares};
use css_record::Window;
use std::sync::ledger::Ledger;

/// Of windows of one row the last one that has a byte from one address up to another.
pub(crate) fn last_meeting<L: Ledger>(
    rows: &Ordered,
    from: u64,
    to: u64,
    steps: &mut Steps<L>,
) -> Option<Found>
    requires { AreRows rows.now }
    ensures found { MatchOption result (NoneMeets rows.now from to) (IsLastMeeting rows.now from to) }
    ensures cost { IsSearch (length rows.now) steps.old steps.new }
{
    let found = rows.last_below(to, steps)?;
    let end = u64::from(found.window.base) + u64::from(found.window.width);
    if from < end { Some(found) } else { None }
}

/// Whether one of some windows of one row has a byte from one address up to another.
pub(crate) fn any_meeting<L: Ledger>(
    rows: &Ordered,
    from: u64,
    to: u64,
    steps: &mut Steps<L>,
) -> bool
    requires { AreRows rows.now }
    ensures answer { result ≡ list_any (λ w. window_meets (windows.window w) from to) rows.now }
    ensures cost { IsSearch (length rows.now) steps.old steps.new }
{
    last_meeting(rows, from, to, steps).is_some()
}

/// Of windows of one row the one of greatest base that shares a byte with a window.
pub(crate) fn last_sharing_row<L: Ledger>(
    rows: &Ordered,
    window: &Window,
    steps: &mut Steps<L>,
) -> Option<Found>
    requires rows { AreRows rows.now }
    requires is_window { windows.IsWindow (windows.window window.now) }
    ensures found { MatchOption result (NoneShares rows.now window.now) (IsLastSharing rows.now window.now) }
    ensures cost { TakesAtMost (length rows.now) 0 window.now.rows steps.old steps.new }
{
    let mut row = window.rows;
    while row > 0 {
        row -= 1;
        let found = last_meeting(rows, row_base(window, row), row_end(window, row), steps);
        match found {
            Some(f) => return Some(f),
            None => {}
        }
    }
    None
}

/// Of any windows the one of greatest base that shares a byte with a window.
pub(crate) fn last_sharing_block<L: Ledger>(
    blocks: &Ordered,
    window: &Window,
    steps: &mut Steps<L>,
) -> Option<Found>
    requires blocks { Each blocks.now (λ w. windows.IsWindow (windows.window w)) }
    requires is_window { windows.IsWindow (windows.window window.now) }
    ensures found { MatchOption result (NoneShares blocks.now window.now) (IsLastSharing blocks.now window.now) }
    ensures cost { steps.new ≤ steps.old + length blocks.now }
{
    let mut place = blocks.len();
    while place > 0 {
        place -= 1;
        let other = *blocks.at(place, steps);
        if shares(window, &other) {
            return Some(Found {
                place,
                window: other,
            });
        }
    }
    None
}

/// Of any windows the one of greatest base that has a byte from one address up to another.
pub(crate) fn last_meeting_block<L: Ledger>(
    blocks: &Ordered,
    from: u64,
    to: u64,
    steps: &mut Steps<L>,
) -> Option<Found>
    requires blocks { Each blocks.now (λ w. windows.IsWindow (windows.window w)) }
    requires some { from < to }
    ensures found { MatchOption result (NoneMeets blocks.now from to) (IsGreatestMeeting blocks.now from to) }
    ensures cost { steps.new ≤ steps.old + length blocks.now }
{
    let mut place = blocks.len();
    while place > 0 {
        place -= 1;
        let window = *blocks.at(place, steps);
        if meets(&window, from, to) {
            return Some(Found { place, window });
        }
    }
    None
}

/// Where a window that was found stands: among those of one row, or among the others.
#[derive(Clone, Copy)]
pub(crate) enum Place {
    Row(Found),
    Block(Found),
}

/// The one of greater base of those that were found.
pub(crate) fn later(row: Option<Found>, block: Option<Found>) -> Option<Place>
    ensures { MatchOption result ((row ≡ None) × (block ≡ None)) (IsLater row block) }
{
    match row {
        None => Some(Place::Block(block?)),
        Some(r) => match block {
            None => Some(Place::Row(r)),
            Some(b) => {
                if r.window.base < b.window.base {
                    Some(Place::Block(b))
                } else {
                    Some(Place::Row(r))
                }
            }
        },
    }
}
