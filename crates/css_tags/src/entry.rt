//! Entries of a channel's history.
ghost use Rattle.std.specs.Prelude.{◌≡◌, ◌^◌, ◌<◌};
ghost use Rattle.css_tags.specs.Plans.{bytes_in};
ghost use Rattle.css_tags.specs.Groups.{plan_of};
ghost use Rattle.css_tags.specs.Entries.{line_of};

use crate::group::Group;
use css_base::ChannelLine;
use std::marker::Model;
use std::snapshot::Snapshot;

/// What happens to a tag.
#[derive(Clone, Copy, PartialEq, Eq, Debug)]
pub enum Step {
    /// The worker issues a group on it.
    Issue,
    /// The mover takes the group.
    Out,
    /// The mover has moved all pieces of the group.
    Finished,
    /// The worker collects the group.
    Collected,
}

/// An entry of a channel's history. Contracts see the step, its tag, the seat of the one that made it, and the plan of the
/// tag's group.
#[derive(Drop)]
pub struct ChannelEntry {
    step: Step,
    tag: u32,
    seat: u32,
    bytes: u64,
    group: Snapshot<Group>,
}

impl Model for ChannelEntry {
    ghost use Rattle.std.specs.Prelude.{◌≡◌};
    ghost use Rattle.css_tags.specs.Plans.{bytes_in};
    ghost use Rattle.css_tags.specs.Groups.{plan_of};
    ghost use Rattle.css_tags.specs.Entries.{Entry};

    ghost Value = { Entry };

    ghost view = { λ e. record { step = e.step; tag = e.tag; seat = e.seat; plan = plan_of e.group.value } };

    ghost invariant = { λ e. e.bytes ≡ bytes_in (plan_of e.group.value) };
}

impl ChannelEntry {
    /// The entry of a step that the seat of this number makes with a group on a tag.
    pub(crate) fn new(step: Step, tag: u32, seat: u32, group: &Group) -> ChannelEntry
        ensures { result ≡ record { step = step; tag = tag; seat = seat; plan = plan_of group.now } }
    {
        ChannelEntry {
            step,
            tag,
            seat,
            bytes: group.bytes(),
            group: Snapshot::of(group),
        }
    }

    /// What a trace shows of it.
    pub fn line(&self) -> ChannelLine
        ensures { result ≡ line_of self.now }
    {
        let tag = self.tag;
        match self.step {
            Step::Issue => ChannelLine::Issue {
                tag,
                length: self.bytes,
            },
            Step::Out => ChannelLine::Out { tag },
            Step::Finished => ChannelLine::Finished { tag },
            Step::Collected => ChannelLine::Collected { tag },
        }
    }
}
