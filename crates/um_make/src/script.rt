//! The events of a generated session, in order.
ghost use Rattle.std.specs.Prelude.{◌≡◌, ◌≤◌, [], ◌∷◌, MatchOption, IfSome};
ghost use Rattle.um_link.specs.Naming.{spec_event_of};
ghost use Rattle.um_link.specs.Possible.{IsPossibleEvent};
ghost use Rattle.um_make.specs.Generated.{generated_events};

use crate::course::SessionProgress;
use std::marker::Model;
use um_link::Event;
use um_script::Room;

/// The remaining events of a generated session, stored as a position rather than as a list.
#[derive(Drop)]
pub struct Script {
    progress: SessionProgress,
}

// In contracts, a `Script` is the list of remaining events.
impl Model for Script {
    ghost use Rattle.std.specs.Prelude.{List};
    ghost use Rattle.um_link.specs.um_air.Air.{Event};
    ghost use Rattle.um_make.specs.Courses.{remaining_events, HasBoundedTransmissions};

    ghost Value = { List Event };

    ghost view = { λ s. remaining_events s.progress };

    ghost invariant = { λ s. HasBoundedTransmissions s.progress };
}

impl Script {
    /// Creates the script of all events of the generated session with `n` messages (1 to 1000).
    pub fn new(n: u32) -> Script
        requires some { 1 ≤ n }
        requires most { n ≤ 1000 }
        ensures { result ≡ generated_events n }
    {
        Script {
            progress: SessionProgress::new(n),
        }
    }

    /// Returns the next event, whose octets and bit indices are stored in `room`, or `None` after the last.
    pub fn next<'a>(&mut self, room: &'a mut Room) -> Option<Event<'a>>
        ensures event { MatchOption result ((self.old ≡ []) × (self.new ≡ [])) (λ e. self.old ≡ spec_event_of e ∷ self.new) }
        ensures possible { IfSome result (λ e. IsPossibleEvent e) }
    {
        self.progress.next(room)
    }
}
