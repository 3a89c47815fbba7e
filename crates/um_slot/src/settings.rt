//! The settings of a receiver, and the tests of its state and of a frame number.
ghost use Rattle.std.specs.Prelude.{◌≡◌, ◌<◌, ◌≤◌, IfSome, IsSome, MatchOption, None};
ghost use Rattle.tdma.specs.declared.TheConstants.{HYPERFRAME as FRAMES};
ghost use Rattle.um_slot.specs.Slots.{AreInRange, IsPlaceOfSome, block_of_frame, frame_refusal, has_valid_numbers, order_refusal};
ghost use Rattle.um_slot.specs.Slots.{settings_of};

use crate::numbers::{direction_of, is_channel_of_blocks, slot_combination_of};
use crate::slots::{NO_LIMIT, Refusal, Slot};
use tdma::{Combination, Direction, HYPERFRAME, Place, Position, place_of_frame};

/// What a receiver is set to, and the block that it is collecting.
#[derive(Clone, Copy, PartialEq, Eq, Debug)]
pub struct Settings {
    pub combination: Combination,
    pub direction: Direction,
    /// The place of the first burst of the block.
    pub collecting: Option<Place>,
}

/// Returns the place of a frame if it carries a burst of a block of four.
pub(crate) fn block_of_frame(
    combination: Combination,
    direction: Direction,
    timeslot: u8,
    frame: u32,
) -> Option<Place>
    requires timeslot { timeslot < 8 }
    requires within { frame < FRAMES }
    ensures place { result ≡ block_of_frame combination direction timeslot frame }
    ensures burst { IfSome result (λ place. place.position.burst < 4) }
{
    let place = place_of_frame(combination, direction, timeslot, frame)?;
    if is_channel_of_blocks(place.position.channel) {
        Some(place)
    } else {
        None
    }
}

impl Slot {
    /// Returns what the receiver is set to, or `None` if its state is not valid.
    pub fn settings(&self) -> Option<Settings>
        ensures value { result ≡ settings_of self.now }
        ensures timeslot { IsSome result → self.now.timeslot < 8 }
        ensures order { IsSome result → self.now.last ≤ FRAMES }
        ensures decoding { IsSome result → (1 ≤ self.now.words) × (self.now.words ≤ 64) × (self.now.erasures ≤ 4) }
    {
        let (combination, direction) = self.combination_and_direction()?;
        self.settings_beside(combination, direction, &None)
    }

    pub(crate) fn combination_and_direction(&self) -> Option<(Combination, Direction)>
        ensures { MatchOption result (settings_of self.now ≡ None) (λ found. AreInRange self.now found.0 found.1) }
    {
        let combination = slot_combination_of(self.combination)?;
        let direction = direction_of(self.direction)?;
        if self.has_valid_numbers() {
            Some((combination, direction))
        } else {
            None
        }
    }

    /// Returns what the receiver is set to. `place` is the place of any frame.
    pub(crate) fn settings_beside(
        &self,
        combination: Combination,
        direction: Direction,
        place: &Option<Place>,
    ) -> Option<Settings>
        requires numbers { AreInRange self.now combination direction }
        requires place { IsPlaceOfSome combination direction self.now.timeslot place.now }
        ensures value { result ≡ settings_of self.now }
        ensures numbers { IfSome result (λ settings. (settings.combination ≡ combination) × (settings.direction ≡ direction)) }
    {
        if self.first == HYPERFRAME {
            return Some(Settings {
                combination,
                direction,
                collecting: None,
            });
        }
        let first = self.place_of_first(combination, direction, place)?;
        if first.position.burst != 0 {
            return None;
        }
        Some(Settings {
            combination,
            direction,
            collecting: Some(first),
        })
    }

    /// Returns the place of the first frame of the block that is being collected. If `place`, the place of any frame, is in this block, it
    /// tells the first place too, so that no other frame is looked up.
    fn place_of_first(
        &self,
        combination: Combination,
        direction: Direction,
        place: &Option<Place>,
    ) -> Option<Place>
        requires timeslot { self.now.timeslot < 8 }
        requires first { self.now.first < FRAMES }
        requires place { IsPlaceOfSome combination direction self.now.timeslot place.now }
        ensures { result ≡ block_of_frame combination direction self.now.timeslot self.now.first }
    {
        if let Some(place) = place
            && place.first == self.first
        {
            return Some(Place {
                first: place.first,
                position: Position {
                    burst: 0,
                    ..place.position
                },
            });
        }
        block_of_frame(combination, direction, self.timeslot, self.first)
    }

    fn has_valid_numbers(&self) -> bool
        ensures { result ≡ has_valid_numbers self.now }
    {
        self.last <= HYPERFRAME
            && self.first <= HYPERFRAME
            && self.timeslot < 8
            && 1 <= self.words
            && self.words <= 64
            && self.erasures <= 4
            && self.heard <= 4
            && self.limit <= NO_LIMIT
    }

    /// Returns why a frame is refused after the one taken last.
    pub fn frame_refusal(&self, frame: u32) -> Option<Refusal>
        requires { self.now.last ≤ FRAMES }
        ensures { result ≡ frame_refusal self.now frame }
    {
        if frame >= HYPERFRAME {
            return Some(Refusal::NoFrame);
        }
        if self.last == HYPERFRAME {
            return None;
        }
        if self.last == frame {
            return Some(Refusal::Doubled);
        }
        if (frame + HYPERFRAME - self.last) % HYPERFRAME > HYPERFRAME / 2 {
            return Some(Refusal::Late);
        }
        None
    }
}
