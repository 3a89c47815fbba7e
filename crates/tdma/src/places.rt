//! The place of a frame in the blocks of its time slot, for every frame of the hyperframe.
ghost use Rattle.std.specs.Prelude.{◌≡◌, ◌<◌, ℕ, IfSome, MatchOption};
ghost use Rattle.tdma.specs.Channels.{place_of, position_of, IsNextBlock, BeginsBlock};

use crate::HYPERFRAME;
use crate::channels::{Channel, Combination, Direction};
use crate::schedule::{Position, full_rate_position, half_rate_position, position_in_multiframes};

/// Where the burst of a frame belongs.
#[derive(Clone, Copy, PartialEq, Eq, Debug)]
pub struct Place {
    /// The frame number of the first burst of the block; for FCCH, SCH and RACH that of the burst.
    pub first: u32,
    pub position: Position,
}

/// Returns the place of a frame, or `None` if it carries none of the channels. The time slot, 0 to 7, matters only for a traffic channel.
pub fn place_of_frame(
    combination: Combination,
    direction: Direction,
    timeslot: u8,
    frame: u32,
) -> Option<Place>
    requires timeslot { timeslot < 8 }
    requires within { frame < HYPERFRAME }
    ensures place { result ≡ place_of combination direction timeslot frame }
    ensures burst { IfSome result (λ place. place.position.burst < 4) }
{
    let position = position_of_frame(combination, direction, timeslot, frame)?;
    let back = match combination {
        Combination::TchF | Combination::TchH => 26 * u32::from(position.burst),
        _ => u32::from(position.burst),
    };
    let first = (frame + HYPERFRAME - back) % HYPERFRAME;
    Some(Place { first, position })
}

/// Returns the first frame number, at or after `frame`, of a block (or single burst) of this channel and subchannel: after the last frame
/// of the hyperframe the first follows. Returns `None` if the combination has no such channel in this direction. A block that begins at
/// all begins within 104 frames, so no more are tried.
pub fn next_block(
    combination: Combination,
    direction: Direction,
    timeslot: u8,
    channel: Channel,
    subchannel: u8,
    frame: u32,
) -> Option<u32>
    requires timeslot { timeslot < 8 }
    requires within { frame < HYPERFRAME }
    ensures { MatchOption result
        ((f : ℕ) → f < HYPERFRAME → ¬ BeginsBlock combination direction timeslot channel subchannel f)
        (IsNextBlock combination direction timeslot channel subchannel frame) }
{
    for ahead in 0..104 {
        let candidate = (frame + ahead) % HYPERFRAME;
        if let Some(found) = position_of_frame(combination, direction, timeslot, candidate)
            && found.channel == channel
            && found.subchannel == subchannel
            && found.burst == 0
        {
            return Some(candidate);
        }
    }
    None
}

#[tactic(auto, using(crate::proofs::Cycles::position_at_remainder))]
fn position_of_frame(
    combination: Combination,
    direction: Direction,
    timeslot: u8,
    frame: u32,
) -> Option<Position>
    requires timeslot { timeslot < 8 }
    ensures { result ≡ position_of combination direction timeslot frame }
{
    match combination {
        Combination::TchF => full_rate_position(timeslot, (frame % 104) as u8),
        Combination::TchH => half_rate_position(timeslot, (frame % 104) as u8),
        _ => position_in_multiframes(combination, direction, (frame % 102) as u8),
    }
}
