//! Laws of a receiver and a sender of a traffic channel: a law is a function with an empty body whose contract states a theorem.
ghost use Rattle.std.specs.Prelude.{◌≡◌, ◌≢◌, ◌<◌, ◌≤◌, ◌++◌, ℕ, List, [], All, Option, Some};
ghost use Rattle.std.specs.Prelude.{length, map, slice_index_or};
ghost use Rattle.half_bursts.specs.Halves.{AreCarried, coded_values, half_of_position, joined_block};
ghost use Rattle.half_bursts.specs.interleave.Bursts.{IsInterleaved};
ghost use Rattle.um_slot.specs.Recordings.{Frame};
ghost use Rattle.um_traffic.specs.Receivers.{new_traffic, traffic_settings_of};
ghost use Rattle.um_traffic.specs.Recordings.{AreReportsOf, Follow, Hears, HearsEnds, Report, numbered};
ghost use Rattle.um_traffic.specs.Senders.{SendsBlock};

use crate::receivers::{Heard, Traffic};
use crate::senders::TrafficSender;
use crate::settings::TrafficSettings;

/// Law: of each block of FACCH of which a burst came or was missed a receiver gives one report, in order, with the bursts that came. It has
/// taken no frame before; the frames that it refuses change nothing, and are none of these. The receiver of the SACCH takes its own frames
/// between the calls.
pub fn law_each_facch_is_reported_once()
    ensures { (old mid new : Traffic) (settings : TrafficSettings) (start : ℕ) (answers : List (Option Heard)) (frames : List Frame)
        (reports last : List Report) →
        traffic_settings_of old ≡ Some settings → old ≡ new_traffic old.sacch old.channel →
        8 ≤ start → Follow settings.channel start (numbered settings.channel frames) →
        Hears old answers frames reports mid → HearsEnds mid last new →
        AreReportsOf settings (numbered settings.channel frames) 0 (reports ++ last) }
{}

/// Law: a block that waits when the first of its frames is asked for is carried by the bursts of its frames, whatever was given before and
/// is given between: its coded bits are at their places of the standard, and joined the bursts have its coded bits and stealing flags.
pub fn law_given_block_is_carried()
    ensures halves { (sender : TrafficSender) (bursts : List (List ℕ)) (b p : ℕ) → SendsBlock sender bursts →
        b < 4 → p < 148 → half_of_position p ≢ 0 →
        slice_index_or (slice_index_or (joined_block 0 bursts) b []) p 0 ≡
        slice_index_or (slice_index_or sender.waiting.bursts b []) p 0 }
    ensures carried { (sender : TrafficSender) (bursts : List (List ℕ)) (coded : List ℕ) → SendsBlock sender bursts →
        length sender.waiting.bursts ≡ 4 → All (λ burst. length burst ≡ 148) sender.waiting.bursts →
        IsInterleaved coded (map coded_values sender.waiting.bursts) → AreCarried coded bursts }
{}
