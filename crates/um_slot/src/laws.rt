//! Laws of a receiver of a time slot: a law is a function with an empty body whose contract states a theorem.
ghost use Rattle.std.specs.Prelude.{◌≡◌, ◌≤◌, ◌++◌, ℕ, List, Some};
ghost use Rattle.um_slot.specs.Recordings.{AreOfRecording, Follow, Frame, Hears, HearsEnd, Report, placed};
ghost use Rattle.um_slot.specs.Slots.{settings_of};

use crate::settings::Settings;
use crate::slots::Slot;
use tdma::HYPERFRAME;

/// Law: of each block of which a frame was taken or missed a receiver gives one report, in order, with the bursts that came. It has taken
/// no frame before; the frames that it refuses change nothing, and are none of these.
pub fn law_each_block_is_reported_once()
    ensures { (old mid new : Slot) (settings : Settings) (start : ℕ) (frames : List Frame) (reports last : List Report) →
        settings_of old ≡ Some settings → old.first ≡ HYPERFRAME → HYPERFRAME ≤ start →
        Follow start (placed settings old.timeslot frames) → Hears old frames reports mid → HearsEnd mid last new →
        AreOfRecording settings old.timeslot 0 frames (reports ++ last) }
{}
