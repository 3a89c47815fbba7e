//! The state of a receiver of one time slot, as plain data.
ghost use Rattle.std.specs.Prelude.{IsSome, SomeIff};
ghost use Rattle.um_slot.specs.Slots.{new_slot, settings_of};

use burst_map::BURST_BITS;
use tdma::HYPERFRAME;

/// The limit that every block meets: all training bits of three bursts may be wrong.
pub const NO_LIMIT: u8 = 78;

/// A receiver of one time slot. A caller may copy it, or save and restore it; each call tests it.
#[repr(C)]
#[derive(Clone, Copy, PartialEq, Eq, Debug)]
pub struct Slot {
    /// The frame number taken last, or 2,715,648 if none was.
    pub last: u32,
    /// The frame number of the first burst of the block that is being collected, or 2,715,648 if none is.
    pub first: u32,
    /// The combination of channels, 0 to 3.
    pub combination: u8,
    /// The direction: 0 downlink, 1 uplink.
    pub direction: u8,
    /// The time slot, 0 to 7.
    pub timeslot: u8,
    /// The number of words to try when a block is decoded, 1 to 64.
    pub words: u8,
    /// The number of bursts to erase when a block is decoded, 0 to 4.
    pub erasures: u8,
    /// How many bursts of the block came.
    pub heard: u8,
    /// The bursts of the block, with zeros where none came.
    pub bursts: [[i8; BURST_BITS]; 4],
    /// The greatest sum, 0 to 78, of the wrong training bits of a block's three best bursts with which more than one word is tried.
    pub limit: u8,
}

/// A block whose bursts were collected.
#[derive(Clone, Copy, PartialEq, Eq, Debug)]
pub struct FinishedBlock {
    pub place: tdma::Place,
    /// How many of its bursts came.
    pub heard: u8,
}

/// Why a burst was not taken. The receiver is then as before.
#[derive(Clone, Copy, PartialEq, Eq, Debug)]
pub enum Refusal {
    /// The numbers in the receiver are out of range.
    Invalid,
    /// There is no such frame number.
    NoFrame,
    /// The frame was taken last.
    Doubled,
    /// The frame comes before the one taken last.
    Late,
}

impl Slot {
    /// Returns a receiver that has taken no frame, or `None` if a number is out of range. `words` is 1 to 64, `erasures` 0 to 4.
    pub fn new(
        combination: u8,
        direction: u8,
        timeslot: u8,
        words: u8,
        erasures: u8,
    ) -> Option<Slot>
        ensures { let slot = new_slot combination direction timeslot words erasures in SomeIff result (IsSome (settings_of slot)) slot }
    {
        let slot = Slot {
            last: HYPERFRAME,
            first: HYPERFRAME,
            combination,
            direction,
            timeslot,
            words,
            erasures,
            heard: 0,
            bursts: [[0; BURST_BITS]; 4],
            limit: NO_LIMIT,
        };
        if slot.settings().is_some() {
            Some(slot)
        } else {
            None
        }
    }
}
