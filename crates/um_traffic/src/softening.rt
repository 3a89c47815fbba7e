//! The bursts of a receiver's state as soft bits.
ghost use Rattle.std.specs.Prelude.{◌≡◌, All, map};
ghost use Rattle.burst_map.specs.training_seq.bit_blocks.SoftValues.{AllSoftBits};
ghost use Rattle.um_slot.specs.Slots.{softened};

use burst_map::BURST_BITS;
use um_slot::softened_burst;

/// The values of a receiver's bursts as soft bits: -128 counts as -127.
pub fn soft_bursts(bursts: &[[i8; BURST_BITS]; 8]) -> [[i8; BURST_BITS]; 8]
    ensures value { result ≡ map (map softened) bursts.now }
    ensures soft { All AllSoftBits result }
{
    [
        softened_burst(&bursts[0]),
        softened_burst(&bursts[1]),
        softened_burst(&bursts[2]),
        softened_burst(&bursts[3]),
        softened_burst(&bursts[4]),
        softened_burst(&bursts[5]),
        softened_burst(&bursts[6]),
        softened_burst(&bursts[7]),
    ]
}
