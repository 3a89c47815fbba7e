//! The values of a receiver's state as soft bits.
ghost use Rattle.std.specs.Prelude.{◌≡◌, All, map};
ghost use Rattle.burst_map.specs.training_seq.bit_blocks.SoftValues.{AllSoftBits, IsSoftBit};
ghost use Rattle.um_slot.specs.Slots.{softened};

use burst_map::BURST_BITS;

/// The values of a receiver's state as soft bits: -128 counts as -127.
pub fn softened(bursts: &[[i8; BURST_BITS]; 4]) -> [[i8; BURST_BITS]; 4]
    ensures value { result ≡ map (map softened) bursts.now }
    ensures soft { All AllSoftBits result }
{
    [
        softened_burst(&bursts[0]),
        softened_burst(&bursts[1]),
        softened_burst(&bursts[2]),
        softened_burst(&bursts[3]),
    ]
}

/// The same of one burst.
pub fn softened_burst(burst: &[i8; BURST_BITS]) -> [i8; BURST_BITS]
    ensures value { result ≡ map softened burst.now }
    ensures soft { AllSoftBits result }
{
    let mut soft = [0; BURST_BITS];
    for (i, value) in burst.iter().enumerate() {
        soft[i] = softened_value(*value);
    }
    soft
}

#[inline]
fn softened_value(value: i8) -> i8
    ensures value { result ≡ softened value }
    ensures soft { IsSoftBit result }
{
    value.max(-127)
}
