//! Converts bits to soft bits with full confidence.
ghost use Rattle.std.specs.Prelude.{◌≡◌, ◌≤◌, map, take, drop, All};
ghost use Rattle.bit_blocks.specs.Bits.{AllBits};
ghost use Rattle.bit_blocks.specs.SoftValues.{AllSoftBits};
ghost use Rattle.um_block.specs.Received.{soft_bits};

use burst_map::BURST_BITS;

/// Converts the bits of a burst to soft bits with full confidence: 127 for 0, -127 for 1.
pub fn soften(burst: &[u8; BURST_BITS]) -> [i8; BURST_BITS]
    requires { AllBits burst.now }
    ensures value { result ≡ soft_bits burst.now }
    ensures soft { AllSoftBits result }
{
    let mut soft = [0; BURST_BITS];
    soften_burst_into(burst, &mut soft);
    soft
}

/// Converts the bits of the four bursts of a block to soft bits with full confidence, and writes these to `soft`.
pub fn soften_block(block: &[[u8; BURST_BITS]; 4], soft: &mut [[i8; BURST_BITS]; 4])
    requires { All AllBits block.now }
    ensures value { soft.new ≡ map soft_bits block.now }
    ensures soft { All AllSoftBits soft.new }
{
    for b in 0..4 {
        soften_burst_into(&block[b], &mut soft[b]);
    }
}

// Converts the bits of a burst to soft bits, sixteen at a time. As 148 is not a multiple of sixteen, the last two groups overlap by twelve
// bits: without a remainder of four bits, and written in place, a block takes 190 instructions and a copy less.
fn soften_burst_into(burst: &[u8; BURST_BITS], soft: &mut [i8; BURST_BITS])
    requires { AllBits burst.now }
    ensures value { soft.new ≡ soft_bits burst.now }
    ensures soft { AllSoftBits soft.new }
{
    let mut at = 0;
    while at < 132 {
        soft[at..at + 16].copy_from_slice(&soften_sixteen_bits(burst, at));
        at += 16;
    }
    soft[132..].copy_from_slice(&soften_sixteen_bits(burst, 132));
}

fn soften_sixteen_bits(burst: &[u8; BURST_BITS], at: usize) -> [i8; 16]
    requires { at ≤ 132 }
    ensures { result ≡ soft_bits (take 16 (drop at burst.now)) }
{
    let mut soft = [0; 16];
    for i in 0..16 {
        soft[i] = if burst[at + i] == 0 { 127 } else { -127 };
    }
    soft
}
