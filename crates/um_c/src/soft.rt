//! Checks soft values that come from C.
ghost use Rattle.std.specs.Prelude.{◌↔◌, All, IsTrue};
ghost use Rattle.um_block.specs.bit_blocks.Bits.{AllBits};
ghost use Rattle.um_block.specs.bit_blocks.SoftValues.{AllSoftBits, IsSoftBit};

use um_block::BURST_BITS;

/// Returns whether all values are soft bits, that is, none is -128. The loop takes the least value and never ends early, so that the
/// compiler can compare sixteen values at a time.
pub(crate) fn are_soft_bits(values: &[i8]) -> bool
    ensures { IsTrue result ↔ AllSoftBits values.now }
{
    let mut least = 0;
    for value in values {
        least = least.min(*value);
    }
    is_soft_bit(least)
}

#[inline]
fn is_soft_bit(value: i8) -> bool
    ensures { IsTrue result ↔ IsSoftBit value }
{
    value != i8::MIN
}

pub(crate) fn are_soft_bursts(bursts: &[[i8; BURST_BITS]; 4]) -> bool
    ensures { IsTrue result ↔ All AllSoftBits bursts.now }
{
    are_soft_rows(bursts)
}

#[inline(always)]
pub(crate) fn are_soft_rows(bursts: &[[i8; BURST_BITS]]) -> bool
    ensures { IsTrue result ↔ All AllSoftBits bursts.now }
{
    are_soft_bits(bursts.as_flattened())
}

/// Returns whether all octets of some bursts are bits.
#[inline(always)]
pub(crate) fn are_bit_rows(bursts: &[[u8; BURST_BITS]]) -> bool
    ensures { IsTrue result ↔ All AllBits bursts.now }
{
    are_bits(bursts.as_flattened())
}

// Never ends early, so that sixteen octets are compared at a time.
fn are_bits(values: &[u8]) -> bool
    ensures { IsTrue result ↔ AllBits values.now }
{
    let mut are = true;
    for value in values {
        are &= *value < 2;
    }
    are
}
