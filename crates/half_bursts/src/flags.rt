//! The stealing flags of a received block.
ghost use Rattle.std.specs.Prelude.{◌≡◌, ◌≤◌, neg_ℤ, pos, ◌≤ℤ◌, ◌+ℤ◌};
ghost use Rattle.half_bursts.specs.Halves.{flags_of_burst, stealing_flags, stealing_sum, wrong_flags};

use bit_blocks::count_wrong_bits;
use burst_map::BURST_BITS;

/// The sum of the eight stealing flags of a joined block, as soft bits, -1024 to 1016: negative if they rather say that the block is FACCH.
#[inline]
pub fn stealing_sum(block: &[[i8; BURST_BITS]; 4]) -> i16
    ensures { result ≡ stealing_sum block.now }
{
    flags_of_bursts(&block[0], &block[1]) + flags_of_bursts(&block[2], &block[3])
}

/// How many of the eight stealing flags of a joined block do not say that it is FACCH. A soft bit of 0 does not.
#[inline]
pub fn wrong_flags(block: &[[i8; BURST_BITS]; 4]) -> u8
    ensures value { result ≡ wrong_flags block.now }
    ensures few { result ≤ 8 }
{
    count_wrong_bits(&stealing_flags(block), &[1; 8]) as u8
}

fn stealing_flags(block: &[[i8; BURST_BITS]; 4]) -> [i8; 8]
    ensures { result ≡ stealing_flags block.now }
{
    [
        block[0][60],
        block[0][87],
        block[1][60],
        block[1][87],
        block[2][60],
        block[2][87],
        block[3][60],
        block[3][87],
    ]
}

fn flags_of_bursts(first: &[i8; BURST_BITS], second: &[i8; BURST_BITS]) -> i16
    ensures value { result ≡ flags_of_burst first.now +ℤ flags_of_burst second.now }
    ensures least { neg_ℤ (pos 512) ≤ℤ result }
    ensures greatest { result ≤ℤ pos 512 }
{
    flags_of_burst(first) + flags_of_burst(second)
}

fn flags_of_burst(burst: &[i8; BURST_BITS]) -> i16
    ensures value { result ≡ flags_of_burst burst.now }
    ensures least { neg_ℤ (pos 256) ≤ℤ result }
    ensures greatest { result ≤ℤ pos 256 }
{
    i16::from(burst[60]) + i16::from(burst[87])
}
