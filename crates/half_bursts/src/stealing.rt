//! Writes a block into its halves of the bursts that carry it.
ghost use Rattle.std.specs.Prelude.{◌≡◌, ◌<◌, ◌≤◌, ◌+◌, ℕ, List, length, map, if◌then◌else◌, slice_index_or};
ghost use Rattle.interleave.specs.Bursts.{IsInterleaved};
ghost use Rattle.half_bursts.specs.Halves.{AreCarried, coded_values, half_of_position, joined_block, other_half, stolen, with_half};

use burst_map::BURST_BITS;

// For each position its half: 1 if it is odd, 2 if it is even, 0 if it is of a tail or the training sequence.
static HALF_OF_POSITION: [u8; BURST_BITS] = [
    0, 0, 0, 1, 2, 1, 2, 1, 2, 1, 2, 1, 2, 1, 2, 1, 2, 1, 2, 1, 2, 1, 2, 1, 2, 1, 2, 1, 2, 1, 2, 1,
    2, 1, 2, 1, 2, 1, 2, 1, 2, 1, 2, 1, 2, 1, 2, 1, 2, 1, 2, 1, 2, 1, 2, 1, 2, 1, 2, 1, 2, 0, 0, 0,
    0, 0, 0, 0, 0, 0, 0, 0, 0, 0, 0, 0, 0, 0, 0, 0, 0, 0, 0, 0, 0, 0, 0, 1, 2, 1, 2, 1, 2, 1, 2, 1,
    2, 1, 2, 1, 2, 1, 2, 1, 2, 1, 2, 1, 2, 1, 2, 1, 2, 1, 2, 1, 2, 1, 2, 1, 2, 1, 2, 1, 2, 1, 2, 1,
    2, 1, 2, 1, 2, 1, 2, 1, 2, 1, 2, 1, 2, 1, 2, 1, 2, 0, 0, 0,
];

/// Writes a block of FACCH into its halves of the eight (full rate) or six bursts (half rate) that carry it, with its training sequence and
/// tail bits. The other coded bits and stealing flags stay as they are. Of four bursts all is overwritten.
#[inline]
pub fn steal(block: &[[u8; BURST_BITS]; 4], bursts: &mut [[u8; BURST_BITS]])
    requires at_least { 4 ≤ length bursts.old }
    requires at_most { length bursts.old ≤ 8 }
    ensures value { bursts.new ≡ stolen block.now bursts.old }
    ensures joined { joined_block 0 bursts.new ≡ block.now }
    ensures carried { (coded : List ℕ) → IsInterleaved coded (map coded_values block.now) → AreCarried coded bursts.new }
{
    let count = bursts.len();
    for index in 0..4 {
        steal_burst(count, index, &block[index], &mut bursts[index]);
    }
    for index in 4..count {
        steal_even(count, index, &block[index % 4], &mut bursts[index]);
    }
}

// The other bursts have a loop of their own, whose half is known when it is compiled: a fifth less instructions.
#[inline(always)]
fn steal_burst(count: usize, index: usize, burst: &[u8; BURST_BITS], into: &mut [u8; BURST_BITS])
    requires index { index < 4 }
    ensures value { into.new ≡ with_half (other_half count index) burst.now into.old }
    ensures bits { length burst.now ≡ 148 }
{
    if index + 4 < count {
        write_other_than(2, burst, into);
    } else {
        write_other_than(3, burst, into);
    }
}

#[inline(always)]
fn steal_even(count: usize, index: usize, burst: &[u8; BURST_BITS], into: &mut [u8; BURST_BITS])
    requires index { 4 ≤ index }
    ensures value { into.new ≡ with_half (other_half count index) burst.now into.old }
{
    write_other_than(1, burst, into);
}

/// Overwrites all of a burst but one half: 1 its odd positions, 2 its even ones, 3 none. The first loop has nine times sixteen
/// positions and no remainder: a block takes 320 instructions less than with one loop.
#[inline(always)]
pub fn write_other_than(half: u8, burst: &[u8; BURST_BITS], into: &mut [u8; BURST_BITS])
    ensures value { into.new ≡ with_half half burst.now into.old }
    ensures bits { length burst.now ≡ 148 }
{
    for p in 0..144 {
        into[p] = choose(half_of_position(p) == half, into[p], burst[p]);
    }
    for p in 144..BURST_BITS {
        into[p] = choose(half_of_position(p) == half, into[p], burst[p]);
    }
}

#[inline(always)]
fn half_of_position(p: usize) -> u8
    requires { p < BURST_BITS }
    ensures { result ≡ half_of_position p }
{
    HALF_OF_POSITION[p]
}

// Both are read before one is chosen: so the loop is vectorized.
#[inline(always)]
fn choose(is_first: bool, first: u8, second: u8) -> u8
    ensures { result ≡ (if is_first then first else second) }
{
    if is_first { first } else { second }
}
