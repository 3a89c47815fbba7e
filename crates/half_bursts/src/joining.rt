//! Joins the halves of received bursts to the four bursts of a block.
ghost use Rattle.std.specs.Prelude.{◌≡◌, ◌<◌, ◌≤◌, ℤ, pos, List, [], All, length, map, if◌then◌else◌};
ghost use Rattle.std.specs.Prelude.{slice_index_or};
ghost use Rattle.bit_blocks.specs.SoftValues.{AllSoftBits};
ghost use Rattle.interleave.specs.Bursts.{IsInterleaved};
ghost use Rattle.half_bursts.specs.Halves.{AreCarried, coded_values, joined_block, joined_burst, partner};

use burst_map::BURST_BITS;

/// The four bursts of a block of FACCH, of which each of eight (full rate) or six bursts (half rate) carries a half or both: only these are
/// read, and of the training sequences and tail bits the same positions. Of four bursts it is these.
#[inline]
pub fn join(bursts: &[[i8; BURST_BITS]]) -> [[i8; BURST_BITS]; 4]
    requires at_least { 4 ≤ length bursts.now }
    requires at_most { length bursts.now ≤ 8 }
    requires soft { All AllSoftBits bursts.now }
    ensures value { result ≡ joined_block (pos 0) bursts.now }
    ensures soft { All AllSoftBits result }
    ensures carried { (coded : List ℤ) → IsInterleaved coded (map coded_values result) → AreCarried coded bursts.now }
    ensures only { (coded : List ℤ) → AreCarried coded bursts.now → IsInterleaved coded (map coded_values result) }
{
    [
        joined_burst(&bursts[0], &bursts[partner(bursts.len(), 0)]),
        joined_burst(&bursts[1], &bursts[partner(bursts.len(), 1)]),
        joined_burst(&bursts[2], &bursts[partner(bursts.len(), 2)]),
        joined_burst(&bursts[3], &bursts[partner(bursts.len(), 3)]),
    ]
}

#[inline(always)]
fn partner(count: usize, index: usize) -> usize
    requires index { index < 4 }
    requires count { 4 ≤ count }
    ensures value { result ≡ partner count index }
    ensures within { result < count }
{
    if index + 4 < count { index + 4 } else { index }
}

fn joined_burst(odd: &[i8; BURST_BITS], even: &[i8; BURST_BITS]) -> [i8; BURST_BITS]
    requires odd { AllSoftBits odd.now }
    requires even { AllSoftBits even.now }
    ensures value { result ≡ joined_burst (pos 0) odd.now even.now }
    ensures soft { AllSoftBits result }
    ensures counts { (length odd.now ≡ 148) × (length even.now ≡ 148) }
{
    let mut joined = [0; BURST_BITS];
    for p in 0..BURST_BITS {
        joined[p] = choose(p % 2 == 1, odd[p], even[p]);
    }
    joined
}

// Both are read before one is chosen: so the loop is vectorized.
#[inline(always)]
fn choose(is_first: bool, first: i8, second: i8) -> i8
    ensures { result ≡ (if is_first then first else second) }
{
    if is_first { first } else { second }
}
