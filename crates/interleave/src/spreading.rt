//! Interleaves coded bits with a lookup table of the coded bit at each position.
ghost use Rattle.std.specs.Prelude.{◌≡◌, ℕ, ◌+◌, ◌*◌, ◌<◌, ◌≤◌, List, [], All, length, slice_index};
ghost use Rattle.std.specs.Prelude.{slice_index_or, slice_range};
ghost use Rattle.bit_blocks.specs.Bits.{AllBits};
ghost use Rattle.interleave.specs.Bursts.{IsInterleaved};
ghost use Rattle.interleave.specs.Positions.{burst_of_bit, position_in_burst};

use crate::table::coded_bit_numbers;
use bit_blocks::CODED_BITS;

/// Interleaves 456 coded bits over four bursts of 114.
pub fn spread(coded: &[u8; CODED_BITS]) -> [[u8; 114]; 4]
    ensures interleaved { IsInterleaved coded.now result }
    ensures only { (bursts : List (List ℕ)) → IsInterleaved coded.now bursts → bursts ≡ result }
    ensures bits { AllBits coded.now → All AllBits result }
{
    let mut bursts = [[0; 114]; 4];
    for b in 0..4 {
        bursts[b] = interleaved_bits_of_burst(coded, b);
    }
    bursts
}

/// Writes the coded bits of one half of burst `b`: positions 0 to 56 if `half` is 0, and 57 to 113 if it is 1. It works bit by bit, with
/// the table: vectors would save 5 % of `send_block`, at the cost of ninety more lines of proof.
pub fn spread_burst(coded: &[u8; CODED_BITS], b: usize, half: usize, out: &mut [u8])
    requires burst { b < 4 }
    requires half { half ≤ 1 }
    requires count { length out.old ≡ 57 }
    ensures places { (k i : ℕ) → k < CODED_BITS → burst_of_bit k ≡ b → i < 57 → position_in_burst k ≡ 57 * half + i →
        slice_index out.new i ≡ slice_index coded.now k }
    ensures part { (bursts : List (List ℕ)) → IsInterleaved coded.now bursts →
        out.new ≡ slice_range (slice_index_or bursts b []) (57 * half) (57 * half + 57) }
    ensures bits { AllBits coded.now → AllBits out.new }
{
    for (i, k) in coded_bit_numbers(b, half).iter().enumerate() {
        out[i] = coded[usize::from(*k)];
    }
}

/// The 114 coded bits of burst number `burst_number`, in order of position.
fn interleaved_bits_of_burst(coded: &[u8; CODED_BITS], burst_number: usize) -> [u8; 114]
    requires { burst_number < 4 }
    ensures places { (k : ℕ) → k < CODED_BITS → burst_of_bit k ≡ burst_number →
        slice_index result (position_in_burst k) ≡ slice_index coded.now k }
{
    let mut burst = [0; 114];
    spread_burst(coded, burst_number, 0, &mut burst[..57]);
    spread_burst(coded, burst_number, 1, &mut burst[57..]);
    burst
}
