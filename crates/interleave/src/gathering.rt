//! Deinterleaving: puts the soft bits of the bursts back into the order of the coded bits.
ghost use Rattle.std.specs.Prelude.{◌≡◌, ◌≢◌, ℕ, ℤ, pos, ◌+◌, ◌*◌, ◌/◌, ◌%◌, ◌^◌, ◌<◌, ◌≤◌};
ghost use Rattle.std.specs.Prelude.{◌++◌, List, [], map, length, slice_index, slice_index_or};
ghost use Rattle.std.specs.Int.{cast_signed, w8};
ghost use Rattle.interleave.specs.Bursts.{IsInterleaved, IsBurstDeinterleaved};
ghost use Rattle.interleave.specs.ColumnPositions.{coded_bit_number_in_column, burst_position_of_column_bit};
ghost use Rattle.interleave.specs.Positions.{burst_of_bit, position_in_burst};

use crate::joining::eight_columns;
use crate::table::coded_bit_numbers;
use bit_blocks::CODED_BITS;

/// Deinterleaves four bursts of 114 soft bits each.
pub fn gather(parts: &[[i8; 114]; 4]) -> [i8; CODED_BITS]
    ensures interleaved { IsInterleaved result parts.now }
    ensures only { (coded : List ℤ) → IsInterleaved coded parts.now → coded ≡ result }
{
    let octets = [
        soft_bits_as_octets(&parts[0]),
        soft_bits_as_octets(&parts[1]),
        soft_bits_as_octets(&parts[2]),
        soft_bits_as_octets(&parts[3]),
    ];
    let mut soft = [0; CODED_BITS];
    for group in 0..7 {
        write_columns(&eight_columns(&octets, group), group, &mut soft);
    }
    write_column(&last_column(&octets), 56, &mut soft);
    soft
}

/// Reinterprets soft bits as octets, for vector operations.
fn soft_bits_as_octets(part: &[i8; 114]) -> [u8; 114]
    ensures count { length part.now ≡ 114 }
    ensures value { map (cast_signed w8) result ≡ part.now }
{
    let mut octets = [0; 114];
    for (j, value) in part.iter().enumerate() {
        octets[j] = value.cast_unsigned();
    }
    octets
}

/// Returns the soft bits of column 56, the only column outside the groups of eight.
fn last_column(bursts: &[[u8; 114]; 4]) -> [u8; 8]
    ensures { (r : ℕ) → r < 8 →
        slice_index result r ≡ slice_index (slice_index_or bursts.now (r % 4) []) (burst_position_of_column_bit 56 r) }
{
    [
        bursts[0][112],
        bursts[1][96],
        bursts[2][80],
        bursts[3][64],
        bursts[0][49],
        bursts[1][33],
        bursts[2][17],
        bursts[3][1],
    ]
}

/// Writes the soft bits of eight columns, starting at column `8 * group`.
fn write_columns(columns: &[u64; 8], group: usize, soft: &mut [i8; CODED_BITS])
    requires { group < 7 }
    ensures updated_bits { (s r : ℕ) → s < 8 → r < 8 →
        slice_index_or soft.new (coded_bit_number_in_column (8 * group + s) r) (pos 0)
        ≡ cast_signed w8 (slice_index columns.now s / 256 ^ r % 256) }
    ensures unchanged_bits { (q r : ℕ) → q < 8 * group → r < 8 →
        slice_index_or soft.new (coded_bit_number_in_column q r) (pos 0) ≡ slice_index_or soft.old (coded_bit_number_in_column q r)
        (pos 0) }
{
    for (s, column) in columns.iter().enumerate() {
        write_column(&column.to_le_bytes(), 8 * group + s, soft);
    }
}

/// Writes the eight soft bits of column `q`.
fn write_column(octets: &[u8; 8], q: usize, soft: &mut [i8; CODED_BITS])
    requires { q < 57 }
    ensures updated_bits { (r : ℕ) → r < 8 →
        slice_index_or soft.new (coded_bit_number_in_column q r) (pos 0) ≡ cast_signed w8 (slice_index octets.now r) }
    ensures unchanged_bits { (p r : ℕ) → p < 57 → p ≢ q → r < 8 →
        slice_index_or soft.new (coded_bit_number_in_column p r) (pos 0) ≡ slice_index_or soft.old (coded_bit_number_in_column p r)
        (pos 0) }
{
    let first = 8 * (8 * q % 57);
    for (r, octet) in octets.iter().enumerate() {
        soft[first + r] = octet.cast_signed();
    }
}

/// Deinterleaves one burst: writes the 114 soft bits of burst `b`, given in two halves, to the indexes of their coded bits.
pub fn gather_burst(b: usize, first: &[i8], second: &[i8], soft: &mut [i8; CODED_BITS])
    requires burst { b < 4 }
    requires first { length first.now ≡ 57 }
    requires second { length second.now ≡ 57 }
    ensures { IsBurstDeinterleaved b (first.now ++ second.now) soft.old soft.new }
{
    deinterleave_half_burst(b, 0, first, soft);
    deinterleave_half_burst(b, 1, second, soft);
}

/// Writes one half of burst `b`, 57 soft bits, to the indexes of their coded bits.
fn deinterleave_half_burst(b: usize, half: usize, values: &[i8], soft: &mut [i8; CODED_BITS])
    requires burst { b < 4 }
    requires half { half ≤ 1 }
    requires count { length values.now ≡ 57 }
    ensures updated_bits { (k i : ℕ) → k < CODED_BITS → burst_of_bit k ≡ b → i < 57 → position_in_burst k ≡ 57 * half + i →
        slice_index_or soft.new k (pos 0) ≡ slice_index_or values.now i (pos 0) }
    ensures unchanged_bits { (k : ℕ) → k < CODED_BITS →
        (burst_of_bit k ≡ b → (i : ℕ) → i < 57 → position_in_burst k ≢ 57 * half + i) →
        slice_index_or soft.new k (pos 0) ≡ slice_index_or soft.old k (pos 0) }
{
    for (i, k) in coded_bit_numbers(b, half).iter().enumerate() {
        soft[usize::from(*k)] = values[i];
    }
}
