//! Gathers eight columns at once. A row has one octet of each column, in the order of the columns, so eight columns are the transpose of
//! eight rows. Octets are joined into pairs, pairs into fours, and fours into the eight octets of a column.
ghost use Rattle.std.specs.Prelude.{◌≡◌, ℕ, ◌+◌, ◌*◌, ◌/◌, ◌%◌, ◌^◌, ◌<◌, ◌≤◌, [], length};
ghost use Rattle.std.specs.Prelude.{slice_index, slice_index_or};
ghost use Rattle.interleave.specs.ColumnPositions.{burst_position_of_column_bit};

use std::simd::prelude::*;

/// Returns eight columns, starting at column `8 * column_group`. Each is one number whose least significant octet belongs to row 0. Three
/// steps, each of which joins lanes in pairs, transpose eight rows of eight octets.
pub(crate) fn eight_columns(bursts: &[[u8; 114]; 4], column_group: usize) -> [u64; 8]
    requires { column_group < 7 }
    ensures { (s r : ℕ) → s < 8 → r < 8 →
        slice_index result s / 256 ^ r % 256
        ≡ slice_index (slice_index_or bursts.now (r % 4) []) (burst_position_of_column_bit (8 * column_group + s) r) }
{
    let (a, b) = join_octet_pairs(
        join_lower_octets(
            octet_pairs(&bursts[0], column_index_in_row(column_group, 0)),
            octet_pairs(&bursts[1], column_index_in_row(column_group, 1)),
        ),
        join_lower_octets(
            octet_pairs(&bursts[2], column_index_in_row(column_group, 2)),
            octet_pairs(&bursts[3], column_index_in_row(column_group, 3)),
        ),
    );
    let (c, d) = join_octet_pairs(
        join_upper_octets(
            octet_pairs(&bursts[0], column_index_in_row(column_group, 4)),
            octet_pairs(&bursts[1], column_index_in_row(column_group, 5)),
        ),
        join_upper_octets(
            octet_pairs(&bursts[2], column_index_in_row(column_group, 6)),
            octet_pairs(&bursts[3], column_index_in_row(column_group, 7)),
        ),
    );
    let [first, second, third, fourth] = join_octet_fours(a, c);
    let [fifth, sixth, seventh, eighth] = join_octet_fours(b, d);
    [first, second, third, fourth, fifth, sixth, seventh, eighth]
}

/// The index of column `8 * column_group` in row number `row`.
fn column_index_in_row(column_group: usize, row: usize) -> usize
    requires group { column_group < 7 }
    requires row { row < 8 }
    ensures place { result ≡ (8 * column_group + 49 * row) % 57 }
    ensures space { result ≤ 49 }
{
    if column_group >= row {
        8 * (column_group - row)
    } else {
        57 - 8 * (row - column_group)
    }
}

/// Reads eight pairs of octets of a burst into 16-bit lanes; in each lane, the octet at the even position is the lower half.
fn octet_pairs(part: &[u8], from: usize) -> u16x8
    requires { 2 * from + 16 ≤ length part.now }
    ensures count { length result ≡ 8 }
    ensures even { (s : ℕ) → s < 8 → slice_index result s % 256 ≡ slice_index part.now (2 * (from + s)) }
    ensures odd { (s : ℕ) → s < 8 → slice_index result s / 256 % 256 ≡ slice_index part.now (2 * (from + s) + 1) }
{
    u16x8::from_le_bytes(u8x16::from_slice(&part[2 * from..2 * from + 16]))
}

/// Joins the lower octets of `x` and `y` in each lane; the octet of `x` becomes the lower half.
fn join_lower_octets(x: u16x8, y: u16x8) -> u16x8
    requires x { length x ≡ 8 }
    requires y { length y ≡ 8 }
    ensures count { length result ≡ 8 }
    ensures each { (s : ℕ) → s < 8 → slice_index result s ≡ slice_index x s % 256 + 256 * (slice_index y s % 256) }
{
    (x & u16x8::splat(255)) + (y << u16x8::splat(8))
}

/// Joins the upper octets of `x` and `y` in each lane; the octet of `x` becomes the lower half.
fn join_upper_octets(x: u16x8, y: u16x8) -> u16x8
    requires x { length x ≡ 8 }
    requires y { length y ≡ 8 }
    ensures count { length result ≡ 8 }
    ensures each { (s : ℕ) → s < 8 → slice_index result s ≡ slice_index x s / 256 % 256 + 256 * (slice_index y s / 256 % 256) }
{
    (x >> u16x8::splat(8)) + (y & u16x8::splat(0xff00))
}

/// Joins each lane of `x` (the lower half) with the lane of `y` at the same index (the upper half). Returns the first four lanes and the
/// last four.
fn join_octet_pairs(x: u16x8, y: u16x8) -> (u32x4, u32x4)
    requires x { length x ≡ 8 }
    requires y { length y ≡ 8 }
    ensures first_count { length result.0 ≡ 4 }
    ensures last_count { length result.1 ≡ 4 }
    ensures first { (s : ℕ) → s < 4 → slice_index result.0 s ≡ slice_index x s + 65536 * slice_index y s }
    ensures last { (s : ℕ) → s < 4 → slice_index result.1 s ≡ slice_index x (4 + s) + 65536 * slice_index y (4 + s) }
{
    let first = x.shuffle::<8>(y, [0, 8, 1, 9, 2, 10, 3, 11]);
    let last = x.shuffle::<8>(y, [4, 12, 5, 13, 6, 14, 7, 15]);
    (
        u32x4::from_le_bytes(first.to_le_bytes()),
        u32x4::from_le_bytes(last.to_le_bytes()),
    )
}

/// Joins each lane of `x` (the lower half) with the lane of `y` at the same index (the upper half).
fn join_octet_fours(x: u32x4, y: u32x4) -> [u64; 4]
    requires x { length x ≡ 4 }
    requires y { length y ≡ 4 }
    ensures { (s : ℕ) → s < 4 → slice_index result s ≡ slice_index x s + 2 ^ 32 * slice_index y s }
{
    let first = x.shuffle::<4>(y, [0, 4, 1, 5]);
    let last = x.shuffle::<4>(y, [2, 6, 3, 7]);
    let [a, b] = u64x2::from_le_bytes(first.to_le_bytes()).to_array();
    let [c, d] = u64x2::from_le_bytes(last.to_le_bytes()).to_array();
    [a, b, c, d]
}
