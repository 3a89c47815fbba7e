//! The choice of a training sequence by correlation (this project's own rule): the midambles of four bursts are added element by element,
//! and the sums are correlated with each of the eight sequences.
ghost use Rattle.std.specs.Prelude.{◌≡◌, ◌+◌, ◌<◌, ◌≤◌, ◌+ℤ◌, length, All};
ghost use Rattle.training_seq.specs.Choice.{IsFirstMaximum, IsBestCorrelatedTsc, total_correlation, wrong_bits_of_midambles};
ghost use Rattle.training_seq.specs.Choice.{wrong_midamble_bits};
ghost use Rattle.bit_blocks.specs.SoftValues.{likelihood};
ghost use Rattle.training_seq.specs.Ranges.{IsMagnitudeWithin};
ghost use Rattle.training_seq.specs.Sequences.{midamble};
ghost use Rattle.training_seq.specs.Sums.{vector_sum, soft_bit_at, wrong_bits_at};

use crate::correlation::{correlate_sums, times_sign};
use crate::sequences::signs;

/// Returns the training sequence code with the greatest total correlation with the midambles of four bursts, and the number of their 104
/// soft bits that disagree with this sequence.
pub fn best(a: &[i8], b: &[i8], c: &[i8], d: &[i8]) -> (u8, u32)
    requires a { length a.now ≡ 26 }
    requires b { length b.now ≡ 26 }
    requires c { length c.now ≡ 26 }
    requires d { length d.now ≡ 26 }
    ensures tsc { IsBestCorrelatedTsc a.now b.now c.now d.now result.0 }
    ensures wrong { result.1 ≡ wrong_midamble_bits a.now b.now c.now d.now result.0 }
{
    let (tsc, [of_a, of_b, of_c, of_d]) = best_of_bursts(a, b, c, d);
    let wrong = u32::from(of_a) + u32::from(of_b) + u32::from(of_c) + u32::from(of_d);
    (tsc, wrong)
}

/// Returns the training sequence code as `best` does, and for each burst the number of its 26 soft bits that disagree with this sequence.
/// It serves `um_erasing`: to count them apart cost 15 instructions more for a block.
#[inline]
pub fn best_of_bursts(a: &[i8], b: &[i8], c: &[i8], d: &[i8]) -> (u8, [u8; 4])
    requires a { length a.now ≡ 26 }
    requires b { length b.now ≡ 26 }
    requires c { length c.now ≡ 26 }
    requires d { length d.now ≡ 26 }
    ensures tsc { IsBestCorrelatedTsc a.now b.now c.now d.now result.0 }
    ensures within { result.0 ≤ 7 }
    ensures wrong { result.1 ≡ wrong_bits_of_midambles a.now b.now c.now d.now result.0 }
    ensures few { All (λ wrong. wrong ≤ 26) result.1 }
{
    let tsc = most_correlated_tsc(&add_midambles(a, b, c, d));
    (tsc, count_wrong_training_bits(a, b, c, d, tsc))
}

/// Returns the training sequence code with the greatest total correlation with the midambles of eight bursts, and for each of them the
/// number of its 26 soft bits that disagree with this sequence. It serves `um_facch`.
pub fn best_of_eight(
    a: &[i8],
    b: &[i8],
    c: &[i8],
    d: &[i8],
    e: &[i8],
    f: &[i8],
    g: &[i8],
    h: &[i8],
) -> (u8, [u8; 4], [u8; 4])
    requires a { length a.now ≡ 26 }
    requires b { length b.now ≡ 26 }
    requires c { length c.now ≡ 26 }
    requires d { length d.now ≡ 26 }
    requires e { length e.now ≡ 26 }
    requires f { length f.now ≡ 26 }
    requires g { length g.now ≡ 26 }
    requires h { length h.now ≡ 26 }
    ensures tsc { IsFirstMaximum
        (λ tsc. total_correlation a.now b.now c.now d.now tsc +ℤ total_correlation e.now f.now g.now h.now tsc) 7 result.0 }
    ensures within { result.0 ≤ 7 }
    ensures wrong { result.1 ≡ wrong_bits_of_midambles a.now b.now c.now d.now result.0 }
    ensures wrong_later { result.2 ≡ wrong_bits_of_midambles e.now f.now g.now h.now result.0 }
    ensures few { All (λ wrong. wrong ≤ 26) result.1 }
    ensures few_later { All (λ wrong. wrong ≤ 26) result.2 }
{
    let tsc = most_correlated_tsc(&add_sums(
        &add_midambles(a, b, c, d),
        &add_midambles(e, f, g, h),
    ));
    (
        tsc,
        count_wrong_training_bits(a, b, c, d, tsc),
        count_wrong_training_bits(e, f, g, h, tsc),
    )
}

fn add_sums(first: &[i16; 26], later: &[i16; 26]) -> [i16; 26]
    requires first { All (IsMagnitudeWithin 512) first.now }
    requires later { All (IsMagnitudeWithin 512) later.now }
    ensures value { result ≡ vector_sum first.now later.now }
    ensures small { All (IsMagnitudeWithin 1024) result }
{
    let mut sums = [0; 26];
    for i in 0..26 {
        sums[i] = sum_of_two(first[i], later[i]);
    }
    sums
}

fn sum_of_two(a: i16, b: i16) -> i16
    requires a { IsMagnitudeWithin 512 a }
    requires b { IsMagnitudeWithin 512 b }
    ensures value { result ≡ a +ℤ b }
    ensures small { IsMagnitudeWithin 1024 result }
{
    a + b
}

// Adds the four midambles element by element, so that each sequence is correlated only once. If this function were inlined, the compiler
// would not vectorize the loop.
#[inline(never)]
fn add_midambles(a: &[i8], b: &[i8], c: &[i8], d: &[i8]) -> [i16; 26]
    requires a { length a.now ≡ 26 }
    requires b { length b.now ≡ 26 }
    requires c { length c.now ≡ 26 }
    requires d { length d.now ≡ 26 }
    ensures value { result ≡ vector_sum (vector_sum (vector_sum a.now b.now) c.now) d.now }
    ensures small { All (IsMagnitudeWithin 512) result }
{
    let mut sums = [0; 26];
    for i in 0..26 {
        sums[i] = midamble_sum_at(a, b, c, d, i);
    }
    sums
}

fn midamble_sum_at(a: &[i8], b: &[i8], c: &[i8], d: &[i8], i: usize) -> i16
    requires a { i < length a.now }
    requires b { i < length b.now }
    requires c { i < length c.now }
    requires d { i < length d.now }
    ensures value { result ≡ ((soft_bit_at a.now i +ℤ soft_bit_at b.now i) +ℤ soft_bit_at c.now i) +ℤ soft_bit_at d.now i }
    ensures small { IsMagnitudeWithin 512 result }
{
    i16::from(a[i]) + i16::from(b[i]) + i16::from(c[i]) + i16::from(d[i])
}

// Of equal correlations the lowest code wins, since a later one must be greater.
fn most_correlated_tsc(sums: &[i16; 26]) -> u8
    requires small { All (IsMagnitudeWithin 1024) sums.now }
    ensures { IsFirstMaximum (λ tsc. likelihood sums.now (midamble tsc)) 7 result }
{
    let totals = correlate_sums(sums);
    let mut best = 0;
    let mut greatest = totals[0];
    for tsc in 1..8 {
        let total = totals[tsc as usize];
        if total > greatest {
            best = tsc;
            greatest = total;
        }
    }
    best
}

// One loop over all four is vectorized better than four.
fn count_wrong_training_bits(a: &[i8], b: &[i8], c: &[i8], d: &[i8], tsc: u8) -> [u8; 4]
    requires a { length a.now ≡ 26 }
    requires b { length b.now ≡ 26 }
    requires c { length c.now ≡ 26 }
    requires d { length d.now ≡ 26 }
    requires tsc_in_range { tsc ≤ 7 }
    ensures value { result ≡ wrong_bits_of_midambles a.now b.now c.now d.now tsc }
    ensures few { All (λ wrong. wrong ≤ 26) result }
{
    let signs = signs(tsc);
    let (mut of_a, mut of_b, mut of_c, mut of_d) = (0, 0, 0, 0);
    for (i, sign) in signs.iter().enumerate() {
        of_a += wrong_bits_at(a, i, *sign);
        of_b += wrong_bits_at(b, i, *sign);
        of_c += wrong_bits_at(c, i, *sign);
        of_d += wrong_bits_at(d, i, *sign);
    }
    [of_a as u8, of_b as u8, of_c as u8, of_d as u8]
}

// Results and signs both have 16 bits, so that a vector holds eight of either.
fn wrong_bits_at(midamble: &[i8], bit_index: usize, sign: i16) -> u16
    requires within { bit_index < length midamble.now }
    requires sign { IsMagnitudeWithin 1 sign }
    ensures value { result ≡ wrong_bits_at midamble.now bit_index sign }
    ensures bit { result ≤ 1 }
{
    u16::from(times_sign(i16::from(midamble[bit_index]), sign) <= 0)
}
