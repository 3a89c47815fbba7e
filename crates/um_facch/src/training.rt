//! The training sequence of all bursts that carry a block.
ghost use Rattle.std.specs.Prelude.{◌≡◌, ◌<◌, ◌≤◌, length, All, nat_lt, if◌then◌else◌};
ghost use Rattle.um_facch.specs.Training.{IsDetectedTsc, midamble_or_zeros, wrong_training_of, wrong_training_of_each};

use burst_map::{BURST_BITS, NormalView};
use training_seq::best_of_eight;

/// The greatest number of bursts that carry a block.
pub const MAX_BURSTS: usize = 8;

/// The training sequence of the bursts that carry a block, and the errors in it.
#[derive(Clone, Copy, PartialEq, Eq, Debug)]
pub struct TrainingErrors {
    /// The training sequence code with the greatest total correlation, 0 to 7.
    pub tsc: u8,
    /// For each burst, the number of soft bits, 0 to 26, that disagree with the training sequence; 0 where there is no burst.
    pub wrong: [u8; MAX_BURSTS],
}

/// Detects the training sequence of the bursts that carry a block, and counts the wrong training bits of each.
pub fn detect_training(bursts: &[[i8; BURST_BITS]]) -> TrainingErrors
    ensures tsc { IsDetectedTsc bursts.now result.tsc }
    ensures wrong { result.wrong ≡ wrong_training_of_each bursts.now result.tsc }
    ensures few { All (λ wrong. wrong ≤ 26) result.wrong }
{
    let (tsc, [a, b, c, d], [e, f, g, h]) = best_of_eight(
        &midamble_of(bursts, 0),
        &midamble_of(bursts, 1),
        &midamble_of(bursts, 2),
        &midamble_of(bursts, 3),
        &midamble_of(bursts, 4),
        &midamble_of(bursts, 5),
        &midamble_of(bursts, 6),
        &midamble_of(bursts, 7),
    );
    let count = bursts.len();
    TrainingErrors {
        tsc,
        wrong: [
            if_below(0, count, a),
            if_below(1, count, b),
            if_below(2, count, c),
            if_below(3, count, d),
            if_below(4, count, e),
            if_below(5, count, f),
            if_below(6, count, g),
            if_below(7, count, h),
        ],
    }
}

fn midamble_of(bursts: &[[i8; BURST_BITS]], index: usize) -> [i8; 26]
    ensures { result ≡ midamble_or_zeros bursts.now index }
{
    let mut midamble = [0; 26];
    if index < bursts.len() {
        midamble.copy_from_slice(NormalView::new(&bursts[index]).training());
    }
    midamble
}

#[inline(always)]
fn if_below(index: usize, count: usize, number: u8) -> u8
    ensures { result ≡ (if nat_lt index count then number else 0) }
{
    if index < count { number } else { 0 }
}
