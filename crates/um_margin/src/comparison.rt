//! Compares the two most likely encoder inputs for soft bits.
ghost use Rattle.std.specs.Prelude.{◌≡◌, ◌*◌, ◌≤◌, length};
ghost use Rattle.um_block.specs.bit_blocks.SoftValues.{AllSoftBits};
ghost use Rattle.um_margin.specs.Compared.{AreTwoMostLikelyWords, compared_words};

use list_decode::{decode, margin};
use std::marker::Model;
use um_block::{Bits, ENCODER_INPUT_BITS};

/// The two most likely words, the difference between their path metrics, and the path metric of the most likely word.
#[derive(Drop)]
pub(crate) struct WordComparison<const N: usize> {
    pub(crate) best: Bits<N>,
    pub(crate) next: Bits<N>,
    pub(crate) margin: i32,
    pub(crate) metric: i32,
}

// In contracts, a `WordComparison` is a `TwoMostLikelyWords` record, for every `N`.
impl<const N: usize> Model for WordComparison<N> {
    ghost use Rattle.um_margin.specs.Compared.{TwoMostLikelyWords};

    ghost Value = { TwoMostLikelyWords };

    ghost view = { λ c. record { best = c.best; next = c.next; margin = c.margin; metric = c.metric } };
}

/// Finds the two most likely words of `N` bits; `soft` holds two soft bits for each bit of a word. Decodes twice, because `margin` does not
/// return the path metric.
pub(crate) fn compare_words<const N: usize>(soft: &[i8]) -> WordComparison<N>
    requires count { length soft.now ≡ 2 * N }
    requires at_least { 5 ≤ N }
    requires at_most { N ≤ ENCODER_INPUT_BITS }
    requires soft { AllSoftBits soft.now }
    ensures compares { AreTwoMostLikelyWords soft.now result }
    ensures value { result ≡ compared_words soft.now }
{
    let mut best = [0; N];
    let mut next = [0; N];
    let metric = decode(soft, &mut best);
    let ahead = margin(soft, &mut best, &mut next);
    WordComparison {
        best: Bits::from_array(best),
        next: Bits::from_array(next),
        margin: ahead,
        metric,
    }
}
