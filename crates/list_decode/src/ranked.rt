//! The encoder inputs (words) in order of rank, the most likely first.
//!
//! The algorithm is list Viterbi decoding (Seshadri and Sundberg, 1994) with Lawler's partition (1972). A backward pass stores the
//! decisions and losses of all states. Every word not yet returned deviates from a returned word at a position in one of its spans; the
//! best such word follows the survivors afterwards. A walk along a span finds its best deviation; where the word merges with the most
//! likely word, a table gives the best deviation in the rest. The best deviation of all spans produces the next word. The span of this
//! deviation is then split at its position, and the positions after it in the new word form a third span.

ghost use Rattle.std.specs.Prelude.{◌≡◌, ◌↔◌, ◌≤◌, ◌*◌, ◌%◌, ◌++◌, ◌∷◌};
ghost use Rattle.std.specs.Prelude.{[], length, None, IfSome, MatchOption};
ghost use Rattle.weight_bound.specs.conv_code.Code.{encoding, IsEncoderInput};
ghost use Rattle.weight_bound.specs.conv_code.Likelihood.{AllSoftBits, IsMostLikely, likelihood};
ghost use Rattle.list_decode.specs.Ranking.{IsRankingDone, IsRanked};

use crate::MAX_RANK;
use crate::words::RankedWords;
use std::marker::Model;
use trellis_decode::CODED_BITS;

/// A list decoder: returns the encoder inputs for given soft bits in order of rank, at most 64. An input with a greater path metric ranks
/// first; words with equal metrics are in lexicographic order.
#[derive(Drop)]
pub struct ListDecoder {
    words: RankedWords,
}

impl Model for ListDecoder {
    ghost use Rattle.list_decode.specs.Ranking.{Ranking};

    ghost Value = { Ranking };

    ghost use Rattle.list_decode.specs.DecoderInvariant.{IsSoundListDecoder, ranking_of_decoder};

    ghost view = { ranking_of_decoder };

    ghost invariant = { IsSoundListDecoder };
}

impl ListDecoder {
    /// Starts a ranking, with no word returned yet. `soft` must have two soft bits for each of 5 to 228 information bits.
    pub fn new(soft: &[i8]) -> ListDecoder
        requires at_least { 10 ≤ length soft.now }
        requires at_most { length soft.now ≤ CODED_BITS }
        requires pairs { length soft.now % 2 ≡ 0 }
        requires soft { AllSoftBits soft.now }
        ensures soft { result.soft ≡ soft.now }
        ensures returned { result.returned ≡ [] }
    {
        ListDecoder {
            words: RankedWords::new(soft),
        }
    }

    /// Starts a ranking after its first word: `u` is the most likely word, and `metric` its path metric. For a caller that has already
    /// decoded this word.
    pub fn after_first(soft: &[i8], u: &[u8], metric: i32) -> ListDecoder
        requires at_least { 10 ≤ length soft.now }
        requires at_most { length soft.now ≤ CODED_BITS }
        requires soft { AllSoftBits soft.now }
        requires best { IsMostLikely soft.now u.now }
        requires metric { metric ≡ likelihood soft.now (encoding u.now) }
        ensures soft { result.soft ≡ soft.now }
        ensures ranked { IsRanked result.soft result.returned }
        ensures returned { result.returned ≡ u.now ∷ [] }
    {
        ListDecoder {
            words: RankedWords::first_word(soft, u, metric),
        }
    }

    /// Writes the next word to `u` and returns its path metric. Returns `None` if 64 words have been returned or no word is left.
    pub fn next(&mut self, u: &mut [u8]) -> Option<i32>
        requires count { length self.old.soft ≡ 2 * length u.old }
        ensures soft { self.new.soft ≡ self.old.soft }
        ensures ranked { IsRanked self.new.soft self.new.returned }
        ensures returned { MatchOption result ((self.new.returned ≡ self.old.returned) × (u.new ≡ u.old)) (λ value.
            (self.new.returned ≡ self.old.returned ++ u.new ∷ []) × (value ≡ likelihood self.old.soft (encoding u.new))) }
        ensures information { IfSome result (λ _. IsEncoderInput u.new) }
        ensures done { (result ≡ None) ↔ IsRankingDone self.old }
    {
        if self.words.count == 0 {
            return Some(self.words.write_first_word(u));
        }
        if self.words.count == MAX_RANK {
            return None;
        }
        self.words.write_next_word(u)
    }
}
