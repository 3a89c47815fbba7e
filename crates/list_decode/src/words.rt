//! The returned words, and what is needed to find the next one. Every word but the first is stored as a deviation from an earlier word, and
//! is written out only when needed.

ghost use Rattle.std.specs.Prelude.{◌≡◌, ◌≤◌, ◌<◌, ◌+◌, ◌*◌, ◌%◌, ◌++◌, ◌∷◌, [], List, ℕ};
ghost use Rattle.std.specs.Prelude.{take, drop, length, IfSome, MatchOption, slice_index_or};
ghost use Rattle.weight_bound.specs.conv_code.Code.{encoding};
ghost use Rattle.weight_bound.specs.conv_code.Likelihood.{AllSoftBits, IsMostLikely, likelihood};
ghost use Rattle.list_decode.specs.Partitioning.{IsNextRankedWord};
ghost use Rattle.list_decode.specs.Passes.{soft_bits_of_pass};
ghost use Rattle.list_decode.specs.Ranking.{IsRankingDone};
ghost use Rattle.list_decode.specs.Words.{DeviatesAtSamePosition, IsChainOfDeviations, IsRanking, IsRankingSoFar, open_branches};
ghost use Rattle.list_decode.specs.Words.{ranking_of, returned_words};

use crate::MAX_RANK;
use crate::branch::{Deviation, WordBranch, WordSpan};
use crate::deviation::DeviationPoint;
use crate::partitioning::{NextWord, find_next_word};
use crate::pass::ViterbiPass;
use trellis_decode::{CODED_BITS, ENCODER_INPUT_BITS, decode};

/// The returned words, numbered from 0 in order of rank; the backward pass from which they are read; and the branches, which hold all words
/// not returned yet. The first word needs no backward pass, so it runs before the second.
#[derive(Drop)]
pub(crate) struct RankedWords {
    pub(crate) pass: ViterbiPass,
    /// The bits of word 0, which is the most likely word, padded with zeros.
    pub(crate) first_word: [u8; ENCODER_INPUT_BITS],
    pub(crate) first_metric: i32,
    /// Entry `k` describes how word `k + 1` deviates from an earlier word.
    pub(crate) deviations: [Deviation; 63],
    pub(crate) count: usize,
    /// One branch for the first word, and two more for each word after it, so that 64 words need at most 127 and none is dropped.
    pub(crate) branches: [WordBranch; 127],
}

const UNUSED_DEVIATION: Deviation = Deviation {
    metric: 0,
    point: DeviationPoint {
        index: 0,
        state: 0,
        bit: 0,
    },
    word_index: 0,
};

const UNUSED_BRANCH: WordBranch = WordBranch {
    span: WordSpan {
        metric: 0,
        word_index: 0,
        from: 0,
        to: 0,
        state: 0,
    },
    best: None,
    metric: 0,
};

/// A chain of word numbers, in `word_indices` from index `start` on. Each word deviates from its predecessor, and the first from word 0.
#[derive(Clone, Copy)]
struct DeviationChain {
    word_indices: [u8; MAX_RANK],
    start: usize,
}

impl RankedWords {
    /// No words yet.
    pub(crate) fn new(soft: &[i8]) -> RankedWords
        requires at_least { 10 ≤ length soft.now }
        requires at_most { length soft.now ≤ CODED_BITS }
        requires pairs { length soft.now % 2 ≡ 0 }
        requires soft { AllSoftBits soft.now }
        ensures soft { soft_bits_of_pass result.pass ≡ soft.now }
        ensures returned { returned_words result ≡ [] }
        ensures sound { IsRankingSoFar result }
    {
        RankedWords {
            pass: ViterbiPass::new(soft),
            first_word: [0; ENCODER_INPUT_BITS],
            first_metric: 0,
            deviations: [UNUSED_DEVIATION; 63],
            count: 0,
            branches: [UNUSED_BRANCH; 127],
        }
    }

    /// Only the most likely word, `u`, and its path metric.
    pub(crate) fn first_word(soft: &[i8], u: &[u8], metric: i32) -> RankedWords
        requires at_least { 10 ≤ length soft.now }
        requires at_most { length soft.now ≤ CODED_BITS }
        requires soft { AllSoftBits soft.now }
        requires best { IsMostLikely soft.now u.now }
        requires metric { metric ≡ likelihood soft.now (encoding u.now) }
        ensures soft { soft_bits_of_pass result.pass ≡ soft.now }
        ensures returned { returned_words result ≡ u.now ∷ [] }
        ensures sound { IsRankingSoFar result }
    {
        RankedWords {
            pass: ViterbiPass::new(soft),
            first_word: pad_with_zeros(u),
            first_metric: metric,
            deviations: [UNUSED_DEVIATION; 63],
            count: 1,
            branches: [UNUSED_BRANCH; 127],
        }
    }

    /// Writes the most likely word to `u` and returns its path metric.
    pub(crate) fn write_first_word(&mut self, u: &mut [u8]) -> i32
        requires sound { IsRankingSoFar self.old }
        requires count { length u.old ≡ self.old.pass.bits }
        ensures sound { IsRankingSoFar self.new }
        ensures soft { soft_bits_of_pass self.new.pass ≡ soft_bits_of_pass self.old.pass }
        ensures returned { returned_words self.new ≡ u.new ∷ [] }
        ensures value { result ≡ likelihood (soft_bits_of_pass self.old.pass) (encoding u.new) }
    {
        let metric = decode(&self.pass.soft[..2 * self.pass.bits], u);
        self.first_word = pad_with_zeros(u);
        self.first_metric = metric;
        self.count = 1;
        metric
    }

    /// Writes the most likely word not returned yet to `u` and returns its path metric, or `None` if no word is left.
    pub(crate) fn write_next_word(&mut self, u: &mut [u8]) -> Option<i32>
        requires sound { IsRankingSoFar self.old }
        requires some { 0 < self.old.count }
        requires space { self.old.count < MAX_RANK }
        requires count { length u.old ≡ self.old.pass.bits }
        ensures sound { IsRankingSoFar self.new }
        ensures soft { soft_bits_of_pass self.new.pass ≡ soft_bits_of_pass self.old.pass }
        ensures returned { MatchOption result
            ((ranking_of self.new ≡ ranking_of self.old) × (u.new ≡ u.old) × IsRankingDone (ranking_of self.old))
            (λ value. (returned_words self.new ≡ returned_words self.old ++ u.new ∷ []) ×
            (value ≡ likelihood (soft_bits_of_pass self.old.pass) (encoding u.new))) }
    {
        self.prepare();
        let next = find_next_word(self, u)?;
        self.add(&next);
        Some(next.deviation.metric)
    }

    pub(crate) fn write_word(&self, word_index: u8, u: &mut [u8])
        requires ranking { IsRanking self.now }
        requires within { word_index < self.now.count }
        requires count { length u.old ≡ self.now.pass.bits }
        ensures { u.new ≡ slice_index_or (returned_words self.now) word_index [] }
    {
        let chain = self.chain_to_word(word_index);
        u.copy_from_slice(&self.first_word[..self.pass.bits]);
        for k in chain.start..MAX_RANK {
            self.deviations[usize::from(chain.word_indices[k]) - 1].apply(&self.pass, u);
        }
    }

    fn chain_to_word(&self, word_index: u8) -> DeviationChain
        requires ranking { IsRanking self.now }
        requires within { word_index < self.now.count }
        ensures start { result.start ≤ MAX_RANK }
        ensures chain { IsChainOfDeviations self.now (drop result.start result.word_indices) 0 word_index }
    {
        let mut chain = DeviationChain {
            word_indices: [0; MAX_RANK],
            start: MAX_RANK,
        };
        let mut at = word_index;
        while at != 0 {
            chain.start -= 1;
            chain.word_indices[chain.start] = at;
            at = self.deviations[usize::from(at) - 1].word_index;
        }
        chain
    }

    /// Returns the deviation that produced the word from which `deviation` starts. Returns `None` if its position is not before that of
    /// `deviation`.
    pub(crate) fn parent_deviation(&self, deviation: &Deviation) -> Option<Deviation>
        requires ranking { IsRanking self.now }
        requires within { deviation.now.word_index < self.now.count }
        requires some { 0 < deviation.now.word_index }
        ensures higher_ranked { IfSome result (λ up. up.word_index < deviation.now.word_index) }
        ensures forks { IfSome result (λ up. (w : List ℕ) → DeviatesAtSamePosition (returned_words self.now) w deviation.now →
            DeviatesAtSamePosition (returned_words self.now) w up) }
    {
        let up = self.deviations[usize::from(deviation.word_index) - 1];
        if up.point.index < deviation.point.index {
            Some(up)
        } else {
            None
        }
    }

    /// Runs the backward pass and finds the best deviation from the first word, if no second word has been asked for yet.
    pub(crate) fn prepare(&mut self)
        requires sound { IsRankingSoFar self.old }
        requires some { 0 < self.old.count }
        ensures ranking { IsRanking self.new }
        ensures sound { IsRankingSoFar self.new }
        ensures soft { soft_bits_of_pass self.new.pass ≡ soft_bits_of_pass self.old.pass }
        ensures words { returned_words self.new ≡ returned_words self.old }
        ensures count { self.new.count ≡ self.old.count }
        ensures bits { self.new.pass.bits ≡ self.old.pass.bits }
    {
        if self.count > 1 {
            return;
        }
        self.pass.run_backward_pass();
        let bits = self.pass.bits;
        let span = WordSpan {
            metric: self.first_metric,
            word_index: 0,
            from: 0,
            to: (bits - 4) as u8,
            state: 0,
        };
        self.branches[0] = WordBranch::new(&self.pass, &self.first_word[..bits], span);
    }

    /// Adds the next word: its branch is replaced by three.
    pub(crate) fn add(&mut self, next: &NextWord)
        requires ranking { IsRanking self.old }
        requires space { self.old.count < MAX_RANK }
        requires within { next.now.branch + 1 < 2 * self.old.count }
        ensures ranking { (u : List ℕ) →
            IsNextRankedWord self.old.pass (returned_words self.old) (open_branches self.old) u next.now →
            IsRanking self.new × (returned_words self.new ≡ returned_words self.old ++ u ∷ []) }
        ensures pass { self.new.pass ≡ self.old.pass }
        ensures count { self.new.count ≡ self.old.count + 1 }
    {
        let end = 2 * self.count - 1;
        self.branches[next.branch] = next.parts.branch_before;
        self.branches[end] = next.parts.branch_of_new_word;
        self.branches[end + 1] = next.parts.branch_after;
        self.deviations[self.count - 1] = next.deviation;
        self.count += 1;
    }
}

fn pad_with_zeros(word: &[u8]) -> [u8; ENCODER_INPUT_BITS]
    requires { length word.now ≤ ENCODER_INPUT_BITS }
    ensures { take (length word.now) result ≡ word.now }
{
    let mut list = [0; ENCODER_INPUT_BITS];
    list[..word.len()].copy_from_slice(word);
    list
}
