//! Spans of returned words, and the best deviation from the word in each span.

ghost use Rattle.std.specs.Prelude.{◌≡◌, ◌≤◌, ◌+◌, ℕ, ◌<◌, ℤ, pos, ◌-ℤ◌, List};
ghost use Rattle.std.specs.Prelude.{length, slice_index, take};
ghost use Rattle.weight_bound.specs.bit_blocks.Bits.{AllBits};
ghost use Rattle.list_decode.specs.Branches.{IsBranch, IsSpanOfWord, IsDeviation, is_in_range, word_of_deviation};
ghost use Rattle.list_decode.specs.DeviatingWords.{deviation_loss, state_after_bits};
ghost use Rattle.list_decode.specs.LeastLosses.{IsLeastLossDeviationOrNone, IsLeastLossSoFar};
ghost use Rattle.list_decode.specs.Passes.{IsCompletePass, losses_of_pass, soft_bits_of_pass};
ghost use Rattle.list_decode.specs.Ranking.{IsCandidate};

use crate::deviation::{DeviationPoint, PossibleDeviation, apply_deviation};
use crate::pass::ViterbiPass;
use crate::tails::{find_merging_index, survivor_deviation};
use trellis_decode::ENCODER_INPUT_BITS;

/// The positions `from..to` of a returned word, its path metric, and the trellis state before `from`.
#[derive(Clone, Copy)]
pub(crate) struct WordSpan {
    pub(crate) metric: i32,
    /// The number of the word, counted from 0 in order of rank.
    pub(crate) word_index: u8,
    pub(crate) from: u8,
    pub(crate) to: u8,
    pub(crate) state: u8,
}

/// A word that deviates from a returned word at one position and then follows the survivors, and its path metric.
#[derive(Clone, Copy)]
pub(crate) struct Deviation {
    pub(crate) metric: i32,
    pub(crate) point: DeviationPoint,
    /// The number of the returned word that this word deviates from.
    pub(crate) word_index: u8,
}

/// A span of a returned word, and the most likely word that deviates within it (`best`).
#[derive(Clone, Copy)]
pub(crate) struct WordBranch {
    pub(crate) span: WordSpan,
    pub(crate) best: Option<Deviation>,
    /// The path metric of `best`, or the least `i32`, so that most branches are ruled out by one comparison.
    pub(crate) metric: i32,
}

impl WordBranch {
    /// Finds the most likely word that deviates from `u` at a position of `span`.
    pub(crate) fn new(pass: &ViterbiPass, u: &[u8], span: WordSpan) -> WordBranch
        requires pass { IsCompletePass pass.now }
        requires list { IsCandidate (soft_bits_of_pass pass.now) u.now }
        requires span { IsSpanOfWord pass.now u.now span }
        ensures span { result.span ≡ span }
        ensures branch { IsBranch pass.now u.now result }
    {
        match find_least_loss(pass, u, &span) {
            None => WordBranch {
                span,
                best: None,
                metric: i32::MIN,
            },
            Some(found) => {
                let metric = span.metric - found.loss;
                let point = DeviationPoint::new(found.index, found.state, u[found.index]);
                let best = Some(Deviation {
                    metric,
                    point,
                    word_index: span.word_index,
                });
                WordBranch { span, best, metric }
            }
        }
    }
}

impl Deviation {
    pub(crate) fn apply(&self, pass: &ViterbiPass, u: &mut [u8])
        requires pass { IsCompletePass pass.now }
        requires list { IsCandidate (soft_bits_of_pass pass.now) u.old }
        requires deviation { IsDeviation pass.now u.old self.now }
        ensures { u.new ≡ word_of_deviation pass.now u.old self.now }
    {
        apply_deviation(&pass.decisions[..pass.bits], self.point, u);
    }
}

/// Finds the position in a span where a deviation costs the least path metric, as `find_least_loss_in_span` does. If the span extends to
/// the tail, it walks only to where the word merges with the most likely word, and takes the best deviation after that from `tails`.
fn find_least_loss(pass: &ViterbiPass, u: &[u8], span: &WordSpan) -> Option<PossibleDeviation>
    requires pass { IsCompletePass pass.now }
    requires list { IsCandidate (soft_bits_of_pass pass.now) u.now }
    requires span { IsSpanOfWord pass.now u.now span.now }
    ensures { IsLeastLossDeviationOrNone u.now (losses_of_pass pass.now) (is_in_range span.now.from span.now.to) span.now.to result }
{
    let losses = &pass.losses[..pass.bits];
    if usize::from(span.to) + 4 < pass.bits {
        return find_least_loss_in_span(u, losses, span);
    }
    let merging = find_merging_index(u, &pass.tails.states, span);
    let early = find_least_loss_in_span(
        u,
        losses,
        &WordSpan {
            to: merging,
            ..*span
        },
    );
    if merging == span.to {
        return early;
    }
    let later = survivor_deviation(
        &pass.decisions[..pass.bits],
        losses,
        &pass.tails.states,
        usize::from(pass.tails.indices[usize::from(merging)]),
    );
    match early {
        None => Some(later),
        Some(early) => Some(early.or_later_deviation_if_better(later)),
    }
}

/// Finds the position in a span where a deviation costs the least path metric. On a tie, it takes the position whose deviating word comes
/// first in lexicographic order. Returns `None` if the span is empty.
fn find_least_loss_in_span(
    list: &[u8],
    losses: &[[i16; 16]],
    span: &WordSpan,
) -> Option<PossibleDeviation>
    requires bits { AllBits list.now }
    requires order { span.now.from ≤ span.now.to }
    requires end { span.now.to + 4 ≤ length list.now }
    requires at_most { length list.now ≤ ENCODER_INPUT_BITS }
    requires same { length losses.now ≡ length list.now }
    requires small { span.now.state < 16 }
    requires state { span.now.state ≡ state_after_bits 0 (take span.now.from list.now) }
    ensures { IsLeastLossDeviationOrNone list.now losses.now (is_in_range span.now.from span.now.to) span.now.to result }
{
    let from = usize::from(span.from);
    let to = usize::from(span.to);
    if from >= to {
        return None;
    }
    let state = usize::from(span.state);
    let mut best = LeastLossSoFar::new(from, state, losses[from][state], list[from]);
    let mut state = (2 * state + usize::from(list[from])) % 16;
    for k in from + 1..to {
        best = best.or_later_position_if_better(k, state, losses[k][state], list[k]);
        state = (2 * state + usize::from(list[k])) % 16;
    }
    Some(PossibleDeviation::new(
        best.index,
        best.state,
        losses[best.index][best.state],
        list[best.index],
    ))
}

/// The best position for a deviation so far, the trellis state before it, and a limit: a later position is better if the loss of a
/// deviation there is at most this limit.
#[derive(Clone, Copy)]
struct LeastLossSoFar {
    index: usize,
    state: usize,
    loss_limit: i32,
}

impl LeastLossSoFar {
    fn new(index: usize, state: usize, loss: i16, bit: u8) -> LeastLossSoFar
        requires { bit ≤ 1 }
        ensures index { result.index ≡ index }
        ensures state { result.state ≡ state }
        ensures loss_limit { result.loss_limit ≡ loss -ℤ pos bit }
    {
        LeastLossSoFar {
            index,
            state,
            loss_limit: i32::from(loss) - i32::from(bit),
        }
    }

    fn or_later_position_if_better(
        self,
        index: usize,
        state: usize,
        loss: i16,
        bit: u8,
    ) -> LeastLossSoFar
        requires { bit ≤ 1 }
        ensures { (u : List ℕ) (losses : List (List ℤ)) (from : ℕ) →
            IsLeastLossSoFar u losses (is_in_range from index) index self →
            state ≡ state_after_bits 0 (take index u) → loss ≡ deviation_loss 0 u losses index → bit ≡ slice_index u index →
            AllBits u →
            IsLeastLossSoFar u losses (is_in_range from (index + 1)) (index + 1) result }
    {
        if i32::from(loss) <= self.loss_limit {
            LeastLossSoFar::new(index, state, loss, bit)
        } else {
            self
        }
    }
}
