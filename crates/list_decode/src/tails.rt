//! The best deviation from the most likely word at or after each position.
//!
//! If a word that follows the survivors reaches the same state as the most likely word, the two words agree from there on, and a deviation
//! there costs both the same path metric. So a search for the best deviation from the word can end at that position.

ghost use Rattle.std.specs.Prelude.{◌≡◌, ◌+◌, ◌<◌, ◌≤◌, length, take, slice_index};
ghost use Rattle.weight_bound.specs.bit_blocks.Bits.{AllBits};
ghost use Rattle.trellis_decode.specs.Trellis.{traceback};
ghost use Rattle.list_decode.specs.DeviatingWords.{state_after_bits};
ghost use Rattle.list_decode.specs.LeastLosses.{IsPossibleDeviation};
ghost use Rattle.list_decode.specs.SurvivorTails.{AreBestLaterDeviations, AreSurvivorStates, AreBestLaterIndices};

use crate::branch::WordSpan;
use crate::deviation::PossibleDeviation;
use trellis_decode::ENCODER_INPUT_BITS;

/// For each position of the most likely word: the trellis state before it, and the best position at or after it for a deviation. A word
/// that reaches one of these states after its deviation agrees with the most likely word from there on.
#[derive(Clone, Copy)]
pub(crate) struct BestLaterDeviations {
    pub(crate) states: [u8; ENCODER_INPUT_BITS],
    pub(crate) indices: [u8; ENCODER_INPUT_BITS],
}

impl BestLaterDeviations {
    pub(crate) fn fill_best_later_deviations(&mut self, rows: &[u16], losses: &[[i16; 16]])
        requires same { length losses.now ≡ length rows.now }
        requires at_least { 5 ≤ length rows.now }
        requires at_most { length rows.now ≤ ENCODER_INPUT_BITS }
        ensures { AreBestLaterDeviations rows.now losses.now self.new }
    {
        fill_survivor_states(rows, &mut self.states);
        fill_best_later_indices(rows, losses, &self.states, &mut self.indices);
    }
}

/// Writes the trellis state before each position of the survivor of state 0.
fn fill_survivor_states(rows: &[u16], states: &mut [u8; ENCODER_INPUT_BITS])
    requires at_most { length rows.now ≤ ENCODER_INPUT_BITS }
    ensures { AreSurvivorStates rows.now states.new }
{
    let mut state = 0;
    for (k, row) in rows.iter().enumerate() {
        states[k] = state as u8;
        let bit = (*row >> state) & 1;
        state = (2 * state + bit) % 16;
    }
}

/// Writes, for each position of the survivor of state 0, the position at or after it where a deviation has the least loss.
fn fill_best_later_indices(
    rows: &[u16],
    losses: &[[i16; 16]],
    states: &[u8; ENCODER_INPUT_BITS],
    indices: &mut [u8; ENCODER_INPUT_BITS],
)
    requires same { length losses.now ≡ length rows.now }
    requires at_least { 5 ≤ length rows.now }
    requires at_most { length rows.now ≤ ENCODER_INPUT_BITS }
    requires states { AreSurvivorStates rows.now states.now }
    ensures { AreBestLaterIndices rows.now losses.now indices.new }
{
    let last = rows.len() - 5;
    let mut best = survivor_deviation(rows, losses, states, last);
    indices[last] = best.index as u8;
    for k in (0..last).rev() {
        best = survivor_deviation(rows, losses, states, k).or_later_deviation_if_better(best);
        indices[k] = best.index as u8;
    }
}

/// The deviation from the survivor of state 0 at position `k`.
pub(crate) fn survivor_deviation(
    rows: &[u16],
    losses: &[[i16; 16]],
    states: &[u8; ENCODER_INPUT_BITS],
    k: usize,
) -> PossibleDeviation
    requires same { length losses.now ≡ length rows.now }
    requires within { k < length rows.now }
    requires at_most { length rows.now ≤ ENCODER_INPUT_BITS }
    requires states { AreSurvivorStates rows.now states.now }
    ensures index { result.index ≡ k }
    ensures possible { IsPossibleDeviation (traceback rows.now 0) losses.now result }
{
    let state = states[k];
    let bit = (rows[k] >> state) & 1;
    PossibleDeviation::new(
        k,
        usize::from(state),
        losses[k][usize::from(state)],
        bit as u8,
    )
}

/// Returns the first position of the span where `list` is in the same state as the most likely word (`states`), or the end of the span. A
/// table of the positions where the most likely word meets each state was no faster.
pub(crate) fn find_merging_index(
    list: &[u8],
    states: &[u8; ENCODER_INPUT_BITS],
    span: &WordSpan,
) -> u8
    requires bits { AllBits list.now }
    requires order { span.now.from ≤ span.now.to }
    requires end { span.now.to + 4 ≤ length list.now }
    requires at_most { length list.now ≤ ENCODER_INPUT_BITS }
    requires small { span.now.state < 16 }
    requires state { span.now.state ≡ state_after_bits 0 (take span.now.from list.now) }
    ensures from { span.now.from ≤ result }
    ensures to { result ≤ span.now.to }
    ensures merged { result < span.now.to → state_after_bits 0 (take result list.now) ≡ slice_index states.now result }
{
    let mut state = span.state;
    for k in usize::from(span.from)..usize::from(span.to) {
        if state == states[k] {
            return k as u8;
        }
        state = (2 * state + list[k]) % 16;
    }
    span.to
}
