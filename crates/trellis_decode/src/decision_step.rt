//! A step of the Viterbi algorithm that keeps the decision of each state and its cost.
//!
//! Both come from the difference between the candidate metrics of bit 0 and bit 1 in a state: its sign is the decision, and its absolute
//! value is the cost. The difference fits in 16 bits because the path metrics of two states are never far apart: any four bits lead from
//! both states to one common state.

ghost use Rattle.std.specs.Prelude.{◌≡◌, ℕ, ◌/◌, ◌%◌, ◌^◌, ◌-◌, ◌<◌, List, ℤ, ◌-ℤ◌};
ghost use Rattle.trellis_decode.specs.Trellis.{IsDecision, candidate_metric};
ghost use Rattle.lanes.specs.Lanes.{lane};
ghost use Rattle.trellis_decode.specs.AcsLanes.{DifferByAtMost4096, AreBranchMetrics, AbsFit16Bits, AreInt16, HasBranchMetrics};
ghost use Rattle.trellis_decode.specs.AcsLanes.{HaveHeadroom16, path_metric};

use crate::acs_lanes::{
    EightLanes, SixteenLanes, absolute_values, signs, subtract_lanes, to_state_order,
};
use crate::acs_step::{PathMetrics, TrellisStep};

/// The result of one trellis step. The steps run backward: from the path metrics after a bit to the metrics before it.
#[derive(Clone, Copy)]
pub(crate) struct DecisionStep {
    /// The path metrics before the bit.
    pub(crate) values: PathMetrics,
    /// Bit `s` is the decision in state `s`: the first bit of its survivor.
    pub(crate) decision_bits: u16,
    /// The cost of each decision: how much path metric the other decision would lose in that state. It fits 16 bits: any two states merge
    /// after four equal bits, so two path metrics differ by at most 2,048.
    pub(crate) losses: SixteenLanes,
}

impl DecisionStep {
    /// Computes the step over one bit: `after` holds the path metrics after the bit, and `branch_metrics` its branch metrics. One
    /// difference of candidate metrics gives both the decision, by its sign, and the cost, by its absolute value.
    pub(crate) fn new(after: PathMetrics, branch_metrics: EightLanes) -> DecisionStep
        requires even { HaveHeadroom16 after.even_states.lanes }
        requires odd { HaveHeadroom16 after.odd_states.lanes }
        requires close { DifferByAtMost4096 after.even_states.lanes after.odd_states.lanes }
        requires branch_metrics { AreBranchMetrics branch_metrics.lanes }
        ensures each { (pair : List ℤ) → HasBranchMetrics branch_metrics.lanes pair → (s : ℕ) → s < 16 →
            IsDecision (path_metric after) pair s
            (lane (path_metric result.values) s) (result.decision_bits / 2 ^ s % 2) }
        ensures losses { (pair : List ℤ) → HasBranchMetrics branch_metrics.lanes pair → (s : ℕ) → s < 16 →
            lane result.losses.lanes s ≡
            candidate_metric (path_metric after) pair s (result.decision_bits / 2 ^ s % 2)
            -ℤ candidate_metric (path_metric after) pair s (1 - result.decision_bits / 2 ^ s % 2) }
        ensures lanes { AbsFit16Bits result.losses.lanes }
        ensures even { AreInt16 result.values.even_states.lanes }
        ensures odd { AreInt16 result.values.odd_states.lanes }
    {
        let step = TrellisStep::new(after, branch_metrics);
        let low = subtract_lanes(
            step.candidates.low_states_bit_0,
            step.candidates.low_states_bit_1,
        );
        let high = subtract_lanes(
            step.candidates.high_states_bit_0,
            step.candidates.high_states_bit_1,
        );
        let leads = to_state_order(low, high);
        DecisionStep {
            values: step.values,
            decision_bits: signs(leads),
            losses: absolute_values(leads),
        }
    }
}
