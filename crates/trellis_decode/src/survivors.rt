//! A survivor map holds, for each state, the end state of its survivor after a few bits. With maps over four bits, traceback needs one
//! lookup for every four bits.

ghost use Rattle.std.specs.Prelude.{◌≡◌, ℕ, ◌+◌, ◌-◌, ◌*◌, ◌<◌, List, [], ◌++◌, ℤ, length, drop, slice_index};
ghost use Rattle.trellis_decode.specs.SignedOctets.{AreSignedOctets};
ghost use Rattle.trellis_decode.specs.Trellis.{next_trellis_state};
ghost use Rattle.trellis_decode.specs.AcsLanes.{AreBranchMetrics, AreInt16, AreDecisionLanes, lane_decisions, HasBranchMetrics};
ghost use Rattle.trellis_decode.specs.AcsLanes.{HaveHeadroom16, lane_of_state, path_metric};
ghost use Rattle.trellis_decode.specs.SurvivorPaths.{AreMetricsWithin, AreSurvivors, HoldLaneNumbersFromIndex, survivor_traceback};
ghost use Rattle.trellis_decode.specs.Words.{to_binary};

use crate::acs_lanes::{EightDecisions, EightLanes};
use crate::acs_step::{PathMetrics, TrellisStep};
use crate::hard::{StateMetrics, extend_survivor_map_by_metrics};
use std::simd::prelude::*;

/// The survivors of all states over a few bits.
#[derive(Clone, Copy)]
pub(crate) struct Survivors {
    /// The path metric of each state before these bits.
    pub(crate) values: PathMetrics,
    /// The survivor map: the lane of each state holds the lane of the state that its survivor leads to at the end of these bits.
    pub(crate) survivor_map: u8x16,
}

impl Survivors {
    /// The survivors over zero bits: each ends in its start state.
    pub(crate) fn new(values: PathMetrics) -> Survivors
        requires even { AreInt16 values.even_states.lanes }
        requires odd { AreInt16 values.odd_states.lanes }
        ensures even { result.values.even_states.lanes ≡ values.even_states.lanes }
        ensures odd { result.values.odd_states.lanes ≡ values.odd_states.lanes }
        ensures walk { AreSurvivors (path_metric values) (path_metric values) result.survivor_map [] }
        ensures count { length result.survivor_map ≡ 16 }
    {
        Survivors {
            values,
            survivor_map: u8x16::from_array([0, 1, 2, 3, 4, 5, 6, 7, 8, 9, 10, 11, 12, 13, 14, 15]),
        }
    }

    /// Extends the survivors backward by one bit, given the branch metrics of this bit.
    pub(crate) fn step(self, branch_metrics: EightLanes) -> Survivors
        requires even { HaveHeadroom16 self.values.even_states.lanes }
        requires odd { HaveHeadroom16 self.values.odd_states.lanes }
        requires count { length self.survivor_map ≡ 16 }
        requires branch_metrics { AreBranchMetrics branch_metrics.lanes }
        ensures walk { (pair : List ℤ) → HasBranchMetrics branch_metrics.lanes pair → (after soft : List ℤ) →
            AreSurvivors after (path_metric self.values) self.survivor_map soft →
            AreSurvivors after (path_metric result.values) result.survivor_map (pair ++ soft) }
        ensures within { (pair : List ℤ) → HasBranchMetrics branch_metrics.lanes pair → AreSignedOctets pair → (most : ℕ) →
            AreMetricsWithin most (path_metric self.values) →
            AreMetricsWithin (most + 256) (path_metric result.values) }
        ensures even { AreInt16 result.values.even_states.lanes }
        ensures odd { AreInt16 result.values.odd_states.lanes }
        ensures count { length result.survivor_map ≡ 16 }
    {
        let step = TrellisStep::new(self.values, branch_metrics);
        Survivors {
            values: step.values,
            survivor_map: extend_survivor_map(
                self.survivor_map,
                step.low_decisions,
                step.high_decisions,
            ),
        }
    }
}

/// Extends a survivor map backward by one bit: the survivor of each state begins with the decision in that state.
///
/// A map has a lane for each state: states 0 to 7 in bit-reversed order, then states 8 to 15 in bit-reversed order.
fn extend_survivor_map(survivor_map: u8x16, low: EightDecisions, high: EightDecisions) -> u8x16
    requires map { length survivor_map ≡ 16 }
    requires low { AreDecisionLanes low.lanes }
    requires high { AreDecisionLanes high.lanes }
    ensures each { (s : ℕ) → s < 16 →
        slice_index result (lane_of_state s) ≡ slice_index survivor_map (lane_of_state (next_trellis_state s (slice_index
        (lane_decisions low.lanes high.lanes) s))) }
    ensures count { length result ≡ 16 }
{
    let taken = StateMetrics {
        lanes: low.lanes.shuffle::<16>(
            high.lanes,
            [0, 1, 2, 3, 4, 5, 6, 7, 8, 9, 10, 11, 12, 13, 14, 15],
        ),
    };
    let none = StateMetrics {
        lanes: i8x16::splat(0),
    };
    extend_survivor_map_by_metrics(survivor_map, taken, none)
}

/// The four bits of the state in each lane of a survivor map, the oldest bit first.
static STATE_BITS: [[u8; 4]; 16] = [
    [0, 0, 0, 0],
    [0, 1, 0, 0],
    [0, 0, 1, 0],
    [0, 1, 1, 0],
    [0, 0, 0, 1],
    [0, 1, 0, 1],
    [0, 0, 1, 1],
    [0, 1, 1, 1],
    [1, 0, 0, 0],
    [1, 1, 0, 0],
    [1, 0, 1, 0],
    [1, 1, 1, 0],
    [1, 0, 0, 1],
    [1, 1, 0, 1],
    [1, 0, 1, 1],
    [1, 1, 1, 1],
];

/// The four bits of the state in lane `lane_index` of a survivor map, the oldest bit first.
fn bits_of_state_in_lane(lane_index: u8) -> [u8; 4]
    requires { lane_index < 16 }
    ensures { result ≡ to_binary 4 (lane_of_state lane_index) }
{
    STATE_BITS[usize::from(lane_index)]
}

/// Traceback: follows the survivor maps from lane `at`, and writes the four bits of each state that it reaches.
pub(crate) fn trace_back_survivors(survivors: &[[u8; 16]], at: u8, u: &mut [u8])
    requires count { length u.old ≡ 4 * length survivors.now }
    requires at { at < 16 }
    requires maps { HoldLaneNumbersFromIndex 0 survivors.now }
    ensures { u.new ≡ survivor_traceback survivors.now at }
{
    let mut at = at;
    for (group, map) in survivors.iter().enumerate() {
        at = map[usize::from(at)];
        u[4 * group..4 * group + 4].copy_from_slice(&bits_of_state_in_lane(at));
    }
}

/// Writes the last `bit_count` bits of the state in lane `lane_index`: the bits that lead to this state from state 0.
pub(crate) fn write_last_state_bits(lane_index: u8, bit_count: usize, u: &mut [u8])
    requires count { length u.old ≡ bit_count }
    requires few { bit_count < 4 }
    requires at { lane_index < 16 }
    ensures { u.new ≡ drop (4 - bit_count) (to_binary 4 (lane_of_state lane_index)) }
{
    u.copy_from_slice(&bits_of_state_in_lane(lane_index)[4 - bit_count..]);
}
