//! The Viterbi algorithm from the last information bit to the first, four bits at a time. GSM 05.03 (today 3GPP TS 45.003) does not specify
//! a decoder.

ghost use Rattle.std.specs.Prelude.{◌≡◌, ℕ, ◌*◌, ◌<◌, ◌≤◌, length, replicate, take};
ghost use Rattle.lanes.specs.Lanes.{lane};
ghost use Rattle.trellis_decode.specs.SignedOctets.{AreSignedOctets};
ghost use Rattle.trellis_decode.specs.Trellis.{IsSurvivor};
ghost use Rattle.trellis_decode.specs.AcsLanes.{AreInt16, lane_of_state, path_metric};
ghost use Rattle.trellis_decode.specs.SurvivorPaths.{AreMetricsWithin, AreSurvivors, HoldLaneNumbersFromIndex, survivor_traceback};

use crate::acs_step::{PathMetrics, tail_step};
use crate::branch_metrics::four_branch_metrics;
use crate::survivors::Survivors;

/// Writes a survivor map for each group of four bits, from the last group to the first, and returns the path metrics before the first bit.
/// One map for four bits lets traceback take 57 table lookups for a block instead of 228. The last four bits are the tail, all 0.
pub(crate) fn fill_survivors(soft: &[i8], survivors: &mut [[u8; 16]]) -> PathMetrics
    requires count { length soft.now ≡ 8 * length survivors.old }
    requires at_least { 1 ≤ length survivors.old }
    requires at_most { length survivors.old ≤ 57 }
    requires octets { AreSignedOctets soft.now }
    ensures best { (s : ℕ) → s < 16 →
        IsSurvivor s (survivor_traceback survivors.new (lane_of_state s)) soft.now (lane (path_metric result) s) }
    ensures within { AreMetricsWithin 58368 (path_metric result) }
    ensures even { AreInt16 result.even_states.lanes }
    ensures odd { AreInt16 result.odd_states.lanes }
    ensures at_least { 1 ≤ length survivors.new }
    ensures maps { HoldLaneNumbersFromIndex 0 survivors.new }
{
    let last = survivors.len() - 1;
    survivors[last] = [0; 16];
    let mut values = path_metrics_before_tail(&soft[8 * last..]);
    for group in (0..last).rev() {
        let walk = extend_survivors(values, &soft[8 * group..8 * group + 8], 4);
        values = walk.values;
        survivors[group] = walk.survivor_map.to_array();
    }
    values
}

/// Returns the path metrics before the four tail bits, from the eight soft bits of the tail.
pub(crate) fn path_metrics_before_tail(soft: &[i8]) -> PathMetrics
    requires count { length soft.now ≡ 8 }
    requires octets { AreSignedOctets soft.now }
    ensures best { (s : ℕ) → s < 16 → IsSurvivor s (replicate 4 0) soft.now (lane (path_metric result) s) }
    ensures even { AreInt16 result.even_states.lanes }
    ensures odd { AreInt16 result.odd_states.lanes }
{
    let branch_metrics = four_branch_metrics(soft);
    let mut values = PathMetrics::new();
    for k in (0..4).rev() {
        values = tail_step(values, branch_metrics[k]);
    }
    values
}

/// Returns the survivors over the first `places` bits of a group of four, and the path metrics before the group. `after` holds the path
/// metrics after these bits.
#[inline]
pub(crate) fn extend_survivors(after: PathMetrics, soft: &[i8], places: usize) -> Survivors
    requires count { length soft.now ≡ 8 }
    requires few { places ≤ 4 }
    requires octets { AreSignedOctets soft.now }
    requires within { AreMetricsWithin 58368 (path_metric after) }
    requires even { AreInt16 after.even_states.lanes }
    requires odd { AreInt16 after.odd_states.lanes }
    ensures walk { AreSurvivors (path_metric after) (path_metric result.values) result.survivor_map
        (take (2 * places) soft.now) }
    ensures within { AreMetricsWithin 59392 (path_metric result.values) }
    ensures even { AreInt16 result.values.even_states.lanes }
    ensures odd { AreInt16 result.values.odd_states.lanes }
    ensures count { length result.survivor_map ≡ 16 }
{
    let branch_metrics = four_branch_metrics(soft);
    let mut walk = Survivors::new(after);
    for k in (0..places).rev() {
        walk = walk.step(branch_metrics[k]);
    }
    walk
}
