//! The Viterbi algorithm for the list decoder. It runs from the last bit to the first and stores every decision and its cost, while
//! `decode` stores only survivor maps.

ghost use Rattle.std.specs.Prelude.{◌≡◌, ◌+◌, ◌*◌, ◌<◌, ◌≤◌, drop, length};
ghost use Rattle.std.specs.List.{All};
ghost use Rattle.trellis_decode.specs.Decisions.{HasDecisionsAndMetrics};
ghost use Rattle.trellis_decode.specs.SignedOctets.{AreSignedOctets};
ghost use Rattle.trellis_decode.specs.Trellis.{AreDecisions, traceback};
ghost use Rattle.trellis_decode.specs.AcsLanes.{AreInt16, path_metric};

use crate::acs_step::PathMetrics;
use crate::backward::path_metrics_before_tail;
use crate::branch_metrics::four_branch_metrics;
use crate::decision_step::DecisionStep;
use conv_code::ENCODER_INPUT_BITS;

/// For each information bit, writes the decisions of all states to `rows` (bit `s` of a row is the decision in state `s`), and writes to
/// `losses` how much path metric the other bit would lose in each state.
pub fn fill_decisions(soft: &[i8], rows: &mut [u16], losses: &mut [[i16; 16]])
    requires count { length soft.now ≡ 2 * length rows.old }
    requires same { length losses.old ≡ length rows.old }
    requires at_least { 4 ≤ length rows.old }
    requires at_most { length rows.old ≤ ENCODER_INPUT_BITS }
    requires blank { All (λ row. row ≡ 0) rows.old }
    ensures decisions { AreDecisions rows.new losses.new soft.now }
    ensures count { length soft.now ≡ 2 * length rows.new }
    ensures octets { AreSignedOctets soft.now }
{
    prove_octet_range(soft);
    let few = rows.len() % 4;
    let mut values = path_metrics_before_tail(&soft[2 * (rows.len() - 4)..]);
    for group in (0..rows.len() / 4 - 1).rev() {
        values = fill_decision_rows(values, soft, few + 4 * group, 4, rows, losses);
    }
    fill_decision_rows(values, soft, 0, few, rows, losses);
}

/// Lets the prover conclude that every soft bit is between -128 and 127, since each is read as an `i8`. The compiler removes the loop.
fn prove_octet_range(soft: &[i8])
    ensures { AreSignedOctets soft.now }
{
    for (k, value) in soft.iter().enumerate() {
        let _octet = *value;
    }
}

/// Fills `rows` and `losses` for `bit_count` bits from index `first` on. Takes the path metrics after these bits (`metrics_after`), and
/// returns those before them.
#[inline]
fn fill_decision_rows(
    metrics_after: PathMetrics,
    soft: &[i8],
    first: usize,
    bit_count: usize,
    rows: &mut [u16],
    losses: &mut [[i16; 16]],
) -> PathMetrics
    requires places { bit_count ≤ 4 }
    requires inside { first + 4 ≤ length rows.old }
    requires count { length soft.now ≡ 2 * length rows.old }
    requires same { length losses.old ≡ length rows.old }
    requires at_most { length rows.old ≤ ENCODER_INPUT_BITS }
    requires octets { AreSignedOctets soft.now }
    requires decided { HasDecisionsAndMetrics (drop (first + bit_count) rows.old) (drop (first + bit_count) losses.old)
        (drop (2 * (first + bit_count)) soft.now)
        (path_metric metrics_after) }
    requires even { AreInt16 metrics_after.even_states.lanes }
    requires odd { AreInt16 metrics_after.odd_states.lanes }
    ensures decided { HasDecisionsAndMetrics (drop first rows.new) (drop first losses.new) (drop (2 * first) soft.now)
        (path_metric result) }
    ensures even { AreInt16 result.even_states.lanes }
    ensures odd { AreInt16 result.odd_states.lanes }
{
    let branch_metrics = four_branch_metrics(&soft[2 * first..2 * first + 8]);
    let mut values = metrics_after;
    for k in (0..bit_count).rev() {
        let step = DecisionStep::new(values, branch_metrics[k]);
        values = step.values;
        rows[first + k] = step.decision_bits;
        losses[first + k] = step.losses.lanes.to_array();
    }
    values
}

/// Traceback: follows the decisions from `state`, and writes them to `u`.
pub fn trace_back(rows: &[u16], state: u16, u: &mut [u8])
    requires count { length u.old ≡ length rows.now }
    requires state { state < 16 }
    ensures { u.new ≡ traceback rows.now state }
{
    let mut state = state;
    for (k, row) in rows.iter().enumerate() {
        let bit = (*row >> state) & 1;
        u[k] = bit as u8;
        state = (2 * state + bit) % 16;
    }
}
