//! A soft-decision Viterbi decoder for the convolutional code of GSM 05.03 (today 3GPP TS 45.003), section 4.1.3, with SIMD vectors.
//!
//! The trellis is processed backward: each step extends the survivors of the sixteen states by one earlier bit. Traceback then reads the
//! decisions forward, and taking bit 0 on a tie selects the lexicographically first of equally likely words.
#![tactic(auto)]

mod acs_lanes;
mod acs_step;
mod backward;
mod branch_metrics;
mod decision_step;
mod exhaustive;
mod hard;
mod survivors;
mod trellis;

ghost use Rattle.std.specs.Prelude.{◌≡◌, ℕ, ◌*◌, ◌≤◌, List, length};
ghost use Rattle.conv_code.specs.Code.{encoding};
ghost use Rattle.conv_code.specs.Likelihood.{AllSoftBits, IsMostLikely, likelihood};

use crate::backward::{extend_survivors, fill_survivors};
use crate::hard::{are_hard_bits, decode_hard};
use crate::survivors::{trace_back_survivors, write_last_state_bits};
pub use conv_code::{CODED_BITS, ENCODER_INPUT_BITS};
pub use exhaustive::search;
pub use trellis::{fill_decisions, trace_back};

/// Writes the most likely encoder input for the soft bits to `u` and returns its path metric. If several inputs are equally likely, it
/// takes the first in lexicographic order.
///
/// `soft` must have two soft bits for each bit of `u`. The old content of `u` is ignored.
pub fn decode(soft: &[i8], u: &mut [u8]) -> i32
    requires count { length soft.now ≡ 2 * length u.old }
    requires at_least { 5 ≤ length u.old }
    requires at_most { length u.old ≤ ENCODER_INPUT_BITS }
    requires soft { AllSoftBits soft.now }
    ensures best { IsMostLikely soft.now u.new }
    ensures value { result ≡ likelihood soft.now (encoding u.new) }
    ensures only { (v : List ℕ) → IsMostLikely soft.now v → v ≡ u.new }
{
    // Uses the faster decoder if all soft bits are hard bits. Checking the first eight separately almost always rejects other input early.
    if u.len() % 4 == 0 && are_hard_bits(&soft[..8]) && are_hard_bits(soft) {
        return decode_hard(soft, u);
    }
    decode_soft(soft, u)
}

/// Decodes as `decode` does, but without the faster decoder for hard bits. The pass over the soft bits runs backward, so that traceback
/// runs forward and, with bit 0 on a tie, gives the first list in lexicographic order. A list whose length is no multiple of four, such as
/// 18 or 39 bits, begins with one to three bits outside the groups of four.
fn decode_soft(soft: &[i8], u: &mut [u8]) -> i32
    requires count { length soft.now ≡ 2 * length u.old }
    requires at_least { 5 ≤ length u.old }
    requires at_most { length u.old ≤ ENCODER_INPUT_BITS }
    requires soft { AllSoftBits soft.now }
    ensures best { IsMostLikely soft.now u.new }
    ensures value { result ≡ likelihood soft.now (encoding u.new) }
{
    let few = u.len() % 4;
    let mut survivors = [[0; 16]; 57];
    let survivors = &mut survivors[..u.len() / 4];
    let values = fill_survivors(&soft[2 * few..], survivors);
    let walk = extend_survivors(values, &soft[..8], few);
    let at = walk.survivor_map.to_array()[0] % 16;
    let (first, others) = u.split_at_mut(few);
    write_last_state_bits(at, few, first);
    trace_back_survivors(survivors, at, others);
    walk.values.metric_of_state_0()
}
