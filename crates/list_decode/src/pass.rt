//! The backward Viterbi pass over the soft bits, and the best deviations from the most likely word.

ghost use Rattle.std.specs.Prelude.{◌≡◌, ◌≤◌, ◌%◌, length};
ghost use Rattle.weight_bound.specs.conv_code.Likelihood.{AllSoftBits};
ghost use Rattle.list_decode.specs.Passes.{IsCompletePass, HasSoftBits, soft_bits_of_pass};

use crate::tails::BestLaterDeviations;
use trellis_decode::{CODED_BITS, ENCODER_INPUT_BITS, fill_decisions};

/// The soft bits, two for each information bit; for each position, the decision of every state (`decisions`) and how much path metric the
/// other bit would lose (`losses`); and the states and best later deviations of the most likely word (`tails`).
#[derive(Drop)]
pub(crate) struct ViterbiPass {
    pub(crate) soft: [i8; CODED_BITS],
    pub(crate) bits: usize,
    pub(crate) decisions: [u16; ENCODER_INPUT_BITS],
    pub(crate) losses: [[i16; 16]; ENCODER_INPUT_BITS],
    pub(crate) tails: BestLaterDeviations,
}

impl ViterbiPass {
    /// Copies the soft bits. `run_backward_pass` computes the other fields.
    pub(crate) fn new(soft: &[i8]) -> ViterbiPass
        requires at_least { 10 ≤ length soft.now }
        requires at_most { length soft.now ≤ CODED_BITS }
        requires pairs { length soft.now % 2 ≡ 0 }
        requires soft { AllSoftBits soft.now }
        ensures soft { soft_bits_of_pass result ≡ soft.now }
        ensures has_soft_bits { HasSoftBits result }
    {
        let bits = soft.len() / 2;
        let mut copy = [0; CODED_BITS];
        copy[..2 * bits].copy_from_slice(soft);
        ViterbiPass {
            soft: copy,
            bits,
            decisions: [0; ENCODER_INPUT_BITS],
            losses: [[0; 16]; ENCODER_INPUT_BITS],
            tails: BestLaterDeviations {
                states: [0; ENCODER_INPUT_BITS],
                indices: [0; ENCODER_INPUT_BITS],
            },
        }
    }

    /// Runs the backward pass: computes the decisions, their losses, and the best later deviations.
    pub(crate) fn run_backward_pass(&mut self)
        requires has_soft_bits { HasSoftBits self.old }
        ensures soft { soft_bits_of_pass self.new ≡ soft_bits_of_pass self.old }
        ensures bits { self.new.bits ≡ self.old.bits }
        ensures pass { IsCompletePass self.new }
    {
        let bits = self.bits;
        let soft = self.soft;
        let mut rows = [0; ENCODER_INPUT_BITS];
        fill_decisions(
            &soft[..2 * bits],
            &mut rows[..bits],
            &mut self.losses[..bits],
        );
        self.tails
            .fill_best_later_deviations(&rows[..bits], &self.losses[..bits]);
        self.decisions = rows;
    }
}
