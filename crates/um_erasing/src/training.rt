//! The wrong training bits of each burst.
ghost use Rattle.std.specs.Prelude.{◌≡◌, ◌≤◌, All};
ghost use Rattle.um_block.specs.Received.{IsReceivedTsc};
ghost use Rattle.um_erasing.specs.Erasing.{wrong_training_of_bursts};

use burst_map::{BURST_BITS, NormalView};
use training_seq::best_of_bursts;

/// The training sequence of four bursts, and the errors in it.
#[derive(Clone, Copy, PartialEq, Eq, Debug)]
pub struct TrainingErrors {
    /// The training sequence code with the greatest total correlation, 0 to 7.
    pub tsc: u8,
    /// For each burst, the number of soft bits, 0 to 26, that disagree with the training sequence.
    pub wrong: [u8; 4],
}

/// Detects the training sequence of four bursts without decoding them, as `receive_block` does, and counts the wrong training bits of each
/// burst.
pub fn detect_training(bursts: &[[i8; BURST_BITS]; 4]) -> TrainingErrors
    ensures tsc { IsReceivedTsc bursts.now result.tsc }
    ensures wrong { result.wrong ≡ wrong_training_of_bursts bursts.now result.tsc }
    ensures few { All (λ wrong. wrong ≤ 26) result.wrong }
{
    let (tsc, wrong) = best_of_bursts(
        NormalView::new(&bursts[0]).training(),
        NormalView::new(&bursts[1]).training(),
        NormalView::new(&bursts[2]).training(),
        NormalView::new(&bursts[3]).training(),
    );
    TrainingErrors { tsc, wrong }
}
