//! How a command reports received bursts.
ghost use Rattle.std.specs.Prelude.{◌≡◌, ◌<◌, [], length};
ghost use Rattle.std.specs.List.{All};
ghost use Rattle.um_block.specs.bit_blocks.SoftValues.{AllSoftBits};
ghost use Rattle.um_replay.specs.BurstRules.{BurstAnswers};

use um_block::{BURST_BITS, Bits};
use um_formats::Text;

/// Writes a command's answers to the four bursts of a block, to an access burst and to a synchronisation burst.
pub trait Reports {
    /// The answers of the command to a block and to each kind of single burst.
    ghost answers: { BurstAnswers };

    /// Writes the answer to the four bursts of a block.
    fn block(&self, out: &mut Text, bursts: &[[i8; BURST_BITS]; 4])
        requires empty { out.old ≡ [] }
        requires soft { All AllSoftBits bursts.now }
        ensures answer { out.new ≡ answers.block bursts.now }
        ensures size { length out.new < 2000 };

    /// Writes the answer to an access burst of the cell with this BSIC.
    fn access(&self, out: &mut Text, bsic: &Bits<6>, burst: &[i8; 88])
        requires empty { out.old ≡ [] }
        requires soft { AllSoftBits burst.now }
        ensures answer { out.new ≡ answers.access bsic.now burst.now }
        ensures size { length out.new < 2000 };

    /// Writes the answer to a synchronisation burst.
    fn sync(&self, out: &mut Text, burst: &[i8; BURST_BITS])
        requires empty { out.old ≡ [] }
        requires soft { AllSoftBits burst.now }
        ensures answer { out.new ≡ answers.sync burst.now }
        ensures size { length out.new < 2000 };
}
