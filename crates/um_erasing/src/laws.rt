//! Laws of erasure decoding: a law is a function with an empty body whose contract states a theorem.
ghost use Rattle.std.specs.Prelude.{◌≡◌, ◌≤◌, ℕ, ℤ, List, None, Some};
ghost use Rattle.um_block.specs.Received.{IsReceivedBlock};
ghost use Rattle.um_facch.specs.Facch.{IsReceivedFacch};
ghost use Rattle.um_facch.specs.Training.{wrong_training_of_each};
ghost use Rattle.um_erasing.specs.Erasing.{IsErasingDecodedBlock, wrong_training_of_bursts};
ghost use Rattle.um_erasing.specs.ErasingFacch.{IsErasingDecodedFacch};

use crate::blocks::ErasingDecodedBlock;
use crate::facch::ErasingDecodedFacch;
use um_block::Received;

/// Law: if the most likely word of the block as received is accepted, the report is that of this word, with rank 1, and no burst is erased.
pub fn law_accepted_first_word_is_taken()
    ensures block { (bursts : List (List ℤ)) (max_words erasures : ℕ) (r : Received) (octets : List ℕ)
        (decoded : ErasingDecodedBlock) → 1 ≤ max_words → IsReceivedBlock bursts r → r.accepted ≡ Some octets →
        IsErasingDecodedBlock bursts max_words erasures decoded →
        (decoded.block ≡ record { report = r; rank = 1 }) × (decoded.erased ≡ None)
        × (decoded.wrong_training ≡ wrong_training_of_bursts bursts r.tsc) }
    ensures facch { (bursts : List (List ℤ)) (max_words erasures : ℕ) (r : Received) (octets : List ℕ)
        (decoded : ErasingDecodedFacch) → 1 ≤ max_words → IsReceivedFacch bursts r → r.accepted ≡ Some octets →
        IsErasingDecodedFacch bursts max_words erasures decoded →
        (decoded.block ≡ record { report = r; rank = 1 }) × (decoded.erased ≡ None)
        × (decoded.wrong_training ≡ wrong_training_of_each bursts r.tsc) }
{}
