//! Laws of frames of format B4. The body of a law is empty: call it to use its contract in a proof.

ghost use Rattle.std.specs.Prelude.{◌≡◌, ◌≤◌, ℕ, List, [], ◌∷◌, length};
ghost use Rattle.lapdm_frame.specs.declared.Channel.TheVariants.{Sacch};
ghost use Rattle.lapdm_frame.specs.Frames.{octets_of};
ghost use Rattle.lapdm_b4.specs.Blocks.{IsB4Coding, b4_octets, unit, format_b_information};

/// Law: 23 octets are a frame of format B4 with at most one information.
pub fn law_b4_coding_is_unique()
    ensures { (a b octets : List ℕ) → IsB4Coding a octets → IsB4Coding b octets → a ≡ b }
{}

/// Law: a block that was written reads back as the information in it.
pub fn law_b4_reads_back()
    ensures { (layer1 info : List ℕ) → length layer1 ≡ 2 → length info ≡ 19 → IsB4Coding info (b4_octets layer1 info) }
{}

/// Law: a UI frame of SAPI 0 of format B from the network has the octets of one of format B4, whose information has the length octet first.
pub fn law_format_b_has_octets_of_b4()
    ensures { (info : List ℕ) → length info ≤ 18
        → octets_of Sacch (unit info) ≡ b4_octets (0 ∷ 0 ∷ []) (format_b_information info) }
{}
