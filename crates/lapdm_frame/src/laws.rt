//! Properties of frames as laws: a law is a function with an empty body whose contract states a theorem.

ghost use Rattle.std.specs.Prelude.{◌≡◌, ℕ, List, length};
ghost use Rattle.lapdm_frame.specs.declared.Channel.{Channel};
ghost use Rattle.lapdm_frame.specs.Content.{Frame};
ghost use Rattle.lapdm_frame.specs.Computed.{frame_reading};
ghost use Rattle.lapdm_frame.specs.Frames.{FrameFits, octets_of};
ghost use Rattle.lapdm_frame.specs.Readings.{IsOnlyCanonicalCoding, IsOnlyReading, HasUniqueReading};

use bit_blocks::BLOCK_OCTETS;

/// Law: any 23 octets either encode exactly one frame or are refused for exactly one reason, and `frame_reading` computes which.
pub fn law_frame_reading_is_unique()
    ensures unique { (channel : Channel) (octets : List ℕ) → length octets ≡ BLOCK_OCTETS
        → HasUniqueReading channel octets }
    ensures computed { (channel : Channel) (octets : List ℕ) → length octets ≡ BLOCK_OCTETS
        → IsOnlyReading channel octets (frame_reading channel octets) }
{}

/// Law: every frame that fits the channel has exactly one canonical coding, and reading it gives back exactly this frame.
pub fn law_canonical_frame_coding_is_unique()
    ensures { (channel : Channel) (f : Frame) → FrameFits channel f
        → IsOnlyCanonicalCoding channel f (octets_of channel f) }
{}
