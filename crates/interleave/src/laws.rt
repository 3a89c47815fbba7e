//! Properties of the interleaving as laws: a law is a function with an empty body whose contract states a theorem.
ghost use Rattle.std.specs.Prelude.{◌≡◌, ℕ, ℤ, ◌<◌, List, All, Contains, length};
ghost use Rattle.interleave.specs.Bursts.{IsInterleaved, AreDeinterleaved};
ghost use Rattle.interleave.specs.Positions.{burst_of_bit, position_in_burst, position_in_four_bursts};

use bit_blocks::CODED_BITS;

/// Law: the 456 coded bits correspond one to one to the positions of the four bursts, 114 in each, and no two coded bits share one of the
/// 592 bits of these bursts.
pub fn law_interleaver_positions_are_one_to_one()
    ensures onto { (b i : ℕ) → b < 4 → i < 114 → (k : ℕ) × (k < CODED_BITS) × (burst_of_bit k ≡ b)
        × (position_in_burst k ≡ i) }
    ensures one_to_one { (k l : ℕ) → k < CODED_BITS → l < CODED_BITS → burst_of_bit k ≡ burst_of_bit l →
        position_in_burst k ≡ position_in_burst l → k ≡ l }
    ensures within { (k : ℕ) → k < CODED_BITS → position_in_four_bursts k < 592 }
    ensures distinct { (k l : ℕ) → k < CODED_BITS → l < CODED_BITS → position_in_four_bursts k ≡ position_in_four_bursts l →
        k ≡ l }
{}

/// Law: deinterleaving the four bursts in any order produces the soft bits of the whole block.
pub fn law_bursts_deinterleave_in_any_order()
    ensures { (bursts : List (List ℤ)) (order : List ℕ) (old new : List ℤ) →
        length old ≡ CODED_BITS → length bursts ≡ 4 → All (λ burst. length burst ≡ 114) bursts →
        ((b : ℕ) → b < 4 → Contains order b) → AreDeinterleaved bursts order old new →
        IsInterleaved new bursts }
{}
