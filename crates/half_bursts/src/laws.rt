//! Laws of the halves of bursts: a law is a function with an empty body whose contract states a theorem.
ghost use Rattle.std.specs.Prelude.{◌≡◌, ◌<◌, ◌≤◌, ◌-◌, ◌*◌, ◌/◌, ◌%◌, ℕ, ℤ, pos, List, All};
ghost use Rattle.std.specs.Prelude.{length, map};
ghost use Rattle.half_bursts.specs.Halves.{carrying_burst, joined_block, position_in_normal_burst, stolen};

/// Law: the burst of a coded bit by the formulas of the standard, for eight, six and four bursts.
pub fn law_bursts_of_the_standard()
    ensures full_rate { (k : ℕ) → carrying_burst 8 k ≡ k % 8 }
    ensures half_rate { (k : ℕ) → carrying_burst 6 k ≡ k % 8 - 4 * (k % 8 / 6) }
    ensures block { (k : ℕ) → carrying_burst 4 k ≡ k % 4 }
{}

/// Law: no two coded bits of a block share a position of a burst.
pub fn law_coded_bits_share_no_position()
    ensures { (count k l : ℕ) → 4 ≤ count → k < 456 → l < 456 → carrying_burst count k ≡ carrying_burst count l →
        position_in_normal_burst k ≡ position_in_normal_burst l → k ≡ l }
{}

/// Law: of bursts that are received as they were sent, by any rule for the soft bit of a bit, the block that is joined is that which was
/// sent, whatever the other halves are.
pub fn law_stolen_blocks_join_again()
    ensures { (block bursts : List (List ℕ)) (f : ℕ → ℤ) → length block ≡ 4 → All (λ burst. length burst ≡ 148) block →
        4 ≤ length bursts → length bursts ≤ 8 →
        joined_block (pos 0) (map (map f) (stolen block bursts)) ≡ map (map f) block }
{}
