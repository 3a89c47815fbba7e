//! Properties of bursts as laws: a law is a function with an empty body whose contract states a theorem.
ghost use Rattle.std.specs.Prelude.{◌≡◌, ◌≤◌, ℕ, List, length, replicate};
ghost use Rattle.burst_map.specs.NormalBurst.{normal_burst};
ghost use Rattle.burst_map.specs.Parts.{with_range_replaced};

/// Law: writing two halves, in either order, into a normal burst whose coded bits are 0 produces the normal burst with those halves.
pub fn law_burst_halves_fill_in_any_order()
    ensures first_half_first { (first second : List ℕ) (tsc : ℕ) → length first ≡ 57 → length second ≡ 57 → tsc ≤ 7 →
        with_range_replaced (with_range_replaced (normal_burst (replicate 57 0) (replicate 57 0) tsc) 3 60 first) 88 145 second
        ≡ normal_burst first second tsc }
    ensures second_half_first { (first second : List ℕ) (tsc : ℕ) → length first ≡ 57 → length second ≡ 57 → tsc ≤ 7 →
        with_range_replaced (with_range_replaced (normal_burst (replicate 57 0) (replicate 57 0) tsc) 88 145 second) 3 60 first
        ≡ normal_burst first second tsc }
{}
