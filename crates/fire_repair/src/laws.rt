//! Properties of repairs as laws: a law is a function with an empty body whose contract states a theorem.

ghost use Rattle.fire_repair.specs.Repairs.{EachWordHasAtMostOneRepair};

/// Law: 224 received bits have at most one repair.
pub fn law_error_burst_repair_is_unique()
    ensures { EachWordHasAtMostOneRepair }
{}
