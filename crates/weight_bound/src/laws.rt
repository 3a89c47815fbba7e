//! Properties of the convolutional code as laws: a law is a function with an empty body whose contract states a theorem.

ghost use Rattle.std.specs.Prelude.{◌≡◌, ◌≢◌, ℕ, ◌*◌, ◌≤◌, length};
ghost use Rattle.bit_blocks.specs.SoftValues.{AllSoftBits};
ghost use Rattle.conv_code.specs.Code.{encoding, IsEncoderInput};
ghost use Rattle.conv_code.specs.Likelihood.{IsMostLikely};
ghost use Rattle.weight_bound.specs.Distance.{distance, SomeDistanceIsSeven};
ghost use Rattle.weight_bound.specs.Restoring.{IsCorrectable, OthersAreLessLikely};

use bit_blocks::ENCODER_INPUT_BITS;

/// Law: the coded bits of two different encoder inputs of equal length differ in at least seven positions.
pub fn law_distance(u: &[u8], v: &[u8])
    requires first { IsEncoderInput u.now }
    requires second { IsEncoderInput v.now }
    requires count { length u.now ≡ length v.now }
    requires different { u.now ≢ v.now }
    ensures { 7 ≤ distance (encoding u.now) (encoding v.now) }
{}

/// Law: for every length of at least five bits, there are two encoder inputs whose coded bits differ in exactly seven positions.
pub fn law_free_distance_is_seven()
    ensures { (n : ℕ) → 5 ≤ n → SomeDistanceIsSeven n }
{}

/// Law: if at most three soft bits are wrong and all are of similar strength (`IsCorrectable`), the sent encoder input `u` is more likely
/// than every other encoder input of its length.
pub fn law_restores(soft: &[i8], u: &[u8])
    requires information { IsEncoderInput u.now }
    requires at_most { length u.now ≤ ENCODER_INPUT_BITS }
    requires count { length soft.now ≡ 2 * length u.now }
    requires soft { AllSoftBits soft.now }
    requires damage { IsCorrectable soft.now (encoding u.now) }
    ensures best { IsMostLikely soft.now u.now }
    ensures others { OthersAreLessLikely soft.now u.now }
{}
