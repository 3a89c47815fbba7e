//! What operations on vectors do in each lane. The crate has definitions and lemmas, and no code.
#![tactic(auto)]
