//! The free distance of the convolutional code, which is seven, and the errors that decoding is guaranteed to correct.
#![tactic(auto)]

mod counts;
mod laws;

pub use counts::{distance, strengths, wrong_bits};
pub use laws::{law_distance, law_free_distance_is_seven, law_restores};
