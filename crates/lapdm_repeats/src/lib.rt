//! An answer that is said twice: its last block, and laws that the second one changes nothing.
#![tactic(auto)]

mod laws;
mod said;

pub use laws::{
    law_rr_said_twice_changes_nothing, law_rr_that_acknowledges_nothing_changes_nothing,
};
pub use said::Said;
