//! The halves of normal bursts: a block of FACCH (GSM 05.03, today 3GPP TS 45.003, sections 4.2 and 4.3) as a block of four normal bursts.
//! The number of bursts that carry it says which channel it is: eight are FACCH/F, six are FACCH/H, and four are the block itself.
#![tactic(auto)]

mod flags;
mod joining;
mod laws;
mod stealing;

pub use flags::{stealing_sum, wrong_flags};
pub use joining::join;
pub use laws::{
    law_bursts_of_the_standard, law_coded_bits_share_no_position, law_stolen_blocks_join_again,
};
pub use stealing::{steal, write_other_than};
