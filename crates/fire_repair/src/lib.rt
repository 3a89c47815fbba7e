//! Repairs short error bursts in codewords of the control channels. The Fire code was designed for such errors.
//!
//! Error trapping (P. Fire, 1959; W. W. Peterson and E. J. Weldon, "Error-Correcting Codes") divides the syndrome by D repeatedly. If its
//! 28 lowest bits are 0 after `n` divisions, the other twelve mark the wrong bits of the word, starting at bit `212 - n`.
#![tactic(auto)]

mod bursts;
mod laws;
mod repairs;

pub use laws::law_error_burst_repair_is_unique;
pub use repairs::{RepairAnswer, repair};
