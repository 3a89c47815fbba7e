//! The block rectangular interleaving of 456 coded bits over four bursts (GSM 05.03, today 3GPP TS 45.003, section 4.1.4): coded bit `k`
//! goes to position `2 * (49 * k mod 57) + (k mod 8) div 4` of burst `k mod 4`.
#![tactic(auto)]

mod columns;
mod gathering;
mod joining;
mod laws;
mod spreading;
mod table;

pub use columns::Columns;
pub use gathering::{gather, gather_burst};
pub use laws::{law_bursts_deinterleave_in_any_order, law_interleaver_positions_are_one_to_one};
pub use spreading::{spread, spread_burst};
