//! The three inverted CRCs of GSM signalling (GSM 05.03, today 3GPP TS 45.003, sections 4.1.2, 4.6 and 4.7): the Fire code of the control
//! channels (xCCH), and the CRCs of the access burst (RACH) and the synchronisation burst (SCH).
#![tactic(auto)]

mod division;
mod laws;
mod octets;
mod rach;
mod registers;
mod sch;
mod xcch;

pub use bit_blocks::Bits;
pub use laws::law_check_bits_make_the_codeword;
pub use octets::octet_remainder;
pub use rach::{rach_holds, rach_parity};
pub use sch::{sch_holds, sch_parity};
pub use xcch::{xcch_holds, xcch_parity, xcch_parity_of_octets, xcch_syndrome};
