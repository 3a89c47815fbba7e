//! The use of a key stream on a normal burst (GSM 03.20, today 3GPP TS 43.020, annex C.1): each of the 114 coded bits is added to a bit of
//! the key stream, modulo two. The key stream itself is the caller's.
#![tactic(auto)]

mod ciphering;
mod laws;

pub use ciphering::{KEY_BITS, cipher_bits, cipher_soft_bits};
pub use laws::{law_ciphered_bits_are_received_as_sent, law_ciphering_twice_is_nothing};
