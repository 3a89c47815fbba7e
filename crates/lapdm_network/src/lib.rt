//! The network's endpoint of a data link (GSM 04.06, section 5), for SAPI 0 or 3, on SDCCH or SACCH. No call allocates memory.
#![tactic(auto)]

mod network;

pub use network::Network;
