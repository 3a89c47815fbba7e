//! Reports of received bursts.

use bit_blocks::{BLOCK_OCTETS, Bits, ENCODER_INPUT_BITS};

/// The report of a block received in four bursts.
#[derive(Clone, Copy, PartialEq, Eq, Debug)]
pub struct Received {
    /// The most likely encoder input: 184 information bits, 40 Fire code bits, four zeros.
    pub u: Bits<ENCODER_INPUT_BITS>,
    /// The path metric of `u`.
    pub metric: i32,
    /// The training sequence code with the greatest total correlation, 0 to 7.
    pub tsc: u8,
    /// The number of soft bits, 0 to 104, that disagree with the training sequence of code `tsc`.
    pub wrong_training: u32,
    /// The 23 octets of the information bits, if the Fire code bits match.
    pub accepted: Option<[u8; BLOCK_OCTETS]>,
}

/// The report of an access burst.
#[derive(Clone, Copy, PartialEq, Eq, Debug)]
pub struct ReceivedAccess {
    /// The most likely encoder input: eight information bits, six check bits, four zeros.
    pub u: Bits<18>,
    /// The path metric of `u`.
    pub metric: i32,
    /// The number of soft bits, 0 to 41, that disagree with the training sequence.
    pub wrong_training: u32,
    /// The eight information bits, if the CRC is correct for the BSIC.
    pub accepted: Option<Bits<8>>,
}

/// The report of a synchronisation burst.
#[derive(Clone, Copy, PartialEq, Eq, Debug)]
pub struct ReceivedSync {
    /// The most likely encoder input: 25 information bits, ten check bits, four zeros.
    pub u: Bits<39>,
    /// The path metric of `u`.
    pub metric: i32,
    /// The number of soft bits, 0 to 64, that disagree with the training sequence.
    pub wrong_training: u32,
    /// The 25 information bits, if the CRC is correct.
    pub accepted: Option<Bits<25>>,
}
