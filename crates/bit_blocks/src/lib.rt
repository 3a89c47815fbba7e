//! Bit lists, the bits of octets, soft bits, and multiples of polynomials over GF(2).
#![tactic(auto)]

mod bits;
mod octets;
mod soft;

pub use bits::Bits;
pub use octets::{from_octets, law_octet_bits_round_trip, to_octets};
pub use soft::count_wrong_bits;

/// The number of octets in a block: one layer 2 frame with its fill octets.
pub const BLOCK_OCTETS: usize = 23;

/// The number of bits in a block, before the Fire code and the tail bits are added.
pub const BLOCK_BITS: usize = 184;

/// The number of input bits of the convolutional encoder for a block: its 184 bits, 40 Fire code bits and four tail bits.
pub const ENCODER_INPUT_BITS: usize = 228;

/// The number of coded bits of a block: two for each of the 228 input bits of the encoder.
pub const CODED_BITS: usize = 456;
