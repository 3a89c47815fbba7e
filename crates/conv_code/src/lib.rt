//! The convolutional code of rate 1/2 and constraint length 5 for the signalling channels, RACH and SCH (GSM 05.03, today 3GPP TS 45.003,
//! section 4.1.3), and the definition of the most likely encoder input for given soft bits.
#![tactic(auto)]

ghost use Rattle.std.specs.Prelude.{◌≡◌, ◌*◌, ◌<◌, length, take};
ghost use Rattle.std.specs.List.{flat_map, range_with_len};
ghost use Rattle.conv_code.specs.Code.{encoding, coded_pair, delayed_bit, IsEncoderInput};

mod packed;

pub use bit_blocks::{CODED_BITS, ENCODER_INPUT_BITS};
pub use packed::encode_packed;

/// Writes the coded bits of the encoder input `u` to `out`: two for each information bit.
///
/// The last four bits of `u` must be the zero tail bits, which return the encoder to state 0.
pub fn encode(u: &[u8], out: &mut [u8])
    requires information { IsEncoderInput u.now }
    requires count { length out.old ≡ 2 * length u.now }
    ensures { out.new ≡ encoding u.now }
{
    encode_first_four_bits(u, out);
    encode_from_fifth_bit(u, out);
}

/// Writes the first four pairs of coded bits. Bits before the first information bit count as 0. Only these pairs need the test for the
/// front of the list, so they have a loop of their own.
fn encode_first_four_bits(u: &[u8], out: &mut [u8])
    requires information { IsEncoderInput u.now }
    requires count { length out.old ≡ 2 * length u.now }
    ensures count { length out.new ≡ length out.old }
    ensures pairs { take 8 out.new ≡ flat_map (coded_pair u.now) (range_with_len 0 4) }
{
    for k in 0..4 {
        let first = u[k] ^ delayed_bit(u, k, 3) ^ delayed_bit(u, k, 4);
        out[2 * k] = first;
        out[2 * k + 1] = first ^ delayed_bit(u, k, 1);
    }
}

/// Returns the bit of `input` that is `delay` positions before bit `k`, or 0 if that is before the first bit.
fn delayed_bit(input: &[u8], k: usize, delay: usize) -> u8
    requires { k < length input.now }
    ensures { result ≡ delayed_bit input.now k delay }
{
    if k < delay { 0 } else { input[k - delay] }
}

/// Writes the pairs of coded bits, starting with the fifth. No pair depends on another, so the compiler can compute sixteen at a time.
fn encode_from_fifth_bit(u: &[u8], out: &mut [u8])
    requires information { IsEncoderInput u.now }
    requires count { length out.old ≡ 2 * length u.now }
    requires pairs { take 8 out.old ≡ flat_map (coded_pair u.now) (range_with_len 0 4) }
    ensures { out.new ≡ encoding u.now }
{
    for k in 4..u.len() {
        let first = u[k] ^ u[k - 3] ^ u[k - 4];
        out[2 * k] = first;
        out[2 * k + 1] = first ^ u[k - 1];
    }
}
