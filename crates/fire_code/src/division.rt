//! CRC by a linear feedback shift register, one bit at a time (GSM 05.03, today 3GPP TS 45.003). The register is reflected: its least
//! significant bit is the coefficient of the highest power of D, which is sent first.
ghost use Rattle.std.specs.Prelude.{◌≡◌, ◌<◌, ◌≤◌, ◌^◌, ◌++◌, ◌∷◌, length, replicate};
ghost use Rattle.bit_blocks.specs.Bits.{AllBits, xor_bits};
ghost use Rattle.bit_blocks.specs.Polynomials.{IsDivisibleBy};
ghost use Rattle.fire_code.specs.Registers.{low_bits};

use crate::registers::bits_of_register;
use bit_blocks::Bits;

/// Returns the `N` check bits of `info`: `info` followed by these bits, inverted, is a multiple of the generator.
///
/// `taps` is the generator without its highest power, reflected: bit `i` is the coefficient of D^(N - 1 - i).
pub(crate) fn crc<const N: usize>(info: &[u8], taps: u64) -> Bits<N>
    requires bits { AllBits info.now }
    requires degree { 0 < N }
    requires fits { N ≤ 64 }
    requires taps { taps < 2 ^ N }
    ensures multiple { IsDivisibleBy (info.now ++ xor_bits result (replicate N 1)) (1 ∷ low_bits N taps) }
    ensures count { length result ≡ N }
    ensures bits { AllBits result }
{
    bits_of_register(!remainder::<N>(info, taps))
}

/// Returns the remainder of `bits` as a register: `bits`, followed by the `N` lowest bits of the result, bit 0 first, is a multiple of the
/// generator.
fn remainder<const N: usize>(bits: &[u8], taps: u64) -> u64
    requires bits { AllBits bits.now }
    requires degree { 0 < N }
    requires taps { taps < 2 ^ N }
    ensures multiple { IsDivisibleBy (bits.now ++ low_bits N result) (1 ∷ low_bits N taps) }
    ensures within { result < 2 ^ N }
{
    let mut register = 0;
    for bit in bits {
        let carry = (register ^ *bit as u64) & 1;
        register = (register >> 1) ^ (carry * taps);
    }
    register
}
