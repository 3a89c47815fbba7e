//! The forty check bits of a control channel block (xCCH): an inverted Fire code whose generator is D^23 + 1 times a polynomial of
//! degree 17 (GSM 05.03, today 3GPP TS 45.003, section 4.1.2), computed octet by octet.
ghost use Rattle.std.specs.Prelude.{◌≡◌, ◌<◌, ◌^◌, ◌↔◌, ◌++◌, List, ℕ, length, replicate, IsTrue};
ghost use Rattle.bit_blocks.specs.Bits.{AllBits, xor_bits};
ghost use Rattle.bit_blocks.specs.Octets.{bits_of as octets_to_bits};
ghost use Rattle.fire_code.specs.Registers.{low_bits};
ghost use Rattle.fire_code.specs.Words.{IsXcchCodeword};

use crate::octets::{remainder, remainder_of_octets};
use crate::registers::{bits_of, octets_of_register, register_from_bits};
use bit_blocks::{BLOCK_BITS, BLOCK_OCTETS, Bits};

const ALL_ONES: u64 = 0xff_ffff_ffff;

/// Returns the 40 Fire code bits (check bits) of the 184 information bits of a block (GSM 05.03 section 4.1.2).
pub fn xcch_parity(d: &Bits<BLOCK_BITS>) -> Bits<40>
    ensures word { IsXcchCodeword (d.now ++ result) }
    ensures only { (p : List ℕ) → IsXcchCodeword (d.now ++ p) → p ≡ result }
    ensures count { length result ≡ 40 }
    ensures bits { AllBits result }
{
    bits_of(!remainder(d.as_slice()))
}

/// Returns the 40 Fire code bits of a block of 23 octets, as five octets. Bits are packed least significant bit first.
#[inline(always)]
pub fn xcch_parity_of_octets(octets: &[u8; BLOCK_OCTETS]) -> [u8; 5]
    ensures word { IsXcchCodeword (octets_to_bits octets.now ++ octets_to_bits result) }
    ensures only { (p : List ℕ) → IsXcchCodeword (octets_to_bits octets.now ++ p) → p ≡ octets_to_bits result }
{
    octets_of_register(!remainder_of_octets(octets))
}

/// Returns whether the last 40 of 224 bits are the Fire code bits of the first 184. The check bits are the inverted remainder, so a
/// codeword has forty ones in the sum of the two; they are compared as one number.
pub fn xcch_holds(w: &Bits<224>) -> bool
    ensures { IsTrue result ↔ IsXcchCodeword w.now }
{
    let (info, check) = w.as_slice().split_at(BLOCK_BITS);
    remainder(info) ^ register_from_bits(check) == ALL_ONES
}

/// Returns the syndrome of the 224 bits `w`. It is 0 if and only if `w` is a codeword. Inverting bit `184 + i` of `w` for each bit `i` of
/// the syndrome that is 1 makes `w` a codeword.
pub fn xcch_syndrome(w: &Bits<224>) -> u64
    ensures word { IsXcchCodeword (xor_bits w.now (replicate BLOCK_BITS 0 ++ low_bits 40 result)) }
    ensures zero { (result ≡ 0) ↔ IsXcchCodeword w.now }
    ensures within { result < 2 ^ 40 }
    ensures count { length w.now ≡ 224 }
    ensures bits { AllBits w.now }
{
    let (info, check) = w.as_slice().split_at(BLOCK_BITS);
    remainder(info) ^ register_from_bits(check) ^ ALL_ONES
}
