//! The ten check bits of the synchronisation burst (SCH), an inverted CRC (GSM 05.03, today 3GPP TS 45.003, section 4.7), computed
//! bit by bit.
ghost use Rattle.std.specs.Prelude.{◌≡◌, ◌↔◌, ◌++◌, List, ℕ, length, IsTrue};
ghost use Rattle.bit_blocks.specs.Bits.{AllBits};
ghost use Rattle.fire_code.specs.Words.{IsSchCodeword};

use crate::division::crc;
use bit_blocks::Bits;

// The generator without D^10: D^8 + D^6 + D^5 + D^4 + D^2 + 1. The least significant bit is the coefficient of D^9.
const CRC_TAPS: u64 = 0b10_1011_1010;

/// Returns the CRC of the 25 information bits of a synchronisation burst (GSM 05.03 section 4.7).
pub fn sch_parity(d: &Bits<25>) -> Bits<10>
    ensures word { IsSchCodeword (d.now ++ result) }
    ensures only { (p : List ℕ) → IsSchCodeword (d.now ++ p) → p ≡ result }
    ensures count { length result ≡ 10 }
    ensures bits { AllBits result }
{
    crc(d.as_slice(), CRC_TAPS)
}

/// Returns whether the last 10 of 35 bits are the CRC of the first 25.
pub fn sch_holds(w: &Bits<35>) -> bool
    ensures { IsTrue result ↔ IsSchCodeword w.now }
{
    let (info, check) = w.as_slice().split_at(25);
    crc::<10>(info, CRC_TAPS).as_slice() == check
}
