//! Repairs a received word of 224 bits.
ghost use Rattle.std.specs.Prelude.{◌≡◌};
ghost use Rattle.fire_repair.specs.Answers.{IsRepairResult};

use crate::bursts::{find_error_burst, first_and_last_wrong_bit, flip_error_burst};
use fire_code::{Bits, xcch_syndrome};

/// The result of `repair`.
#[derive(Clone, Copy)]
pub enum RepairAnswer {
    /// The received word is a codeword.
    Holds,
    /// The received word is not a codeword, and `word` is the only codeword that differs from it only within twelve consecutive bits.
    /// `first` is the index of the first bit that differs, and `span` is the number of bits from there to the last bit that differs.
    Repaired {
        word: Bits<224>,
        first: u8,
        span: u8,
    },
    /// The received word is not a codeword, and no codeword differs from it only within twelve consecutive bits.
    NoRepair,
}

/// Repairs a word of 184 information bits and 40 Fire code bits if the errors lie within twelve consecutive bits. An error burst that wraps
/// around from the last bit to the first is not repaired.
pub fn repair(w: &Bits<224>) -> RepairAnswer
    ensures answer { IsRepairResult w.now result }
    ensures only { (other : RepairAnswer) → IsRepairResult w.now other → other ≡ result }
{
    let syndrome = xcch_syndrome(w);
    if syndrome == 0 {
        return RepairAnswer::Holds;
    }
    match find_error_burst(syndrome) {
        None => RepairAnswer::NoRepair,
        Some(found) => {
            let (first, last) = first_and_last_wrong_bit(found.shape);
            RepairAnswer::Repaired {
                word: flip_error_burst(w, found),
                first: (found.start + first as usize) as u8,
                span: (last - first + 1) as u8,
            }
        }
    }
}
