//! The C function that repairs words with short error bursts.
ghost use Rattle.std.specs.Prelude.{◌≡◌, ℕ};
ghost use Rattle.um_c.specs.RepairReports.{IsRepairCallResult};

use fire_repair::{RepairAnswer, repair};
use um_block::Bits;

/// The repair of a word.
#[repr(C)]
#[derive(Drop)]
pub struct RepairReport {
    /// The index of the first wrong bit, 0 to 223.
    pub first: u8,
    /// The number of bits from the first wrong bit to the last, both included; at most twelve.
    pub span: u8,
    /// The repaired word, with one bit in each octet: 184 data bits, 40 CRC bits.
    pub word: [u8; 224],
}

/// Repairs a word of 184 data bits and 40 CRC bits if all its wrong bits lie within twelve consecutive bits. Returns 0 if the CRC holds, 1
/// if the word was repaired, 2 if there is no such repair, and 3 if an octet is neither 0 nor 1. Writes the report only if it returns 1.
#[unsafe(no_mangle)]
pub extern "C" fn um_repair(word: &[u8; 224], report: &mut RepairReport) -> u32
    ensures answer { IsRepairCallResult word.now result report.old report.new }
    ensures only { (answer : ℕ) (other : RepairReport)
        → IsRepairCallResult word.now answer report.old other → (answer ≡ result) × (other ≡ report.new) }
{
    let Some(bits) = Bits::<224>::from_slice(word) else {
        return 3;
    };
    match repair(&bits) {
        RepairAnswer::Holds => 0,
        RepairAnswer::Repaired {
            word: right,
            first,
            span,
        } => {
            let mut octets = [0; 224];
            octets.copy_from_slice(right.as_slice());
            *report = RepairReport {
                first,
                span,
                word: octets,
            };
            1
        }
        RepairAnswer::NoRepair => 2,
    }
}
