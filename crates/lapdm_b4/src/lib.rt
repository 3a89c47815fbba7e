//! UI frames of format B4 (GSM 04.06), with which the network sends system information on SACCH. No call allocates memory.
#![tactic(auto)]

ghost use Rattle.std.specs.Prelude.{◌≡◌, IfSome, IfNone, ℕ, List};
ghost use Rattle.lapdm_b4.specs.Blocks.{IsB4Coding, b4_octets};

mod laws;

pub use lapdm_frame::BLOCK_OCTETS;
pub use laws::{law_b4_coding_is_unique, law_b4_reads_back, law_format_b_has_octets_of_b4};

/// The octets of information of a frame of format B4: N201 of GSM 04.06.
pub const B4_OCTETS: usize = 19;

const ADDRESS: u8 = 0x03;

const CONTROL: u8 = 0x03;

const CONTROL_WITH_P: u8 = 0x13;

/// Reads the information of the frame of format B4 in a block of SACCH from the network: a UI frame of SAPI 0. Layer 1 octets and the P bit
/// may have any value. Returns `None` if the address or the control octet is of another frame.
pub fn read_b4(octets: &[u8; BLOCK_OCTETS]) -> Option<[u8; B4_OCTETS]>
    ensures frame { IfSome result (λ info. IsB4Coding info octets.now) }
    ensures none { IfNone result ((info : List ℕ) → ¬ IsB4Coding info octets.now) }
{
    let control = octets[3];
    if octets[2] != ADDRESS {
        return None;
    }
    if control != CONTROL && control != CONTROL_WITH_P {
        return None;
    }
    let mut info = [0; B4_OCTETS];
    info.copy_from_slice(&octets[4..]);
    Some(info)
}

/// Writes the block of SACCH from the network that has these layer 1 octets and a frame of format B4 with this information, P = 0.
pub fn write_b4(layer1: &[u8; 2], info: &[u8; B4_OCTETS]) -> [u8; BLOCK_OCTETS]
    ensures { result ≡ b4_octets layer1.now info.now }
{
    let mut octets = [0; BLOCK_OCTETS];
    octets[..2].copy_from_slice(layer1);
    octets[2] = ADDRESS;
    octets[3] = CONTROL;
    octets[4..].copy_from_slice(info);
    octets
}
