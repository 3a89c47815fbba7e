//! C functions that read and write UI frames of format B4.
ghost use Rattle.std.specs.Prelude.{◌≡◌};
ghost use Rattle.lapdm_b4.specs.Blocks.{b4_octets};
ghost use Rattle.um_c.specs.B4Calls.{IsB4ReadResult};

use lapdm_b4::{B4_OCTETS, BLOCK_OCTETS, read_b4, write_b4};

/// Reads the information of the frame of format B4 in a block of SACCH from the network. Returns false, and writes nothing, if the address
/// or the control octet is that of another frame.
#[unsafe(no_mangle)]
pub extern "C" fn um_read_b4(octets: &[u8; BLOCK_OCTETS], info: &mut [u8; B4_OCTETS]) -> bool
    ensures { IsB4ReadResult octets.now result info.old info.new }
{
    match read_b4(octets) {
        Some(read) => {
            *info = read;
            true
        }
        None => false,
    }
}

/// Writes the block of SACCH from the network with these layer 1 octets and a frame of format B4 with this information.
#[unsafe(no_mangle)]
pub extern "C" fn um_write_b4(
    layer1: &[u8; 2],
    info: &[u8; B4_OCTETS],
    octets: &mut [u8; BLOCK_OCTETS],
)
    ensures { octets.new ≡ b4_octets layer1.now info.now }
{
    *octets = write_b4(layer1, info);
}
