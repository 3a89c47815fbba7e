//! C functions that cipher a burst by a key stream.
ghost use Rattle.std.specs.Prelude.{◌≡◌, ◌↔◌, IsTrue, false};
ghost use Rattle.um_block.specs.bit_blocks.Bits.{AllBits};
ghost use Rattle.um_block.specs.bit_blocks.SoftValues.{AllSoftBits};
ghost use Rattle.um_cipher.specs.Ciphers.{ciphered_bits, ciphered_soft_bits};

use crate::soft::are_soft_bits;
use um_block::{BURST_BITS, Bits};
use um_cipher::{KEY_BITS, cipher_bits, cipher_soft_bits};

/// Ciphers or deciphers the bits of a burst by a key stream. Returns false, and writes nothing, if an octet of either is neither 0 nor 1.
#[unsafe(no_mangle)]
pub extern "C" fn um_cipher_bits(burst: &mut [u8; BURST_BITS], stream: &[u8; KEY_BITS]) -> bool
    ensures valid { IsTrue result ↔ (AllBits burst.old × AllBits stream.now) }
    ensures ciphered { IsTrue result → burst.new ≡ ciphered_bits stream.now burst.old }
    ensures refused { result ≡ false → burst.new ≡ burst.old }
{
    let Some(_) = Bits::<BURST_BITS>::from_slice(burst) else {
        return false;
    };
    let Some(_) = Bits::<KEY_BITS>::from_slice(stream) else {
        return false;
    };
    *burst = cipher_bits(burst, stream);
    true
}

/// Deciphers the soft bits of a burst by a key stream: the sign changes where the stream has 1. Returns false, and writes nothing, if a
/// soft bit is -128, or an octet of the stream is neither 0 nor 1.
#[unsafe(no_mangle)]
pub extern "C" fn um_soft_cipher(burst: &mut [i8; BURST_BITS], stream: &[u8; KEY_BITS]) -> bool
    ensures valid { IsTrue result ↔ (AllSoftBits burst.old × AllBits stream.now) }
    ensures ciphered { IsTrue result → burst.new ≡ ciphered_soft_bits stream.now burst.old }
    ensures refused { result ≡ false → burst.new ≡ burst.old }
{
    if !are_soft_bits(burst) {
        return false;
    }
    let Some(_) = Bits::<KEY_BITS>::from_slice(stream) else {
        return false;
    };
    *burst = cipher_soft_bits(burst, stream);
    true
}
