//! A key stream on the bits of a burst to send, and on the soft bits of a burst that was received.
ghost use Rattle.std.specs.Prelude.{◌≡◌, ◌≤◌, ◌+◌, ◌++◌, drop, length, take};
ghost use Rattle.bit_blocks.specs.Bits.{AllBits, IsBit};
ghost use Rattle.bit_blocks.specs.SoftValues.{AllSoftBits, IsSoftBit};
ghost use Rattle.um_cipher.specs.Ciphers.{ciphered_bit, ciphered_bits, ciphered_soft_bit, ciphered_soft_bits, key_bits};

use burst_map::BURST_BITS;

/// The number of bits of a key stream, and of the coded bits of a normal burst.
pub const KEY_BITS: usize = 114;

/// Returns the bits of a burst with its coded bits ciphered by a key stream, or deciphered.
pub fn cipher_bits(burst: &[u8; BURST_BITS], stream: &[u8; KEY_BITS]) -> [u8; BURST_BITS]
    requires bits { AllBits burst.now }
    requires stream { AllBits stream.now }
    ensures value { result ≡ ciphered_bits stream.now burst.now }
    ensures bits { AllBits result }
{
    let key = key_bits(stream);
    let mut ciphered = [0; BURST_BITS];
    for (place, bit) in burst.iter().enumerate() {
        ciphered[place] = ciphered_bit(key[place], *bit);
    }
    ciphered
}

/// Returns the soft bits of a burst with its coded bits deciphered by a key stream: the sign changes where the stream has 1.
pub fn cipher_soft_bits(burst: &[i8; BURST_BITS], stream: &[u8; KEY_BITS]) -> [i8; BURST_BITS]
    requires soft { AllSoftBits burst.now }
    requires stream { AllBits stream.now }
    ensures value { result ≡ ciphered_soft_bits stream.now burst.now }
    ensures soft { AllSoftBits result }
{
    let key = key_bits(stream);
    let mut ciphered = [0; BURST_BITS];
    for (place, soft) in burst.iter().enumerate() {
        ciphered[place] = ciphered_soft_bit(key[place], *soft);
    }
    ciphered
}

/// The bit of the key stream for each place of a burst, 0 where nothing is ciphered.
#[inline]
fn key_bits(stream: &[u8; KEY_BITS]) -> [u8; BURST_BITS]
    requires stream { AllBits stream.now }
    ensures value { result ≡ key_bits stream.now }
    ensures bits { AllBits result }
{
    let mut key = [0; BURST_BITS];
    place(&mut key, 3, &stream[..57]);
    place(&mut key, 88, &stream[57..]);
    key
}

fn place(key: &mut [u8; BURST_BITS], at: usize, bits: &[u8])
    requires { at + length bits.now ≤ BURST_BITS }
    ensures { key.new ≡ take at key.old ++ bits.now ++ drop (at + length bits.now) key.old }
{
    key[at..at + bits.len()].copy_from_slice(bits);
}

#[inline]
fn ciphered_bit(key: u8, bit: u8) -> u8
    requires key { IsBit key }
    requires bit { IsBit bit }
    ensures value { result ≡ ciphered_bit key bit }
    ensures bit { IsBit result }
{
    (bit + key) % 2
}

#[inline]
fn ciphered_soft_bit(key: u8, soft: i8) -> i8
    requires key { IsBit key }
    requires soft { IsSoftBit soft }
    ensures value { result ≡ ciphered_soft_bit key soft }
    ensures soft { IsSoftBit result }
{
    if key == 0 { soft } else { -soft }
}
