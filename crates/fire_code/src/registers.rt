//! Converts registers of up to 64 bits to bit lists and octets, and back. The least significant bit of a register is the coefficient of
//! the highest power of D. One multiplication unpacks an octet into eight bits, each in an octet of its own, or packs eight such bits.
ghost use Rattle.std.specs.Prelude.{◌≡◌, ◌+◌, ◌*◌, ◌/◌, ◌<◌, ◌≤◌, ◌^◌, ◌++◌, length, take, drop};
ghost use Rattle.bit_blocks.specs.Bits.{AllBits};
ghost use Rattle.bit_blocks.specs.Octets.{octet_bits, bits_of as octets_to_bits};
ghost use Rattle.fire_code.specs.Registers.{low_bits};

use bit_blocks::Bits;

pub(crate) fn bits_of_register<const N: usize>(register: u64) -> Bits<N>
    requires { N ≤ 64 }
    ensures value { result ≡ low_bits N register }
    ensures count { length result ≡ N }
    ensures bits { AllBits result }
{
    let mut bits = Bits::zero();
    for i in 0..N {
        bits.set(i, ((register >> i) & 1) as u8);
    }
    bits
}

pub(crate) fn bits_of(register: u64) -> Bits<40>
    ensures value { result ≡ low_bits 40 register }
    ensures count { length result ≡ 40 }
    ensures bits { AllBits result }
{
    let mut bits = Bits::zero();
    for m in 0..5 {
        write_octet_bits(
            &mut bits,
            8 * m,
            &unpack_octet((register >> (8 * m)) & 0xff),
        );
    }
    bits
}

/// Returns the forty lowest bits of a register as five octets, the least significant octet first.
pub(crate) fn octets_of_register(register: u64) -> [u8; 5]
    ensures { octets_to_bits result ≡ low_bits 40 register }
{
    [
        register_octet(register, 0),
        register_octet(register, 1),
        register_octet(register, 2),
        register_octet(register, 3),
        register_octet(register, 4),
    ]
}

/// Returns octet `octet_index` of a register; octet 0 is the least significant.
fn register_octet(register: u64, octet_index: usize) -> u8
    requires { octet_index < 5 }
    ensures { octet_bits result ≡ low_bits 8 (register / 2 ^ (8 * octet_index)) }
{
    ((register >> (8 * octet_index)) & 0xff) as u8
}

/// Packs forty bits into a register; the first bit is the least significant.
pub(crate) fn register_from_bits(bits: &[u8]) -> u64
    requires count { length bits.now ≡ 40 }
    requires bits { AllBits bits.now }
    ensures value { low_bits 40 result ≡ bits.now }
    ensures within { result < 2 ^ 40 }
{
    let mut register = 0;
    for m in 0..5 {
        register |= pack_eight_bits(&bits[8 * m..8 * m + 8]) << (8 * m);
    }
    register
}

#[inline]
pub(crate) fn pack_eight_bits(bits: &[u8]) -> u64
    requires count { length bits.now ≡ 8 }
    requires bits { AllBits bits.now }
    ensures value { low_bits 8 result ≡ bits.now }
    ensures within { result < 256 }
{
    let apart = u64::from_le_bytes([
        bits[0], bits[1], bits[2], bits[3], bits[4], bits[5], bits[6], bits[7],
    ]);
    // The multiplication moves bit `i` to position `56 + i`, so the highest octet of the product holds exactly the eight bits.
    apart.wrapping_mul(0x0102_0408_1020_4080) >> 56
}

#[inline]
fn unpack_octet(octet: u64) -> [u8; 8]
    requires { octet < 256 }
    ensures value { result ≡ low_bits 8 octet }
    ensures bits { AllBits result }
{
    // Octet `i` of `kept` holds only bit `i` of `octet`. Adding 127 to each octet of `kept` sets the highest bit of octet `i` if and only
    // if bit `i` is 1.
    let kept = octet.wrapping_mul(0x0101_0101_0101_0101) & 0x8040_2010_0804_0201;
    ((kept.wrapping_add(0x7f7f_7f7f_7f7f_7f7f) >> 7) & 0x0101_0101_0101_0101).to_le_bytes()
}

fn write_octet_bits(bits: &mut Bits<40>, at: usize, octet: &[u8; 8])
    requires count { length bits.old ≡ 40 }
    requires within { at + 8 ≤ 40 }
    requires octet { AllBits octet.now }
    ensures { bits.new ≡ take at bits.old ++ (octet.now ++ drop (at + 8) bits.old) }
{
    for b in 0..8 {
        bits.set(at + b, octet[b]);
    }
}
