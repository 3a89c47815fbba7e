//! The bits of an access burst's RA and BSIC as numbers.
ghost use Rattle.std.specs.Prelude.{◌≡◌, ◌<◌, SomeIff};
ghost use Rattle.bit_blocks.specs.Octets.{octet_bits};
ghost use Rattle.tdma.specs.Numbers.{bsic_bits};

use bit_blocks::{Bits, from_octets, to_octets};

/// Returns the eight bits of RA, the octet of CHANNEL REQUEST, in the order in which they are sent: the least significant bit first.
pub fn bits_of_ra(ra: u8) -> Bits<8>
    ensures { result ≡ octet_bits ra }
{
    let mut bits = [0; 8];
    from_octets(&[ra], &mut bits);
    Bits::from_array(bits)
}

/// Returns the RA with these bits.
pub fn ra_of_bits(bits: &Bits<8>) -> u8
    ensures { octet_bits result ≡ bits.now }
{
    let mut octet = [0];
    to_octets(bits.as_slice(), &mut octet);
    octet[0]
}

/// Returns the six bits of a base station identity code, the most significant bit first. Returns `None` if it is above 63.
pub fn bits_of_bsic(bsic: u8) -> Option<Bits<6>>
    ensures { SomeIff result (bsic < 64) (bsic_bits bsic) }
{
    if bsic >= 64 {
        return None;
    }
    Some(Bits::from_array([
        bsic / 32 % 2,
        bsic / 16 % 2,
        bsic / 8 % 2,
        bsic / 4 % 2,
        bsic / 2 % 2,
        bsic % 2,
    ]))
}

/// Returns the base station identity code with these bits.
pub fn bsic_of_bits(bits: &Bits<6>) -> u8
    ensures value { bsic_bits result ≡ bits.now }
    ensures within { result < 64 }
{
    let bits = bits.as_slice();
    32 * bits[0] + 16 * bits[1] + 8 * bits[2] + 4 * bits[3] + 2 * bits[4] + bits[5]
}
