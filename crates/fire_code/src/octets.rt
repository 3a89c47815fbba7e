//! The remainder of the Fire code, computed one octet at a time with a table of 256 entries. The CRC is reflected, since octets are sent
//! least significant bit first.
ghost use Rattle.std.specs.Prelude.{◌≡◌, ℕ, ◌*◌, ◌/◌, ◌<◌, ◌^◌, ◌++◌, List, length};
ghost use Rattle.bit_blocks.specs.Bits.{AllBits};
ghost use Rattle.bit_blocks.specs.Octets.{octet_bits, bits_of as octets_to_bits};
ghost use Rattle.bit_blocks.specs.Polynomials.{IsDivisibleBy, IsMultiple};
ghost use Rattle.fire_code.specs.Registers.{low_bits};
ghost use Rattle.fire_code.specs.Words.{fire_generator};

use crate::registers::{bits_of, pack_eight_bits};
use bit_blocks::Bits;

// The remainder of each octet: the octet followed by the 40 bits of its entry, bit 0 first, is a multiple of the Fire code's generator.
// `tools/remainders.py` prints the table.
static OCTET_REMAINDERS: [u64; 256] = [
    0x00_0000_0000,
    0x01_2000_8240,
    0x02_4001_0480,
    0x03_6001_86c0,
    0x04_8002_0900,
    0x05_a002_8b40,
    0x06_c003_0d80,
    0x07_e003_8fc0,
    0x09_0004_1200,
    0x08_2004_9040,
    0x0b_4005_1680,
    0x0a_6005_94c0,
    0x0d_8006_1b00,
    0x0c_a006_9940,
    0x0f_c007_1f80,
    0x0e_e007_9dc0,
    0x12_0008_2400,
    0x13_2008_a640,
    0x10_4009_2080,
    0x11_6009_a2c0,
    0x16_800a_2d00,
    0x17_a00a_af40,
    0x14_c00b_2980,
    0x15_e00b_abc0,
    0x1b_000c_3600,
    0x1a_200c_b440,
    0x19_400d_3280,
    0x18_600d_b0c0,
    0x1f_800e_3f00,
    0x1e_a00e_bd40,
    0x1d_c00f_3b80,
    0x1c_e00f_b9c0,
    0x24_0010_4800,
    0x25_2010_ca40,
    0x26_4011_4c80,
    0x27_6011_cec0,
    0x20_8012_4100,
    0x21_a012_c340,
    0x22_c013_4580,
    0x23_e013_c7c0,
    0x2d_0014_5a00,
    0x2c_2014_d840,
    0x2f_4015_5e80,
    0x2e_6015_dcc0,
    0x29_8016_5300,
    0x28_a016_d140,
    0x2b_c017_5780,
    0x2a_e017_d5c0,
    0x36_0018_6c00,
    0x37_2018_ee40,
    0x34_4019_6880,
    0x35_6019_eac0,
    0x32_801a_6500,
    0x33_a01a_e740,
    0x30_c01b_6180,
    0x31_e01b_e3c0,
    0x3f_001c_7e00,
    0x3e_201c_fc40,
    0x3d_401d_7a80,
    0x3c_601d_f8c0,
    0x3b_801e_7700,
    0x3a_a01e_f540,
    0x39_c01f_7380,
    0x38_e01f_f1c0,
    0x48_0020_9000,
    0x49_2020_1240,
    0x4a_4021_9480,
    0x4b_6021_16c0,
    0x4c_8022_9900,
    0x4d_a022_1b40,
    0x4e_c023_9d80,
    0x4f_e023_1fc0,
    0x41_0024_8200,
    0x40_2024_0040,
    0x43_4025_8680,
    0x42_6025_04c0,
    0x45_8026_8b00,
    0x44_a026_0940,
    0x47_c027_8f80,
    0x46_e027_0dc0,
    0x5a_0028_b400,
    0x5b_2028_3640,
    0x58_4029_b080,
    0x59_6029_32c0,
    0x5e_802a_bd00,
    0x5f_a02a_3f40,
    0x5c_c02b_b980,
    0x5d_e02b_3bc0,
    0x53_002c_a600,
    0x52_202c_2440,
    0x51_402d_a280,
    0x50_602d_20c0,
    0x57_802e_af00,
    0x56_a02e_2d40,
    0x55_c02f_ab80,
    0x54_e02f_29c0,
    0x6c_0030_d800,
    0x6d_2030_5a40,
    0x6e_4031_dc80,
    0x6f_6031_5ec0,
    0x68_8032_d100,
    0x69_a032_5340,
    0x6a_c033_d580,
    0x6b_e033_57c0,
    0x65_0034_ca00,
    0x64_2034_4840,
    0x67_4035_ce80,
    0x66_6035_4cc0,
    0x61_8036_c300,
    0x60_a036_4140,
    0x63_c037_c780,
    0x62_e037_45c0,
    0x7e_0038_fc00,
    0x7f_2038_7e40,
    0x7c_4039_f880,
    0x7d_6039_7ac0,
    0x7a_803a_f500,
    0x7b_a03a_7740,
    0x78_c03b_f180,
    0x79_e03b_73c0,
    0x77_003c_ee00,
    0x76_203c_6c40,
    0x75_403d_ea80,
    0x74_603d_68c0,
    0x73_803e_e700,
    0x72_a03e_6540,
    0x71_c03f_e380,
    0x70_e03f_61c0,
    0x90_0041_2000,
    0x91_2041_a240,
    0x92_4040_2480,
    0x93_6040_a6c0,
    0x94_8043_2900,
    0x95_a043_ab40,
    0x96_c042_2d80,
    0x97_e042_afc0,
    0x99_0045_3200,
    0x98_2045_b040,
    0x9b_4044_3680,
    0x9a_6044_b4c0,
    0x9d_8047_3b00,
    0x9c_a047_b940,
    0x9f_c046_3f80,
    0x9e_e046_bdc0,
    0x82_0049_0400,
    0x83_2049_8640,
    0x80_4048_0080,
    0x81_6048_82c0,
    0x86_804b_0d00,
    0x87_a04b_8f40,
    0x84_c04a_0980,
    0x85_e04a_8bc0,
    0x8b_004d_1600,
    0x8a_204d_9440,
    0x89_404c_1280,
    0x88_604c_90c0,
    0x8f_804f_1f00,
    0x8e_a04f_9d40,
    0x8d_c04e_1b80,
    0x8c_e04e_99c0,
    0xb4_0051_6800,
    0xb5_2051_ea40,
    0xb6_4050_6c80,
    0xb7_6050_eec0,
    0xb0_8053_6100,
    0xb1_a053_e340,
    0xb2_c052_6580,
    0xb3_e052_e7c0,
    0xbd_0055_7a00,
    0xbc_2055_f840,
    0xbf_4054_7e80,
    0xbe_6054_fcc0,
    0xb9_8057_7300,
    0xb8_a057_f140,
    0xbb_c056_7780,
    0xba_e056_f5c0,
    0xa6_0059_4c00,
    0xa7_2059_ce40,
    0xa4_4058_4880,
    0xa5_6058_cac0,
    0xa2_805b_4500,
    0xa3_a05b_c740,
    0xa0_c05a_4180,
    0xa1_e05a_c3c0,
    0xaf_005d_5e00,
    0xae_205d_dc40,
    0xad_405c_5a80,
    0xac_605c_d8c0,
    0xab_805f_5700,
    0xaa_a05f_d540,
    0xa9_c05e_5380,
    0xa8_e05e_d1c0,
    0xd8_0061_b000,
    0xd9_2061_3240,
    0xda_4060_b480,
    0xdb_6060_36c0,
    0xdc_8063_b900,
    0xdd_a063_3b40,
    0xde_c062_bd80,
    0xdf_e062_3fc0,
    0xd1_0065_a200,
    0xd0_2065_2040,
    0xd3_4064_a680,
    0xd2_6064_24c0,
    0xd5_8067_ab00,
    0xd4_a067_2940,
    0xd7_c066_af80,
    0xd6_e066_2dc0,
    0xca_0069_9400,
    0xcb_2069_1640,
    0xc8_4068_9080,
    0xc9_6068_12c0,
    0xce_806b_9d00,
    0xcf_a06b_1f40,
    0xcc_c06a_9980,
    0xcd_e06a_1bc0,
    0xc3_006d_8600,
    0xc2_206d_0440,
    0xc1_406c_8280,
    0xc0_606c_00c0,
    0xc7_806f_8f00,
    0xc6_a06f_0d40,
    0xc5_c06e_8b80,
    0xc4_e06e_09c0,
    0xfc_0071_f800,
    0xfd_2071_7a40,
    0xfe_4070_fc80,
    0xff_6070_7ec0,
    0xf8_8073_f100,
    0xf9_a073_7340,
    0xfa_c072_f580,
    0xfb_e072_77c0,
    0xf5_0075_ea00,
    0xf4_2075_6840,
    0xf7_4074_ee80,
    0xf6_6074_6cc0,
    0xf1_8077_e300,
    0xf0_a077_6140,
    0xf3_c076_e780,
    0xf2_e076_65c0,
    0xee_0079_dc00,
    0xef_2079_5e40,
    0xec_4078_d880,
    0xed_6078_5ac0,
    0xea_807b_d500,
    0xeb_a07b_5740,
    0xe8_c07a_d180,
    0xe9_e07a_53c0,
    0xe7_007d_ce00,
    0xe6_207d_4c40,
    0xe5_407c_ca80,
    0xe4_607c_48c0,
    0xe3_807f_c700,
    0xe2_a07f_4540,
    0xe1_c07e_c380,
    0xe0_e07e_41c0,
];

/// Returns the Fire code remainder of an octet: the octet, least significant bit first, followed by these forty bits is a multiple of the
/// generator D^40 + D^26 + D^23 + D^17 + D^3 + 1 (GSM 05.03 section 4.1.2).
pub fn octet_remainder(octet: u8) -> Bits<40>
    ensures multiple { IsMultiple (octet_bits octet ++ result) fire_generator }
    ensures only { (r : List ℕ) → length r ≡ 40 → AllBits r → IsMultiple (octet_bits octet ++ r) fire_generator → r ≡ result }
    ensures count { length result ≡ 40 }
    ensures bits { AllBits result }
{
    bits_of(table_remainder(octet))
}

/// Returns the Fire code remainder of a list of bits whose length is a multiple of eight: the list, followed by the 40 bits of the result,
/// bit 0 first, is a multiple of the generator. One look-up in the table has the effect of eight steps of the shift register.
pub(crate) fn remainder(bits: &[u8]) -> u64
    requires bits { AllBits bits.now }
    requires whole { length bits.now ≡ 8 * (length bits.now / 8) }
    ensures multiple { IsDivisibleBy (bits.now ++ low_bits 40 result) fire_generator }
    ensures within { result < 2 ^ 40 }
{
    let mut register = 0;
    for m in 0..bits.len() / 8 {
        let octet = pack_eight_bits(&bits[8 * m..8 * m + 8]);
        register = (register >> 8) ^ table_remainder(((register ^ octet) & 0xff) as u8);
    }
    register
}

/// Returns the Fire code remainder of the bits of `octets`, least significant bit of each octet first: these bits, followed by the 40 bits
/// of the result, bit 0 first, are a multiple of the generator.
#[inline(always)]
pub(crate) fn remainder_of_octets(octets: &[u8]) -> u64
    ensures multiple { IsDivisibleBy (octets_to_bits octets.now ++ low_bits 40 result) fire_generator }
    ensures within { result < 2 ^ 40 }
{
    let mut register = 0;
    for octet in octets {
        register = (register >> 8) ^ table_remainder(((register ^ u64::from(*octet)) & 0xff) as u8);
    }
    register
}

#[inline]
fn table_remainder(octet: u8) -> u64
    ensures multiple { IsDivisibleBy (low_bits 8 octet ++ low_bits 40 result) fire_generator }
    ensures within { result < 2 ^ 40 }
{
    OCTET_REMAINDERS[octet as usize]
}
