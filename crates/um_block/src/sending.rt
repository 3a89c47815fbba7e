//! Encodes blocks and bursts: CRC, tail bits, convolutional code, interleaving and burst layout (GSM 05.03, today 3GPP TS 45.003).
ghost use Rattle.std.specs.Prelude.{◌≡◌, ℕ, ◌+◌, ◌<◌, ◌≤◌, ◌++◌, List, [], length, replicate, take, drop};
ghost use Rattle.std.specs.Prelude.{slice_index_or, All};
ghost use Rattle.bit_blocks.specs.Bits.{AllBits};
ghost use Rattle.bit_blocks.specs.Octets.{bits_of};
ghost use Rattle.burst_map.specs.NormalBurst.{normal_burst};
ghost use Rattle.fire_code.specs.Words.{IsXcchCodeword};
ghost use Rattle.interleave.specs.Bursts.{IsInterleaved};
ghost use Rattle.interleave.specs.Columns.{AreColumnsOfCodedBits};
ghost use Rattle.um_block.specs.Computed.{sent_block, sent_access, sent_sync};
ghost use Rattle.um_block.specs.Sent.{with_tail, IsCodedBlock, IsSentBlock, IsSentAccess, IsSentSync};

use bit_blocks::{BLOCK_OCTETS, Bits};
use burst_map::{BURST_BITS, NormalParts, access, sync};
use conv_code::{encode, encode_packed};
use fire_code::{rach_parity, sch_parity, xcch_parity_of_octets};
use interleave::Columns;

/// Encodes a block of 23 octets into four normal bursts, with a training sequence code, which must be 0 to 7.
pub fn send_block(octets: &[u8; BLOCK_OCTETS], tsc: u8) -> [[u8; BURST_BITS]; 4]
    requires { tsc ≤ 7 }
    ensures sent { IsSentBlock octets.now tsc result }
    ensures value { result ≡ sent_block octets.now tsc }
    ensures only { (other : List (List ℕ)) → IsSentBlock octets.now tsc other → other ≡ result }
    ensures bits { All AllBits result }
{
    let columns = encode_block(octets);
    [
        build_normal_burst(&columns, 0, tsc),
        build_normal_burst(&columns, 1, tsc),
        build_normal_burst(&columns, 2, tsc),
        build_normal_burst(&columns, 3, tsc),
    ]
}

/// The 456 coded bits of a block of 23 octets, packed into columns for interleaving: with a list of coded bits `send_block` took 3,328
/// instructions, with columns 819.
fn encode_block(octets: &[u8; BLOCK_OCTETS]) -> Columns
    ensures { (coded : List ℕ) × IsCodedBlock octets.now coded × AreColumnsOfCodedBits coded result.octets }
{
    Columns::new(&encode_packed(&octets_with_crc(octets)))
}

/// The 23 octets of a block, followed by their five Fire code octets and by four zero octets, since `encode_packed` takes 32 octets.
fn octets_with_crc(octets: &[u8; BLOCK_OCTETS]) -> [u8; 32]
    ensures { (crc : List ℕ) × IsXcchCodeword (bits_of octets.now ++ bits_of crc) × (result ≡ octets.now ++ crc ++ replicate 4 0) }
{
    let mut word = [0; 32];
    word[..BLOCK_OCTETS].copy_from_slice(octets);
    word[BLOCK_OCTETS..28].copy_from_slice(&xcch_parity_of_octets(octets));
    word
}

/// Builds normal burst `b` of a block. Both halves are written in place: with one list of 114 bits, copied into both, `send_block` took 819
/// instructions, and now it takes 697.
fn build_normal_burst(columns: &Columns, b: usize, tsc: u8) -> [u8; BURST_BITS]
    requires burst_number { b < 4 }
    requires tsc_in_range { tsc ≤ 7 }
    ensures { (coded : List ℕ) (parts : List (List ℕ)) → AreColumnsOfCodedBits coded columns.now.octets →
        IsInterleaved coded parts → result ≡ normal_burst (take 57 (slice_index_or parts b [])) (drop 57 (slice_index_or parts b []))
        tsc }
{
    let mut burst = [0; BURST_BITS];
    let mut parts = NormalParts::new(&mut burst, tsc);
    columns.write_half_burst(b, 0, parts.first_mut());
    columns.write_half_burst(b, 1, parts.second_mut());
    burst
}

/// Encodes eight information bits into an access burst for a base station identity code (BSIC). `bsic` must start with the network colour
/// code, most significant bit first.
pub fn send_access(info: &Bits<8>, bsic: &Bits<6>) -> [u8; 88]
    ensures sent { IsSentAccess info.now bsic.now result }
    ensures value { result ≡ sent_access info.now bsic.now }
    ensures only { (other : List ℕ) → IsSentAccess info.now bsic.now other → other ≡ result }
    ensures bits { AllBits result }
{
    let crc = rach_parity(info).xor(bsic);
    let mut word = [0; 18];
    write_crc_and_tail(info.as_slice(), crc.as_slice(), &mut word);
    let mut coded = [0; 36];
    encode(&word, &mut coded);
    access(&coded)
}

/// Encodes 25 information bits into a synchronisation burst.
pub fn send_sync(info: &Bits<25>) -> [u8; BURST_BITS]
    ensures sent { IsSentSync info.now result }
    ensures value { result ≡ sent_sync info.now }
    ensures only { (other : List ℕ) → IsSentSync info.now other → other ≡ result }
    ensures bits { AllBits result }
{
    let mut word = [0; 39];
    write_crc_and_tail(info.as_slice(), sch_parity(info).as_slice(), &mut word);
    let mut coded = [0; 78];
    encode(&word, &mut coded);
    let (first, second) = coded.split_at(39);
    sync(first, second)
}

fn write_crc_and_tail(info: &[u8], crc: &[u8], word: &mut [u8])
    requires count { length info.now + length crc.now + 4 ≡ length word.old }
    requires some { 0 < length info.now }
    requires info_bits { AllBits info.now }
    requires crc_bits { AllBits crc.now }
    ensures { word.new ≡ with_tail (info.now ++ crc.now) }
{
    let end = info.len() + crc.len();
    word[..info.len()].copy_from_slice(info);
    word[info.len()..end].copy_from_slice(crc);
    word[end..].fill(0);
}
