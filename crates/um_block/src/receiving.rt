//! Receiving: decodes bursts to the most likely encoder input and checks its CRC (GSM 05.03, today 3GPP TS 45.003, does not specify a
//! decoder; maximum likelihood is this project's own choice).
ghost use Rattle.std.specs.Prelude.{◌≡◌, ℕ, ◌≤◌, ◌++◌, ℤ, List, Some, length, map, take, All, MatchOption};
ghost use Rattle.bit_blocks.specs.Bits.{AllBits};
ghost use Rattle.bit_blocks.specs.Octets.{bits_of, octets_of};
ghost use Rattle.bit_blocks.specs.SoftValues.{AllSoftBits, likelihood};
ghost use Rattle.conv_code.specs.Code.{encoding};
ghost use Rattle.conv_code.specs.Likelihood.{IsMostLikely};
ghost use Rattle.fire_code.specs.Words.{IsXcchCodeword, IsRachCodeword, IsSchCodeword};
ghost use Rattle.interleave.specs.Bursts.{IsInterleaved};
ghost use Rattle.weight_bound.specs.Restoring.{IsCorrectable};
ghost use Rattle.um_block.specs.Sent.{IsCodedBlock, IsCodedAccess, IsCodedSync, IsSentBlock, IsSentAccess, IsSentSync};
ghost use Rattle.um_block.specs.Restored.{IsErrorFreeBlock, IsErrorFreeAccess, IsErrorFreeSync};
ghost use Rattle.um_block.specs.Received.{coded_soft_bits, access_soft_bits, sync_soft_bits, soft_bits};
ghost use Rattle.um_block.specs.Received.{IsReceivedTsc, wrong_training_bits, IsReceivedBlock, IsReceivedAccess, IsReceivedSync};

use crate::received::{Received, ReceivedAccess, ReceivedSync};
use bit_blocks::{
    BLOCK_BITS, BLOCK_OCTETS, Bits, CODED_BITS, ENCODER_INPUT_BITS, count_wrong_bits, to_octets,
};
use burst_map::{AccessView, BURST_BITS, NormalView, SyncView, access_sequence, sync_sequence};
use fire_code::{rach_holds, sch_holds, xcch_parity_of_octets};
use interleave::gather;
use training_seq::best;
use trellis_decode::decode;

/// Decodes the four normal bursts of a block. Each has 148 soft bits, which must be from -127 to 127.
pub fn receive_block(bursts: &[[i8; BURST_BITS]; 4]) -> Received
    requires { All AllSoftBits bursts.now }
    ensures received { IsReceivedBlock bursts.now result }
    ensures only { (other : Received) → IsReceivedBlock bursts.now other → other ≡ result }
    ensures clean { (octets : List ℕ) (tsc : ℕ) (sent : List (List ℕ)) →
        IsSentBlock octets tsc sent → bursts.now ≡ map soft_bits sent → IsErrorFreeBlock octets tsc result }
    ensures restores { (octets c : List ℕ) (soft : List ℤ) → IsCodedBlock octets c →
        IsInterleaved soft (map coded_soft_bits bursts.now) → IsCorrectable soft c → result.accepted ≡ Some octets }
{
    receive_deinterleaved(bursts, &deinterleave_block(bursts))
}

/// Decodes the four normal bursts of a block whose coded soft bits are already deinterleaved into `soft`.
#[inline(always)]
pub fn receive_deinterleaved(bursts: &[[i8; BURST_BITS]; 4], soft: &[i8; CODED_BITS]) -> Received
    requires soft { AllSoftBits soft.now }
    requires deinterleaved { IsInterleaved soft.now (map coded_soft_bits bursts.now) }
    ensures { IsReceivedBlock bursts.now result }
{
    let (tsc, wrong_training) = detect_tsc(bursts);
    receive_detected(soft, tsc, wrong_training)
}

/// Decodes the deinterleaved soft bits of a block whose training sequence code is detected, with so many wrong training bits. It serves
/// `um_erasing`, which detects the code itself, for the wrong training bits of each burst.
#[inline(always)]
pub fn receive_detected(soft: &[i8; CODED_BITS], tsc: u8, wrong_training: u32) -> Received
    requires { AllSoftBits soft.now }
    ensures best { IsMostLikely soft.now result.u }
    ensures metric { result.metric ≡ likelihood soft.now (encoding result.u) }
    ensures training { (result.tsc ≡ tsc) × (result.wrong_training ≡ wrong_training) }
    ensures accepted { MatchOption result.accepted
        (¬ IsXcchCodeword (take 224 result.u))
        (λ octets. IsXcchCodeword (take 224 result.u) × (octets ≡ octets_of (take BLOCK_BITS result.u))) }
{
    let mut u = [0; ENCODER_INPUT_BITS];
    let metric = decode(soft, &mut u);
    Received {
        u: Bits::from_array(u),
        metric,
        tsc,
        wrong_training,
        accepted: octets_if_crc_holds(&u),
    }
}

/// Deinterleaves the coded soft bits of the four bursts of a block.
pub fn deinterleave_block(bursts: &[[i8; BURST_BITS]; 4]) -> [i8; CODED_BITS]
    requires { All AllSoftBits bursts.now }
    ensures deinterleaved { IsInterleaved result (map coded_soft_bits bursts.now) }
    ensures soft { AllSoftBits result }
{
    gather(&[
        coded_soft_bits(&bursts[0]),
        coded_soft_bits(&bursts[1]),
        coded_soft_bits(&bursts[2]),
        coded_soft_bits(&bursts[3]),
    ])
}

/// The 114 coded soft bits of a normal burst, in one array: to deinterleave a block bit by bit took 2,081 instructions, from such arrays it
/// takes 493.
fn coded_soft_bits(burst: &[i8; BURST_BITS]) -> [i8; 114]
    ensures { result ≡ coded_soft_bits burst.now }
{
    let parts = NormalView::new(burst);
    let mut part = [0; 114];
    part[..57].copy_from_slice(parts.first());
    part[57..].copy_from_slice(parts.second());
    part
}

/// As `best`, for the midambles of four bursts.
fn detect_tsc(bursts: &[[i8; BURST_BITS]; 4]) -> (u8, u32)
    ensures tsc { IsReceivedTsc bursts.now result.0 }
    ensures wrong { result.1 ≡ wrong_training_bits bursts.now result.0 }
{
    best(
        NormalView::new(&bursts[0]).training(),
        NormalView::new(&bursts[1]).training(),
        NormalView::new(&bursts[2]).training(),
        NormalView::new(&bursts[3]).training(),
    )
}

/// Returns the 23 octets of a block's encoder input, or `None` if its Fire code bits do not match.
pub fn octets_if_crc_holds(u: &[u8; ENCODER_INPUT_BITS]) -> Option<[u8; BLOCK_OCTETS]>
    requires { AllBits u.now }
    ensures { MatchOption result
        (¬ IsXcchCodeword (take 224 u.now))
        (λ octets. IsXcchCodeword (take 224 u.now) × (octets ≡ octets_of (take BLOCK_BITS u.now))) }
{
    let mut octets = [0; BLOCK_OCTETS];
    pack_information_bits(u, &mut octets);
    let mut check = [0; 5];
    to_octets(&u[BLOCK_BITS..224], &mut check);
    if check == xcch_parity_of_octets(&octets) {
        Some(octets)
    } else {
        None
    }
}

// Packs the information bits of a block into octets. If this function were inlined, the compiler would keep the octets in registers and
// move them one by one.
#[inline(never)]
fn pack_information_bits(decoded: &[u8; ENCODER_INPUT_BITS], octets: &mut [u8; BLOCK_OCTETS])
    requires { AllBits decoded.now }
    ensures value { octets.new ≡ octets_of (take BLOCK_BITS decoded.now) }
    ensures round_trip { bits_of octets.new ≡ take BLOCK_BITS decoded.now }
{
    to_octets(&decoded[..BLOCK_BITS], octets);
}

/// Decodes an access burst for a base station identity code (BSIC). Its 88 soft bits must be from -127 to 127.
pub fn receive_access(burst: &[i8; 88], bsic: &Bits<6>) -> ReceivedAccess
    requires { AllSoftBits burst.now }
    ensures received { IsReceivedAccess burst.now bsic.now result }
    ensures only { (other : ReceivedAccess) → IsReceivedAccess burst.now bsic.now other → other ≡ result }
    ensures clean { (info sent : List ℕ) → IsSentAccess info bsic.now sent → burst.now ≡ soft_bits sent
        → IsErrorFreeAccess info bsic.now result }
    ensures restores { (info c : List ℕ) → IsCodedAccess info bsic.now c → IsCorrectable (access_soft_bits burst.now) c →
        result.accepted ≡ Some info }
{
    let parts = AccessView::new(burst);
    let mut u = [0; 18];
    let metric = decode(parts.body(), &mut u);
    ReceivedAccess {
        u: Bits::from_array(u),
        metric,
        wrong_training: count_wrong_bits(parts.training(), access_sequence()),
        accepted: access_bits_if_crc_holds(&u, bsic),
    }
}

/// Returns the eight information bits of an access burst's encoder input, or `None` if its CRC is wrong for the BSIC.
pub fn access_bits_if_crc_holds(decoded: &[u8; 18], bsic: &Bits<6>) -> Option<Bits<8>>
    requires { AllBits decoded.now }
    ensures { MatchOption result
        (¬ IsRachCodeword (take 14 decoded.now) bsic.now)
        (λ info. IsRachCodeword (take 14 decoded.now) bsic.now × (info ≡ take 8 decoded.now)) }
{
    let mut word = [0; 14];
    word.copy_from_slice(&decoded[..14]);
    if !rach_holds(&Bits::from_array(word), bsic) {
        return None;
    }
    let mut info = [0; 8];
    info.copy_from_slice(&decoded[..8]);
    Some(Bits::from_array(info))
}

/// Decodes a synchronisation burst. Its 148 soft bits must be from -127 to 127.
pub fn receive_sync(burst: &[i8; BURST_BITS]) -> ReceivedSync
    requires { AllSoftBits burst.now }
    ensures received { IsReceivedSync burst.now result }
    ensures only { (other : ReceivedSync) → IsReceivedSync burst.now other → other ≡ result }
    ensures clean { (info sent : List ℕ) → IsSentSync info sent → burst.now ≡ soft_bits sent → IsErrorFreeSync info result }
    ensures restores { (info c : List ℕ) → IsCodedSync info c → IsCorrectable (sync_soft_bits burst.now) c →
        result.accepted ≡ Some info }
{
    let parts = SyncView::new(burst);
    let halves = join_sync_halves(parts.first(), parts.second());
    let mut u = [0; 39];
    let metric = decode(&halves, &mut u);
    ReceivedSync {
        u: Bits::from_array(u),
        metric,
        wrong_training: count_wrong_bits(parts.training(), sync_sequence()),
        accepted: sync_bits_if_crc_holds(&u),
    }
}

/// Joins the two halves of a synchronisation burst into its 78 coded soft bits.
pub fn join_sync_halves(first: &[i8], second: &[i8]) -> [i8; 78]
    requires first { length first.now ≡ 39 }
    requires second { length second.now ≡ 39 }
    ensures { result ≡ first.now ++ second.now }
{
    let mut soft = [0; 78];
    soft[..39].copy_from_slice(first);
    soft[39..].copy_from_slice(second);
    soft
}

/// Returns the 25 information bits of a synchronisation burst's encoder input, or `None` if its CRC is wrong.
pub fn sync_bits_if_crc_holds(decoded: &[u8; 39]) -> Option<Bits<25>>
    requires { AllBits decoded.now }
    ensures { MatchOption result
        (¬ IsSchCodeword (take 35 decoded.now))
        (λ info. IsSchCodeword (take 35 decoded.now) × (info ≡ take 25 decoded.now)) }
{
    let mut word = [0; 35];
    word.copy_from_slice(&decoded[..35]);
    if !sch_holds(&Bits::from_array(word)) {
        return None;
    }
    let mut info = [0; 25];
    info.copy_from_slice(&decoded[..25]);
    Some(Bits::from_array(info))
}
