//! C functions that encode blocks of 23 octets as four normal bursts, and decode them.
ghost use Rattle.std.specs.Prelude.{◌≡◌, ◌≢◌, ◌≤◌, ◌↔◌, All, IsTrue, IsSome, false, ℕ, ℤ, List, map};
ghost use Rattle.std.specs.Prelude.{replicate, MatchOption};
ghost use Rattle.um_block.specs.bit_blocks.Bits.{AllBits};
ghost use Rattle.um_block.specs.bit_blocks.SoftValues.{AllSoftBits};
ghost use Rattle.um_block.specs.Computed.{sent_block};
ghost use Rattle.um_block.specs.Sent.{IsSentBlock};
ghost use Rattle.um_block.specs.conv_code.Code.{IsEncoderInput};
ghost use Rattle.um_block.specs.conv_code.Likelihood.{RanksAfter};
ghost use Rattle.um_block.specs.interleave.Bursts.{IsInterleaved};
ghost use Rattle.um_list_receive.specs.list_decode.Ranking.{IsCandidate};
ghost use Rattle.um_block.specs.declared.received.Received.{Received as ReceivedOf};
ghost use Rattle.um_block.specs.Received.{IsReceivedBlock, coded_soft_bits};
ghost use Rattle.um_list_receive.specs.ListDecoding.{BlockCrcHolds, NoCrcHolds};
ghost use Rattle.um_c.specs.Reports.{IsBlockReport, IsListDecodedReport, ReportsBlock};

use crate::soft::are_soft_bursts;
use um_block::{
    BLOCK_OCTETS, BURST_BITS, CODED_BITS, ENCODER_INPUT_BITS, Received, deinterleave_block,
    receive_deinterleaved, send_block, wrong_coded_bits,
};
use um_list_receive::{MAX_RANK, receive_deinterleaved_among};

/// The report on a block received in four bursts.
#[repr(C)]
#[derive(Drop)]
pub struct BlockReport {
    /// The path metric of the reported word, at most 456 * 127.
    pub metric: i32,
    /// How many of the 104 training bits are wrong. A soft value of 0 counts as wrong.
    pub wrong_training: u32,
    /// How many of the 456 coded bits differ from the coded bits of the reported word. A soft value of 0 counts as wrong.
    pub wrong_coded: u32,
    /// The training sequence code that fits the bursts best, 0 to 7.
    pub tsc: u8,
    /// 1 if the CRC holds, otherwise 0.
    pub accepted: u8,
    /// The 23 octets if the CRC holds, otherwise zeros.
    pub octets: [u8; BLOCK_OCTETS],
    /// The reported word, with one bit in each octet: 184 data bits, 40 CRC bits and four zeros.
    pub word: [u8; ENCODER_INPUT_BITS],
}

/// Encodes 23 octets as four bursts with this training sequence code. Returns false, and writes nothing, if the code exceeds 7.
#[unsafe(no_mangle)]
pub extern "C" fn um_send_block(
    octets: &[u8; BLOCK_OCTETS],
    tsc: u8,
    bursts: &mut [[u8; BURST_BITS]; 4],
) -> bool
    ensures valid { IsTrue result ↔ (tsc ≤ 7) }
    ensures sent { IsTrue result → IsSentBlock octets.now tsc bursts.new }
    ensures only { IsTrue result → (other : List (List ℕ)) → IsSentBlock octets.now tsc other → other ≡ bursts.new }
    ensures bits { IsTrue result → All AllBits bursts.new }
    ensures refused { result ≡ false → bursts.new ≡ bursts.old }
{
    if tsc > 7 {
        return false;
    }
    write_block(octets, tsc, bursts);
    true
}

/// Writes the four bursts of a block. Both calls that need them go through here: `send_block` is compiled into its only caller, and writes
/// the bursts in place.
#[inline(never)]
pub(crate) fn write_block(octets: &[u8; BLOCK_OCTETS], tsc: u8, bursts: &mut [[u8; BURST_BITS]; 4])
    requires { tsc ≤ 7 }
    ensures sent { IsSentBlock octets.now tsc bursts.new }
    ensures value { bursts.new ≡ sent_block octets.now tsc }
    ensures only { (other : List (List ℕ)) → IsSentBlock octets.now tsc other → other ≡ bursts.new }
    ensures bits { All AllBits bursts.new }
{
    *bursts = send_block(octets, tsc);
}

/// Decodes the soft values of four bursts. Returns false, and writes nothing, if a soft value is -128.
#[unsafe(no_mangle)]
pub extern "C" fn um_receive_block(bursts: &[[i8; BURST_BITS]; 4], report: &mut BlockReport) -> bool
    ensures soft { IsTrue result ↔ All AllSoftBits bursts.now }
    ensures received { IsTrue result → IsBlockReport bursts.now report.new }
    ensures only { IsTrue result → (other : BlockReport) → IsBlockReport bursts.now other
        → other ≡ report.new }
    ensures refused { result ≡ false → report.new ≡ report.old }
{
    if !are_soft_bursts(bursts) {
        return false;
    }
    let soft = deinterleave_block(bursts);
    *report = block_report_of(bursts, &soft, &receive_deinterleaved(bursts, &soft));
    true
}

/// Decodes the soft values of four bursts by trying the `most` (1 to 64) most likely words. Reports the first word whose CRC holds, or the
/// most likely word if none does, and its rank (from 1) among the list decoder's candidates. Returns false, and writes nothing, if a soft
/// value is -128 or `most` is out of range.
#[unsafe(no_mangle)]
pub extern "C" fn um_receive_block_among(
    bursts: &[[i8; BURST_BITS]; 4],
    most: u32,
    report: &mut BlockReport,
    rank: &mut u32,
) -> bool
    ensures valid { IsTrue result ↔ (All AllSoftBits bursts.now × (1 ≤ most) × (most ≤ MAX_RANK)) }
    ensures received { IsTrue result → IsListDecodedReport bursts.now most rank.new report.new }
    ensures only { IsTrue result → (place : ℕ) (other : BlockReport)
        → IsListDecodedReport bursts.now most place other → (place ≡ rank.new) × (other ≡ report.new) }
    ensures best { IsTrue result → report.new.accepted ≡ 1 → (soft : List ℤ) (v : List ℕ)
        → IsInterleaved soft (map coded_soft_bits bursts.now) → IsCandidate soft v → BlockCrcHolds v
        → v ≢ report.new.word → RanksAfter soft v report.new.word }
    ensures none { IsTrue result → (soft : List ℤ)
        → IsInterleaved soft (map coded_soft_bits bursts.now)
        → ((report.new.accepted ≡ 0) ↔ NoCrcHolds BlockCrcHolds soft most) }
    ensures first { IsTrue result → (r : ReceivedOf) → IsReceivedBlock bursts.now r
        → IsSome r.accepted → ReportsBlock bursts.now r report.new × (rank.new ≡ 1) }
    ensures refused { result ≡ false → (report.new ≡ report.old) × (rank.new ≡ rank.old) }
{
    if most == 0 || most > MAX_RANK as u32 || !are_soft_bursts(bursts) {
        return false;
    }
    let soft = deinterleave_block(bursts);
    let among = receive_deinterleaved_among(bursts, &soft, most);
    *report = block_report_of(bursts, &soft, &among.report);
    *rank = among.rank;
    true
}

/// `soft` are the deinterleaved soft bits of `bursts`, which the caller has for decoding: each receipt deinterleaves once.
#[inline(always)]
pub(crate) fn block_report_of(
    bursts: &[[i8; BURST_BITS]; 4],
    soft: &[i8; CODED_BITS],
    received: &Received,
) -> BlockReport
    requires deinterleaved { IsInterleaved soft.now (map coded_soft_bits bursts.now) }
    requires information { IsEncoderInput received.now.u }
    ensures { ReportsBlock bursts.now received.now result }
{
    let mut word = [0; ENCODER_INPUT_BITS];
    word.copy_from_slice(received.u.as_slice());
    let (accepted, octets) = accepted_flag_and_octets(&received.accepted);
    BlockReport {
        metric: received.metric,
        wrong_training: received.wrong_training,
        wrong_coded: wrong_coded_bits(soft, &word),
        tsc: received.tsc,
        accepted,
        octets,
        word,
    }
}

/// Returns 1 and the accepted octets, or 0 and zeros if none were accepted.
fn accepted_flag_and_octets(accepted: &Option<[u8; BLOCK_OCTETS]>) -> (u8, [u8; BLOCK_OCTETS])
    ensures { MatchOption accepted.now
        ((result.0 ≡ 0) × (result.1 ≡ replicate BLOCK_OCTETS 0))
        (λ octets. (result.0 ≡ 1) × (result.1 ≡ octets)) }
{
    match accepted {
        Some(octets) => (1, *octets),
        None => (0, [0; BLOCK_OCTETS]),
    }
}
