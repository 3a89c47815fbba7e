//! C functions that encode and decode access bursts and synchronisation bursts.
ghost use Rattle.std.specs.Prelude.{◌≡◌, ◌↔◌, ℕ, List, replicate, IsTrue, false, MatchOption};
ghost use Rattle.um_block.specs.bit_blocks.Bits.{AllBits};
ghost use Rattle.um_block.specs.bit_blocks.SoftValues.{AllSoftBits};
ghost use Rattle.um_block.specs.Sent.{IsSentAccess, IsSentSync};
ghost use Rattle.um_c.specs.Reports.{IsAccessReport, IsSyncReport};

use crate::soft::are_soft_bits;
use um_block::{
    BURST_BITS, Bits, receive_access, receive_sync, send_access, send_sync, wrong_access_bits,
    wrong_sync_bits,
};

/// The report on a received access burst.
#[repr(C)]
#[derive(Drop)]
pub struct AccessReport {
    /// The path metric of the most likely word, at most 36 * 127.
    pub metric: i32,
    /// How many of the 41 training bits are wrong. A soft value of 0 counts as wrong.
    pub wrong_training: u32,
    /// How many of the 36 coded bits differ from the coded bits of the most likely word. A soft value of 0 counts as wrong.
    pub wrong_coded: u32,
    /// 1 if the CRC holds for this BSIC, otherwise 0.
    pub accepted: u8,
    /// The 8 data bits if the CRC holds, otherwise zeros.
    pub info: [u8; 8],
    /// The most likely word, with one bit in each octet: 8 data bits, the modulo 2 sum of the 6 CRC bits and the BSIC, and four zeros.
    pub word: [u8; 18],
}

/// The report on a received synchronisation burst.
#[repr(C)]
#[derive(Drop)]
pub struct SyncReport {
    /// The path metric of the most likely word, at most 78 * 127.
    pub metric: i32,
    /// How many of the 64 training bits are wrong. A soft value of 0 counts as wrong.
    pub wrong_training: u32,
    /// How many of the 78 coded bits differ from the coded bits of the most likely word. A soft value of 0 counts as wrong.
    pub wrong_coded: u32,
    /// 1 if the CRC holds, otherwise 0.
    pub accepted: u8,
    /// The 25 data bits if the CRC holds, otherwise zeros.
    pub info: [u8; 25],
    /// The most likely word, with one bit in each octet: 25 data bits, 10 CRC bits and four zeros.
    pub word: [u8; 39],
}

/// Encodes 8 bits as the access burst for a 6-bit BSIC, with one bit in each octet. Returns false, and writes nothing, if an octet is
/// neither 0 nor 1.
#[unsafe(no_mangle)]
pub extern "C" fn um_send_access(info: &[u8; 8], bsic: &[u8; 6], burst: &mut [u8; 88]) -> bool
    ensures valid { IsTrue result ↔ (AllBits info.now × AllBits bsic.now) }
    ensures sent { IsTrue result → IsSentAccess info.now bsic.now burst.new }
    ensures only { IsTrue result → (other : List ℕ) → IsSentAccess info.now bsic.now other → other ≡ burst.new }
    ensures refused { result ≡ false → burst.new ≡ burst.old }
{
    let Some(info) = Bits::<8>::from_slice(info) else {
        return false;
    };
    let Some(bsic) = Bits::<6>::from_slice(bsic) else {
        return false;
    };
    *burst = send_access(&info, &bsic);
    true
}

/// Decodes the soft values of an access burst for this BSIC. Returns false, and writes nothing, if a soft value is -128 or an octet of the
/// BSIC is neither 0 nor 1.
#[unsafe(no_mangle)]
pub extern "C" fn um_receive_access(
    burst: &[i8; 88],
    bsic: &[u8; 6],
    report: &mut AccessReport,
) -> bool
    ensures valid { IsTrue result ↔ (AllSoftBits burst.now × AllBits bsic.now) }
    ensures received { IsTrue result → IsAccessReport burst.now bsic.now report.new }
    ensures only { IsTrue result → (other : AccessReport) → IsAccessReport burst.now bsic.now other
        → other ≡ report.new }
    ensures refused { result ≡ false → report.new ≡ report.old }
{
    let Some(bsic) = Bits::<6>::from_slice(bsic) else {
        return false;
    };
    if !are_soft_bits(burst) {
        return false;
    }
    let received = receive_access(burst, &bsic);
    let mut word = [0; 18];
    word.copy_from_slice(received.u.as_slice());
    let (accepted, info) = accepted_flag_and_bits(&received.accepted);
    *report = AccessReport {
        metric: received.metric,
        wrong_training: received.wrong_training,
        wrong_coded: wrong_access_bits(burst, &word),
        accepted,
        info,
        word,
    };
    true
}

/// Encodes 25 bits as a synchronisation burst, with one bit in each octet. Returns false, and writes nothing, if an octet is neither 0 nor
/// 1.
#[unsafe(no_mangle)]
pub extern "C" fn um_send_sync(info: &[u8; 25], burst: &mut [u8; BURST_BITS]) -> bool
    ensures valid { IsTrue result ↔ AllBits info.now }
    ensures sent { IsTrue result → IsSentSync info.now burst.new }
    ensures only { IsTrue result → (other : List ℕ) → IsSentSync info.now other → other ≡ burst.new }
    ensures refused { result ≡ false → burst.new ≡ burst.old }
{
    let Some(info) = Bits::<25>::from_slice(info) else {
        return false;
    };
    *burst = send_sync(&info);
    true
}

/// Decodes the soft values of a synchronisation burst. Returns false, and writes nothing, if a soft value is -128.
#[unsafe(no_mangle)]
pub extern "C" fn um_receive_sync(burst: &[i8; BURST_BITS], report: &mut SyncReport) -> bool
    ensures soft { IsTrue result ↔ AllSoftBits burst.now }
    ensures received { IsTrue result → IsSyncReport burst.now report.new }
    ensures only { IsTrue result → (other : SyncReport) → IsSyncReport burst.now other
        → other ≡ report.new }
    ensures refused { result ≡ false → report.new ≡ report.old }
{
    if !are_soft_bits(burst) {
        return false;
    }
    let received = receive_sync(burst);
    let mut word = [0; 39];
    word.copy_from_slice(received.u.as_slice());
    let (accepted, info) = accepted_flag_and_bits(&received.accepted);
    *report = SyncReport {
        metric: received.metric,
        wrong_training: received.wrong_training,
        wrong_coded: wrong_sync_bits(burst, &word),
        accepted,
        info,
        word,
    };
    true
}

/// Returns 1 and the accepted bits, or 0 and zeros if none were accepted.
fn accepted_flag_and_bits<const N: usize>(accepted: &Option<Bits<N>>) -> (u8, [u8; N])
    ensures { MatchOption accepted.now
        ((result.0 ≡ 0) × (result.1 ≡ replicate N 0))
        (λ info. (result.0 ≡ 1) × (result.1 ≡ info)) }
{
    let mut octets = [0; N];
    match accepted {
        Some(info) => {
            octets.copy_from_slice(info.as_slice());
            (1, octets)
        }
        None => (0, octets),
    }
}
