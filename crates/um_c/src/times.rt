//! C functions for frame numbers, the data of synchronisation bursts, RA and BSIC.
ghost use Rattle.std.specs.Prelude.{◌≡◌, ◌<◌, ◌↔◌, ℕ, IsTrue, false, List};
ghost use Rattle.um_block.specs.bit_blocks.Bits.{AllBits};
ghost use Rattle.um_block.specs.bit_blocks.Octets.{octet_bits};
ghost use Rattle.um_slot.specs.tdma.Frames.{IsFrameAt, time_of};
ghost use Rattle.um_slot.specs.tdma.Numbers.{bsic_bits};
ghost use Rattle.um_slot.specs.tdma.Sync.{HasSch, sch_bits, t2_of_bits, t3_of_bits};
ghost use Rattle.um_c.specs.TimeCalls.{ReportsSch};

use um_block::Bits;
use um_slot::{
    FrameTime, HYPERFRAME, SchInfo, bits_of_bsic, bits_of_ra, bits_of_sch, bsic_of_bits,
    frame_of_time, ra_of_bits, sch_of_bits, time_of_frame,
};

/// What a synchronisation burst says.
#[repr(C)]
#[derive(Drop)]
pub struct CSch {
    /// The frame number.
    pub frame: u32,
    /// The base station identity code, 0 to 63.
    pub bsic: u8,
    /// The network colour code, 0 to 7.
    pub ncc: u8,
    /// The base station colour code, 0 to 7.
    pub bcc: u8,
}

/// Splits a frame number into T1, T2 and T3. Returns false, and writes nothing, if there is no such frame number.
#[unsafe(no_mangle)]
pub extern "C" fn um_time_of_frame(frame: u32, time: &mut FrameTime) -> bool
    ensures valid { IsTrue result ↔ (frame < HYPERFRAME) }
    ensures value { IsTrue result → time.new ≡ time_of frame }
    ensures refused { result ≡ false → time.new ≡ time.old }
{
    match time_of_frame(frame) {
        Some(found) => {
            *time = found;
            true
        }
        None => false,
    }
}

/// Writes the frame number with this T1, T2 and T3. Returns false, and writes nothing, if there is none.
#[unsafe(no_mangle)]
pub extern "C" fn um_frame_of_time(time: &FrameTime, frame: &mut u32) -> bool
    ensures found { IsTrue result → IsFrameAt time.now frame.new }
    ensures only { (other : ℕ) → IsFrameAt time.now other → IsTrue result × (other ≡ frame.new) }
    ensures refused { result ≡ false → frame.new ≡ frame.old }
{
    match frame_of_time(time) {
        Some(found) => {
            *frame = found;
            true
        }
        None => false,
    }
}

/// Reads the 25 data bits of a synchronisation burst. Returns false, and writes nothing, if an octet is neither 0 nor 1, or no frame number
/// has these bits.
#[unsafe(no_mangle)]
pub extern "C" fn um_read_sch(info: &[u8; 25], sch: &mut CSch) -> bool
    ensures valid { IsTrue result ↔ (AllBits info.now × (t2_of_bits info.now < 26) × (t3_of_bits info.now < 5)) }
    ensures value { IsTrue result → ReportsSch info.now sch.new }
    ensures only { IsTrue result → (other : CSch) → ReportsSch info.now other → other ≡ sch.new }
    ensures refused { result ≡ false → sch.new ≡ sch.old }
{
    let Some(bits) = Bits::<25>::from_slice(info) else {
        return false;
    };
    match sch_of_bits(&bits) {
        Some(found) => {
            *sch = CSch {
                frame: found.frame,
                bsic: found.bsic,
                ncc: found.bsic / 8,
                bcc: found.bsic % 8,
            };
            true
        }
        None => false,
    }
}

/// Writes the 25 data bits of a synchronisation burst. Returns false, and writes nothing, if the BSIC is above 63, or there is no such
/// frame number, or the frame has no synchronisation burst.
#[unsafe(no_mangle)]
pub extern "C" fn um_write_sch(bsic: u8, frame: u32, info: &mut [u8; 25]) -> bool
    ensures { let sch : SchInfo = record { bsic = bsic; frame = frame } in
        (IsTrue result ↔ HasSch sch) × (IsTrue result → info.new ≡ sch_bits sch) × (result ≡ false → info.new ≡ info.old) }
{
    match bits_of_sch(&SchInfo { bsic, frame }) {
        Some(bits) => {
            info.copy_from_slice(bits.as_slice());
            true
        }
        None => false,
    }
}

/// Writes the eight data bits of an access burst with this RA, least significant bit first.
#[unsafe(no_mangle)]
pub extern "C" fn um_write_ra(ra: u8, info: &mut [u8; 8])
    ensures { info.new ≡ octet_bits ra }
{
    info.copy_from_slice(bits_of_ra(ra).as_slice());
}

/// Reads the RA of an access burst. Returns false, and writes nothing, if an octet is neither 0 nor 1.
#[unsafe(no_mangle)]
pub extern "C" fn um_read_ra(info: &[u8; 8], ra: &mut u8) -> bool
    ensures valid { IsTrue result ↔ AllBits info.now }
    ensures value { IsTrue result → octet_bits ra.new ≡ info.now }
    ensures refused { result ≡ false → ra.new ≡ ra.old }
{
    match Bits::<8>::from_slice(info) {
        Some(bits) => {
            *ra = ra_of_bits(&bits);
            true
        }
        None => false,
    }
}

/// Writes the six bits of a base station identity code, most significant bit first. Returns false, and writes nothing, if it is above 63.
#[unsafe(no_mangle)]
pub extern "C" fn um_write_bsic(bsic: u8, bits: &mut [u8; 6]) -> bool
    ensures valid { IsTrue result ↔ (bsic < 64) }
    ensures value { IsTrue result → bits.new ≡ bsic_bits bsic }
    ensures refused { result ≡ false → bits.new ≡ bits.old }
{
    match bits_of_bsic(bsic) {
        Some(found) => {
            bits.copy_from_slice(found.as_slice());
            true
        }
        None => false,
    }
}

/// Reads a base station identity code. Returns false, and writes nothing, if an octet is neither 0 nor 1.
#[unsafe(no_mangle)]
pub extern "C" fn um_read_bsic(bits: &[u8; 6], bsic: &mut u8) -> bool
    ensures valid { IsTrue result ↔ AllBits bits.now }
    ensures value { IsTrue result → (bsic_bits bsic.new ≡ bits.now) × (bsic.new < 64) }
    ensures refused { result ≡ false → bsic.new ≡ bsic.old }
{
    match Bits::<6>::from_slice(bits) {
        Some(found) => {
            *bsic = bsic_of_bits(&found);
            true
        }
        None => false,
    }
}
