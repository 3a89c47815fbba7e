//! C functions for a receiver of one time slot.
ghost use Rattle.std.specs.Prelude.{◌≡◌, ◌≤◌, ◌↔◌, IsTrue, IsSome, false, map, pos, replicate};
ghost use Rattle.um_block.specs.bit_blocks.SoftValues.{AllSoftBits};
ghost use Rattle.um_slot.specs.Slots.{new_slot, settings_of, softened};
ghost use Rattle.um_c.specs.SlotCalls.{IsLimitedReport, IsSlotBlock, SlotEnds, SlotRestarts, SlotTakes};
ghost use Rattle.um_c.specs.SlotCalls.{slot_refusal_number};

use crate::blocks::BlockReport;
use crate::erasing::Erasure;
use crate::limited::write_limited_report;
use crate::soft::{are_soft_bits, are_soft_bursts};
use um_block::BURST_BITS;
use um_slot::{FinishedBlock, Refusal, Slot, channel_number, softened};

/// The answer if a frame was taken and no block is complete.
const TAKEN: u32 = 0;

/// The answer if a frame was taken and a block is complete.
const BLOCK: u32 = 1;

/// The answer if a soft value is -128.
const NO_SOFT: u32 = 2;

/// The report on a block whose bursts a receiver has collected.
#[repr(C)]
#[derive(Drop)]
pub struct SlotBlock {
    pub report: BlockReport,
    pub rank: u32,
    /// The frame number of the first burst.
    pub first: u32,
    /// The channel: 0 SDCCH, 1 SACCH, 2 BCCH, 3 CCCH.
    pub channel: u8,
    /// The subchannel of SDCCH and SACCH; of CCCH the number of the block in the multiframe.
    pub subchannel: u8,
    /// How many of its bursts came.
    pub heard: u8,
    pub erasure: Erasure,
}

/// Initialises a receiver. Returns false, and writes nothing, if a number is out of range.
#[unsafe(no_mangle)]
pub extern "C" fn um_slot_new(
    slot: &mut Slot,
    combination: u8,
    direction: u8,
    timeslot: u8,
    words: u8,
    erasures: u8,
) -> bool
    ensures { let made = new_slot combination direction timeslot words erasures in
        (IsTrue result ↔ IsSome (settings_of made)) × (IsTrue result → slot.new ≡ made) × (result ≡ false →
        slot.new ≡ slot.old) }
{
    match Slot::new(combination, direction, timeslot, words, erasures) {
        Some(made) => {
            *slot = made;
            true
        }
        None => false,
    }
}

/// Takes the burst of a frame. Returns 0; or 1, and writes the block that is complete; or 2 if a soft value is -128, or the number of the
/// reason why the frame is refused, and then writes nothing.
#[unsafe(no_mangle)]
pub extern "C" fn um_slot_take(
    slot: &mut Slot,
    frame: u32,
    burst: &[i8; BURST_BITS],
    block: &mut SlotBlock,
) -> u32
    ensures taken { AllSoftBits burst.now → SlotTakes slot.old frame 1 burst.now block.old result slot.new block.new }
    ensures refused { ¬ AllSoftBits burst.now → (result ≡ 2) × (slot.new ≡ slot.old) × (block.new ≡ block.old) }
{
    if !are_soft_bits(burst) {
        return NO_SOFT;
    }
    take_burst(slot, frame, burst, 1, block)
}

/// Takes a frame whose burst did not come, as `um_slot_take` does for a burst of zeros.
#[unsafe(no_mangle)]
pub extern "C" fn um_slot_miss(slot: &mut Slot, frame: u32, block: &mut SlotBlock) -> u32
    ensures { SlotTakes slot.old frame 0 (replicate BURST_BITS (pos 0)) block.old result slot.new block.new }
{
    take_burst(slot, frame, &[0; BURST_BITS], 0, block)
}

/// Forgets the frames that were taken and the block that is being collected; the settings stay. Returns false, and writes nothing, if a
/// setting is out of range.
#[unsafe(no_mangle)]
pub extern "C" fn um_slot_restart(slot: &mut Slot) -> bool
    ensures { SlotRestarts slot.old result slot.new }
{
    match slot.restarted() {
        Some(made) => {
            *slot = made;
            true
        }
        None => false,
    }
}

/// Ends the block that is being collected, at the end of a recording. Returns 1, and writes the block; or 0 if none was being collected; or
/// 3 if the state is not valid, and then writes nothing.
#[unsafe(no_mangle)]
pub extern "C" fn um_slot_end(slot: &mut Slot, block: &mut SlotBlock) -> u32
    ensures { SlotEnds slot.old block.old result slot.new block.new }
{
    let words = slot.words;
    let erasures = slot.erasures;
    let limit = slot.limit;
    match slot.end() {
        Ok(Some(finished)) => {
            write_block(words, erasures, limit, &finished, &slot.bursts, block);
            BLOCK
        }
        Ok(None) => TAKEN,
        Err(refusal) => slot_refusal_number(refusal),
    }
}

/// Takes a frame, and decodes the block that it ends or completes.
pub(crate) fn take_burst(
    slot: &mut Slot,
    frame: u32,
    burst: &[i8; BURST_BITS],
    came: u8,
    block: &mut SlotBlock,
) -> u32
    requires { came ≤ 1 }
    ensures { SlotTakes slot.old frame came burst.now block.old result slot.new block.new }
{
    let words = slot.words;
    let erasures = slot.erasures;
    let limit = slot.limit;
    let accepted = match slot.accept(frame) {
        Ok(accepted) => accepted,
        Err(refusal) => return slot_refusal_number(refusal),
    };
    match accepted.ended {
        Some(finished) => {
            // Decoded first, because `put` overwrites the bursts of the block that ended.
            write_block(words, erasures, limit, &finished, &slot.bursts, block);
            slot.put(&accepted, burst, came);
            BLOCK
        }
        None => match slot.put(&accepted, burst, came) {
            Some(finished) => {
                write_block(words, erasures, limit, &finished, &slot.bursts, block);
                BLOCK
            }
            None => TAKEN,
        },
    }
}

fn write_block(
    words: u8,
    erasures: u8,
    limit: u8,
    finished: &FinishedBlock,
    bursts: &[[i8; BURST_BITS]; 4],
    block: &mut SlotBlock,
)
    requires at_least { 1 ≤ words }
    requires at_most { words ≤ 64 }
    requires erasures { erasures ≤ 4 }
    ensures { IsSlotBlock words erasures limit finished.now bursts.now block.new }
{
    write_report(
        u32::from(words),
        erasures,
        limit,
        bursts,
        &mut block.report,
        &mut block.rank,
        &mut block.erasure,
    );
    block.first = finished.place.first;
    block.channel = channel_number(finished.place.position.channel);
    block.subchannel = finished.place.position.subchannel;
    block.heard = finished.heard;
}

/// Writes the report on the block that is decoded from the bursts of a receiver, where they lie: with copies of them a frame took 220
/// instructions more.
#[tactic(auto, using(crate::proofs::ErasingReports::softened_bursts))]
pub(crate) fn write_report(
    words: u32,
    erasures: u8,
    limit: u8,
    bursts: &[[i8; BURST_BITS]; 4],
    report: &mut BlockReport,
    rank: &mut u32,
    erasure: &mut Erasure,
)
    requires at_least { 1 ≤ words }
    requires at_most { words ≤ 64 }
    requires erasures { erasures ≤ 4 }
    ensures { IsLimitedReport (map (map softened) bursts.now) words erasures limit rank.new report.new erasure.new }
{
    if are_soft_bursts(bursts) {
        write_limited_report(bursts, words, erasures, limit, report, rank, erasure);
    } else {
        write_softened_report(words, erasures, limit, bursts, report, rank, erasure);
    }
}

/// As `write_report`, for bursts with a value of -128, which counts as -127: only a caller can have put it into a receiver.
#[cold]
fn write_softened_report(
    words: u32,
    erasures: u8,
    limit: u8,
    bursts: &[[i8; BURST_BITS]; 4],
    report: &mut BlockReport,
    rank: &mut u32,
    erasure: &mut Erasure,
)
    requires at_least { 1 ≤ words }
    requires at_most { words ≤ 64 }
    requires erasures { erasures ≤ 4 }
    ensures { IsLimitedReport (map (map softened) bursts.now) words erasures limit rank.new report.new erasure.new }
{
    write_limited_report(
        &softened(bursts),
        words,
        erasures,
        limit,
        report,
        rank,
        erasure,
    );
}

fn slot_refusal_number(refusal: Refusal) -> u32
    ensures { result ≡ slot_refusal_number refusal }
{
    refusal as u32 + 3
}
