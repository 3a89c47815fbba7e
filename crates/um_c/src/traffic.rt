//! C functions for a receiver of a traffic channel.
ghost use Rattle.std.specs.Prelude.{◌≡◌, ◌≤◌, All, if◌then◌else◌, length, pos, replicate};
ghost use Rattle.half_bursts.specs.Halves.{stealing_sum};
ghost use Rattle.um_block.specs.bit_blocks.SoftValues.{AllSoftBits};
ghost use Rattle.um_slot.specs.Numbers.{traffic_channel_of};
ghost use Rattle.um_c.specs.TrafficCalls.{HearsFacch, IsFacchBlock, IsNewTraffic, SacchTakes, TrafficEnds, TrafficRestarts, TrafficTakes};
ghost use Rattle.um_c.specs.TrafficCalls.{carriers, facch_kind, is_stolen, no_erasure, traffic_refusal_number};

use crate::erasing::{Erasure, NO_BURST};
use crate::facch_erasing::{FacchErasure, write_limited_facch_report};
use crate::slots::{SlotBlock, take_burst};
use crate::soft::are_soft_bits;
use half_bursts::{join, stealing_sum};
use um_block::BURST_BITS;
use um_slot::Refusal;
use um_traffic::{FinishedFacch, Heard, Traffic, soft_bursts};

/// The answer if the frame was taken and no block is complete.
const TAKEN: u32 = 0;

/// The answer if the frame was taken and a block is complete.
const BLOCK: u32 = 1;

/// The answer if a block ended before the frame, which is not taken yet.
const EARLIER: u32 = 2;

/// The answer if a soft value is -128.
const NO_SOFT: u32 = 3;

/// The kind of a block of SACCH.
const SACCH: u8 = 0;

/// The number of FACCH among the channels.
const FACCH: u8 = 7;

/// What a traffic channel brought.
#[repr(C)]
#[derive(Drop)]
pub struct TrafficBlock {
    /// The report: of SACCH as a receiver of a time slot gives it, of FACCH on the bursts that carry it.
    pub block: SlotBlock,
    /// The sum of the stealing flags of FACCH.
    pub flags: i32,
    /// The kind: 0 SACCH, 1 FACCH, 2 stolen, but no FACCH, 3 other traffic.
    pub kind: u8,
    /// The joined block of FACCH.
    pub bursts: [[i8; BURST_BITS]; 4],
    /// The burst of FACCH that was erased, and the wrong training bits of each.
    pub erasure: FacchErasure,
}

/// Initialises a receiver. Returns false, and writes nothing, if a number is out of range.
#[unsafe(no_mangle)]
pub extern "C" fn um_traffic_new(
    traffic: &mut Traffic,
    channel: u8,
    direction: u8,
    timeslot: u8,
    words: u8,
    erasures: u8,
) -> bool
    ensures { IsNewTraffic (traffic_channel_of channel) channel direction timeslot words erasures traffic.old result traffic.new }
{
    match Traffic::new(channel, direction, timeslot, words, erasures) {
        Some(made) => {
            *traffic = made;
            true
        }
        None => false,
    }
}

/// Forgets the frames that were taken and the blocks that are being collected; the settings stay. Returns false, and writes nothing, if a
/// setting is out of range.
#[unsafe(no_mangle)]
pub extern "C" fn um_traffic_restart(traffic: &mut Traffic) -> bool
    ensures { TrafficRestarts traffic.old result traffic.new }
{
    match traffic.restarted() {
        Some(made) => {
            *traffic = made;
            true
        }
        None => false,
    }
}

/// Takes the burst of a frame. Returns 0; or 1, and writes the block that is complete; or 2, and writes a block that ended before this
/// frame, which is not taken yet; or 3 if a soft value is -128, or the number of the reason why the frame is refused, and then writes
/// nothing.
#[unsafe(no_mangle)]
pub extern "C" fn um_traffic_take(
    traffic: &mut Traffic,
    frame: u32,
    burst: &[i8; BURST_BITS],
    block: &mut TrafficBlock,
) -> u32
    ensures taken { AllSoftBits burst.now → TrafficTakes traffic.old frame 1 burst.now block.old result traffic.new block.new }
    ensures refused { ¬ AllSoftBits burst.now → (result ≡ 3) × (traffic.new ≡ traffic.old) × (block.new ≡ block.old) }
{
    if !are_soft_bits(burst) {
        return NO_SOFT;
    }
    take_traffic(traffic, frame, burst, 1, block)
}

/// Takes a frame whose burst did not come, as `um_traffic_take` does for a burst of zeros.
#[unsafe(no_mangle)]
pub extern "C" fn um_traffic_miss(
    traffic: &mut Traffic,
    frame: u32,
    block: &mut TrafficBlock,
) -> u32
    ensures { TrafficTakes traffic.old frame 0 (replicate BURST_BITS (pos 0)) block.old result traffic.new block.new }
{
    take_traffic(traffic, frame, &[0; BURST_BITS], 0, block)
}

/// Ends the block of FACCH that is being collected, at the end of a recording. Returns 2, and writes the block; or 0 if none is left; or 4
/// if the state is not valid, and then writes nothing.
#[unsafe(no_mangle)]
pub extern "C" fn um_traffic_end(traffic: &mut Traffic, block: &mut TrafficBlock) -> u32
    ensures { TrafficEnds traffic.old block.old result traffic.new block.new }
{
    let words = traffic.sacch.words;
    let erasures = traffic.sacch.erasures;
    let limit = traffic.sacch.limit;
    match traffic.end() {
        Ok(heard) => write_heard(words, erasures, limit, &traffic.bursts, &heard, block),
        Err(refusal) => traffic_refusal_number(refusal),
    }
}

fn take_traffic(
    traffic: &mut Traffic,
    frame: u32,
    burst: &[i8; BURST_BITS],
    came: u8,
    block: &mut TrafficBlock,
) -> u32
    requires { came ≤ 1 }
    ensures { TrafficTakes traffic.old frame came burst.now block.old result traffic.new block.new }
{
    let words = traffic.sacch.words;
    let erasures = traffic.sacch.erasures;
    let limit = traffic.sacch.limit;
    match traffic.take(frame, burst, came) {
        Ok(Some(heard)) => write_heard(words, erasures, limit, &traffic.bursts, &heard, block),
        Ok(None) => take_sacch(traffic, frame, burst, came, block),
        Err(refusal) => traffic_refusal_number(refusal),
    }
}

/// Takes a frame that is none of the traffic channel.
fn take_sacch(
    traffic: &mut Traffic,
    frame: u32,
    burst: &[i8; BURST_BITS],
    came: u8,
    block: &mut TrafficBlock,
) -> u32
    requires { came ≤ 1 }
    ensures { SacchTakes traffic.old frame came burst.now block.old result traffic.new block.new }
{
    let answer = take_burst(&mut traffic.sacch, frame, burst, came, &mut block.block);
    if answer == BLOCK {
        block.kind = SACCH;
    }
    answer
}

/// Writes the block of FACCH that was heard, if one was, and returns the answer.
fn write_heard(
    words: u8,
    erasures: u8,
    limit: u8,
    bursts: &[[i8; BURST_BITS]; 8],
    heard: &Heard,
    block: &mut TrafficBlock,
) -> u32
    requires at_least { 1 ≤ words }
    requires at_most { words ≤ 64 }
    requires erasures { erasures ≤ 4 }
    ensures { HearsFacch words erasures limit bursts.now heard.now block.old result block.new }
{
    match heard {
        Heard::Taken => TAKEN,
        Heard::Finished(finished) => {
            write_facch(words, erasures, limit, bursts, finished, block);
            BLOCK
        }
        Heard::Earlier(finished) => {
            write_facch(words, erasures, limit, bursts, finished, block);
            EARLIER
        }
    }
}

/// Decodes a block of FACCH: to one word, and to more words and with erasures only if its stealing flags rather say that it is one.
fn write_facch(
    words: u8,
    erasures: u8,
    limit: u8,
    bursts: &[[i8; BURST_BITS]; 8],
    finished: &FinishedFacch,
    block: &mut TrafficBlock,
)
    requires at_least { 1 ≤ words }
    requires at_most { words ≤ 64 }
    requires erasures { erasures ≤ 4 }
    ensures { IsFacchBlock words erasures limit (carriers bursts.now finished.now) finished.now block.new }
{
    let count = usize::from(finished.channel.facch_bursts());
    write_carried(
        words,
        erasures,
        limit,
        &soft_bursts(bursts)[..count],
        finished,
        block,
    );
}

fn write_carried(
    words: u8,
    erasures: u8,
    limit: u8,
    carriers: &[[i8; BURST_BITS]],
    finished: &FinishedFacch,
    block: &mut TrafficBlock,
)
    requires at_least { 1 ≤ words }
    requires at_most { words ≤ 64 }
    requires erasures { erasures ≤ 4 }
    requires some { 4 ≤ length carriers.now }
    requires few { length carriers.now ≤ 8 }
    requires soft { All AllSoftBits carriers.now }
    ensures { IsFacchBlock words erasures limit carriers.now finished.now block.new }
{
    block.bursts = join(carriers);
    let flags = flags_of(&block.bursts);
    let stolen = is_stolen(flags);
    write_limited_facch_report(
        carriers,
        &block.bursts,
        if_stolen_words(stolen, words),
        if_stolen_erasures(stolen, erasures),
        limit,
        &mut block.block.report,
        &mut block.block.rank,
        &mut block.erasure,
    );
    block.block.erasure = no_erasure();
    block.block.first = finished.first;
    block.block.channel = FACCH;
    block.block.subchannel = 0;
    block.block.heard = finished.heard;
    block.flags = flags;
    block.kind = facch_kind(block.block.report.accepted, stolen);
}

/// No erasure of a joined burst.
fn no_erasure() -> Erasure
    ensures { result ≡ no_erasure }
{
    Erasure {
        erased: NO_BURST,
        wrong_training: [0; 4],
    }
}

fn flags_of(block: &[[i8; BURST_BITS]; 4]) -> i32
    ensures { result ≡ stealing_sum block.now }
{
    i32::from(stealing_sum(block))
}

fn is_stolen(flags: i32) -> bool
    ensures { result ≡ is_stolen flags }
{
    flags <= -1
}

fn if_stolen_words(stolen: bool, words: u8) -> u32
    requires at_least { 1 ≤ words }
    requires at_most { words ≤ 64 }
    ensures at_least { 1 ≤ result }
    ensures at_most { result ≤ 64 }
    ensures value { result ≡ (if stolen then words else 1) }
{
    if stolen { u32::from(words) } else { 1 }
}

fn if_stolen_erasures(stolen: bool, erasures: u8) -> u8
    requires { erasures ≤ 4 }
    ensures few { result ≤ 4 }
    ensures value { result ≡ (if stolen then erasures else 0) }
{
    if stolen { erasures } else { 0 }
}

fn facch_kind(accepted: u8, stolen: bool) -> u8
    ensures { result ≡ facch_kind accepted stolen }
{
    if accepted != 0 {
        return 1;
    }
    if stolen { 2 } else { 3 }
}

fn traffic_refusal_number(refusal: Refusal) -> u32
    ensures { result ≡ traffic_refusal_number refusal }
{
    refusal as u32 + 4
}
