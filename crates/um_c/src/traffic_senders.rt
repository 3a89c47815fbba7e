//! C functions for a sender of a traffic channel.
ghost use Rattle.std.specs.Prelude.{◌≡◌, ◌≢◌, ◌≤◌, ◌↔◌, All, IsTrue, IsSome, false};
ghost use Rattle.um_block.specs.bit_blocks.Bits.{AllBits};
ghost use Rattle.um_block.specs.Computed.{sent_block};
ghost use Rattle.um_traffic.specs.Senders.{given, new_sender, send, sender_settings_of};
ghost use Rattle.um_c.specs.SenderCalls.{sending_number};

use crate::blocks::write_block;
use crate::soft::are_bit_rows;
use um_block::{BLOCK_OCTETS, BURST_BITS};
use um_traffic::{FACCH_BLOCK, Sending, TrafficSender};

/// The kind of a block that is not FACCH.
const SPEECH_BLOCK: u8 = 1;

/// Initialises a sender. Returns false, and writes nothing, if a number is out of range.
#[unsafe(no_mangle)]
pub extern "C" fn um_traffic_sender_new(
    sender: &mut TrafficSender,
    channel: u8,
    direction: u8,
    tsc: u8,
) -> bool
    ensures valid { IsTrue result ↔ IsSome (sender_settings_of (new_sender channel direction tsc)) }
    ensures made { IsTrue result → sender.new ≡ new_sender channel direction tsc }
    ensures refused { result ≡ false → sender.new ≡ sender.old }
{
    match TrafficSender::new(channel, direction, tsc) {
        Some(made) => {
            *sender = made;
            true
        }
        None => false,
    }
}

/// Gives a block of FACCH to begin next, in place of a block of speech that waits. Returns false, and writes nothing, if a block of FACCH
/// waits or the training sequence code of the sender is out of range.
#[unsafe(no_mangle)]
pub extern "C" fn um_traffic_sender_facch(
    sender: &mut TrafficSender,
    octets: &[u8; BLOCK_OCTETS],
) -> bool
    ensures valid { IsTrue result ↔ ((sender.old.tsc ≤ 7) × (sender.old.waiting.kind ≢ FACCH_BLOCK)) }
    ensures given { IsTrue result → sender.new ≡ given FACCH_BLOCK (sent_block octets.now sender.old.tsc) sender.old }
    ensures refused { result ≡ false → sender.new ≡ sender.old }
{
    if sender.tsc > 7 || sender.waiting.kind == FACCH_BLOCK {
        return false;
    }
    let mut block = [[0; BURST_BITS]; 4];
    write_block(octets, sender.tsc, &mut block);
    sender.give(FACCH_BLOCK, &block);
    true
}

/// Gives a block of speech to begin next, in place of one that waits. Returns false, and writes nothing, if a block of FACCH waits, since
/// that steals its place, or an octet is neither 0 nor 1.
#[unsafe(no_mangle)]
pub extern "C" fn um_traffic_sender_speech(
    sender: &mut TrafficSender,
    block: &[[u8; BURST_BITS]; 4],
) -> bool
    ensures valid { IsTrue result ↔ (All AllBits block.now × (sender.old.waiting.kind ≢ FACCH_BLOCK)) }
    ensures given { IsTrue result → sender.new ≡ given SPEECH_BLOCK block.now sender.old }
    ensures refused { result ≡ false → sender.new ≡ sender.old }
{
    if !are_bit_rows(block) || sender.waiting.kind == FACCH_BLOCK {
        return false;
    }
    sender.give(SPEECH_BLOCK, block);
    true
}

/// Writes the burst of a frame and returns 0. Returns 1 if no block has a half in it, 2 if the frame is none of the traffic channel, 3 if
/// the state is not valid, 4 if there is no such frame number, or 5 if the frame is before those that are being sent, and then writes
/// no burst.
#[unsafe(no_mangle)]
pub extern "C" fn um_traffic_sender_burst(
    sender: &mut TrafficSender,
    frame: u32,
    burst: &mut [u8; BURST_BITS],
) -> u32
    ensures answer { result ≡ sending_number (send frame sender.old burst.old).answer }
    ensures burst { burst.new ≡ (send frame sender.old burst.old).burst }
    ensures state { sender.new ≡ (send frame sender.old burst.old).sender }
{
    sending_number(sender.send(frame, burst))
}

fn sending_number(sending: Sending) -> u32
    ensures { result ≡ sending_number sending }
{
    sending as u32
}
