//! A C function that says an answer twice.
ghost use Rattle.um_c.specs.Plain.{channel_of};
ghost use Rattle.um_c.specs.AnswerCalls.{SaysAgain};

use crate::datalinks::{SLOT_IS_FREE, with_layer1};
use crate::ends::INVALID_ENDPOINT;
use crate::frames::channel_of;
use lapdm_frame::BLOCK_OCTETS;
use lapdm_repeats::Said;

/// Goes on after `um_datalink_next` returned `next` and wrote `block`: an RR with F = 0 waits, and goes once more into the next slot if
/// that is free. Returns 0 if the block has a frame then, 10 if it has the fill frame, and 7 if there is no such channel or `next`.
#[unsafe(no_mangle)]
pub extern "C" fn um_say_again(
    said: &mut Said,
    channel: u8,
    next: u32,
    block: &mut [u8; BLOCK_OCTETS],
) -> u32
    ensures { SaysAgain (channel_of channel) next said.old said.new block.old block.new result }
{
    let Some(channel) = channel_of(channel) else {
        return INVALID_ENDPOINT;
    };
    match next {
        0 => {
            *said = Said::after(channel, block);
            0
        }
        SLOT_IS_FREE => {
            let waited = *said;
            *said = Said::nothing();
            if waited.waits == 0 {
                return SLOT_IS_FREE;
            }
            *block = with_layer1(channel, &[block[0], block[1]], waited.block);
            0
        }
        _ => INVALID_ENDPOINT,
    }
}
