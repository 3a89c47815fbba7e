//! What a side keeps of its last answer, to say it once more.
ghost use Rattle.std.specs.Prelude.{◌≡◌};
ghost use Rattle.lapdm_frame.specs.Content.{Frame};
ghost use Rattle.lapdm_frame.specs.Frames.{IsFrameCoding};
ghost use Rattle.lapdm_repeats.specs.Said.{nothing_said, said_after};

use lapdm_frame::{BLOCK_OCTETS, Body, Channel, FrameView, read_on, write_on};

/// The last answer of a side, while it waits to be said once more. A caller may copy it, or save and restore it.
#[repr(C)]
#[derive(Clone, Copy, PartialEq, Eq, Debug)]
pub struct Said {
    /// Whether the block waits for a free slot; any value but 0 means yes.
    pub waits: u8,
    /// The block, which has an RR with F = 0.
    pub block: [u8; BLOCK_OCTETS],
}

impl Said {
    /// Returns that nothing waits.
    pub fn nothing() -> Said
        ensures { result ≡ nothing_said }
    {
        Said {
            waits: 0,
            block: [0; BLOCK_OCTETS],
        }
    }

    /// Returns what waits after this block was sent: the frame of the block if that is an RR with F = 0, and nothing otherwise.
    pub fn after(channel: Channel, block: &[u8; BLOCK_OCTETS]) -> Said
        ensures frame { (f : Frame) → IsFrameCoding channel f block.now → result ≡ said_after channel f }
        ensures no_frame { ((f : Frame) → ¬ IsFrameCoding channel f block.now) → result ≡ nothing_said }
    {
        let Ok(frame) = read_on(block, channel) else {
            return Said::nothing();
        };
        let Body::Rr { nr, pf: false } = frame.body else {
            return Said::nothing();
        };
        let again = FrameView {
            sapi: frame.sapi,
            cr: frame.cr,
            body: Body::Rr { nr, pf: false },
        };
        Said {
            waits: 1,
            block: write_on(&again, channel),
        }
    }
}
