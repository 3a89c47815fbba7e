//! The radio: encodes and decodes blocks, and counts the blocks sent and received.
ghost use Rattle.std.specs.Prelude.{◌≡◌, ℕ, ◌≤◌, ℤ, List, Some, map, All};
ghost use Rattle.bit_blocks.specs.Bits.{AllBits};
ghost use Rattle.bit_blocks.specs.SoftValues.{AllSoftBits};
ghost use Rattle.interleave.specs.Bursts.{IsInterleaved};
ghost use Rattle.weight_bound.specs.Restoring.{IsCorrectable};
ghost use Rattle.um_block.specs.Sent.{IsCodedBlock, IsSentBlock};
ghost use Rattle.um_block.specs.Restored.{IsErrorFreeBlock};
ghost use Rattle.um_block.specs.Received.{coded_soft_bits, soft_bits, IsReceivedBlock};
ghost use Rattle.um_block.specs.Tallies.{counter_plus_one};

use crate::{Received, receive_block, send_block};
use bit_blocks::BLOCK_OCTETS;
use burst_map::BURST_BITS;

/// Sends and receives blocks as `send_block` and `receive_block` do, and counts them. The counters saturate at 2^64 - 1.
pub trait Radio {
    /// The number of blocks sent.
    ghost sent: { Self → ℕ };

    /// The number of blocks received.
    ghost heard: { Self → ℕ };

    /// As `send_block`. The training sequence code `tsc` must be 0 to 7.
    fn send(&mut self, octets: &[u8; BLOCK_OCTETS], tsc: u8) -> [[u8; BURST_BITS]; 4]
        requires { tsc ≤ 7 }
        ensures sent { IsSentBlock octets.now tsc result }
        ensures only { (other : List (List ℕ)) → IsSentBlock octets.now tsc other → other ≡ result }
        ensures bits { All AllBits result }
        ensures raised { sent self.new ≡ counter_plus_one (sent self.old) }
        ensures unchanged { heard self.new ≡ heard self.old };

    /// As `receive_block`.
    fn receive(&mut self, bursts: &[[i8; BURST_BITS]; 4]) -> Received
        requires { All AllSoftBits bursts.now }
        ensures received { IsReceivedBlock bursts.now result }
        ensures only { (other : Received) → IsReceivedBlock bursts.now other → other ≡ result }
        ensures clean { (octets : List ℕ) (tsc : ℕ) (sent : List (List ℕ)) →
            IsSentBlock octets tsc sent → bursts.now ≡ map soft_bits sent → IsErrorFreeBlock octets tsc result }
        ensures restores { (octets c : List ℕ) (soft : List ℤ) → IsCodedBlock octets c →
            IsInterleaved soft (map coded_soft_bits bursts.now) → IsCorrectable soft c → result.accepted ≡ Some octets }
        ensures raised { heard self.new ≡ counter_plus_one (heard self.old) }
        ensures unchanged { sent self.new ≡ sent self.old };
}

/// A radio whose only state is its counters.
#[derive(Debug, Drop)]
pub struct PlainRadio {
    sent: u64,
    heard: u64,
}

impl PlainRadio {
    /// Creates a radio whose two counters are 0.
    pub fn new() -> PlainRadio
        ensures sent { ⟦<PlainRadio as Radio>⟧.sent result ≡ 0 }
        ensures heard { ⟦<PlainRadio as Radio>⟧.heard result ≡ 0 }
    {
        PlainRadio { sent: 0, heard: 0 }
    }

    /// The number of blocks sent.
    pub fn sent(&self) -> u64
        ensures { result ≡ ⟦<PlainRadio as Radio>⟧.sent self.now }
    {
        self.sent
    }

    /// The number of blocks received.
    pub fn heard(&self) -> u64
        ensures { result ≡ ⟦<PlainRadio as Radio>⟧.heard self.now }
    {
        self.heard
    }
}

impl Radio for PlainRadio {
    ghost sent = { λ radio. radio.sent };

    ghost heard = { λ radio. radio.heard };

    fn send(&mut self, octets: &[u8; BLOCK_OCTETS], tsc: u8) -> [[u8; BURST_BITS]; 4] {
        self.sent = self.sent.saturating_add(1);
        send_block(octets, tsc)
    }

    fn receive(&mut self, bursts: &[[i8; BURST_BITS]; 4]) -> Received {
        self.heard = self.heard.saturating_add(1);
        receive_block(bursts)
    }
}
