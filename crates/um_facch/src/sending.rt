//! Sends a block of FACCH.
ghost use Rattle.std.specs.Prelude.{◌≡◌, ◌≤◌, ℕ, List, length};
ghost use Rattle.half_bursts.specs.Halves.{AreCarried};
ghost use Rattle.um_block.specs.Sent.{IsCodedBlock};
ghost use Rattle.um_facch.specs.Facch.{IsSentFacch};

use half_bursts::steal;
use um_block::{BLOCK_OCTETS, BURST_BITS, send_block};

/// Writes a block of 23 octets into its halves of the eight (full rate) or six bursts (half rate) that carry it, with training sequence
/// code `tsc`, 0 to 7. Each is a normal burst then; its other half is as it was.
pub fn send(octets: &[u8; BLOCK_OCTETS], tsc: u8, bursts: &mut [[u8; BURST_BITS]])
    requires tsc_in_range { tsc ≤ 7 }
    requires at_least { 4 ≤ length bursts.old }
    requires at_most { length bursts.old ≤ 8 }
    ensures sent { IsSentFacch octets.now tsc bursts.old bursts.new }
    ensures only { (other : List (List ℕ)) → IsSentFacch octets.now tsc bursts.old other → other ≡ bursts.new }
    ensures carried { (coded : List ℕ) → IsCodedBlock octets.now coded → AreCarried coded bursts.new }
{
    steal(&send_block(octets, tsc), bursts);
}
