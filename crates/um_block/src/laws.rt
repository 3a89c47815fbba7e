//! Laws of blocks and bursts: a law is a function with an empty body whose contract states a theorem.
ghost use Rattle.std.specs.Prelude.{◌≡◌, ℕ, ℤ, pos, ◌<◌, ◌≤◌, List, All, Contains, length, map, slice_index};
ghost use Rattle.std.specs.Prelude.{slice_index_or};
ghost use Rattle.bit_blocks.specs.SoftValues.{count_wrong_bits};
ghost use Rattle.interleave.specs.Bursts.{IsInterleaved};
ghost use Rattle.interleave.specs.Positions.{position_in_four_bursts};
ghost use Rattle.bit_blocks.specs.Bits.{AllBits};
ghost use Rattle.um_block.specs.Computed.{received_block, received_access, received_sync};
ghost use Rattle.um_block.specs.Received.{IsReceivedBlock, IsReceivedAccess, IsReceivedSync, coded_soft_bits, joined_bursts, soft_bits};
ghost use Rattle.um_block.specs.declared.received.Received.{Received as BlockReport};
ghost use Rattle.um_block.specs.declared.received.ReceivedAccess.{ReceivedAccess as AccessReport};
ghost use Rattle.um_block.specs.declared.received.ReceivedSync.{ReceivedSync as SyncReport};
ghost use Rattle.um_block.specs.Sent.{IsCodedBlock, IsSentBlock};

use bit_blocks::CODED_BITS;
use burst_map::BURST_BITS;

/// Law: among the 592 bits of its four bursts, each coded bit of a block is sent at its `position_in_four_bursts`, and its soft bit is read
/// from there.
pub fn law_coded_bits_are_at_burst_positions()
    ensures sent { (octets c : List ℕ) (tsc : ℕ) (bursts : List (List ℕ)) → IsSentBlock octets tsc bursts →
        IsCodedBlock octets c → (k : ℕ) → k < CODED_BITS → slice_index (joined_bursts bursts) (position_in_four_bursts k) ≡
        slice_index c k }
    ensures received { (bursts : List (List ℤ)) (soft : List ℤ) → length bursts ≡ 4 →
        All (λ burst. length burst ≡ BURST_BITS) bursts → IsInterleaved soft (map coded_soft_bits bursts) →
        (k : ℕ) → k < CODED_BITS → slice_index_or soft k (pos 0)
        ≡ slice_index_or (joined_bursts bursts) (position_in_four_bursts k) (pos 0) }
{}

/// Law: if four bursts are received exactly as sent except at some of their 592 positions (`places`), at most that many of the 456 coded
/// bits are wrong.
pub fn law_coded_errors_at_most_burst_errors()
    ensures { (octets c : List ℕ) (tsc : ℕ) (sent : List (List ℕ)) (bursts : List (List ℤ)) (soft : List ℤ)
        (places : List ℕ) → IsSentBlock octets tsc sent → IsCodedBlock octets c → length bursts ≡ 4 →
        All (λ burst. length burst ≡ BURST_BITS) bursts →
        IsInterleaved soft (map coded_soft_bits bursts) →
        ((q : ℕ) → q < 592 → ¬ Contains places q →
        slice_index_or (joined_bursts bursts) q (pos 0) ≡ slice_index_or (joined_bursts (map soft_bits sent)) q (pos 0)) →
        count_wrong_bits soft c ≤ length places }
{}

/// Law: the reports that `received_block`, `received_access` and `received_sync` compute are those of the definition of reception, and no
/// others are.
pub fn law_computed_reports_are_those_of_reception()
    ensures block { (bursts : List (List ℤ)) → length bursts ≡ 4 → All (λ burst. length burst ≡ BURST_BITS) bursts →
        IsReceivedBlock bursts (received_block bursts) }
    ensures only_block { (bursts : List (List ℤ)) (other : BlockReport) → IsReceivedBlock bursts other →
        other ≡ received_block bursts }
    ensures access { (burst : List ℤ) (bsic : List ℕ) → length burst ≡ 88 → length bsic ≡ 6 → AllBits bsic →
        IsReceivedAccess burst bsic (received_access burst bsic) }
    ensures only_access { (burst : List ℤ) (bsic : List ℕ) (other : AccessReport) → length burst ≡ 88 → length bsic ≡ 6 →
        AllBits bsic →
        IsReceivedAccess burst bsic other → other ≡ received_access burst bsic }
    ensures sync { (burst : List ℤ) → length burst ≡ BURST_BITS → IsReceivedSync burst (received_sync burst) }
    ensures only_sync { (burst : List ℤ) (other : SyncReport) → length burst ≡ BURST_BITS → IsReceivedSync burst other →
        other ≡ received_sync burst }
{}
