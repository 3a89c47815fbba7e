//! The synchronisation burst of 148 bits (SCH): a training sequence of 64 bits between two halves of coded bits.
ghost use Rattle.std.specs.Prelude.{◌≡◌, ◌++◌, length};
ghost use Rattle.training_seq.specs.bit_blocks.Bits.{AllBits};
ghost use Rattle.burst_map.specs.SyncBurst.{sync_burst, sync_sequence};
ghost use Rattle.burst_map.specs.SyncBurst as parts;
ghost use Rattle.burst_map.specs.Parts.{IsSliceAtOffset};

use crate::BURST_BITS;
use crate::place::place;
use std::marker::Model;

static SYNC_TRAINING: [u8; 64] = [
    1, 0, 1, 1, 1, 0, 0, 1, 0, 1, 1, 0, 0, 0, 1, 0, 0, 0, 0, 0, 0, 1, 0, 0, 0, 0, 0, 0, 1, 1, 1, 1,
    0, 0, 1, 0, 1, 1, 0, 1, 0, 1, 0, 0, 0, 1, 0, 1, 0, 1, 1, 1, 0, 1, 1, 0, 0, 0, 0, 1, 1, 0, 1, 1,
];

/// The 64 training bits of a synchronisation burst.
pub fn sync_sequence() -> &'static [u8; 64]
    ensures value { result.now ≡ sync_sequence }
    ensures bits { AllBits result.now }
{
    &SYNC_TRAINING
}

/// Builds the synchronisation burst from two halves of 39 coded bits.
pub fn sync(first: &[u8], second: &[u8]) -> [u8; BURST_BITS]
    requires first { length first.now ≡ 39 }
    requires first_bits { AllBits first.now }
    requires second { length second.now ≡ 39 }
    requires second_bits { AllBits second.now }
    ensures value { result ≡ sync_burst first.now second.now }
    ensures bits { AllBits result }
{
    let mut burst = [0; BURST_BITS];
    place(&mut burst, 3, first);
    place(&mut burst, 42, &SYNC_TRAINING);
    place(&mut burst, 106, second);
    burst
}

/// A view of the parts of a received synchronisation burst.
#[derive(Debug, Drop)]
pub struct SyncView<'a> {
    burst: &'a [i8; BURST_BITS],
}

// In contracts, a `SyncView` represents the burst that it borrows.
impl<'a> Model for SyncView<'a> {
    ghost use Rattle.std.specs.Prelude.{◌≡◌, List, ℤ, length};
    ghost use Rattle.std.specs.Borrow.{Bor};
    ghost use Rattle.burst_map.specs.declared.TheConstants.{BURST_BITS};

    ghost Value = { Bor (List ℤ) };

    ghost view = { λ parts. parts.burst };

    ghost invariant = { λ parts. length parts.burst.now ≡ BURST_BITS };
}

impl<'a> SyncView<'a> {
    pub fn new(burst: &'a [i8; BURST_BITS]) -> SyncView<'a>
        ensures value { result.now ≡ burst.now }
        ensures borrowed { result.ref_ptr ≡ burst.entry.ref_ptr }
        ensures whole { burst.now ≡
            parts.head burst.now ++ parts.first_coded_half burst.now ++ parts.training burst.now
            ++ parts.second_coded_half burst.now ++ parts.tail burst.now }
    {
        SyncView { burst }
    }

    /// The three tail bits at the start of the burst.
    pub fn head(&self) -> &'a [i8]
        ensures value { result.now ≡ parts.head self.now.now }
        ensures count { length result.now ≡ 3 }
        ensures borrowed { IsSliceAtOffset 0 self.now result }
    {
        let burst = self.burst;
        &burst[..3]
    }

    /// The 39 coded bits before the training sequence.
    pub fn first(&self) -> &'a [i8]
        ensures value { result.now ≡ parts.first_coded_half self.now.now }
        ensures count { length result.now ≡ 39 }
        ensures borrowed { IsSliceAtOffset 3 self.now result }
    {
        let burst = self.burst;
        &burst[3..42]
    }

    /// The 64 training bits.
    pub fn training(&self) -> &'a [i8]
        ensures value { result.now ≡ parts.training self.now.now }
        ensures count { length result.now ≡ 64 }
        ensures borrowed { IsSliceAtOffset 42 self.now result }
    {
        let burst = self.burst;
        &burst[42..106]
    }

    /// The 39 coded bits after the training sequence.
    pub fn second(&self) -> &'a [i8]
        ensures value { result.now ≡ parts.second_coded_half self.now.now }
        ensures count { length result.now ≡ 39 }
        ensures borrowed { IsSliceAtOffset 106 self.now result }
    {
        let burst = self.burst;
        &burst[106..145]
    }

    /// The three tail bits at the end of the burst.
    pub fn tail(&self) -> &'a [i8]
        ensures value { result.now ≡ parts.tail self.now.now }
        ensures count { length result.now ≡ 3 }
        ensures borrowed { IsSliceAtOffset 145 self.now result }
    {
        let burst = self.burst;
        &burst[145..BURST_BITS]
    }
}
