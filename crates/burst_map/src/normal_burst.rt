//! The normal burst of 148 bits: tail bits, coded bits, stealing flag, midamble, stealing flag, coded bits, tail bits.
ghost use Rattle.std.specs.Prelude.{◌≡◌, ◌≤◌, ◌++◌, length};
ghost use Rattle.training_seq.specs.bit_blocks.Bits.{AllBits};
ghost use Rattle.burst_map.specs.NormalBurst.{normal_burst};
ghost use Rattle.burst_map.specs.NormalBurst as parts;
ghost use Rattle.burst_map.specs.Parts.{IsSliceAtOffset};

use crate::BURST_BITS;
use crate::place::place;
use std::marker::Model;
use training_seq::sequence;

/// Builds the normal burst from two halves of 57 coded bits and a training sequence code, which must be 0 to 7. Both stealing flags are 1.
pub fn normal(first: &[u8], second: &[u8], tsc: u8) -> [u8; BURST_BITS]
    requires first { length first.now ≡ 57 }
    requires first_bits { AllBits first.now }
    requires second { length second.now ≡ 57 }
    requires second_bits { AllBits second.now }
    requires tsc_in_range { tsc ≤ 7 }
    ensures value { result ≡ normal_burst first.now second.now tsc }
    ensures bits { AllBits result }
{
    let mut burst = [0; BURST_BITS];
    place(&mut burst, 3, first);
    place(&mut burst, 60, &[1]);
    place(&mut burst, 61, &sequence(tsc));
    place(&mut burst, 87, &[1]);
    place(&mut burst, 88, second);
    burst
}

/// A view of the parts of a received normal burst.
#[derive(Debug, Drop)]
pub struct NormalView<'a> {
    burst: &'a [i8; BURST_BITS],
}

// In contracts, a `NormalView` represents the burst that it borrows.
impl<'a> Model for NormalView<'a> {
    ghost use Rattle.std.specs.Prelude.{◌≡◌, List, ℤ, length};
    ghost use Rattle.std.specs.Borrow.{Bor};
    ghost use Rattle.burst_map.specs.declared.TheConstants.{BURST_BITS};

    ghost Value = { Bor (List ℤ) };

    ghost view = { λ parts. parts.burst };

    ghost invariant = { λ parts. length parts.burst.now ≡ BURST_BITS };
}

impl<'a> NormalView<'a> {
    pub fn new(burst: &'a [i8; BURST_BITS]) -> NormalView<'a>
        ensures value { result.now ≡ burst.now }
        ensures borrowed { result.ref_ptr ≡ burst.entry.ref_ptr }
        ensures whole { burst.now ≡
            parts.head burst.now ++ parts.first_coded_half burst.now ++ parts.stealing_flag_before_training burst.now
            ++ parts.training burst.now
            ++ parts.stealing_flag_after_training burst.now ++ parts.second_coded_half burst.now ++ parts.tail burst.now }
    {
        NormalView { burst }
    }

    /// The three tail bits at the start of the burst.
    pub fn head(&self) -> &'a [i8]
        ensures value { result.now ≡ parts.head self.now.now }
        ensures count { length result.now ≡ 3 }
        ensures borrowed { IsSliceAtOffset 0 self.now result }
    {
        let burst = self.burst;
        &burst[..3]
    }

    /// The 57 coded bits before the training sequence.
    pub fn first(&self) -> &'a [i8]
        ensures value { result.now ≡ parts.first_coded_half self.now.now }
        ensures count { length result.now ≡ 57 }
        ensures borrowed { IsSliceAtOffset 3 self.now result }
    {
        let burst = self.burst;
        &burst[3..60]
    }

    /// The stealing flag before the training sequence, one soft bit.
    pub fn lower(&self) -> &'a [i8]
        ensures value { result.now ≡ parts.stealing_flag_before_training self.now.now }
        ensures count { length result.now ≡ 1 }
        ensures borrowed { IsSliceAtOffset 60 self.now result }
    {
        let burst = self.burst;
        &burst[60..61]
    }

    /// The 26 bits of the training sequence.
    pub fn training(&self) -> &'a [i8]
        ensures value { result.now ≡ parts.training self.now.now }
        ensures count { length result.now ≡ 26 }
        ensures borrowed { IsSliceAtOffset 61 self.now result }
    {
        let burst = self.burst;
        &burst[61..87]
    }

    /// The stealing flag after the training sequence, one soft bit.
    pub fn upper(&self) -> &'a [i8]
        ensures value { result.now ≡ parts.stealing_flag_after_training self.now.now }
        ensures count { length result.now ≡ 1 }
        ensures borrowed { IsSliceAtOffset 87 self.now result }
    {
        let burst = self.burst;
        &burst[87..88]
    }

    /// The 57 coded bits after the training sequence.
    pub fn second(&self) -> &'a [i8]
        ensures value { result.now ≡ parts.second_coded_half self.now.now }
        ensures count { length result.now ≡ 57 }
        ensures borrowed { IsSliceAtOffset 88 self.now result }
    {
        let burst = self.burst;
        &burst[88..145]
    }

    /// The three tail bits at the end of the burst.
    pub fn tail(&self) -> &'a [i8]
        ensures value { result.now ≡ parts.tail self.now.now }
        ensures count { length result.now ≡ 3 }
        ensures borrowed { IsSliceAtOffset 145 self.now result }
    {
        let burst = self.burst;
        &burst[145..BURST_BITS]
    }
}
