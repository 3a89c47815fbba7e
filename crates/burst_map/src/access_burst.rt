//! The access burst of 88 bits (RACH), the mobile's request for a channel. Its training sequence precedes the coded bits.
ghost use Rattle.std.specs.Prelude.{◌≡◌, ◌++◌, length};
ghost use Rattle.training_seq.specs.bit_blocks.Bits.{AllBits};
ghost use Rattle.burst_map.specs.AccessBurst.{access_burst, access_sequence};
ghost use Rattle.burst_map.specs.AccessBurst as parts;
ghost use Rattle.burst_map.specs.Parts.{IsSliceAtOffset};

use crate::place::place;
use std::marker::Model;

const EXTENDED_TAIL_BITS: [u8; 8] = [0, 0, 1, 1, 1, 0, 1, 0];

static ACCESS_TRAINING: [u8; 41] = [
    0, 1, 0, 0, 1, 0, 1, 1, 0, 1, 1, 1, 1, 1, 1, 1, 1, 0, 0, 1, 1, 0, 0, 1, 1, 0, 1, 0, 1, 0, 1, 0,
    0, 0, 1, 1, 1, 1, 0, 0, 0,
];

/// The 41 training bits of an access burst.
pub fn access_sequence() -> &'static [u8; 41]
    ensures value { result.now ≡ access_sequence }
    ensures bits { AllBits result.now }
{
    &ACCESS_TRAINING
}

/// Builds the access burst from its 36 coded bits.
pub fn access(body: &[u8]) -> [u8; 88]
    requires count { length body.now ≡ 36 }
    requires bits { AllBits body.now }
    ensures value { result ≡ access_burst body.now }
    ensures bits { AllBits result }
{
    let mut burst = [0; 88];
    place(&mut burst, 0, &EXTENDED_TAIL_BITS);
    place(&mut burst, 8, &ACCESS_TRAINING);
    place(&mut burst, 49, body);
    burst
}

/// A view of the parts of a received access burst.
#[derive(Debug, Drop)]
pub struct AccessView<'a> {
    burst: &'a [i8; 88],
}

// In contracts, an `AccessView` represents the burst that it borrows.
impl<'a> Model for AccessView<'a> {
    ghost use Rattle.std.specs.Prelude.{◌≡◌, List, ℤ, length};
    ghost use Rattle.std.specs.Borrow.{Bor};

    ghost Value = { Bor (List ℤ) };

    ghost view = { λ parts. parts.burst };

    ghost invariant = { λ parts. length parts.burst.now ≡ 88 };
}

impl<'a> AccessView<'a> {
    pub fn new(burst: &'a [i8; 88]) -> AccessView<'a>
        ensures value { result.now ≡ burst.now }
        ensures borrowed { result.ref_ptr ≡ burst.entry.ref_ptr }
        ensures whole { burst.now ≡ parts.head burst.now ++ parts.training burst.now ++ parts.body burst.now ++ parts.tail burst.now }
    {
        AccessView { burst }
    }

    /// The eight extended tail bits.
    pub fn head(&self) -> &'a [i8]
        ensures value { result.now ≡ parts.head self.now.now }
        ensures count { length result.now ≡ 8 }
        ensures borrowed { IsSliceAtOffset 0 self.now result }
    {
        let burst = self.burst;
        &burst[..8]
    }

    /// The 41 training bits.
    pub fn training(&self) -> &'a [i8]
        ensures value { result.now ≡ parts.training self.now.now }
        ensures count { length result.now ≡ 41 }
        ensures borrowed { IsSliceAtOffset 8 self.now result }
    {
        let burst = self.burst;
        &burst[8..49]
    }

    /// The 36 coded bits.
    pub fn body(&self) -> &'a [i8]
        ensures value { result.now ≡ parts.body self.now.now }
        ensures count { length result.now ≡ 36 }
        ensures borrowed { IsSliceAtOffset 49 self.now result }
    {
        let burst = self.burst;
        &burst[49..85]
    }

    /// The three tail bits.
    pub fn tail(&self) -> &'a [i8]
        ensures value { result.now ≡ parts.tail self.now.now }
        ensures count { length result.now ≡ 3 }
        ensures borrowed { IsSliceAtOffset 85 self.now result }
    {
        let burst = self.burst;
        &burst[85..88]
    }
}
