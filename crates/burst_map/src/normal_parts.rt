//! Writes the two halves of a normal burst directly into the caller's array.
ghost use Rattle.std.specs.Prelude.{◌≡◌, ◌≤◌, length, replicate, slice_range};
ghost use Rattle.std.specs.Borrow.{sem};
ghost use Rattle.burst_map.specs.NormalBurst.{normal_burst};
ghost use Rattle.burst_map.specs.NormalParts.{borrowed_burst_bits, proof_id_of_burst_reference, BurstRangeIsBorrowed};

use crate::BURST_BITS;
use crate::lending::borrow_range_mut;
use crate::normal_burst::normal;

/// Borrows a normal burst, so that the caller can write its two halves of 57 coded bits in place, without a copy.
#[derive(Debug, Drop)]
pub struct NormalParts<'a> {
    burst: &'a mut [u8; BURST_BITS],
}

impl<'a> NormalParts<'a> {
    /// Fills `burst` with the tail bits, the stealing flags and the training sequence, and with zeros in both halves.
    pub fn new(burst: &'a mut [u8; BURST_BITS], tsc: u8) -> NormalParts<'a>
        requires { tsc ≤ 7 }
        ensures same_burst { burst.entry.ghost_name ≡ proof_id_of_burst_reference result }
        ensures value { borrowed_burst_bits result ≡ normal_burst (replicate 57 0) (replicate 57 0) tsc }
    {
        *burst = normal(&[0; 57], &[0; 57], tsc);
        NormalParts { burst }
    }

    /// Borrows the 57 coded bits before the training sequence mutably.
    pub fn first_mut(&mut self) -> &mut [u8]
        ensures* writes_back { sem 𝓛 (BurstRangeIsBorrowed self.entry 3 60 result) }
        ensures value { result.now ≡ slice_range (borrowed_burst_bits self.old) 3 60 }
        ensures count { length result.now ≡ 57 }
    {
        borrow_range_mut(self.burst, 3, 60)
    }

    /// Borrows the 57 coded bits after the training sequence mutably.
    pub fn second_mut(&mut self) -> &mut [u8]
        ensures* writes_back { sem 𝓛 (BurstRangeIsBorrowed self.entry 88 145 result) }
        ensures value { result.now ≡ slice_range (borrowed_burst_bits self.old) 88 145 }
        ensures count { length result.now ≡ 57 }
    {
        borrow_range_mut(self.burst, 88, 145)
    }
}
