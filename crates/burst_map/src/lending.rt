//! Borrows a slice of a burst mutably.
ghost use Rattle.std.specs.Prelude.{◌≡◌, ◌≤◌, ◌-◌, length, slice_range};
ghost use Rattle.std.specs.Borrow.{sem, Lends, Array, u8};
ghost use Rattle.burst_map.specs.Parts.{with_range_replaced};

/// Exists for its contract: what the caller writes to the part stands in `places`, whose rest is unchanged.
pub fn borrow_range_mut<const N: usize>(places: &mut [u8; N], from: usize, to: usize) -> &mut [u8]
    requires order { from ≤ to }
    requires within { to ≤ N }
    ensures* writes_back { sem 𝓛 (Lends (Array u8 N) (Array u8 0) places.entry result (with_range_replaced places.old from to)) }
    ensures part { (result.now ≡ slice_range places.old from to) × (length result.now ≡ to - from) }
{
    &mut places[from..to]
}
