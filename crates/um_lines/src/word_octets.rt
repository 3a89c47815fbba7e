//! Packs bits of a decoded word into octets.
ghost use Rattle.std.specs.Prelude.{◌≡◌, ◌+◌, ◌*◌, ◌≤◌, take, drop};
ghost use Rattle.bit_blocks.specs.Octets.{bits_of, octets_of};

use bit_blocks::{Bits, to_octets};

/// Packs the `8 * N` bits of `word` that start at index `start` into `N` octets.
pub fn octets_from_bits_at<const N: usize, const M: usize>(word: &Bits<M>, start: usize) -> [u8; N]
    requires { start + 8 * N ≤ M }
    ensures value { result ≡ octets_of (take (8 * N) (drop start word.now)) }
    ensures round_trip { bits_of result ≡ take (8 * N) (drop start word.now) }
{
    let bits = &word.as_slice()[start..start + 8 * N];
    let mut octets = [0; N];
    to_octets(bits, &mut octets);
    octets
}
