//! The type `Bits`: a bit list of fixed length.
ghost use Rattle.std.specs.Prelude.{◌≡◌, ℕ, ◌<◌, ◌≤◌, ◌↔◌, List, length, replicate, slice_index, slice_set};
ghost use Rattle.std.specs.Prelude.{IsSome, IfSome};
ghost use Rattle.bit_blocks.specs.Bits.{AllBits, xor_bits};

use std::marker::Model;

/// A list of `N` bits, each stored as an octet 0 or 1.
#[derive(Clone, Copy, PartialEq, Eq, Debug)]
pub struct Bits<const N: usize> {
    values: [u8; N],
}

// In contracts, a `Bits<N>` is the list of its bits.
impl<const N: usize> Model for Bits<N> {
    ghost Value = { List ℕ };

    ghost view = { λ b. b.values };

    ghost invariant = { λ b. AllBits b.values };

    ghost inverse = { λ bits. record { values = bits } };
}

impl<const N: usize> Bits<N> {
    /// Returns `N` zeros.
    pub fn zero() -> Bits<N>
        ensures value { result ≡ replicate N 0 }
        ensures count { length result ≡ N }
    {
        Bits { values: [0; N] }
    }

    /// Converts a slice to bits. Returns `None` if its length is not `N` or an octet is neither 0 nor 1.
    pub fn from_slice(bits: &[u8]) -> Option<Bits<N>>
        ensures found { IsSome result ↔ ((length bits.now ≡ N) × AllBits bits.now) }
        ensures value { IfSome result (λ found. found ≡ bits.now) }
    {
        if !bits.iter().all(|bit| *bit <= 1) {
            return None;
        }
        let values: &[u8; N] = bits.try_into().ok()?;
        Some(Bits { values: *values })
    }

    /// Converts an array of zeros and ones to bits, and does not test it.
    pub fn from_array(bits: [u8; N]) -> Bits<N>
        requires { AllBits bits }
        ensures value { result ≡ bits.entry }
        ensures count { length result ≡ N }
    {
        Bits { values: bits }
    }

    /// Returns bit `i`, counted from 0.
    pub fn get(&self, i: usize) -> u8
        requires { i < N }
        ensures value { result ≡ slice_index self.now i }
        ensures bit { result ≤ 1 }
    {
        self.values[i]
    }

    /// Sets bit `i`, counted from 0, to `bit`, 0 or 1.
    pub fn set(&mut self, i: usize, bit: u8)
        requires within { i < N }
        requires bit { bit ≤ 1 }
        ensures { self.new ≡ slice_set self.old i bit }
    {
        self.values[i] = bit;
    }

    /// Returns the bitwise XOR of two bit lists.
    pub fn xor(&self, other: &Bits<N>) -> Bits<N>
        ensures value { result ≡ xor_bits self.now other.now }
        ensures count { length result ≡ N }
        ensures bits { AllBits result }

        // A contract sees only the list of the bits, so this says that both operands have `N`.
        ensures counts { (length self.now ≡ N) × (length other.now ≡ N) }
        ensures operands { AllBits self.now × AllBits other.now }
    {
        let mut sum = [0; N];
        for i in 0..N {
            sum[i] = self.values[i] ^ other.values[i];
        }
        Bits { values: sum }
    }

    /// Returns the bits, each as an octet 0 or 1.
    pub fn as_slice(&self) -> &[u8]
        ensures value { result.now ≡ self.now }
        ensures count { length result.now ≡ N }
        ensures bits { AllBits result.now }
    {
        &self.values
    }
}
