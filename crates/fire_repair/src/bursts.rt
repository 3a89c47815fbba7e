//! Finds and corrects error bursts of at most twelve bits.

ghost use Rattle.std.specs.Prelude.{◌≡◌, ◌≢◌, ℕ, ◌+◌, ◌*◌, ◌/◌, ◌%◌, ◌<◌, ◌≤◌, ◌^◌, List};
ghost use Rattle.std.specs.Prelude.{length, IfSome, IsNone};
ghost use Rattle.std.specs.Int.{bit_at};
ghost use Rattle.fire_code.specs.bit_blocks.Bits.{AllBits, xor_bits};
ghost use Rattle.fire_repair.specs.Bursts.{error_bits, error_burst_syndrome};

use fire_code::Bits;

// The generator D^40 + D^26 + D^23 + D^17 + D^3 + 1. The least significant bit is the coefficient of D^40.
const FIRE_GENERATOR: u64 = 0x120_0082_4001;

/// An error burst within twelve bits: bit `i` of `shape` is 1 if bit `start + i` of the word is wrong.
#[derive(Clone, Copy)]
pub(crate) struct ErrorBurst {
    pub(crate) start: usize,
    pub(crate) shape: u64,
}

/// Finds an error burst with this syndrome by error trapping: divides the syndrome by D until its 28 lowest bits are 0; the other twelve
/// are the error burst. Returns `None` if there is none. Two error bursts never share a syndrome, so the one found is the only one.
pub(crate) fn find_error_burst(syndrome: u64) -> Option<ErrorBurst>
    requires { syndrome < 2 ^ 40 }
    ensures start { IfSome result (λ found. found.start ≤ 212) }
    ensures shape { IfSome result (λ found. found.shape < 2 ^ 12) }
    ensures leaves { IfSome result (λ found. error_burst_syndrome found.start found.shape ≡ syndrome) }
    ensures none { IsNone result → (start shape : ℕ) → start ≤ 212 → shape < 2 ^ 12 →
        error_burst_syndrome start shape ≢ syndrome }
{
    let mut register = syndrome;
    for start in (0..213).rev() {
        if register & 0xfff_ffff == 0 {
            return Some(ErrorBurst {
                start,
                shape: register >> 28,
            });
        }
        register = (2 * register) ^ ((register >> 39) * FIRE_GENERATOR);
    }
    None
}

pub(crate) fn flip_error_burst(w: &Bits<224>, found: ErrorBurst) -> Bits<224>
    requires count { length w.now ≡ 224 }
    requires bits { AllBits w.now }
    requires start { found.start ≤ 212 }
    requires shape { found.shape < 2 ^ 12 }
    ensures { result ≡ xor_bits w.now (error_bits found.start found.shape) }
{
    let mut word = *w;
    for i in 0..12 {
        let place = found.start + i;
        word.set(place, w.get(place) ^ ((found.shape >> i) & 1) as u8);
    }
    word
}

/// Returns the indexes, each 0 to 11, of the first and the last wrong bit in a shape.
pub(crate) fn first_and_last_wrong_bit(shape: u64) -> (u32, u32)
    requires nonzero { 0 < shape }
    requires twelve { shape < 2 ^ 12 }
    ensures first { bit_at shape result.0 ≡ 1 }
    ensures last { bit_at shape result.1 ≡ 1 }
    ensures within { (result.0 ≤ result.1) × (result.1 < 12) }
    ensures none_outside { (i : ℕ) → bit_at shape i ≢ 0 → (result.0 ≤ i) × (i ≤ result.1) }
{
    (shape.trailing_zeros(), 63 - shape.leading_zeros())
}
