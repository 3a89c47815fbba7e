//! A buffer of fixed size for the text of output lines.
ghost use Rattle.std.specs.Prelude.{◌≡◌, ◌+◌, ◌*◌, ◌≤◌, [], ◌++◌, length};
ghost use Rattle.std.specs.Fmt.{decimal};
ghost use Rattle.hex.specs.Hex.{encode_lower};
ghost use Rattle.bit_blocks.specs.Bits.{AllBits};
ghost use Rattle.um_lines.specs.Fields.{bit_digits};

use crate::lower_digits::write_lower_hex;
use std::marker::Model;

/// A buffer for output lines, at most 4,096 octets, stored inline. An `ArrayVec` in its place took twice the time.
#[derive(Drop)]
pub struct Text {
    buffer: [u8; 4096],
    length: usize,
}

// In contracts, a `Text` stands for the list of its octets.
impl Model for Text {
    ghost use Rattle.std.specs.Prelude.{ℕ, ◌≤◌, List, take};

    ghost Value = { List ℕ };

    ghost view = { λ text. take text.length text.buffer };

    ghost invariant = { λ text. text.length ≤ 4096 };
}

impl Text {
    /// An empty buffer.
    pub fn new() -> Text
        ensures { result ≡ [] }
    {
        Text {
            buffer: [0; 4096],
            length: 0,
        }
    }

    /// All octets written so far.
    pub fn octets(&self) -> &[u8]
        ensures value { result.now ≡ self.now }
        ensures space { length result.now ≤ 4096 }
    {
        &self.buffer[..self.length]
    }

    /// Empties the buffer; only its length is reset.
    pub fn clear(&mut self)
        ensures { self.new ≡ [] }
    {
        self.length = 0;
    }

    /// Appends octets; at most 4,096 fit.
    pub fn push(&mut self, octets: &[u8])
        requires { length self.old + length octets.now ≤ 4096 }
        ensures { self.new ≡ self.old ++ octets.now }
    {
        let end = self.length + octets.len();
        self.buffer[self.length..end].copy_from_slice(octets);
        self.length = end;
    }

    /// Appends a number in decimal. A number below ten is written as its digit, which saves 170 instructions for each message of a script.
    #[tactic(auto, using(std::proofs::lemmas::Fmt::decimal_digit))]
    pub fn push_decimal(&mut self, number: u64)
        requires { length self.old + 20 ≤ 4096 }
        ensures text { self.new ≡ self.old ++ decimal number }
        ensures size { length self.new ≤ length self.old + 20 }
    {
        if number < 10 {
            self.push(&[b'0' + number as u8]);
        } else {
            self.push(itoa::Buffer::new().format(number).as_bytes());
        }
    }

    /// Appends a digit `0` or `1` for each bit.
    #[inline(always)]
    pub fn push_digits(&mut self, bits: &[u8])
        requires space { length self.old + length bits.now ≤ 4096 }
        requires bits { AllBits bits.now }
        ensures { self.new ≡ self.old ++ bit_digits bits.now }
    {
        let end = self.length + bits.len();
        write_digits(&mut self.buffer[self.length..end], bits);
        self.length = end;
    }

    /// Appends two lowercase hexadecimal digits for each octet.
    pub fn push_hex(&mut self, octets: &[u8])
        requires { length self.old + 2 * length octets.now ≤ 4096 }
        ensures text { self.new ≡ self.old ++ encode_lower octets.now }
        ensures length { length self.new ≡ length self.old + 2 * length octets.now }
    {
        let end = self.length + 2 * octets.len();
        write_lower_hex(octets, &mut self.buffer[self.length..end]);
        self.length = end;
    }
}

#[inline(always)]
fn write_digits(digits: &mut [u8], bits: &[u8])
    requires count { length digits.old ≡ length bits.now }
    requires bits { AllBits bits.now }
    ensures { digits.new ≡ bit_digits bits.now }
{
    if bits.len() < 16 {
        write_one_by_one(digits, bits);
    } else {
        write_by_sixteens(digits, bits);
    }
}

fn write_one_by_one(digits: &mut [u8], bits: &[u8])
    requires count { length digits.old ≡ length bits.now }
    requires bits { AllBits bits.now }
    ensures { digits.new ≡ bit_digits bits.now }
{
    for (i, bit) in bits.iter().enumerate() {
        digits[i] = b'0' + *bit;
    }
}

// Writes the bits as digits, sixteen at a time; the last sixteen may overlap the preceding ones, so that no rest needs a loop of its own.
#[inline(always)]
fn write_by_sixteens(digits: &mut [u8], bits: &[u8])
    requires count { length digits.old ≡ length bits.now }
    requires some { 16 ≤ length bits.now }
    requires bits { AllBits bits.now }
    ensures { digits.new ≡ bit_digits bits.now }
{
    let last = bits.len() - 16;
    let mut at = 0;
    while at < last {
        digits[at..at + 16].copy_from_slice(&digits_of_sixteen(&bits[at..at + 16]));
        at += 16;
    }
    digits[last..last + 16].copy_from_slice(&digits_of_sixteen(&bits[last..last + 16]));
}

fn digits_of_sixteen(bits: &[u8]) -> [u8; 16]
    requires count { length bits.now ≡ 16 }
    requires bits { AllBits bits.now }
    ensures { result ≡ bit_digits bits.now }
{
    let mut digits = [0; 16];
    write_one_by_one(&mut digits, bits);
    digits
}
