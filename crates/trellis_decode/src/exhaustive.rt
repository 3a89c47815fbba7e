//! Decodes by trying every encoder input, as the definition of the most likely input says. Tests compare `decode` with this search.

ghost use Rattle.std.specs.Prelude.{◌≡◌, ℕ, ◌*◌, ◌^◌, ◌<◌, ◌≤◌, pos, ◌-ℤ◌, ◌≤ℤ◌, List, length};
ghost use Rattle.conv_code.specs.bit_blocks.Bits.{AllBits, IsBit};
ghost use Rattle.conv_code.specs.Code.{encoding, IsEncoderInput};
ghost use Rattle.conv_code.specs.Likelihood.{bit_metric, AllSoftBits, IsMostLikely, likelihood};
ghost use Rattle.trellis_decode.specs.Words.{to_binary};

use conv_code::encode;

/// Finds the most likely encoder input by trying all of them in lexicographic order. Returns the same results as `decode`, but is slow and
/// therefore limited to 20 bits. It is the definition as a program, for use as a reference.
pub fn search(soft: &[i8], u: &mut [u8]) -> i32
    requires count { length soft.now ≡ 2 * length u.old }
    requires at_least { 5 ≤ length u.old }
    requires at_most { length u.old ≤ 20 }
    requires soft { AllSoftBits soft.now }
    ensures best { IsMostLikely soft.now u.new }
    ensures value { result ≡ likelihood soft.now (encoding u.new) }
    ensures only { (v : List ℕ) → IsMostLikely soft.now v → v ≡ u.new }
{
    let lists = count_encoder_inputs(u.len());
    let mut chosen = 0;
    write_bits_and_zero_tail(chosen, u);
    let mut best = path_metric(soft, u);
    for number in 1..lists {
        write_bits_and_zero_tail(number, u);
        let value = path_metric(soft, u);
        if value > best {
            chosen = number;
            best = value;
        }
    }
    write_bits_and_zero_tail(chosen, u);
    best
}

/// The number of encoder inputs of `bit_count` bits; the last four bits of each are 0.
fn count_encoder_inputs(bit_count: usize) -> u32
    requires at_least { 5 ≤ bit_count }
    requires at_most { bit_count ≤ 20 }
    ensures { 16 * result ≡ 2 ^ bit_count }
{
    1 << (bit_count - 4)
}

/// Writes `information_bits`, most significant bit first, followed by four zeros.
fn write_bits_and_zero_tail(information_bits: u32, u: &mut [u8])
    requires at_least { 5 ≤ length u.old }
    requires at_most { length u.old ≤ 20 }
    requires fits { 16 * information_bits < 2 ^ length u.old }
    ensures list { u.new ≡ to_binary (length u.old) (16 * information_bits) }
    ensures information { IsEncoderInput u.new }
{
    let spelled = 16 * information_bits;
    let last = u.len() - 1;
    for k in 0..u.len() {
        u[k] = ((spelled >> (last - k)) & 1) as u8;
    }
}

/// The path metric of `input`: the likelihood of its coded bits for the soft bits.
fn path_metric(soft: &[i8], input: &[u8]) -> i32
    requires count { length soft.now ≡ 2 * length input.now }
    requires at_most { length input.now ≤ 20 }
    requires information { IsEncoderInput input.now }
    ensures { result ≡ likelihood soft.now (encoding input.now) }
{
    let mut coded = [0; 40];
    let coded = &mut coded[..soft.len()];
    encode(input, coded);
    sum_of_bit_metrics(soft, coded)
}

/// The path metric of a list of coded bits: the sum of their bit metrics.
fn sum_of_bit_metrics(soft: &[i8], coded: &[u8]) -> i32
    requires count { length soft.now ≡ length coded.now }
    requires at_most { length soft.now ≤ 40 }
    requires bits { AllBits coded.now }
    ensures { result ≡ likelihood soft.now coded.now }
{
    let mut sum = 0;
    for (k, bit) in coded.iter().enumerate() {
        sum += bit_metric_of(soft[k], *bit);
    }
    sum
}

/// Returns what a coded bit adds to the path metric: the value of its soft bit for 0, or the negated value for 1.
fn bit_metric_of(value: i8, bit: u8) -> i32
    requires { IsBit bit }
    ensures exact { result ≡ bit_metric value bit }
    ensures low { (pos 0 -ℤ pos 128) ≤ℤ result }
    ensures high { result ≤ℤ pos 128 }
{
    if bit == 0 {
        i32::from(value)
    } else {
        -i32::from(value)
    }
}
