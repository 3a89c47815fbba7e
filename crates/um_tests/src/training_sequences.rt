//! Detection of the training sequence, tested on the sequences of GSM 05.02, section 5.2.3.
use training_seq::{best, correlate};

// The training sequences with the codes 0 to 7.
const SEQUENCE_DIGITS: [&[u8; 26]; 8] = [
    b"00100101110000100010010111",
    b"00101101110111100010110111",
    b"01000011101110100100001110",
    b"01000111101101000100011110",
    b"00011010111001000001101011",
    b"01001110101100000100111010",
    b"10100111110110001010011111",
    b"11101111000100101110111100",
];

fn soft_bits_of_digits(digits: &[u8; 26]) -> [i8; 26] {
    let mut soft = [127; 26];
    for (i, digit) in digits.iter().enumerate() {
        if *digit == b'1' {
            soft[i] = -127;
        }
    }
    soft
}

#[test]
fn finds_each_sequence_that_was_sent(rt: HostRuntime) {
    for tsc in 0..8 {
        let part = soft_bits_of_digits(SEQUENCE_DIGITS[tsc as usize]);
        assert_eq!(rt; correlate(&part, tsc), 26 * 127, "code {tsc}");
        assert_eq!(rt; best(&part, &part, &part, &part), (tsc, 0), "code {tsc}");
    }
}

#[test]
fn a_lost_block_has_code_0_and_104_wrong_bits(rt: HostRuntime) {
    let lost = [0; 26];
    assert_eq!(rt; best(&lost, &lost, &lost, &lost), (0, 104));
}

// Sequences 5 and 2 differ in 8 bits, so 24 soft bits of three bursts with sequence 2 disagree with sequence 5.
#[test]
fn one_strong_burst_outweighs_three_weak_ones(rt: HostRuntime) {
    let strong = soft_bits_of_digits(SEQUENCE_DIGITS[5]);
    let weak = soft_bits_of_digits(SEQUENCE_DIGITS[2]).map(|value| value / 127);
    assert_eq!(rt; best(&strong, &weak, &weak, &weak), (5, 24));
}
