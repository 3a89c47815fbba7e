//! The convolutional code, the interleaver and the counts of bits, tested on values computed by hand.
use conv_code::encode;
use interleave::spread;
use std::test::Fail;
use um_block::CODED_BITS;
use weight_bound::{distance, strengths, wrong_bits};

// The last 88 coded bits of a block of 23 zero octets; all coded bits before them are 0.
const LAST_88_BITS: &[u8; 88] =
    b"1110100110101010101010101010101010101010101010101010101010101010101010101010101001000011";

// The positions of the 1 bits in each of the four bursts.
const POSITIONS_OF_ONES: [&[usize]; 4] = [
    &[
        7, 12, 21, 26, 28, 35, 40, 42, 49, 56, 63, 70, 77, 79, 84, 91, 93, 98, 107, 112,
    ],
    &[24, 112],
    &[
        3, 8, 10, 17, 24, 31, 33, 38, 45, 47, 52, 61, 66, 75, 80, 89, 94, 103, 108, 110,
    ],
    &[17, 43],
];

#[test]
fn encodes_an_access_burst_of_zeros(rt: HostRuntime) -> Result<(), Fail> {
    let u = [0, 0, 0, 0, 0, 0, 0, 0, 1, 1, 1, 1, 1, 1, 0, 0, 0, 0];
    let mut out = [9; 36];
    encode(&u, &mut out);
    let coded = [
        0, 0, 0, 0, 0, 0, 0, 0, 0, 0, 0, 0, 0, 0, 0, 0, 1, 1, 1, 0, 1, 0, 0, 1, 1, 0, 1, 0, 0, 1,
        0, 0, 0, 0, 1, 1,
    ];
    assert_eq!(rt; out, coded);
    Ok(())
}

#[test]
fn interleaves_a_block_of_zero_octets(rt: HostRuntime) {
    let mut coded = [0; CODED_BITS];
    for (i, digit) in LAST_88_BITS.iter().enumerate() {
        coded[368 + i] = digit & 1;
    }
    for (b, burst) in spread(&coded).iter().enumerate() {
        for (place, bit) in burst.iter().enumerate() {
            assert_eq!(rt;
                *bit == 1,
                POSITIONS_OF_ONES[b].contains(&place),
                "burst {b}, place {place}"
            );
        }
    }
}

#[test]
fn finds_strength_errors_distance(rt: HostRuntime) {
    assert_eq!(rt; strengths(&[-5, 4, 0]), (0, 5));
    assert_eq!(rt; wrong_bits(&[0, 3, -3], &[0, 0, 0]), 2);
    assert_eq!(rt; distance(&[0, 1, 1], &[1, 1, 0]), 2);
}
