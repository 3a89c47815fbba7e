//! The most likely word, compared with an exhaustive search and with values computed by hand.
use std::test::Fail;
use trellis_decode::{CODED_BITS, ENCODER_INPUT_BITS, decode, search};

// Calls `decode`, or returns `None` if a precondition of its contract does not hold.
fn decode_if_valid(soft: &[i8], u: &mut [u8]) -> Option<i32> {
    if soft.len() != 2 * u.len() || u.len() < 5 || u.len() > ENCODER_INPUT_BITS {
        return None;
    }
    if !soft.iter().all(|value| *value != -128) {
        return None;
    }
    Some(decode(soft, u))
}

fn search_if_valid(soft: &[i8], u: &mut [u8]) -> Option<i32> {
    if soft.len() != 2 * u.len() || u.len() < 5 || u.len() > 20 {
        return None;
    }
    if !soft.iter().all(|value| *value != -128) {
        return None;
    }
    Some(search(soft, u))
}

#[test]
fn decodes_erased_bits_to_zeros(rt: HostRuntime) -> Result<(), Fail> {
    let soft = [0; CODED_BITS];
    for length in [5, 6, 7, 8, 17, 18, 39, 127, 227, ENCODER_INPUT_BITS] {
        let mut u = [9; ENCODER_INPUT_BITS];
        assert!(rt; length <= ENCODER_INPUT_BITS);
        assert_eq!(rt;
            decode_if_valid(&soft[..2 * length], &mut u[..length]),
            Some(0)
        );
        assert!(rt; u[..length].iter().all(|bit| *bit == 0));
    }
    Ok(())
}

#[test]
fn lets_a_strong_soft_bit_outweigh_weak_ones(rt: HostRuntime) -> Result<(), Fail> {
    let mut soft = [1; 36];
    soft[0] = -7;
    let mut u = [9; 18];
    assert_eq!(rt; decode_if_valid(&soft, &mut u), Some(30));
    assert_eq!(rt; u, [1, 0, 0, 0, 0, 0, 0, 0, 0, 0, 0, 0, 0, 0, 0, 0, 0, 0]);
    Ok(())
}

#[test]
fn decodes_only_lists_with_zero_tail(rt: HostRuntime) -> Result<(), Fail> {
    let mut soft = [1; 36];
    soft[34] = -1;
    soft[35] = -1;
    let mut u = [9; 18];
    assert_eq!(rt; decode_if_valid(&soft, &mut u), Some(32));
    assert_eq!(rt; u, [0; 18]);
    Ok(())
}

// Writes coded bits as hard bits: 127 for a 0, -127 for a 1.
fn write_hard_bits(coded: &[u8], soft: &mut [i8]) {
    for (value, bit) in soft.iter_mut().zip(coded) {
        *value = if *bit == 0 { 127 } else { -127 };
    }
}

#[test]
fn decodes_a_synchronisation_burst(rt: HostRuntime) -> Result<(), Fail> {
    let coded = [
        0, 0, 0, 0, 0, 0, 0, 0, 0, 0, 0, 0, 0, 0, 0, 0, 0, 0, 0, 0, 0, 0, 0, 0, 0, 0, 0, 0, 0, 0,
        0, 0, 0, 0, 0, 0, 0, 0, 0, 0, 0, 0, 0, 0, 0, 0, 0, 0, 0, 0, 1, 1, 1, 0, 1, 0, 0, 1, 1, 0,
        1, 0, 1, 0, 1, 0, 1, 0, 1, 0, 0, 1, 0, 0, 0, 0, 1, 1,
    ];
    let mut soft = [0; 78];
    write_hard_bits(&coded, &mut soft);
    let mut u = [9; 39];
    assert_eq!(rt; decode_if_valid(&soft, &mut u), Some(9906));
    let word = [
        0, 0, 0, 0, 0, 0, 0, 0, 0, 0, 0, 0, 0, 0, 0, 0, 0, 0, 0, 0, 0, 0, 0, 0, 0, 1, 1, 1, 1, 1,
        1, 1, 1, 1, 1, 0, 0, 0, 0,
    ];
    assert_eq!(rt; u, word);
    Ok(())
}

// Pseudo-random soft bits: mostly -1, 0 and 1, so that many words have equal path metrics, and some of 127.
pub fn fill_with_noise(soft: &mut [i8], start: u32) {
    let mut seed = start;
    for value in soft.iter_mut() {
        seed ^= seed << 13;
        seed ^= seed >> 17;
        seed ^= seed << 5;
        *value = if seed % 13 == 0 {
            127
        } else {
            (seed % 3) as i8 - 1
        };
    }
}

#[test]
fn decodes_as_exhaustive_search(rt: HostRuntime) -> Result<(), Fail> {
    for length in [5, 6, 7, 8, 9, 10, 11] {
        for seed in 1..30 {
            assert!(rt; length <= 11);
            let mut soft = [0; 22];
            fill_with_noise(&mut soft, seed);
            let soft = &soft[..2 * length];
            let mut u = [9; 11];
            let mut v = [9; 11];
            assert_eq!(rt;
                decode_if_valid(soft, &mut u[..length]),
                search_if_valid(soft, &mut v[..length])
            );
            assert_eq!(rt; u, v);
        }
    }
    Ok(())
}
