//! The words in order of rank, compared with an exhaustive search and with values computed by hand.
use crate::trellis::fill_with_noise;
use list_decode::{ListDecoder, margin};
use std::test::Fail;
use trellis_decode::{CODED_BITS, ENCODER_INPUT_BITS};

// Calls `margin`, or returns `None` if a precondition of its contract does not hold.
fn margin_if_valid(soft: &[i8], u: &mut [u8], v: &mut [u8]) -> Option<i32> {
    if soft.len() != 2 * u.len()
        || v.len() != u.len()
        || u.len() < 5
        || u.len() > ENCODER_INPUT_BITS
    {
        return None;
    }
    if !soft.iter().all(|value| *value != -128) {
        return None;
    }
    Some(margin(soft, u, v))
}

#[test]
fn margin_of_a_lost_block_is_zero(rt: HostRuntime) -> Result<(), Fail> {
    let mut u = [9; ENCODER_INPUT_BITS];
    let mut v = [9; ENCODER_INPUT_BITS];
    assert_eq!(rt; margin_if_valid(&[0; CODED_BITS], &mut u, &mut v), Some(0));
    let mut last = [0; ENCODER_INPUT_BITS];
    last[223] = 1;
    assert_eq!(rt; u, [0; ENCODER_INPUT_BITS]);
    assert_eq!(rt; v, last);
    Ok(())
}

#[test]
fn takes_the_first_of_two_tied_words(rt: HostRuntime) -> Result<(), Fail> {
    let mut soft = [1; 36];
    soft[0] = -7;
    let mut u = [9; 18];
    let mut v = [9; 18];
    assert_eq!(rt; margin_if_valid(&soft, &mut u, &mut v), Some(0));
    assert_eq!(rt; u, [1, 0, 0, 0, 0, 0, 0, 0, 0, 0, 0, 0, 0, 0, 0, 0, 0, 0]);
    assert_eq!(rt; v, [1, 1, 1, 0, 0, 0, 0, 0, 0, 0, 0, 0, 0, 0, 0, 0, 0, 0]);
    Ok(())
}

#[test]
fn margin_of_a_clean_access_burst(rt: HostRuntime) -> Result<(), Fail> {
    let mut u = [9; 18];
    let mut v = [9; 18];
    assert_eq!(rt; margin_if_valid(&[127; 36], &mut u, &mut v), Some(1778));
    assert_eq!(rt; u, [0; 18]);
    assert_eq!(rt; v, [0, 0, 0, 0, 0, 0, 0, 0, 0, 0, 0, 0, 0, 1, 0, 0, 0, 0]);
    Ok(())
}

// The two coded bits of information bit `k`, by the generators of GSM 05.03.
fn coded_pair(list: &[u8], k: usize) -> (u8, u8) {
    let mut sums = [0; 5];
    for (delay, bit) in sums.iter_mut().enumerate() {
        if delay <= k && k < list.len() {
            *bit = list[k - delay];
        }
    }
    (
        sums[0] ^ sums[3] ^ sums[4],
        sums[0] ^ sums[1] ^ sums[3] ^ sums[4],
    )
}

fn likelihood_of(soft: &[i8], list: &[u8]) -> i32 {
    let mut sum: i32 = 0;
    for (k, pair) in soft.chunks_exact(2).enumerate() {
        let (first, second) = coded_pair(list, k);
        for (value, bit) in pair.iter().zip([first, second]) {
            let bit_metric = if bit == 0 {
                i32::from(*value)
            } else {
                -i32::from(*value)
            };
            sum = sum.wrapping_add(bit_metric);
        }
    }
    sum
}

// Replaces the word by the next one in lexicographic order, and returns `false` if there is none. The four tail bits stay 0.
fn to_next_word(list: &mut [u8]) -> bool {
    for bit in list.iter_mut().rev().skip(4) {
        if *bit == 0 {
            *bit = 1;
            return true;
        }
        *bit = 0;
    }
    false
}

// The two best words of the length of `list` and their path metrics, by a search through all words in lexicographic order.
fn search_best_two_lists(soft: &[i8], list: &mut [u8]) -> [(i32, [u8; 10]); 2] {
    let mut found = [(i32::MIN, [9; 10]); 2];
    list.fill(0);
    for _ in 0..64 {
        let worth = likelihood_of(soft, list);
        let mut copy = [9; 10];
        for (to, from) in copy.iter_mut().zip(list.iter()) {
            *to = *from;
        }
        if worth > found[0].0 {
            found = [(worth, copy), found[0]];
        } else if worth > found[1].0 {
            found[1] = (worth, copy);
        }
        if !to_next_word(list) {
            break;
        }
    }
    found
}

#[test]
fn margin_agrees_with_exhaustive_search(rt: HostRuntime) -> Result<(), Fail> {
    for bits in [5, 6, 7, 8, 9, 10] {
        for seed in 1..30 {
            assert!(rt; bits <= 10);
            let mut soft = [0; 20];
            fill_with_noise(&mut soft, seed);
            let soft = &soft[..2 * bits];
            let mut u = [9; 10];
            let mut v = [9; 10];
            let answer = margin_if_valid(soft, &mut u[..bits], &mut v[..bits]);
            let mut list = [9; 10];
            let [(best, first), (next, second)] = search_best_two_lists(soft, &mut list[..bits]);
            assert_eq!(rt; answer, Some(best.wrapping_sub(next)));
            assert_eq!(rt; u, first);
            assert_eq!(rt; v, second);
        }
    }
    Ok(())
}

// The next word in rank after `last`, by a search through all words; its path metric is `i32::MIN` if there is none.
fn search_best_list_after(soft: &[i8], last: (i32, [u8; 10]), list: &mut [u8]) -> (i32, [u8; 10]) {
    let mut found = (i32::MIN, [9; 10]);
    list.fill(0);
    for _ in 0..64 {
        let worth = likelihood_of(soft, list);
        let mut copy = [9; 10];
        for (to, from) in copy.iter_mut().zip(list.iter()) {
            *to = *from;
        }
        if (worth < last.0 || (worth == last.0 && last.1 < copy)) && worth > found.0 {
            found = (worth, copy);
        }
        if !to_next_word(list) {
            break;
        }
    }
    found
}

// Whether `ListDecoder` returns all words of this length in the same order as the search through all words.
fn ranks_as_exhaustive_search(soft: &[i8], bits: usize) -> bool {
    if bits < 5 || bits > 10 || soft.len() != 2 * bits || !soft.iter().all(|value| *value != -128) {
        return false;
    }
    let mut ranked = ListDecoder::new(soft);
    let mut last = (i32::MAX, [0; 10]);
    for _ in 0..65 {
        let mut u = [9; 10];
        let mut list = [9; 10];
        let returned = ranked.next(&mut u[..bits]);
        last = search_best_list_after(soft, last, &mut list[..bits]);
        let Some(likelihood) = returned else {
            return last.0 == i32::MIN;
        };
        if likelihood != last.0 || u != last.1 {
            return false;
        }
    }
    false
}

#[test]
fn ranks_all_short_lists(rt: HostRuntime) -> Result<(), Fail> {
    for bits in [5, 6, 7, 8, 9, 10] {
        for seed in 1..6 {
            assert!(rt; bits <= 10);
            let mut soft = [0; 20];
            fill_with_noise(&mut soft, seed);
            assert!(rt; ranks_as_exhaustive_search(&soft[..2 * bits], bits));
        }
    }
    Ok(())
}

// The number of words of 228 bits that `ListDecoder` returns, or 0 if one has a wrong path metric or is out of order.
fn count_words_in_rank_order(soft: &[i8; CODED_BITS]) -> usize {
    if !soft.iter().all(|value| *value != -128) {
        return 0;
    }
    let mut ranked = ListDecoder::new(soft);
    let mut last = (i32::MAX, [0; ENCODER_INPUT_BITS]);
    for count in 0..70 {
        let mut u = [9; ENCODER_INPUT_BITS];
        let Some(likelihood) = ranked.next(&mut u) else {
            return count;
        };
        let behind = likelihood < last.0 || (likelihood == last.0 && last.1 < u);
        if likelihood != likelihood_of(soft, &u) || !behind {
            return 0;
        }
        last = (likelihood, u);
    }
    0
}

#[test]
fn ranks_64_lists_of_a_block(rt: HostRuntime) -> Result<(), Fail> {
    let mut soft = [0; CODED_BITS];
    fill_with_noise(&mut soft, 7);
    assert_eq!(rt; count_words_in_rank_order(&soft), 64);
    Ok(())
}
