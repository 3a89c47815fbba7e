//! Blocks decoded with a list of words, tested on values computed by hand.
use crate::blocks::{are_soft, soften_burst};
use std::process::Abort;
use um_block::{BLOCK_OCTETS, BURST_BITS, Bits, Received, send_block};
use um_list_receive::{ListDecodedBlock, receive_block_among};

fn decode_block(rt: &impl Abort, bursts: &[[i8; BURST_BITS]; 4], most: u32) -> ListDecodedBlock {
    let all_soft = bursts.iter().all(|burst| are_soft(burst));
    assert!(rt; all_soft && most >= 1 && most <= 64);
    receive_block_among(bursts, most)
}

// Checks all of the report of a block sent with training sequence code 7 but its encoder input.
fn check_block(
    rt: &impl Abort,
    found: ListDecodedBlock,
    accepted: Option<[u8; BLOCK_OCTETS]>,
    metric: i32,
    rank: u32,
) {
    assert_eq!(rt; found.report.accepted, accepted);
    assert_eq!(rt; found.report.metric, metric);
    assert_eq!(rt; found.report.tsc, 7);
    assert_eq!(rt; found.report.wrong_training, 0);
    assert_eq!(rt; found.rank, rank);
}

// The coded bits of the sent word and of a neighbouring word differ in seven positions. Four of these bits are flipped, so the neighbour
// agrees with one more of the received bits than the sent word does, and the sent word has rank 2.
#[test]
fn the_second_most_likely_word_is_the_sent_one(rt: HostRuntime) {
    let mut octets = [0x2b; BLOCK_OCTETS];
    octets[0] = 3;
    octets[1] = 3;
    octets[2] = 1;
    let mut sent = send_block(&octets, 7);
    for (burst, place) in [(0, 3), (0, 131), (1, 115), (1, 129)] {
        sent[burst][place] ^= 1;
    }
    let bursts = sent.map(|burst| soften_burst(&rt, &burst));
    for (most, accepted, metric, rank) in [
        (1, None, 450 * 127, 1),
        (2, Some(octets), 448 * 127, 2),
        (16, Some(octets), 448 * 127, 2),
        (64, Some(octets), 448 * 127, 2),
    ] {
        let found = decode_block(&rt, &bursts, most);
        check_block(&rt, found, accepted, metric, rank);
    }
}

// All words are equally likely, so they come in lexicographic order: the first 64 are zeros except for the last six of the forty CRC bits,
// which take every value. None of these CRCs holds, because the CRC of zeros is forty ones.
#[test]
fn a_lost_block_stays_lost(rt: HostRuntime) {
    let lost = decode_block(&rt, &[[0; BURST_BITS]; 4], 64);
    let report = Received {
        u: Bits::zero(),
        metric: 0,
        tsc: 0,
        wrong_training: 104,
        accepted: None,
    };
    assert_eq!(rt; lost, ListDecodedBlock { report, rank: 1 });
}
