//! Blocks decoded without a burst, tested on values computed by hand.
use crate::blocks::{are_soft, soften_burst};
use std::process::Abort;
use um_block::{BLOCK_OCTETS, BURST_BITS, deinterleave_block, send_block};
use um_erasing::{ErasingDecodedBlock, ListDecodedBlock, receive_first, receive_later_erasing};

fn decode(rt: &impl Abort, bursts: &[[i8; BURST_BITS]; 4], erasures: u8) -> ErasingDecodedBlock {
    let all_soft = bursts.iter().all(|burst| are_soft(burst));
    assert!(rt; all_soft && erasures <= 4);
    let soft = deinterleave_block(bursts);
    let mut wrong_training = [0; 4];
    let report = receive_first(bursts, &soft, &mut wrong_training);
    match report.accepted {
        Some(_) => ErasingDecodedBlock {
            block: ListDecodedBlock { report, rank: 1 },
            erased: None,
            wrong_training,
        },
        None => receive_later_erasing(bursts, &soft, &report, wrong_training, 1, erasures),
    }
}

// A burst with all bits inverted has no right training bit. Without it, the other three agree with the word sent in all 342 coded bits.
#[test]
fn an_inverted_burst_is_erased(rt: HostRuntime) {
    let octets = [0x2b; BLOCK_OCTETS];
    let sent = send_block(&octets, 7);
    for (inverted, wrong) in [(0, [26, 0, 0, 0]), (2, [0, 0, 26, 0]), (3, [0, 0, 0, 26])] {
        let mut bursts = sent.map(|burst| soften_burst(&rt, &burst));
        let index: u8 = inverted;
        bursts[usize::from(index) % 4] = soften_burst(
            &rt,
            &sent[usize::from(index) % 4].map(|bit| 1 - bit.min(1)),
        );
        let lost = decode(&rt, &bursts, 0);
        assert_eq!(rt; (lost.block.report.accepted, lost.erased), (None, None));
        let found = decode(&rt, &bursts, 1);
        assert_eq!(rt; found.block.report.accepted, Some(octets));
        assert_eq!(rt; found.block.report.metric, 342 * 127);
        assert_eq!(rt; found.block.report.wrong_training, 26);
        assert_eq!(rt; (found.erased, found.wrong_training), (Some(index), wrong));
    }
}

// A word that holds is given as it is, with the wrong training bits of each burst: bit 61 is the first of them.
#[test]
fn nothing_is_erased_if_the_first_word_holds(rt: HostRuntime) {
    let octets = [0x2b; BLOCK_OCTETS];
    let mut sent = send_block(&octets, 7);
    sent[1][61] ^= 1;
    sent[3][61] ^= 1;
    sent[3][86] ^= 1;
    let bursts = sent.map(|burst| soften_burst(&rt, &burst));
    let found = decode(&rt, &bursts, 4);
    assert_eq!(rt; found.block.report.accepted, Some(octets));
    assert_eq!(rt; found.block.report.metric, 456 * 127);
    assert_eq!(rt; (found.erased, found.wrong_training), (None, [0, 1, 0, 2]));
}
