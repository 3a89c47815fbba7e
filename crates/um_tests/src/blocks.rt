//! Blocks and bursts decoded, tested on values computed by hand.
ghost use Rattle.std.specs.Prelude.{◌↔◌, IsTrue, All};
ghost use Rattle.um_block.specs.bit_blocks.SoftValues.{AllSoftBits};

use std::process::Abort;
use um_block::{
    BLOCK_BITS, BLOCK_OCTETS, BURST_BITS, Bits, Received, ReceivedAccess, from_octets,
    receive_access, receive_block, send_block, soften,
};

pub fn are_soft(values: &[i8]) -> bool
    ensures { IsTrue result ↔ AllSoftBits values.now }
{
    values.iter().all(|value| *value != -128)
}

fn decode_block(rt: &impl Abort, bursts: &[[i8; BURST_BITS]; 4]) -> Received {
    let all_soft = bursts.iter().all(|burst| are_soft(burst));
    assert!(rt; all_soft);
    receive_block(bursts)
}

// Checks the report of a block.
fn check_report(rt: &impl Abort, received: &Received, expected: &Received) {
    assert_eq!(rt; received, expected);
}

// Decodes an access burst without training sequence, checks the report, all but the encoder input, and returns the encoder input.
fn check_access(
    rt: &impl Abort,
    burst: &[i8; 88],
    bsic: &Bits<6>,
    metric: i32,
    accepted: Option<Bits<8>>,
) -> Bits<18> {
    assert!(rt; are_soft(burst));
    let received = receive_access(burst, bsic);
    let u = received.u;
    let expected = ReceivedAccess {
        u,
        metric,
        wrong_training: 41,
        accepted,
    };
    assert_eq!(rt; received, expected);
    u
}

pub fn soften_burst(rt: &impl Abort, burst: &[u8; BURST_BITS]) -> [i8; BURST_BITS] {
    let are_bits = burst.iter().all(|bit| *bit <= 1);
    assert!(rt; are_bits);
    soften(burst)
}

// Turns the bits of four bursts into soft bits.
fn soften_bursts(rt: &impl Abort, sent: [[u8; BURST_BITS]; 4]) -> [[i8; BURST_BITS]; 4] {
    sent.map(|burst| soften_burst(rt, &burst))
}

#[test]
fn a_lost_block_decodes_to_zeros(rt: HostRuntime) {
    let lost = decode_block(&rt, &[[0; BURST_BITS]; 4]);
    let expected = Received {
        u: Bits::zero(),
        metric: 0,
        tsc: 0,
        wrong_training: 104,
        accepted: None,
    };
    check_report(&rt, &lost, &expected);
}

#[test]
fn a_strong_soft_bit_outweighs_weak_ones(rt: HostRuntime) {
    let mut burst = [0; 88];
    burst[49..85].fill(1);
    burst[49] = -7;
    let u = check_access(&rt, &burst, &Bits::from_array([1; 6]), 30, None);
    assert!(rt; u.as_slice().starts_with(&[1, 0]));
}

#[test]
fn a_lost_access_burst_matches_only_one_bsic(rt: HostRuntime) {
    check_access(
        &rt,
        &[0; 88],
        &Bits::from_array([1; 6]),
        0,
        Some(Bits::zero()),
    );
    check_access(&rt, &[0; 88], &Bits::zero(), 0, None);
}

#[test]
fn the_tail_of_an_access_burst_decodes_to_zeros(rt: HostRuntime) {
    let mut burst = [0; 88];
    burst[49..85].fill(1);
    burst[83] = -1;
    burst[84] = -1;
    check_access(
        &rt,
        &burst,
        &Bits::from_array([1; 6]),
        32,
        Some(Bits::zero()),
    );
}

#[test]
fn a_block_is_restored_without_one_of_its_bursts(rt: HostRuntime) {
    let octets = [0; BLOCK_OCTETS];
    let sent = send_block(&octets, 0);
    let mut bursts = soften_bursts(&rt, sent);
    bursts[1] = [0; BURST_BITS];
    let received = decode_block(&rt, &bursts);
    let expected = Received {
        u: received.u,
        metric: 43434,
        tsc: 0,
        wrong_training: 26,
        accepted: Some(octets),
    };
    check_report(&rt, &received, &expected);
}

// Seven wrong bits, as many as the free distance, turn the coded bits into the coded bits of another encoder input. Its CRC fails.
#[test]
fn a_list_with_a_bad_crc_is_reported_but_not_accepted(rt: HostRuntime) {
    let mut octets = [0x2b; BLOCK_OCTETS];
    octets[..3].copy_from_slice(&[3, 3, 1]);
    let mut sent = send_block(&octets, 7);
    for (burst, place) in [
        (0, 3),
        (0, 131),
        (1, 115),
        (1, 129),
        (2, 22),
        (3, 6),
        (3, 97),
    ] {
        sent[burst][place] ^= 1;
    }
    let bursts = soften_bursts(&rt, sent);
    let received = decode_block(&rt, &bursts);
    let expected = Received {
        u: received.u,
        metric: 57912,
        tsc: 7,
        wrong_training: 0,
        accepted: None,
    };
    check_report(&rt, &received, &expected);
    octets[0] = 2;
    let mut bits = [0; BLOCK_BITS];
    from_octets(&octets, &mut bits);
    assert!(rt; received.u.as_slice().starts_with(&bits));
}
