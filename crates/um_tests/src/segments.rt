//! Messages segmented and reassembled, tested on values computed by hand.
use segmenting::{Channel, Joined, Joiner, LONGEST_MESSAGE, Piece, Pieces};
use std::process::Abort;

// The octets 0, 1, 2 and so on up to 251.
fn counting_octets() -> [u8; 252] {
    let mut octets = [0u8; 252];
    for (i, octet) in octets.iter_mut().enumerate() {
        *octet = i as u8;
    }
    octets
}

fn segments_of_pieces<'a>(rt: &impl Abort, message: &'a [u8], channel: Channel) -> Pieces<'a> {
    assert!(rt; !message.is_empty() && message.len() <= LONGEST_MESSAGE);
    Pieces::new_on(message, channel)
}

fn segment_at<'a>(rt: &impl Abort, pieces: &Pieces<'a>, i: usize) -> Piece<'a> {
    assert!(rt; i < pieces.count());
    pieces.piece(i)
}

// Checks what the joiner answers to one more segment.
fn check_take(rt: &impl Abort, joiner: &mut Joiner, octets: &[u8], more: bool, expected: Joined) {
    assert!(rt; !octets.is_empty() && octets.len() <= 20);
    assert_eq!(rt; joiner.take(octets, more), expected);
}

// Checks the message that the last segment completed.
fn check_message(rt: &impl Abort, joiner: &Joiner, expected: &[u8]) {
    assert_eq!(rt; joiner.message(), expected);
}

#[test]
fn segments_example_messages(rt: HostRuntime) {
    let octets = counting_octets();
    let (short, long) = (&octets[..40], &octets[..251]);
    let segments: [(&[u8], Channel, usize, usize, &[u8], bool); 4] = [
        (short, Channel::Sdcch, 2, 0, &octets[..20], true),
        (short, Channel::Sdcch, 2, 1, &octets[20..40], false),
        (long, Channel::Sdcch, 13, 12, &octets[240..251], false),
        (long, Channel::Sacch, 14, 13, &octets[234..251], false),
    ];
    for (message, channel, count, i, octets, more) in segments {
        let pieces = segments_of_pieces(&rt, message, channel);
        assert_eq!(rt; pieces.count(), count, "{i}");
        assert_eq!(rt; segment_at(&rt, &pieces, i), Piece { octets, more }, "{i}");
    }
}

#[test]
fn reassembles_the_segments_of_a_message(rt: HostRuntime) {
    let octets = counting_octets();
    let mut joiner = Joiner::new();
    for channel in [Channel::Sdcch, Channel::Sacch] {
        for size in [251, 1, 20, 18, 21] {
            assert!(rt; size <= 251);
            let pieces = segments_of_pieces(&rt, &octets[..size], channel);
            let last = pieces.count() - 1;
            for i in 0..last {
                let piece = segment_at(&rt, &pieces, i);
                check_take(&rt, &mut joiner, piece.octets, piece.more, Joined::More);
            }
            let piece = segment_at(&rt, &pieces, last);
            check_take(&rt, &mut joiner, piece.octets, piece.more, Joined::Whole);
            check_message(&rt, &joiner, &octets[..size]);
        }
    }
}

fn takes_full_segments(rt: &impl Abort, joiner: &mut Joiner, pieces: usize) {
    for _ in 0..pieces {
        check_take(rt, joiner, &[7; 20], true, Joined::More);
        check_message(rt, joiner, &[]);
    }
}

fn takes_one_octet(rt: &impl Abort, joiner: &mut Joiner) {
    check_take(rt, joiner, &[9], false, Joined::Whole);
    check_message(rt, joiner, &[9]);
}

#[test]
fn reassembles_at_most_251_octets(rt: HostRuntime) {
    let mut joiner = Joiner::new();
    takes_full_segments(&rt, &mut joiner, 12);
    check_take(&rt, &mut joiner, &[8; 11], false, Joined::Whole);
    assert_eq!(rt; joiner.message().len(), 251);

    takes_full_segments(&rt, &mut joiner, 12);
    check_take(&rt, &mut joiner, &[8; 12], false, Joined::Oversize);
    check_message(&rt, &joiner, &[]);
    takes_one_octet(&rt, &mut joiner);
}

#[test]
fn discards_an_oversize_message_up_to_its_last_segment(rt: HostRuntime) {
    let mut joiner = Joiner::new();
    takes_full_segments(&rt, &mut joiner, 12);
    check_take(&rt, &mut joiner, &[7; 20], true, Joined::Oversize);
    check_take(&rt, &mut joiner, &[9], true, Joined::Oversize);
    check_take(&rt, &mut joiner, &[9], false, Joined::Oversize);
    takes_one_octet(&rt, &mut joiner);
}
