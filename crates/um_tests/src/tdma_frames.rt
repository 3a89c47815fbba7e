//! Frame numbers, SCH and the channels of frames, tested on values of libosmocore and osmo-bts, and computed by hand.
use std::process::Abort;
use um_slot::{
    Channel, Combination, Direction, FrameTime, SchInfo, bits_of_sch, frame_of_time,
    place_of_frame, sch_of_bits, time_of_frame,
};

// Frame numbers with T1, T2 and T3 as libosmocore's gsm_fn2gsmtime gives them.
#[test]
fn frame_numbers_are_libosmocores(rt: HostRuntime) {
    for (frame, t1, t2, t3) in [
        (0, 0, 0, 0),
        (2_660_750, 2006, 14, 29),
        (793_641, 598, 17, 30),
        (2_689_653, 2028, 5, 15),
        (397_178, 299, 2, 41),
    ] {
        let time = FrameTime { t1, t2, t3 };
        assert_eq!(rt; time_of_frame(frame), Some(time));
        assert_eq!(rt; frame_of_time(&time), Some(frame));
    }
    assert_eq!(rt; time_of_frame(2_715_648), None);
}

// Checks the first frame of the block, the channel, the subchannel and the burst of a frame.
fn check_place(
    rt: &impl Abort,
    combination: Combination,
    direction: Direction,
    timeslot: u8,
    frame: u32,
    expected: Option<(u32, Channel, u8, u8)>,
) {
    assert!(rt; timeslot < 8 && frame < 2_715_648);
    let found = place_of_frame(combination, direction, timeslot, frame).map(|place| {
        let position = place.position;
        (
            place.first,
            position.channel,
            position.subchannel,
            position.burst,
        )
    });
    assert_eq!(rt; found, expected, "frame {frame}");
}

// What osmo-bts sent and expected in these frames.
#[test]
fn places_are_those_of_osmo_bts(rt: HostRuntime) {
    for (frame, expected) in [
        (0, Some((0, Channel::Sdcch, 0, 0))),
        (35, Some((32, Channel::Sacch, 0, 3))),
        (48, None),
        (84, Some((83, Channel::Sacch, 4, 1))),
    ] {
        check_place(
            &rt,
            Combination::Sdcch8,
            Direction::Downlink,
            0,
            frame,
            expected,
        );
    }
    for (frame, expected) in [
        (1, Some((0, Channel::Sdcch, 3, 1))),
        (4, Some((4, Channel::Rach, 0, 0))),
        (6, Some((6, Channel::Sacch, 2, 0))),
        (40, Some((37, Channel::Sdcch, 0, 3))),
        (57, Some((57, Channel::Sacch, 0, 0))),
    ] {
        check_place(
            &rt,
            Combination::BcchCcchSdcch4,
            Direction::Uplink,
            0,
            frame,
            expected,
        );
    }
    check_place(
        &rt,
        Combination::TchF,
        Direction::Uplink,
        6,
        12,
        Some((2_715_634, Channel::Sacch, 0, 1)),
    );
}

// Checks the 25 bits, given as digits, and that they are read back.
fn check_sch(rt: &impl Abort, info: &SchInfo, digits: &[u8; 25]) {
    let bits = bits_of_sch(info).expect(rt, "a frame with SCH");
    for (bit, digit) in bits.as_slice().iter().zip(digits.iter()) {
        assert_eq!(rt; *bit, *digit & 1);
    }
    assert_eq!(rt; sch_of_bits(&bits), Some(*info));
}

// BSIC 5 in frame 52 = 26 * 2 = 51 + 1: T1 0, T2 0, T3 1. BSIC 37 in frame 1326 * 3 + 11: T1 3, T2 11, T3 11.
#[test]
fn sch_has_the_fields_of_the_standard(rt: HostRuntime) {
    for (bsic, frame, expected) in [
        (5, 52, b"0010100000000000000000000"),
        (37, 3989, b"0010100110000000001101011"),
    ] {
        let info = SchInfo { bsic, frame };
        check_sch(&rt, &info, expected);
    }
}
