//! The receiver of one time slot, tested on frames whose blocks are read off the tables of GSM 05.02, section 7.
ghost use Rattle.std.specs.Prelude.{◌≤◌};

use std::process::Abort;
use um_slot::{BURST_BITS, Channel, FinishedBlock, Refusal, Slot};

// A receiver of SDCCH/8, downlink.
fn receiver(rt: &impl Abort) -> Slot {
    Slot::new(2, 0, 0, 1, 0).expect(rt, "a receiver of SDCCH/8")
}

// Takes the burst of a frame, or zeros; the bursts of a finished block go to `done`.
fn take(
    slot: &mut Slot,
    frame: u32,
    burst: &[i8; BURST_BITS],
    came: u8,
    done: &mut [[i8; BURST_BITS]; 4],
) -> Result<Option<FinishedBlock>, Refusal>
    requires { came ≤ 1 }
{
    let accepted = match slot.accept(frame) {
        Ok(accepted) => accepted,
        Err(refusal) => return Err(refusal),
    };
    match accepted.ended {
        Some(_) => {
            *done = slot.bursts;
            Ok(slot.put(&accepted, burst, came))
        }
        None => match slot.put(&accepted, burst, came) {
            Some(finished) => {
                *done = slot.bursts;
                Ok(Some(finished))
            }
            None => Ok(None),
        },
    }
}

// Checks which block was finished, and that its four bursts have these values throughout.
fn check_block(
    rt: &impl Abort,
    finished: Option<FinishedBlock>,
    done: &[[i8; BURST_BITS]; 4],
    expected: (u32, Channel, u8, u8),
    values: [i8; 4],
) {
    let found = finished.map(|block| {
        let position = block.place.position;
        (
            block.place.first,
            position.channel,
            position.subchannel,
            block.heard,
        )
    });
    assert_eq!(rt; found, Some(expected));
    assert_eq!(rt; *done, values.map(|value| [value; BURST_BITS]));
}

// Frames 32 to 35 are the first block of SACCH 0, frames 83 to 86 that of SACCH 4.
#[test]
fn the_fourth_burst_finishes_a_block(rt: HostRuntime) {
    let mut slot = receiver(&rt);
    let mut done = [[9; BURST_BITS]; 4];
    for (first, subchannel) in [(32, 0), (83, 4)] {
        for (later, value) in [(0, 1), (1, 2), (2, 3)] {
            let taken = take(&mut slot, first + later, &[value; BURST_BITS], 1, &mut done);
            assert_eq!(rt; taken, Ok(None));
        }
        let taken = take(&mut slot, first + 3, &[4; BURST_BITS], 1, &mut done);
        let finished = taken.unwrap_or(None);
        check_block(
            &rt,
            finished,
            &done,
            (first, Channel::Sacch, subchannel, 4),
            [1, 2, 3, 4],
        );
    }
}

// Of the block of SDCCH 1, frames 4 to 7, two bursts come; frame 8 begins that of SDCCH 2. Frame 48 is
// idle and ends none; frame 63 begins the next block of SDCCH 3.
#[test]
fn a_later_frame_finishes_a_block(rt: HostRuntime) {
    let mut slot = receiver(&rt);
    let mut done = [[9; BURST_BITS]; 4];
    assert_eq!(rt;
        take(&mut slot, 4, &[1; BURST_BITS], 1, &mut done),
        Ok(None)
    );
    assert_eq!(rt;
        take(&mut slot, 5, &[0; BURST_BITS], 0, &mut done),
        Ok(None)
    );
    assert_eq!(rt;
        take(&mut slot, 6, &[3; BURST_BITS], 1, &mut done),
        Ok(None)
    );
    let taken = take(&mut slot, 8, &[5; BURST_BITS], 1, &mut done);
    let finished = taken.unwrap_or(None);
    check_block(
        &rt,
        finished,
        &done,
        (4, Channel::Sdcch, 1, 2),
        [1, 0, 3, 0],
    );
    assert_eq!(rt;
        take(&mut slot, 48, &[6; BURST_BITS], 1, &mut done),
        Ok(None)
    );
    let taken = take(&mut slot, 63, &[7; BURST_BITS], 1, &mut done);
    let finished = taken.unwrap_or(None);
    check_block(
        &rt,
        finished,
        &done,
        (8, Channel::Sdcch, 2, 1),
        [5, 0, 0, 0],
    );
}

// Half a hyperframe has 1,357,824 frames.
#[test]
fn a_refused_frame_changes_nothing(rt: HostRuntime) {
    let mut slot = receiver(&rt);
    let mut done = [[9; BURST_BITS]; 4];
    assert_eq!(rt;
        take(&mut slot, 4, &[1; BURST_BITS], 1, &mut done),
        Ok(None)
    );
    let before = slot;
    for (frame, refusal) in [
        (4, Refusal::Doubled),
        (3, Refusal::Late),
        (1_357_829, Refusal::Late),
        (2_715_648, Refusal::NoFrame),
    ] {
        assert_eq!(rt;
            take(&mut slot, frame, &[2; BURST_BITS], 1, &mut done),
            Err(refusal)
        );
        assert_eq!(rt; slot, before);
        assert_eq!(rt; done, [[9; BURST_BITS]; 4]);
    }
    slot.heard = 5;
    assert_eq!(rt;
        take(&mut slot, 5, &[0; BURST_BITS], 0, &mut done),
        Err(Refusal::Invalid)
    );
}
