//! What a session with a network and a mobile refuses.
use std::test::Fail;
use um_link::{Air, Event, No, PlainRadio, Way, World};

#[test]
fn delivery_with_empty_queues_is_refused(rt: HostRuntime) {
    let mut radio = PlainRadio::new();
    let Ok(mut world) = World::new(rt.alloc(), 0) else {
        panic!(&rt; "out of memory")
    };
    let nothing = world.step(&mut radio, &Event::Air(Way::Up, Air::Deliver));
    assert!(rt; matches!(nothing, Err(No::Nothing)));
}

#[test]
fn each_refused_event_has_its_text(rt: HostRuntime) -> Result<(), Fail> {
    let texts = [
        (No::NotIdle, "the link was opened before"),
        (No::NotOpen, "the link is not open"),
        (
            No::NotRunning,
            "the timer T200 is not running: no frame awaits an answer",
        ),
        (
            No::Empty,
            "the message is empty, expected at least one octet",
        ),
        (
            No::TooLong,
            "the message is too long: more than 251 octets, or more than N201 in one frame",
        ),
        (
            No::Full,
            "eight messages are not wholly acknowledged, the most that a link holds",
        ),
        (No::Nothing, "no block is in transit in that direction"),
        (
            No::AirFull,
            "more than 62 blocks are in transit in the direction in which the event sends",
        ),
    ];
    for (refusal, text) in texts {
        let shown = format!(in rt.alloc(); "{refusal}")?;
        assert_eq!(rt; shown.as_str(), text);
    }
    Ok(())
}
