//! LAPDm frames read and written, tested on values computed by hand.
use lapdm_frame::{
    BLOCK_OCTETS, Body, Channel, FrameView, Refusal, fill, fill_on, fits, fits_on, read, read_on,
    write, write_on,
};
use std::process::Abort;
use std::test::Fail;

// A block that begins with these octets and is filled up with `fill`.
fn block(first: &[u8], fill: u8) -> [u8; BLOCK_OCTETS] {
    let mut octets = [fill; BLOCK_OCTETS];
    for (place, octet) in octets.iter_mut().zip(first) {
        *place = *octet;
    }
    octets
}

fn view<'a>(sapi: u8, cr: bool, body: Body<'a>) -> FrameView<'a> {
    FrameView { sapi, cr, body }
}

const EMPTY_UI: Body<'static> = Body::Ui {
    p: false,
    info: &[],
};

// Checks what a block on SDCCH is read as.
fn check_read(
    rt: &impl Abort,
    octets: &[u8; BLOCK_OCTETS],
    expected: Result<FrameView<'_>, Refusal>,
) {
    assert_eq!(rt; read(octets), expected, "{octets:?}");
}

// Checks what a block on this channel is read as.
fn check_read_on(
    rt: &impl Abort,
    octets: &[u8; BLOCK_OCTETS],
    channel: Channel,
    expected: Result<FrameView<'_>, Refusal>,
) {
    assert_eq!(rt; read_on(octets, channel), expected);
}

const EMPTY_UI_WITHOUT_CR: FrameView<'static> = FrameView {
    sapi: 0,
    cr: false,
    body: EMPTY_UI,
};

const EMPTY_UI_WITH_CR: FrameView<'static> = FrameView {
    sapi: 0,
    cr: true,
    body: EMPTY_UI,
};

const RNR_WITH_CR: FrameView<'static> = FrameView {
    sapi: 0,
    cr: true,
    body: Body::Rnr { nr: 3, pf: true },
};

const EXAMPLE_BLOCKS: [([u8; 3], u8, Result<FrameView<'static>, Refusal>); 15] = [
    ([0x01, 0x03, 0x01], 0x2b, Ok(EMPTY_UI_WITHOUT_CR)),
    ([0x03, 0x03, 0x01], 0xff, Ok(EMPTY_UI_WITH_CR)),
    ([0x03, 0x75, 0x01], 0x2b, Ok(RNR_WITH_CR)),
    ([0x49, 0x06, 0x1b], 0x00, Err(Refusal::Lpd)),
    ([0x00, 0x00, 0x00], 0x00, Err(Refusal::Ea)),
    ([0x01, 0x0d, 0x01], 0x2b, Err(Refusal::Control)),
    ([0x01, 0x03, 0x00], 0x2b, Err(Refusal::El)),
    ([0x01, 0x00, 0x55], 0x2b, Err(Refusal::Length)),
    ([0x01, 0x01, 0x05], 0x2b, Err(Refusal::Length)),
    ([0x01, 0x00, 0x01], 0x2b, Err(Refusal::Empty)),
    ([0x01, 0x03, 0x03], 0x2b, Err(Refusal::More)),
    // If several reasons for refusal apply, the reader returns the first one that it tests.
    ([0x01, 0x0d, 0x00], 0x2b, Err(Refusal::Control)),
    ([0x01, 0x03, 0x57], 0x2b, Err(Refusal::Length)),
    ([0x01, 0x00, 0x03], 0x2b, Err(Refusal::Empty)),
    ([0x01, 0x01, 0x03], 0x2b, Err(Refusal::More)),
];

#[test]
fn reads_example_blocks(rt: HostRuntime) {
    for (first, fill, want) in EXAMPLE_BLOCKS {
        check_read(&rt, &block(&first, fill), want);
    }
}

#[test]
fn reads_an_i_frame_of_one_octet_with_m_1(rt: HostRuntime) {
    let octets = block(&[0x01, 0x00, 0x07, 0xaa], 0x2b);
    let body = Body::I {
        ns: 0,
        nr: 0,
        p: false,
        more: true,
        info: &[0xaa],
    };
    check_read(&rt, &octets, Ok(view(0, false, body)));
}

#[test]
fn reads_sacch_frames_after_the_layer_1_octets(rt: HostRuntime) {
    let long = block(&[0x00, 0x00, 0x03, 0x03, 0x55], 0x2b);
    check_read_on(&rt, &long, Channel::Sacch, Err(Refusal::Length));
    let other_layer_1 = block(&[0xff, 0xff, 0x01, 0x03, 0x01], 0x00);
    check_read_on(&rt, &other_layer_1, Channel::Sacch, Ok(EMPTY_UI_WITHOUT_CR));
}

fn assert_written_as(rt: &impl Abort, f: &FrameView<'_>, want: &[u8; BLOCK_OCTETS]) {
    assert!(rt; fits(f));
    assert_eq!(rt; write(f), *want);
}

#[test]
fn writes_example_frames(rt: HostRuntime) {
    let numbered = Body::I {
        ns: 5,
        nr: 2,
        p: true,
        more: false,
        info: &[0x06, 0x01],
    };
    assert_written_as(
        &rt,
        &view(0, false, numbered),
        &block(&[0x01, 0x5a, 0x09, 0x06, 0x01], 0x2b),
    );
    let ready = Body::Rr { nr: 7, pf: false };
    assert_written_as(
        &rt,
        &view(0, true, ready),
        &block(&[0x03, 0xe1, 0x01], 0x2b),
    );
    let empty = Body::I {
        ns: 0,
        nr: 0,
        p: false,
        more: false,
        info: &[],
    };
    assert!(rt; !fits(&view(0, false, empty)));
}

#[test]
fn writes_fill_frames_of_both_sides_on_both_channels(rt: HostRuntime) {
    for (cr, address) in [(true, 0x03), (false, 0x01)] {
        assert_eq!(rt; fill(cr), block(&[address, 0x03, 0x01], 0x2b), "{cr}");
        let on_sacch = block(&[0, 0, address, 0x03, 0x01], 0x2b);
        assert_eq!(rt; fill_on(cr, Channel::Sacch), on_sacch, "{cr}");
    }
}

fn encodes_only_this_frame(rt: &impl Abort, f: &FrameView<'_>, channel: Channel) {
    assert!(rt; fits_on(f, channel));
    check_read_on(rt, &write_on(f, channel), channel, Ok(*f));
}

fn read_back_with_both_cr_bits(rt: &impl Abort, bodies: &[Body<'_>], channel: Channel) {
    for body in bodies {
        encodes_only_this_frame(rt, &view(0, true, *body), channel);
        encodes_only_this_frame(rt, &view(7, false, *body), channel);
    }
}

#[test]
fn reads_back_every_numbered_kind(rt: HostRuntime) {
    let message = [0x5au8; 20];
    for channel in [Channel::Sdcch, Channel::Sacch] {
        let bodies = [
            Body::I {
                ns: 7,
                nr: 0,
                p: false,
                more: true,
                info: &message[..1],
            },
            Body::I {
                ns: 0,
                nr: 7,
                p: true,
                more: false,
                info: &message[..channel.n201()],
            },
            Body::Rr { nr: 1, pf: true },
            Body::Rnr { nr: 2, pf: false },
            Body::Rej { nr: 4, pf: true },
        ];
        read_back_with_both_cr_bits(&rt, &bodies, channel);
    }
}

#[test]
fn reads_back_every_unnumbered_kind(rt: HostRuntime) {
    let message = [0x5au8; 20];
    for channel in [Channel::Sdcch, Channel::Sacch] {
        let whole = &message[..channel.n201()];
        let bodies = [
            Body::Sabm { p: true, info: &[] },
            Body::Sabm {
                p: true,
                info: whole,
            },
            Body::Dm { f: true },
            Body::Ui { p: true, info: &[] },
            Body::Ui {
                p: false,
                info: whole,
            },
            Body::Disc { p: true },
            Body::Ua {
                f: false,
                info: &[],
            },
            Body::Ua {
                f: true,
                info: whole,
            },
        ];
        read_back_with_both_cr_bits(&rt, &bodies, channel);
    }
}

const REFUSAL_TEXTS: [(Refusal, &str); 7] = [
    (Refusal::Lpd, "bits 8 to 6 of the address octet are not 0"),
    (
        Refusal::Ea,
        "the EA bit of the address octet is 0, expected 1",
    ),
    (
        Refusal::Control,
        "the control octet belongs to no frame type",
    ),
    (
        Refusal::El,
        "the EL bit of the length octet is 0, expected 1",
    ),
    (
        Refusal::Length,
        "the length is above N201, or above 0 in a frame type without information",
    ),
    (
        Refusal::Empty,
        "an I frame has no information, expected at least one octet",
    ),
    (
        Refusal::More,
        "the M bit is 1, which only an I frame may have",
    ),
];

#[test]
fn each_refused_frame_has_its_text(rt: HostRuntime) -> Result<(), Fail> {
    for (refusal, text) in REFUSAL_TEXTS {
        let shown = format!(in rt.alloc(); "{refusal}")?;
        assert_eq!(rt; shown.as_str(), text);
    }
    Ok(())
}
