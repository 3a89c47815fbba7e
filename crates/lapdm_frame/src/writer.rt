//! Writes frames to blocks.

ghost use Rattle.std.specs.Prelude.{◌≡◌, ◌≤◌, ◌↔◌, IsTrue, length};
ghost use Rattle.lapdm_frame.specs.Layout.{n201, largest_n201};
ghost use Rattle.lapdm_frame.specs.Content.{content_of_body, frame_of_view, information, more_follows, fill_frame};
ghost use Rattle.lapdm_frame.specs.Frames.{address_octet, control_octet, length_octet, NsAndNrFit, InformationFits, FrameFits, octets_of};
ghost use Rattle.lapdm_frame.specs.Readings.{IsOnlyCanonicalCoding};

use crate::{Body, Channel, FrameView};
use bit_blocks::BLOCK_OCTETS;

const FILL_OCTET: u8 = 0x2b;

fn information_of<'a>(body: &Body<'a>) -> &'a [u8]
    ensures { result.now ≡ information (content_of_body body.now) }
{
    match *body {
        Body::I { info, .. }
        | Body::Sabm { info, .. }
        | Body::Ui { info, .. }
        | Body::Ua { info, .. } => info,
        Body::Rr { .. }
        | Body::Rnr { .. }
        | Body::Rej { .. }
        | Body::Dm { .. }
        | Body::Disc { .. } => &[],
    }
}

fn address_octet_of(frame: &FrameView<'_>) -> u8
    requires { frame.now.sapi ≤ 7 }
    ensures { result ≡ address_octet (frame_of_view frame.now) }
{
    4 * frame.sapi + 2 * u8::from(frame.cr) + 1
}

fn ns_and_nr_fit(body: &Body<'_>) -> bool
    ensures { IsTrue result ↔ NsAndNrFit (content_of_body body.now) }
{
    match *body {
        Body::I { ns, nr, .. } => ns <= 7 && nr <= 7,
        Body::Rr { nr, .. } | Body::Rnr { nr, .. } | Body::Rej { nr, .. } => nr <= 7,
        _ => true,
    }
}

fn control_octet_of(body: &Body<'_>) -> u8
    requires { NsAndNrFit (content_of_body body.now) }
    ensures { result ≡ control_octet (content_of_body body.now) }
{
    match *body {
        Body::I { ns, nr, p, .. } => 32 * nr + 16 * u8::from(p) + 2 * ns,
        Body::Rr { nr, pf } => 32 * nr + 16 * u8::from(pf) + 1,
        Body::Rnr { nr, pf } => 32 * nr + 16 * u8::from(pf) + 5,
        Body::Rej { nr, pf } => 32 * nr + 16 * u8::from(pf) + 9,
        Body::Sabm { p, .. } => 16 * u8::from(p) + 47,
        Body::Dm { f } => 16 * u8::from(f) + 15,
        Body::Ui { p, .. } => 16 * u8::from(p) + 3,
        Body::Disc { p } => 16 * u8::from(p) + 67,
        Body::Ua { f, .. } => 16 * u8::from(f) + 99,
    }
}

fn length_octet_of(body: &Body<'_>) -> u8
    requires { length (information (content_of_body body.now)) ≤ largest_n201 }
    ensures { result ≡ length_octet (content_of_body body.now) }
{
    let more = matches!(*body, Body::I { more: true, .. });
    4 * information_of(body).len() as u8 + 2 * u8::from(more) + 1
}

/// Returns whether the frame can be written on the channel: its SAPI, N(S) and N(R) must be at most 7, an I frame must have information,
/// and the information must have at most N201 octets.
pub fn fits_on(f: &FrameView<'_>, channel: Channel) -> bool
    ensures { IsTrue result ↔ FrameFits channel (frame_of_view f.now) }
{
    let size = information_of(&f.body).len();
    let least = if matches!(f.body, Body::I { .. }) {
        1
    } else {
        0
    };
    f.sapi <= 7 && ns_and_nr_fit(&f.body) && least <= size && size <= channel.n201()
}

/// Writes the canonical block of the frame: on SACCH it begins with two layer 1 octets 00; fill octets 2b follow the information.
pub fn write_on(f: &FrameView<'_>, channel: Channel) -> [u8; BLOCK_OCTETS]
    requires { FrameFits channel (frame_of_view f.now) }
    ensures octets { result ≡ octets_of channel (frame_of_view f.now) }
    ensures canonical { IsOnlyCanonicalCoding channel (frame_of_view f.now) result }
{
    let mut octets = [FILL_OCTET; BLOCK_OCTETS];
    let start = channel.layer1_octet_count();
    octets[..start].fill(0);
    octets[start] = address_octet_of(f);
    octets[start + 1] = control_octet_of(&f.body);
    octets[start + 2] = length_octet_of(&f.body);
    let info = information_of(&f.body);
    octets[start + 3..start + 3 + info.len()].copy_from_slice(info);
    octets
}

/// Writes the fill frame of GSM 04.06, a UI frame of SAPI 0 without information. If `cr` is true, writes the fill frame of the network,
/// otherwise that of the mobile.
pub fn fill_on(cr: bool, channel: Channel) -> [u8; BLOCK_OCTETS]
    ensures octets { result ≡ octets_of channel (fill_frame cr) }
    ensures canonical { IsOnlyCanonicalCoding channel (fill_frame cr) result }
{
    let body = Body::Ui {
        p: false,
        info: &[],
    };
    write_on(&FrameView { sapi: 0, cr, body }, channel)
}

/// Returns whether the frame can be written on SDCCH (see `fits_on`).
pub fn fits(f: &FrameView<'_>) -> bool
    ensures { IsTrue result ↔ FrameFits Channel.Sdcch (frame_of_view f.now) }
{
    fits_on(f, Channel::Sdcch)
}

/// Writes the canonical SDCCH block of the frame (see `write_on`).
pub fn write(f: &FrameView<'_>) -> [u8; BLOCK_OCTETS]
    requires { FrameFits Channel.Sdcch (frame_of_view f.now) }
    ensures octets { result ≡ octets_of Channel.Sdcch (frame_of_view f.now) }
    ensures canonical { IsOnlyCanonicalCoding Channel.Sdcch (frame_of_view f.now) result }
{
    write_on(f, Channel::Sdcch)
}

/// Writes the fill frame to an SDCCH block (see `fill_on`).
pub fn fill(cr: bool) -> [u8; BLOCK_OCTETS]
    ensures octets { result ≡ octets_of Channel.Sdcch (fill_frame cr) }
    ensures canonical { IsOnlyCanonicalCoding Channel.Sdcch (fill_frame cr) result }
{
    fill_on(cr, Channel::Sdcch)
}
