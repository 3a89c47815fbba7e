//! Reads frames from blocks.

ghost use Rattle.std.specs.Prelude.{◌≡◌, ◌⊎◌, ◌↔◌, IsTrue, IfSome, IfNone, IfOk, IfErr};
ghost use Rattle.lapdm_frame.specs.Content.{Content, content_of_body, frame_of_view, information, more_follows, borrowed_information};
ghost use Rattle.lapdm_frame.specs.Refusals.{IsControlOctetOf, IsInformationFrame, HasNoInformation};
ghost use Rattle.lapdm_frame.specs.Lengths.{IsLengthFault, HasNoLengthFault};
ghost use Rattle.lapdm_frame.specs.Readings.{IsOnlyEncodedFrame, IsOnlyRefusalReason, InformationIsBorrowed};

use crate::{Body, Channel, FrameView, Refusal};
use bit_blocks::BLOCK_OCTETS;

// Uses `more` and `info` only if the frame kind has these fields.
fn body_from_control<'a>(control: u8, more: bool, info: &'a [u8]) -> Option<Body<'a>>
    ensures known { IfSome result (λ body. IsControlOctetOf control (content_of_body body)) }
    ensures unknown { IfNone result ((content : Content) → ¬ IsControlOctetOf control content) }
    ensures carried { IfSome result
        (λ body. HasNoInformation (content_of_body body) ⊎ (information (content_of_body body) ≡ info.now)) }
    ensures borrowed { IfSome result
        (λ body. IfSome (borrowed_information body) (λ part. part.ref_ptr ≡ info.entry.ref_ptr)) }
    ensures goes_on { IfSome result
        (λ body. IsInformationFrame (content_of_body body) → more_follows (content_of_body body) ≡ more) }
{
    let nr = control / 32;
    let pf = control / 16 % 2 == 1;
    if control % 2 == 0 {
        let ns = control / 2 % 8;
        return Some(Body::I {
            ns,
            nr,
            p: pf,
            more,
            info,
        });
    }
    match control % 16 {
        1 => return Some(Body::Rr { nr, pf }),
        5 => return Some(Body::Rnr { nr, pf }),
        9 => return Some(Body::Rej { nr, pf }),
        _ => {}
    }
    match control {
        0x2f | 0x3f => Some(Body::Sabm { p: pf, info }),
        0x0f | 0x1f => Some(Body::Dm { f: pf }),
        0x03 | 0x13 => Some(Body::Ui { p: pf, info }),
        0x43 | 0x53 => Some(Body::Disc { p: pf }),
        0x63 | 0x73 => Some(Body::Ua { f: pf, info }),
        _ => None,
    }
}

fn is_information_frame(body: &Body<'_>) -> bool
    ensures { IsTrue result ↔ IsInformationFrame (content_of_body body.now) }
{
    matches!(*body, Body::I { .. })
}

fn has_no_information(body: &Body<'_>) -> bool
    ensures { IsTrue result ↔ HasNoInformation (content_of_body body.now) }
{
    match *body {
        Body::I { .. } | Body::Sabm { .. } | Body::Ui { .. } | Body::Ua { .. } => false,
        Body::Rr { .. }
        | Body::Rnr { .. }
        | Body::Rej { .. }
        | Body::Dm { .. }
        | Body::Disc { .. } => true,
    }
}

// A function of its own, with which the proof of `read_on` is much shorter.
fn length_fault(body: &Body<'_>, length: u8, max_length: usize) -> Option<Refusal>
    ensures fault { IfSome result (IsLengthFault max_length (content_of_body body.now) length) }
    ensures none { IfNone result (HasNoLengthFault max_length (content_of_body body.now) length) }
{
    let size = usize::from(length / 4);
    let more = length / 2 % 2 == 1;
    if length % 2 == 0 {
        return Some(Refusal::El);
    }
    if size > max_length {
        return Some(Refusal::Length);
    }
    if size > 0 && has_no_information(body) {
        return Some(Refusal::Length);
    }
    if size == 0 && is_information_frame(body) {
        return Some(Refusal::Empty);
    }
    if more && !is_information_frame(body) {
        return Some(Refusal::More);
    }
    None
}

/// Reads the frame in a block, or returns the first reason why the block is not a frame. Layer 1 octets and fill octets may have any value.
/// The information of the frame is borrowed from `octets`.
pub fn read_on<'a>(
    octets: &'a [u8; BLOCK_OCTETS],
    channel: Channel,
) -> Result<FrameView<'a>, Refusal>
    ensures frame { IfOk result (λ f. IsOnlyEncodedFrame channel (frame_of_view f) octets.now) }
    ensures borrowed { IfOk result (λ f. InformationIsBorrowed channel octets.entry f.body) }
    ensures refusal { IfErr result (λ reason. IsOnlyRefusalReason channel octets.now reason) }
{
    let start = channel.layer1_octet_count();
    let most = channel.n201();
    let address = octets[start];
    let length = octets[start + 2];
    let more = length / 2 % 2 == 1;
    let size = usize::from(length / 4);
    // Cut to N201, because `length_fault` tests the length later, after the control octet.
    let info = &octets[start + 3..start + 3 + size.min(most)];

    if address >= 32 {
        return Err(Refusal::Lpd);
    }
    if address % 2 == 0 {
        return Err(Refusal::Ea);
    }
    let Some(body) = body_from_control(octets[start + 1], more, info) else {
        return Err(Refusal::Control);
    };
    if let Some(reason) = length_fault(&body, length, most) {
        return Err(reason);
    }
    let sapi = address / 4;
    let cr = address / 2 % 2 == 1;
    Ok(FrameView { sapi, cr, body })
}

/// Reads the frame in an SDCCH block (see `read_on`).
pub fn read<'a>(octets: &'a [u8; BLOCK_OCTETS]) -> Result<FrameView<'a>, Refusal>
    ensures frame { IfOk result (λ f. IsOnlyEncodedFrame Channel.Sdcch (frame_of_view f) octets.now) }
    ensures borrowed { IfOk result (λ f. InformationIsBorrowed Channel.Sdcch octets.entry f.body) }
    ensures refusal { IfErr result (λ reason. IsOnlyRefusalReason Channel.Sdcch octets.now reason) }
{
    read_on(octets, Channel::Sdcch)
}
