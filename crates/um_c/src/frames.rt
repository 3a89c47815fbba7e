//! C functions that read and write LAPDm frames.
ghost use Rattle.std.specs.Prelude.{◌≡◌, ◌≤◌, Some, None, false, length, MatchOption};
ghost use Rattle.lapdm_frame.specs.declared.Channel.{Channel as ChannelOf};
ghost use Rattle.lapdm_frame.specs.Content.{content_of_body, field_values_of_frame_fields, frame_of_view};
ghost use Rattle.lapdm_frame.specs.Frames.{FrameFits};
ghost use Rattle.um_c.specs.Plain.{channel_of, frame_refusal_number, c_struct, c_frame_of_fields, frame_from_fields, content_from_fields};
ghost use Rattle.um_c.specs.Plain.{IsFrameReadResult, IsFrameWriteResult};

use lapdm_frame::{
    BLOCK_OCTETS, Body, Channel, FrameFields, FrameView, Kind, Refusal, fits_on, read_on, write_on,
};

/// A frame, with every field that a frame of any kind may have.
#[repr(C)]
#[derive(Drop)]
pub struct CFrame {
    /// The frame kind: 0 I, 1 RR, 2 RNR, 3 REJ, 4 SABM, 5 DM, 6 UI, 7 DISC, 8 UA.
    pub kind: u8,
    /// The SAPI, 0 to 7.
    pub sapi: u8,
    /// The command/response bit. In all bit fields, any nonzero number counts as 1.
    pub cr: u8,
    /// The poll or final bit.
    pub pf: u8,
    /// N(S) of an I frame, 0 to 7.
    pub ns: u8,
    /// N(R) of an I, RR, RNR or REJ frame, 0 to 7.
    pub nr: u8,
    /// The M bit of an I frame: 1 if the message continues in the next I frame.
    pub more: u8,
    /// The number of octets of information, at most 20.
    pub count: u8,
    /// The information, followed by zeros.
    pub info: [u8; 20],
}

/// Reads the frame in a block of 23 octets on SDCCH (`channel` 0) or SACCH (1), and returns 0. If the block is not a frame, writes nothing
/// and returns the number of the reason, 1 to 7. Returns 8 for any other channel.
#[unsafe(no_mangle)]
pub extern "C" fn um_read_frame(octets: &[u8; BLOCK_OCTETS], channel: u8, frame: &mut CFrame) -> u32
    ensures { MatchOption (channel_of channel)
        ((result ≡ 8) × (frame.new ≡ frame.old))
        (λ known. IsFrameReadResult known octets.now result frame.old frame.new) }
{
    let Some(channel) = channel_of(channel) else {
        return 8;
    };
    match read_on(octets, channel) {
        Ok(view) => {
            *frame = c_frame_of_view(&view);
            0
        }
        Err(refusal) => frame_refusal_number(refusal),
    }
}

/// Writes the canonical block of a frame. Returns false, and writes nothing, if the fields do not describe a frame that fits in a block of
/// the channel.
#[unsafe(no_mangle)]
pub extern "C" fn um_write_frame(
    frame: &CFrame,
    channel: u8,
    octets: &mut [u8; BLOCK_OCTETS],
) -> bool
    ensures { MatchOption (channel_of channel)
        ((result ≡ false) × (octets.new ≡ octets.old))
        (λ known. IsFrameWriteResult known (frame_from_fields frame.now) result octets.old octets.new) }
{
    let Some(channel) = channel_of(channel) else {
        return false;
    };
    let Some(view) = frame_view_of_c_frame(frame) else {
        return false;
    };
    if !fits_on(&view, channel) {
        return false;
    }
    *octets = write_on(&view, channel);
    true
}

/// The channel with this number: 0 SDCCH, 1 SACCH, `None` for any other number.
pub(crate) fn channel_of(number: u8) -> Option<Channel>
    ensures { result ≡ channel_of number }
{
    match number {
        0 => Some(Channel::Sdcch),
        1 => Some(Channel::Sacch),
        _ => None,
    }
}

fn frame_refusal_number(refusal: Refusal) -> u32
    ensures { result ≡ frame_refusal_number refusal }
{
    refusal as u32 + 1
}

/// Converts the frame, which must fit in a block, to a C struct.
#[tactic(auto, using(lapdm_frame::proofs::Lemmas::few_octets))]
fn c_frame_of_view(view: &FrameView<'_>) -> CFrame
    requires { (channel : ChannelOf) × FrameFits channel (frame_of_view view.now) }
    ensures { result ≡ c_struct (frame_of_view view.now) }
{
    c_frame_of_fields(view.sapi, view.cr, &view.body.fields())
}

fn c_frame_of_fields(sapi: u8, cr: bool, fields: &FrameFields<'_>) -> CFrame
    requires { length fields.now.info.now ≤ 20 }
    ensures { result ≡ c_frame_of_fields sapi cr (field_values_of_frame_fields fields.now) }
{
    let mut info = [0; 20];
    info[..fields.info.len()].copy_from_slice(fields.info);
    CFrame {
        kind: fields.kind.number(),
        sapi,
        cr: u8::from(cr),
        pf: u8::from(fields.pf),
        ns: fields.ns,
        nr: fields.nr,
        more: u8::from(fields.more),
        count: fields.info.len() as u8,
        info,
    }
}

/// The frame that the fields describe, whether or not it fits in a block, or `None` if they describe none.
fn frame_view_of_c_frame(frame: &CFrame) -> Option<FrameView<'_>>
    ensures { MatchOption result (frame_from_fields frame.now ≡ None)
        (λ view. frame_from_fields frame.now ≡ Some (frame_of_view view)) }
{
    if frame.count > 20 {
        return None;
    }
    Some(FrameView {
        sapi: frame.sapi,
        cr: frame.cr != 0,
        body: body_of_c_frame(frame)?,
    })
}

fn body_of_c_frame(frame: &CFrame) -> Option<Body<'_>>
    requires { frame.now.count ≤ 20 }
    ensures { MatchOption result (content_from_fields frame.now ≡ None) (λ body. content_from_fields frame.now ≡
        Some (content_of_body body)) }
{
    let kind = Kind::from_number(frame.kind)?;
    let fields = FrameFields {
        kind,
        ns: frame.ns,
        nr: frame.nr,
        pf: frame.pf != 0,
        more: frame.more != 0,
        info: &frame.info[..usize::from(frame.count)],
    };
    let body = fields.body();
    if body.fields().info.len() == usize::from(frame.count) {
        Some(body)
    } else {
        None
    }
}
