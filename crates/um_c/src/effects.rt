//! The frames and notices of a call, in arrays of fixed size.
ghost use Rattle.std.specs.Prelude.{◌≡◌, ◌≤◌, ◌-◌, ◌++◌, map, length, replicate, slice_index_or};
ghost use Rattle.um_air.specs.segmenting.Segments.{max_message_octets};
ghost use Rattle.um_c.specs.Effects.{c_notice_of_fields, c_notice, c_effects, blank_notice, reason_number};

use lapdm_end::{Effects, MessageBuffer, Notice, Reason};
use lapdm_frame::BLOCK_OCTETS;

/// A notice that an endpoint reports to layer 3.
#[repr(C)]
#[derive(Clone, Copy, Drop)]
pub struct CNotice {
    /// The number of the acknowledged message, from 1; 0 in other notices.
    pub number: u64,
    /// The kind of the notice: 0 none, 1 opened (link established), 2 got (message received in I frames), 3 unit (message received in a UI
    /// frame), 4 acked (message acknowledged), 5 oversize (received message too long), 6 closed (link closed).
    pub kind: u8,
    /// Why the link was closed: 0 contention, 1 failed, 2 refused, 3 released; 0 in other notices.
    pub reason: u8,
    /// The octets that an opened, got or unit notice carries; empty in other notices.
    pub message: MessageBuffer,
}

/// The frames that a call sends and the notices that it reports, in order. Unused elements are zero.
#[repr(C)]
#[derive(Drop)]
pub struct CEffects {
    pub notices: [CNotice; 3],
    pub notice_count: u8,
    pub frame_count: u8,
    pub frames: [[u8; BLOCK_OCTETS]; 2],
}

pub(crate) fn write_effects(call_effects: &Effects, effects: &mut CEffects)
    ensures { effects.new ≡ c_effects call_effects.now.frames call_effects.now.notices }
{
    write_frames(call_effects.frames.as_slice(), &mut effects.frames);
    write_notices(call_effects.notices.as_slice(), &mut effects.notices);
    effects.frame_count = call_effects.frames.as_slice().len() as u8;
    effects.notice_count = call_effects.notices.as_slice().len() as u8;
}

fn write_frames(sent_frames: &[[u8; BLOCK_OCTETS]], c_frames: &mut [[u8; BLOCK_OCTETS]; 2])
    requires { length sent_frames.now ≤ 2 }
    ensures { c_frames.new ≡ sent_frames.now ++ replicate (2 - length sent_frames.now) (replicate BLOCK_OCTETS 0) }
{
    *c_frames = [[0; BLOCK_OCTETS]; 2];
    c_frames[..sent_frames.len()].copy_from_slice(sent_frames);
}

pub(crate) fn write_notices(reported_notices: &[Notice], notices: &mut [CNotice; 3])
    requires { length reported_notices.now ≤ 3 }
    ensures { notices.new ≡ map c_notice reported_notices.now ++ replicate (3 - length reported_notices.now) blank_notice }
{
    // Most calls report nothing, so an empty list has its own branch. The notices are written without a loop, so that the compiler sees
    // that a call that sends a fill frame reports nothing.
    if reported_notices.is_empty() {
        *notices = [blank_notice(); 3];
        return;
    }
    write_notice(reported_notices, 0, &mut notices[0]);
    write_notice(reported_notices, 1, &mut notices[1]);
    write_notice(reported_notices, 2, &mut notices[2]);
}

pub(crate) fn blank_notice() -> CNotice
    ensures { result ≡ blank_notice }
{
    CNotice {
        number: 0,
        kind: 0,
        reason: 0,
        message: MessageBuffer::empty(),
    }
}

/// Writes the notice with index `notice_index` to `place`, or zeros if there is none.
fn write_notice(reported_notices: &[Notice], notice_index: usize, place: &mut CNotice)
    ensures { place.new ≡ slice_index_or (map c_notice reported_notices.now) notice_index blank_notice }
{
    match reported_notices.get(notice_index) {
        None => place.write(0, 0, 0, &[]),
        Some(Notice::Opened(message)) => place.write(1, 0, 0, message.octets()),
        Some(Notice::Got(message)) => place.write(2, 0, 0, message.octets()),
        Some(Notice::Unit(message)) => place.write(3, 0, 0, message.octets()),
        Some(Notice::Acked(number)) => place.write(4, *number, 0, &[]),
        Some(Notice::Oversize) => place.write(5, 0, 0, &[]),
        Some(Notice::Closed(reason)) => place.write(6, 0, reason_number(*reason), &[]),
    }
}

impl CNotice {
    fn write(&mut self, kind: u8, number: u64, reason: u8, octets: &[u8])
        requires { length octets.now ≤ max_message_octets }
        ensures { self.new ≡ c_notice_of_fields kind number reason octets.now }
    {
        self.number = number;
        self.kind = kind;
        self.reason = reason;
        self.message.write(octets);
    }
}

fn reason_number(reason: Reason) -> u8
    ensures { result ≡ reason_number reason }
{
    reason as u8
}
