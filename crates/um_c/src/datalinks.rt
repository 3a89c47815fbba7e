//! C functions for a data link: one side of a channel with its loop. The caller holds the state.
ghost use Rattle.std.specs.Prelude.{ℕ, Bool, ◌≡◌, ◌↔◌, ◌≤◌, ◌==◌, ◌&&◌, ◌||◌, ◌-◌, ◌++◌};
ghost use Rattle.std.specs.Prelude.{List, not, length, replicate, if◌then◌else◌, Some, None, true, false, IsTrue, MatchOption};
ghost use Rattle.std.specs.Option.{unwrap_or, is_none};
ghost use Rattle.lapdm_frame.specs.declared.Channel.{Channel as ChannelOf};
ghost use Rattle.lapdm_frame.specs.Content.{fill_frame, frame_of_view, content_of_body};
ghost use Rattle.lapdm_frame.specs.Frames.{octets_of, bit_of_bool, FrameFits};
ghost use Rattle.um_air.specs.lapdm_window.declared.Sapi.{Sapi as SapiOf};
ghost use Rattle.um_air.specs.lapdm_window.declared.Sapi.TheVariants as P;
ghost use Rattle.um_air.specs.lapdm_window.declared.Notice.TheVariants.{Closed};
ghost use Rattle.um_air.specs.lapdm_window.declared.Reason.TheVariants.{Failed};
ghost use Rattle.um_air.specs.lapdm_window.Ends.{command_cr, Role as SpecRole};
ghost use Rattle.um_air.specs.lapdm_link.Claims.{Claims, AckedAtMostDelivered, HasNoticesInOrder};
ghost use Rattle.lapdm_end.specs.Addresses.{spec_role_of};
ghost use Rattle.lapdm_datalink.specs.Links.{LinkState};
ghost use Rattle.lapdm_datalink.specs.DataLinks.{DataLinkState, holds_up_sapi3, is_ui, with_clocks_moved};
ghost use Rattle.lapdm_datalink.specs.Abstraction.{notices_if};
ghost use Rattle.lapdm_datalink.specs.declared.data_links.Establishment.{Establishment as KindOf};
ghost use Rattle.lapdm_datalink.specs.declared.data_links.Establishment.TheVariants.{Contention};
ghost use Rattle.lapdm_datalink.specs.Parts.{acts_in_slot, values_of_parts, IsWritable, data_link_values_of, data_link_values_of_parts};
ghost use Rattle.lapdm_datalink.specs.Outlooks.{IsOutlook};
ghost use Rattle.lapdm_delivery.specs.Runs.{log_of_link};
ghost use Rattle.um_c.specs.declared.datalinks.CDataLink.{CDataLink as Struct};
ghost use Rattle.um_c.specs.declared.datalinks.CTimedEnd.{CTimedEnd as LinkStruct};
ghost use Rattle.um_c.specs.Plain.{channel_of, is_nonzero};
ghost use Rattle.um_c.specs.States.{role_of, sapi_number};
ghost use Rattle.um_c.specs.Effects.{c_notice};
ghost use Rattle.um_c.specs.DataLinkRuns.{PairState, PairStep, IsPairStart, IsPairRun, pair_log};
ghost use Rattle.um_c.specs.DataLinkCalls.{
  answer_from,
  link_values_from,
  data_link_values_from,
  RepresentsDataLink,
  IsWrittenFor,
  RepresentsSomeDataLink,
  c_timed_end,
  c_data_link,
  c_report,
  reports_of,
  reports_if_taken,
  WritesDataLinkIfValid,
  establishment_of,
  DataLinkReceivesBlock,
  RepresentsLink,
  IsCanonicalLink,
  IsWrittenOver,
  counted,
  with_clocks_counted,
  IsRead,
  IsSeen,
  IsLinkSeen,
  IsLinkRead,
  LinkTakesFrame,
  LinkUsesSlot,
  SlotIsFilled,
  FrameIsPassed,
  is_empty_ui,
  with_layer1,
  DataLinkFillsSlot,
};

use crate::effects::{CNotice, blank_notice, write_notices};
use crate::ends::{INVALID_ENDPOINT, INVALID_FRAME};
use crate::frames::channel_of;
use crate::states::{CEndpoint, endpoint_view_of, role_of, write_endpoint_view};
use lapdm_datalink::{
    DataLink, DataLinkView, Establishment, Link, LinkOutlook, LinkSlot, LinkView, Outlook, Slot,
    any_on_sapi0, holds_up_sapi3,
};
use lapdm_end::{Effects, MessageBuffer, Notice, Role, Sapi};
use lapdm_frame::{BLOCK_OCTETS, Body, Channel, FrameView, read_on};

pub(crate) const SLOT_IS_FREE: u32 = 10;

const MOBILE_FILL_ON_SDCCH: [u8; BLOCK_OCTETS] = [
    0x01, 0x03, 0x01, 0x2b, 0x2b, 0x2b, 0x2b, 0x2b, 0x2b, 0x2b, 0x2b, 0x2b, 0x2b, 0x2b, 0x2b, 0x2b,
    0x2b, 0x2b, 0x2b, 0x2b, 0x2b, 0x2b, 0x2b,
];

const NETWORK_FILL_ON_SDCCH: [u8; BLOCK_OCTETS] = [
    0x03, 0x03, 0x01, 0x2b, 0x2b, 0x2b, 0x2b, 0x2b, 0x2b, 0x2b, 0x2b, 0x2b, 0x2b, 0x2b, 0x2b, 0x2b,
    0x2b, 0x2b, 0x2b, 0x2b, 0x2b, 0x2b, 0x2b,
];

const MOBILE_FILL_ON_SACCH: [u8; BLOCK_OCTETS] = [
    0x00, 0x00, 0x01, 0x03, 0x01, 0x2b, 0x2b, 0x2b, 0x2b, 0x2b, 0x2b, 0x2b, 0x2b, 0x2b, 0x2b, 0x2b,
    0x2b, 0x2b, 0x2b, 0x2b, 0x2b, 0x2b, 0x2b,
];

const NETWORK_FILL_ON_SACCH: [u8; BLOCK_OCTETS] = [
    0x00, 0x00, 0x03, 0x03, 0x01, 0x2b, 0x2b, 0x2b, 0x2b, 0x2b, 0x2b, 0x2b, 0x2b, 0x2b, 0x2b, 0x2b,
    0x2b, 0x2b, 0x2b, 0x2b, 0x2b, 0x2b, 0x2b,
];

/// The state of one link of a data link.
#[repr(C)]
#[derive(Drop)]
pub struct CTimedEnd {
    pub end: CEndpoint,
    /// T200 in slots, not 0.
    pub t200: u8,
    /// Whether the frame that awaits an answer was sent.
    pub sent: u8,
    /// The slots until that frame is due, at most `t200`.
    pub clock: u8,
    /// Whether `answer` waits for its slot.
    pub owed: u8,
    /// The block of a UA, DM, RR or REJ; zeros if none is owed.
    pub answer: [u8; BLOCK_OCTETS],
    /// Whether an I, RR, RNR or REJ was received in Open: a SABM opens the link again from then on.
    pub heard: u8,
}

/// The state of a data link.
#[repr(C)]
#[derive(Drop)]
pub struct CDataLink {
    /// The link of SAPI 0.
    pub link0: CTimedEnd,
    /// The link of SAPI 3.
    pub link3: CTimedEnd,
    /// Whether a frame of SAPI 0 other than UI was received since the last slot.
    pub heard0: u8,
    /// On SACCH, whether the link of SAPI 0 on the main channel is established.
    pub main: u8,
}

/// The notices that a data link reports, in order, each with its SAPI. Unused elements are zero.
#[repr(C)]
#[derive(Drop)]
pub struct CReport {
    pub notices: [CNotice; 3],
    pub sapis: [u8; 3],
    pub notice_count: u8,
}

/// Law: two structs that calls wrote for the same data link are equal, octet by octet. A call that writes only the links that act keeps a
/// struct in the form of a new one, and so does counting a slot.
pub fn law_equal_data_links_have_equal_structs()
    ensures equal { (a b : Struct) (s : DataLinkState) → IsWrittenFor s a → IsWrittenFor s b → a ≡ b }
    ensures links { (a : Struct) (s : DataLinkState) → IsWrittenFor s a → IsCanonicalLink a.link0 × IsCanonicalLink a.link3 }
    ensures kept { (before after : Struct) (acts : SapiOf → Bool) (s : DataLinkState) → IsCanonicalLink before.link0
        → IsCanonicalLink before.link3 → IsWrittenOver before acts s after → IsWrittenFor s after }
    ensures counts { (is_stopped : Bool) (c : LinkStruct) → IsCanonicalLink c → IsCanonicalLink (counted is_stopped c) }
{}

/// Law: in a program that connects two new data links, makes no end anew and opens no link again, in which each side takes the oldest block
/// in transit to it or the other side's fill frame, messages are delivered in order and before they are acknowledged, and each link is
/// closed at most once. With normal establishment of SAPI 0 that holds of the log of each link, which tells of it as of one of SAPI 3.
pub fn law_joined_data_links_deliver_in_order()
    ensures delivery { (channel : ChannelOf) (t200 : SpecRole → SapiOf → ℕ) (a z : PairState) (steps : List PairStep)
        → IsPairStart channel Contention t200 a → IsPairRun a steps z → Claims (pair_log steps) }
    ensures acked_at_most_delivered { (channel : ChannelOf) (t200 : SpecRole → SapiOf → ℕ) (a z : PairState) (steps : List PairStep)
        → IsPairStart channel Contention t200 a → IsPairRun a steps z → AckedAtMostDelivered (pair_log steps) }
    ensures order { (channel : ChannelOf) (t200 : SpecRole → SapiOf → ℕ) (a z : PairState) (steps : List PairStep)
        → IsPairStart channel Contention t200 a → IsPairRun a steps z → HasNoticesInOrder (pair_log steps) }
    ensures links { (channel : ChannelOf) (e : KindOf) (t200 : SpecRole → SapiOf → ℕ) (a z : PairState) (steps : List PairStep)
        → IsPairStart channel e t200 a → IsPairRun a steps z → (sapi : SapiOf) → (let log = log_of_link e sapi (pair_log steps) in
        Claims log × AckedAtMostDelivered log × HasNoticesInOrder log) }
{}

fn answer_of(c_struct: &CTimedEnd) -> Option<[u8; BLOCK_OCTETS]>
    ensures { result ≡ answer_from c_struct.now.owed c_struct.now.answer }
{
    if c_struct.owed == 0 {
        return None;
    }
    Some(c_struct.answer)
}

// Inlined, so that a view whose fields are tested at once is never written.
#[inline(always)]
pub(crate) fn link_view_of(c_struct: &CTimedEnd) -> Option<LinkView<'_>>
    ensures { MatchOption result (link_values_from c_struct.now ≡ None)
        (λ parts. link_values_from c_struct.now ≡ Some (values_of_parts parts)) }
{
    let endpoint = endpoint_view_of(&c_struct.end)?;
    Some(LinkView {
        endpoint,
        t200: c_struct.t200,
        answer: answer_of(c_struct),
        is_sent: c_struct.sent != 0,
        clock: c_struct.clock,
        heard: c_struct.heard != 0,
    })
}

fn data_link_view_of(data_link: &CDataLink) -> Option<DataLinkView<'_>>
    ensures { MatchOption result (data_link_values_from data_link.now ≡ None)
        (λ parts. data_link_values_from data_link.now ≡ Some (data_link_values_of_parts parts)) }
{
    let link0 = link_view_of(&data_link.link0)?;
    let link3 = link_view_of(&data_link.link3)?;
    Some(DataLinkView {
        link0,
        link3,
        heard_sapi0: data_link.heard0 != 0,
        is_main_established: data_link.main != 0,
    })
}

/// Reads the data link that the struct represents into `held`, and returns whether it represents one. It is restored in place: a function
/// fills all its room with zeros first, so a data link that is handed on by value is filled and copied again.
pub(crate) fn read_data_link(data_link: &CDataLink, held: &mut DataLink) -> bool
    ensures read { IsTrue result → IsRead data_link.now held.new }
    ensures none { result ≡ false → RepresentsSomeDataLink data_link.now → ⊥ }
{
    match data_link_view_of(data_link) {
        Some(parts) => held.restore(&parts),
        None => false,
    }
}

fn write_link(parts: &LinkView<'_>, c_struct: &mut CTimedEnd)
    requires { IsWritable parts.now }
    ensures { c_struct.new ≡ c_timed_end (values_of_parts parts.now) }
{
    write_endpoint_view(&parts.endpoint, &mut c_struct.end);
    c_struct.t200 = parts.t200;
    c_struct.sent = u8::from(parts.is_sent);
    c_struct.clock = parts.clock;
    c_struct.heard = u8::from(parts.heard);
    match parts.answer {
        None => {
            c_struct.owed = 0;
            c_struct.answer = [0; BLOCK_OCTETS];
        }
        Some(block) => {
            c_struct.owed = 1;
            c_struct.answer = block;
        }
    }
}

pub(crate) fn write_data_link(held: &DataLink, data_link: &mut CDataLink)
    ensures { data_link.new ≡ c_data_link (data_link_values_of held.now) }
{
    let parts = held.parts();
    write_link(&parts.link0, &mut data_link.link0);
    write_link(&parts.link3, &mut data_link.link3);
    data_link.heard0 = u8::from(parts.heard_sapi0);
    data_link.main = u8::from(parts.is_main_established);
}

/// Returns the kind of establishment with this number.
fn establishment_of(number: u8) -> Option<Establishment>
    ensures { result ≡ establishment_of number }
{
    match number {
        0 => Some(Establishment::Contention),
        1 => Some(Establishment::Normal),
        _ => None,
    }
}

/// Writes the state of a new data link, with T200 of SAPI 0 and of SAPI 3 in slots; SAPI 0 is established with contention resolution.
/// Returns false, and writes nothing, if the role or channel is invalid or a T200 is 0.
#[unsafe(no_mangle)]
pub extern "C" fn um_datalink_new(
    data_link: &mut CDataLink,
    role: u8,
    channel: u8,
    t200: u8,
    t200_sapi3: u8,
) -> bool
    ensures { WritesDataLinkIfValid (role_of role) (channel_of channel) (Some Contention) t200 t200_sapi3
        (not (t200 == 0) && not (t200_sapi3 == 0)) result data_link.old data_link.new }
{
    um_datalink_new_for(data_link, role, channel, 0, t200, t200_sapi3)
}

/// Writes the state of a new data link, with T200 of SAPI 0 and of SAPI 3 in slots; SAPI 0 is established with contention resolution (0),
/// or without information by either side (1). Returns false, and writes nothing, if the role, channel or kind of establishment is invalid
/// or a T200 is 0.
#[unsafe(no_mangle)]
pub extern "C" fn um_datalink_new_for(
    data_link: &mut CDataLink,
    role: u8,
    channel: u8,
    establishment: u8,
    t200: u8,
    t200_sapi3: u8,
) -> bool
    ensures { WritesDataLinkIfValid (role_of role) (channel_of channel) (establishment_of establishment) t200 t200_sapi3
        (not (t200 == 0) && not (t200_sapi3 == 0)) result data_link.old data_link.new }
{
    let Some(role) = role_of(role) else {
        return false;
    };
    let Some(channel) = channel_of(channel) else {
        return false;
    };
    let Some(establishment) = establishment_of(establishment) else {
        return false;
    };
    // Two `if`s, since the prover takes `||` badly in a function with many exits.
    if t200 == 0 {
        return false;
    }
    if t200_sapi3 == 0 {
        return false;
    }
    let held = DataLink::new_on(role, channel, establishment, t200, t200_sapi3);
    write_data_link(&held, data_link);
    true
}

/// Returns whether the struct represents a data link.
#[unsafe(no_mangle)]
pub extern "C" fn um_datalink_valid(data_link: &CDataLink) -> bool
    ensures { IsTrue result ↔ RepresentsSomeDataLink data_link.now }
{
    match look_ahead(data_link) {
        Some(_) => true,
        None => false,
    }
}

/// Processes a received block. Returns 0, 7 if the struct represents no data link, or 9 if the block encodes no frame.
#[unsafe(no_mangle)]
pub extern "C" fn um_datalink_take(
    data_link: &mut CDataLink,
    octets: &[u8; BLOCK_OCTETS],
    report: &mut CReport,
) -> u32
    ensures { DataLinkReceivesBlock octets.now result data_link.old data_link.new report.old report.new }
{
    let Some(seen) = look_ahead(data_link) else {
        return INVALID_ENDPOINT;
    };
    let Ok(frame) = read_on(octets, seen.channel) else {
        return INVALID_FRAME;
    };
    // Most blocks are fill frames, which change no link and report nothing: for them no effects are filled with zeros.
    if is_empty_ui(&frame.body) {
        hear(&frame, data_link);
        write_taken(None, &[], report);
        return 0;
    }
    let mut effects = Effects::new();
    let sapi = seen.sapi_for(&frame);
    pass_frame(sapi, &frame, &mut effects, data_link);
    hear(&frame, data_link);
    write_taken(sapi, effects.notices.as_slice(), report);
    0
}

/// Tests both links in the struct, and returns what the next slot and the next frame need to know, or `None` if it represents no data link.
/// No link is restored: in most slots none acts.
pub(crate) fn look_ahead(data_link: &CDataLink) -> Option<Outlook>
    ensures { MatchOption result (RepresentsSomeDataLink data_link.now → ⊥) (IsSeen data_link.now) }
{
    let link0 = see_link(&data_link.link0, false)?;
    let link3 = see_link(&data_link.link3, data_link.heard0 != 0)?;
    Outlook::of_links(&link0, &link3, data_link.main != 0)
}

/// Tests the link in the struct, and returns what its data link needs to know of it, or `None` if it represents no link.
fn see_link(c_struct: &CTimedEnd, is_stopped: bool) -> Option<LinkOutlook>
    ensures { MatchOption result ((l : LinkState) → RepresentsLink c_struct.now l → ⊥) (IsLinkSeen is_stopped c_struct.now) }
{
    match link_view_of(c_struct) {
        Some(parts) => parts.outlook(is_stopped),
        None => None,
    }
}

/// Reads the link that the struct represents into `held`, in place, and returns whether it represents one.
fn read_link(c_struct: &CTimedEnd, held: &mut Link) -> bool
    ensures read { IsTrue result → IsLinkRead c_struct.now held.new }
    ensures none { result ≡ false → (l : LinkState) → RepresentsLink c_struct.now l → ⊥ }
{
    match link_view_of(c_struct) {
        Some(parts) => held.restore_any(&parts),
        None => false,
    }
}

/// Keeps in mind whether a received frame took the slot of an answer on SAPI 3.
fn hear(frame: &FrameView<'_>, data_link: &mut CDataLink)
    ensures { data_link.new ≡ record data_link.old {
      heard0 = bit_of_bool (is_nonzero data_link.old.heard0 || holds_up_sapi3 (frame_of_view frame.now));
      main = bit_of_bool (is_nonzero data_link.old.main);
    } }
{
    let heard = data_link.heard0 != 0 || holds_up_sapi3(frame);
    data_link.heard0 = u8::from(heard);
    data_link.main = u8::from(data_link.main != 0);
}

/// Passes a frame to the link with this SAPI, if any, and writes this link if the frame may change it.
fn pass_frame(
    sapi: Option<Sapi>,
    frame: &FrameView<'_>,
    effects: &mut Effects,
    data_link: &mut CDataLink,
)
    requires some { RepresentsSomeDataLink data_link.old }
    requires fits { (s : DataLinkState) → RepresentsDataLink data_link.old s
        → FrameFits s.link0.endpoint.channel (frame_of_view frame.now) }
    ensures { (s : DataLinkState) → RepresentsDataLink data_link.old s
        → FrameIsPassed sapi (frame_of_view frame.now) s data_link.old data_link.new effects.new.notices }
{
    match sapi {
        None => {}
        Some(Sapi::Zero) => pass_frame_to(&mut data_link.link0, frame, effects),
        Some(Sapi::Three) => pass_frame_to(&mut data_link.link3, frame, effects),
    }
}

/// Passes a frame to the link in the struct, and writes it, but for a UI frame, which changes no link.
fn pass_frame_to(c_struct: &mut CTimedEnd, frame: &FrameView<'_>, effects: &mut Effects)
    requires { (l : LinkState) → RepresentsLink c_struct.old l → FrameFits l.endpoint.channel (frame_of_view frame.now) }
    ensures { (l : LinkState) → RepresentsLink c_struct.old l
        → LinkTakesFrame (frame_of_view frame.now) l c_struct.old c_struct.new effects.new.notices }
{
    let mut held = Link::new_on(Role::Mobile, Sapi::Zero, Channel::Sdcch, 1);
    if !read_link(c_struct, &mut held) {
        return;
    }
    held.receive(frame, effects);
    if is_ui(&frame.body) {
        return;
    }
    write_link(&held.parts(), c_struct);
}

/// Returns whether this is the body of a UI frame without information, such as the fill frame.
fn is_empty_ui(body: &Body<'_>) -> bool
    ensures { result ≡ is_empty_ui (content_of_body body.now) }
{
    match body {
        Body::Ui { info, .. } => info.is_empty(),
        _ => false,
    }
}

/// Returns whether this is the body of a UI frame.
fn is_ui(body: &Body<'_>) -> bool
    ensures { result ≡ is_ui (content_of_body body.now) }
{
    match body {
        Body::Ui { .. } => true,
        _ => false,
    }
}

/// Writes the notices of the link that took a frame, or none if the frame was dropped.
fn write_taken(sapi: Option<Sapi>, notices: &[Notice], report: &mut CReport)
    requires { length notices.now ≤ 3 }
    ensures { report.new ≡ c_report (reports_if_taken sapi notices.now) }
{
    match sapi {
        None => write_notices_of(Sapi::Zero, &[], report),
        Some(sapi) => write_notices_of(sapi, notices, report),
    }
}

fn write_notices_of(sapi: Sapi, notices: &[Notice], report: &mut CReport)
    requires { length notices.now ≤ 3 }
    ensures { report.new ≡ c_report (reports_of sapi notices.now) }
{
    write_notices(notices, &mut report.notices);
    report.sapis = sapis_of(sapi, notices.len());
    report.notice_count = notices.len() as u8;
}

/// Returns the SAPI of each of these notices, then zeros.
fn sapis_of(sapi: Sapi, count: usize) -> [u8; 3]
    requires { count ≤ 3 }
    ensures { result ≡ replicate count (sapi_number sapi) ++ replicate (3 - count) 0 }
{
    let number = match sapi {
        Sapi::Zero => 0,
        Sapi::Three => 3,
    };
    match count {
        0 => [0, 0, 0],
        1 => [number, 0, 0],
        2 => [number, number, 0],
        _ => [number, number, number],
    }
}

/// Returns the block with these layer 1 octets, which a block of SACCH alone has.
pub(crate) fn with_layer1(
    channel: Channel,
    layer1: &[u8; 2],
    block: [u8; BLOCK_OCTETS],
) -> [u8; BLOCK_OCTETS]
    ensures { result ≡ with_layer1 channel layer1.now block }
{
    match channel {
        Channel::Sdcch => block,
        Channel::Sacch => {
            let mut with = block;
            with[0] = layer1[0];
            with[1] = layer1[1];
            with
        }
    }
}

/// Writes the block for this slot. Returns 0 for a frame of the links, 10 for the fill frame, and 7 if the struct represents no data link.
#[unsafe(no_mangle)]
pub extern "C" fn um_datalink_next(
    data_link: &mut CDataLink,
    layer1: &[u8; 2],
    block: &mut [u8; BLOCK_OCTETS],
    report: &mut CReport,
) -> u32
    ensures { DataLinkFillsSlot layer1.now result data_link.old data_link.new block.old block.new report.old report.new }
{
    let Some(seen) = look_ahead(data_link) else {
        return INVALID_ENDPOINT;
    };
    count_slot(data_link);
    let slot = fill_slot(&seen, data_link);
    let written = slot_block(slot.block, seen.role, seen.channel);
    *block = with_layer1(seen.channel, layer1, written);
    write_given_up(&slot, report);
    slot_answer(slot.block)
}

fn count_slot_unless(is_stopped: bool, c_struct: &mut CTimedEnd)
    ensures { c_struct.new ≡ counted is_stopped c_struct.old }
{
    if !is_stopped {
        c_struct.clock = c_struct.clock.saturating_sub(1);
    }
}

/// Counts a slot for T200 of both links. After a frame of SAPI 0 other than UI, which took the slot of an answer on SAPI 3, the clock of
/// SAPI 3 stands still.
fn count_slot(data_link: &mut CDataLink)
    ensures { data_link.new ≡ record (with_clocks_counted data_link.old) {
      heard0 = 0;
      main = bit_of_bool (is_nonzero data_link.old.main);
    } }
{
    count_slot_unless(false, &mut data_link.link0);
    count_slot_unless(data_link.heard0 != 0, &mut data_link.link3);
    data_link.heard0 = 0;
    data_link.main = u8::from(data_link.main != 0);
}

/// Returns what the link in the struct does in a slot that it has, and writes it if it acts.
#[inline(always)]
fn use_slot(acts: bool, c_struct: &mut CTimedEnd) -> LinkSlot
    ensures { (l : LinkState) → RepresentsLink c_struct.old l → acts ≡ acts_in_slot l
        → LinkUsesSlot l result c_struct.old c_struct.new }
{
    if !acts {
        return idle_slot();
    }
    act_in_slot(c_struct)
}

// Not inlined, since it fills room for a link, and most slots are free.
#[inline(never)]
fn act_in_slot(c_struct: &mut CTimedEnd) -> LinkSlot
    ensures { (l : LinkState) → RepresentsLink c_struct.old l → acts_in_slot l ≡ true
        → LinkUsesSlot l result c_struct.old c_struct.new }
{
    let mut held = Link::new_on(Role::Mobile, Sapi::Zero, Channel::Sdcch, 1);
    if !read_link(c_struct, &mut held) {
        return idle_slot();
    }
    let slot = held.slot();
    write_link(&held.parts(), c_struct);
    slot
}

fn idle_slot() -> LinkSlot
    ensures { result ≡ record { block = None; gave_up = false } }
{
    LinkSlot {
        block: None,
        gave_up: false,
    }
}

/// Returns what the data link, whose clocks were moved, does in a slot, and writes each link that acts: SAPI 0 goes first, and SAPI 3 has
/// the slot if SAPI 0 sends nothing.
fn fill_slot(seen: &Outlook, data_link: &mut CDataLink) -> Slot
    ensures { (s : DataLinkState) → RepresentsDataLink data_link.old (with_clocks_moved s) → IsOutlook seen.now s
        → SlotIsFilled (with_clocks_moved s) result data_link.old data_link.new }
{
    let slot0 = use_slot(seen.acts0, &mut data_link.link0);
    if let Some(_) = slot0.block {
        return Slot {
            block: any_on_sapi0(seen.endpoint_sapi, seen.channel, slot0.block),
            gave_up0: slot0.gave_up,
            gave_up3: false,
        };
    }
    let slot3 = use_slot(seen.acts3, &mut data_link.link3);
    Slot {
        block: slot3.block,
        gave_up0: slot0.gave_up,
        gave_up3: slot3.gave_up,
    }
}

fn slot_block(block: Option<[u8; BLOCK_OCTETS]>, role: Role, channel: Channel) -> [u8; BLOCK_OCTETS]
    ensures { result ≡ unwrap_or block (octets_of channel (fill_frame (command_cr (spec_role_of role)))) }
{
    match block {
        Some(block) => block,
        None => fill_block(role, channel),
    }
}

/// Returns the fill frame of this side, which most slots send: it is not encoded anew.
fn fill_block(role: Role, channel: Channel) -> [u8; BLOCK_OCTETS]
    ensures { result ≡ octets_of channel (fill_frame (command_cr (spec_role_of role))) }
{
    match (role, channel) {
        (Role::Mobile, Channel::Sdcch) => MOBILE_FILL_ON_SDCCH,
        (Role::Network, Channel::Sdcch) => NETWORK_FILL_ON_SDCCH,
        (Role::Mobile, Channel::Sacch) => MOBILE_FILL_ON_SACCH,
        (Role::Network, Channel::Sacch) => NETWORK_FILL_ON_SACCH,
    }
}

fn slot_answer(block: Option<[u8; BLOCK_OCTETS]>) -> u32
    ensures { result ≡ (if is_none block then 10 else 0) }
{
    match block {
        Some(_) => 0,
        None => SLOT_IS_FREE,
    }
}

/// Writes a notice for each link that was given up in this slot.
fn write_given_up(slot: &Slot, report: &mut CReport)
    ensures { report.new ≡ c_report (reports_of P.Zero (notices_if slot.now.gave_up0)
        ++ reports_of P.Three (notices_if slot.now.gave_up3)) }
{
    let failed = failed_notice();
    let blank = blank_notice();
    match (slot.gave_up0, slot.gave_up3) {
        (false, false) => {
            report.notices = [blank, blank, blank];
            report.sapis = [0, 0, 0];
            report.notice_count = 0;
        }
        (true, false) => {
            report.notices = [failed, blank, blank];
            report.sapis = [0, 0, 0];
            report.notice_count = 1;
        }
        (false, true) => {
            report.notices = [failed, blank, blank];
            report.sapis = [3, 0, 0];
            report.notice_count = 1;
        }
        (true, true) => {
            report.notices = [failed, failed, blank];
            report.sapis = [0, 3, 0];
            report.notice_count = 2;
        }
    }
}

/// The notice that a link was given up.
fn failed_notice() -> CNotice
    ensures { result ≡ c_notice (Closed Failed) }
{
    CNotice {
        number: 0,
        kind: 6,
        reason: 1,
        message: MessageBuffer::empty(),
    }
}
