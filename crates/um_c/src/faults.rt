//! A C function that names a fault of the other side.
ghost use Rattle.std.specs.Prelude.{◌≡◌};
ghost use Rattle.lapdm_frame.specs.Content.{frame_of_view};
ghost use Rattle.lapdm_datalink.specs.Links.{LinkState};
ghost use Rattle.lapdm_datalink.specs.DataLinks.{DataLinkState};
ghost use Rattle.lapdm_faults.specs.Faults.{fault_of, fault_at};
ghost use Rattle.um_c.specs.DataLinkCalls.{RepresentsDataLink, RepresentsLink};
ghost use Rattle.um_c.specs.FaultCalls.{TellsFault, fault_number};

use crate::datalinks::{CDataLink, CTimedEnd, link_view_of, look_ahead};
use lapdm_end::Sapi;
use lapdm_faults::{Fault, fault_of};
use lapdm_frame::{BLOCK_OCTETS, FrameView, read_on};

fn fault_number(fault: Option<Fault>) -> u32
    ensures { result ≡ fault_number fault }
{
    match fault {
        None => 0,
        Some(Fault::NrSequence) => 1,
        Some(Fault::UnaskedUa) => 2,
        Some(Fault::UnaskedDm) => 3,
    }
}

/// Returns the number of the fault that a received frame shows at the link in the struct, if that represents one.
fn link_fault(c_struct: &CTimedEnd, frame: &FrameView<'_>) -> u32
    ensures { (l : LinkState) → RepresentsLink c_struct.now l
        → result ≡ fault_number (fault_of (frame_of_view frame.now) l.endpoint) }
{
    match link_view_of(c_struct) {
        None => 0,
        Some(parts) => fault_number(fault_of(frame, &parts)),
    }
}

/// Returns the number of the fault that a received frame shows at the link of this SAPI, if any.
fn fault_at(sapi: Option<Sapi>, frame: &FrameView<'_>, data_link: &CDataLink) -> u32
    ensures { (s : DataLinkState) → RepresentsDataLink data_link.now s
        → result ≡ fault_number (fault_at sapi (frame_of_view frame.now) s) }
{
    match sapi {
        None => 0,
        Some(Sapi::Zero) => link_fault(&data_link.link0, frame),
        Some(Sapi::Three) => link_fault(&data_link.link3, frame),
    }
}

/// Returns which fault of the other side a received block shows; `um_datalink_take` does not heed it. 0 is none, 1 an N(R) outside V(A) to
/// V(S), 2 a UA and 3 a DM with F = 1 that nothing on the open link asked for. Returns 0 too if the struct represents no data link, or the
/// block encodes no frame.
#[unsafe(no_mangle)]
pub extern "C" fn um_datalink_fault(data_link: &CDataLink, octets: &[u8; BLOCK_OCTETS]) -> u32
    ensures { TellsFault octets.now result data_link.now }
{
    let Some(seen) = look_ahead(data_link) else {
        return 0;
    };
    let Ok(frame) = read_on(octets, seen.channel) else {
        return 0;
    };
    fault_at(seen.sapi_for(&frame), &frame, data_link)
}
