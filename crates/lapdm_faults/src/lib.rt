//! Faults of the other side that a received frame shows. No call allocates memory.
#![tactic(auto)]

ghost use Rattle.std.specs.Prelude.{◌≡◌, if◌then◌else◌};
ghost use Rattle.lapdm_frame.specs.Content.{frame_of_view, content_of_body};
ghost use Rattle.lapdm_end.specs.Addresses.{spec_role_of};
ghost use Rattle.lapdm_end.specs.lapdm_window.Abstraction.{segment_repeats};
ghost use Rattle.lapdm_end.specs.lapdm_window.Ends.{EndpointState, va as va_of, vs as vs_of};
ghost use Rattle.lapdm_end.specs.lapdm_window.Tables.{is_command};
ghost use Rattle.lapdm_datalink.specs.Links.{LinkState};
ghost use Rattle.lapdm_datalink.specs.Parts.{values_of_parts, ValuesRepresent};
ghost use Rattle.lapdm_faults.specs.Faults.{fault_of, fault_in_open, nr_fault, dm_fault};

mod laws;

use lapdm_datalink::LinkView;
use lapdm_end::{Role, State};
use lapdm_frame::{Body, FrameView};
pub use laws::{law_faulty_frame_has_no_effect, law_nr_without_fault_counts_segments};

/// What a frame that arrives on an open link shows of the other side.
#[derive(Clone, Copy, PartialEq, Eq, Debug)]
pub enum Fault {
    /// Its N(R) is outside V(A) to V(S).
    NrSequence,
    /// It is a UA.
    UnaskedUa,
    /// It is a DM with F = 1, and no repeat with P = 1 awaits its answer.
    UnaskedDm,
}

fn nr_fault(nr: u8, va: u8, vs: u8) -> Option<Fault>
    ensures { (e : EndpointState) → va ≡ va_of e → vs ≡ vs_of e → result ≡ nr_fault nr e }
{
    if nr == va || nr == vs {
        return None;
    }
    Some(Fault::NrSequence)
}

fn dm_fault(repeats: u8) -> Option<Fault>
    ensures { (e : EndpointState) → repeats ≡ segment_repeats e → result ≡ dm_fault e }
{
    if repeats != 0 {
        return None;
    }
    Some(Fault::UnaskedDm)
}

// Returns the fault of a frame with this body on an open link with this V(A), V(S) and number of repeats.
fn fault_in_open(is_command: bool, body: &Body<'_>, va: u8, vs: u8, repeats: u8) -> Option<Fault>
    ensures { (e : EndpointState) → va ≡ va_of e → vs ≡ vs_of e → repeats ≡ segment_repeats e
        → result ≡ fault_in_open is_command (content_of_body body.now) e }
{
    match *body {
        Body::Rr { nr, .. } | Body::Rnr { nr, .. } | Body::Rej { nr, .. } => nr_fault(nr, va, vs),
        Body::I { nr, .. } if is_command => nr_fault(nr, va, vs),
        Body::Ua { .. } if !is_command => Some(Fault::UnaskedUa),
        Body::Dm { f: true } if !is_command => dm_fault(repeats),
        _ => None,
    }
}

fn is_command(role: Role, frame: &FrameView<'_>) -> bool
    ensures { (e : EndpointState) → spec_role_of role ≡ e.role → result ≡ is_command e (frame_of_view frame.now) }
{
    frame.cr == (role == Role::Mobile)
}

/// Returns the fault that a received frame shows at the link that is to take it, if any.
pub fn fault_of(frame: &FrameView<'_>, link: &LinkView<'_>) -> Option<Fault>
    ensures { (l : LinkState) → ValuesRepresent (values_of_parts link.now) l
        → result ≡ fault_of (frame_of_view frame.now) l.endpoint }
{
    let end = &link.endpoint;
    if end.state != State::Open {
        return None;
    }
    fault_in_open(
        is_command(end.role, frame),
        &frame.body,
        end.window.va,
        end.window.vs,
        end.window.retries,
    )
}
