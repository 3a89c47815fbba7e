//! Laws of one link, slot by slot. The body of a law is empty: call it to use its contract in a proof.

ghost use Rattle.std.specs.Prelude.{◌≡◌, ◌⊎◌, ◌||◌, ℕ, Bool, true, false, nat_eq, Some, None};
ghost use Rattle.lapdm_frame.specs.Content.{Frame};
ghost use Rattle.lapdm_end.specs.lapdm_window.declared.State.TheVariants.{Idle, Open, Closed};
ghost use Rattle.lapdm_end.specs.lapdm_window.segmenting.Segments.{Segment};
ghost use Rattle.lapdm_end.specs.lapdm_window.declared.Sapi.TheVariants.{Zero, Three};
ghost use Rattle.lapdm_end.specs.lapdm_window.Ends.{Network, IsPossibleSabmInfo, vr};
ghost use Rattle.lapdm_end.specs.lapdm_window.Rules.{is_open};
ghost use Rattle.lapdm_datalink.specs.Links.{LinkState, after_received, after_slot, is_reopened_by_frame, slot_outcome, sabm_goes_first};
ghost use Rattle.lapdm_datalink.specs.Links.{has_polled, is_closed, is_sabm};
ghost use Rattle.lapdm_datalink.specs.Slots.{GoesFirst, IsNewOpening, IsRepeat, IsSabmThatOpened, IsStepOfEndpoint, nr_of, took};
ghost use Rattle.lapdm_datalink.specs.Slots.{CountsFromZero, IsSabmInClosing, IsRefused, IsBareSabm, IsNormalOpening, IsEstablishedAfresh};
ghost use Rattle.lapdm_datalink.specs.Slots.{IsFinalDmInOpen, EndsAsFailed, ChangesNothing, expires_in};
ghost use Rattle.lapdm_datalink.specs.Unsent.{IsUnsent, AcknowledgesNothing};
ghost use Rattle.lapdm_datalink.specs.DataLinks.{DataLinkState, after_arrival};

/// Law: in a slot, the endpoint of a link does nothing, repeats the frame that awaits an answer without counting it, or handles the expiry
/// of T200. What goes out is the answer owed, or the frame of that call.
#[tactic(auto, using(crate::proofs::Answering::step_of_endpoint))]
pub fn law_slot_is_a_step_of_the_endpoint()
    ensures { (l : LinkState) → IsStepOfEndpoint l (slot_outcome l) }
{}

/// Law: a link that has the slot owes nothing after it, unless its own SABM went first.
#[tactic(auto, using(crate::proofs::Answering::owes_nothing))]
pub fn law_answer_waits_for_one_slot()
    ensures { (l : LinkState) → sabm_goes_first l ≡ false → (slot_outcome l).link.answer ≡ None }
{}

/// Law: if an open link that owes nothing takes an I frame that is in sequence or polls, and then has a slot with no call or frame in
/// between, the slot carries an N(R) equal to V(R), or the link is given up in it.
#[tactic(auto, using(crate::proofs::Answering::answers_i_frame))]
pub fn law_i_frame_is_answered_in_the_next_slot()
    ensures { (l : LinkState) → l.endpoint.state ≡ Open → l.answer ≡ None → (ns nr : ℕ) (poll : Bool) (segment : Segment)
        → (nat_eq ns (vr l.endpoint) || poll) ≡ true
        → (nr_of (slot_outcome (after_slot (took ns nr poll segment l))).frame ≡ Some (vr (took ns nr poll segment l).endpoint))
        ⊎ ((slot_outcome (after_slot (took ns nr poll segment l))).link.endpoint.state ≡ Closed) }
{}

/// Law: SAPI 0 goes first. What the link of SAPI 0 does in a slot, and when a frame arrives, is what it does alone, and its frames go out
/// with SAPI 0. A slot in which it sends nothing is that of SAPI 3.
#[tactic(auto, using(crate::proofs::First::sapi_0_goes_first))]
pub fn law_sapi_0_goes_first()
    ensures { (s : DataLinkState) → GoesFirst s }
{}

/// Law: a SABM with the information that opened an open link is a repeat until the link has heard an I, RR, RNR or REJ, and then a new
/// opening: a bit that the rules of 3GPP TS 44.006 do not have tells the one from the other (5.4.2.1: both sides count from 0 again).
#[tactic(auto, using(crate::proofs::SabmInOpen::sabm_in_open))]
pub fn law_sabm_in_open_is_a_repeat_or_an_opening()
    ensures { (f : Frame) (l : LinkState) → IsSabmThatOpened f l
        → (l.heard ≡ false → IsRepeat f l) × (l.heard ≡ true → IsNewOpening f l) }
{}

/// Law: a SABM that arrives while a link is being released is refused: the release goes on, and the next slot carries a DM.
#[tactic(auto, using(crate::proofs::SabmInOpen::refused))]
pub fn law_sabm_in_closing_is_refused()
    ensures { (f : Frame) (l : LinkState) → IsSabmInClosing f l → IsRefused f l }
{}

/// Law: a DM with F = 1 ends an open link as failed if it answers a repeat with P = 1 of the outstanding I frame, and else changes nothing.
/// Such a repeat goes out in a slot in which T200 expires.
#[tactic(auto, using(crate::proofs::DmInOpen::ends, crate::proofs::DmInOpen::is_ignored, crate::proofs::DmInOpen::polls))]
pub fn law_final_dm_ends_only_a_link_that_polled()
    ensures asked { (f : Frame) (l : LinkState) → IsFinalDmInOpen f l → has_polled l.endpoint ≡ true → EndsAsFailed f l }
    ensures unasked { (f : Frame) (l : LinkState) → IsFinalDmInOpen f l → has_polled l.endpoint ≡ false → ChangesNothing f l }
    ensures polls { (l : LinkState) → expires_in l ≡ true → (slot_outcome l).link.endpoint.state ≡ Open
        → has_polled (slot_outcome l).link.endpoint ≡ true }
{}

/// Law: nothing but a new opening acknowledges an I frame that waits for its slot: an N(R) acknowledges it only once it was sent.
#[tactic(auto, using(crate::proofs::Unsent::acknowledges_nothing))]
pub fn law_nr_acknowledges_only_what_was_sent()
    ensures { (f : Frame) (l : LinkState) → IsUnsent l → is_sabm f.content ≡ false → AcknowledgesNothing f l }
{}

/// Law: a closed link that a frame opens again has heard nothing, whatever it had heard before it was closed.
#[tactic(auto, using(crate::proofs::SabmInOpen::reopened_unheard))]
pub fn law_a_closed_link_opened_again_has_heard_nothing()
    ensures { (f : Frame) (l : LinkState) → is_reopened_by_frame f l ≡ true → (after_received f l).heard ≡ false }
{}

/// Law: either side opens the link of SAPI 0 of normal establishment: it takes the SABM without information in Idle, reports the opening,
/// and answers with the UA in its next slot, both with SAPI 0.
#[tactic(auto, using(crate::proofs::Normal::opened_by_either_side))]
pub fn law_normal_link_is_opened_by_either_side()
    ensures { (f : Frame) (s : DataLinkState) → IsBareSabm f s → s.link0.endpoint.sapi ≡ Three → s.link0.endpoint.state ≡ Idle
        → IsNormalOpening f s }
{}

/// Law: a mobile may return to a network whose link of SAPI 0 is open, whichever way it was opened: its SABM without information opens this
/// link by normal establishment, and both sides count from 0. Where it was opened so, an I, RR, RNR or REJ must have been heard.
#[tactic(auto, using(crate::proofs::Normal::returns))]
pub fn law_mobile_returns_to_an_open_link()
    ensures { (f : Frame) (s : DataLinkState) → IsBareSabm f s → s.link0.endpoint.role ≡ Network → s.link0.endpoint.state ≡ Open
        → IsPossibleSabmInfo Open s.link0.endpoint.sapi s.link0.endpoint.sabm_info
        → s.link0.endpoint.sapi ≡ Zero ⊎ s.link0.heard ≡ true
        → IsNormalOpening f s × CountsFromZero (after_arrival f s).link0 }
{}

/// Law: layer 3 may establish a link that is open or closed again: it is of normal establishment from then on, and counts from 0.
#[tactic(auto, using(crate::proofs::Normal::established_afresh))]
pub fn law_link_is_established_afresh()
    ensures { (l : LinkState) → (is_open l.endpoint.state || is_closed l.endpoint.state) ≡ true → IsEstablishedAfresh l }
{}
