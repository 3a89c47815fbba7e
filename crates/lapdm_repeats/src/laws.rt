//! Laws of an RR that comes twice. The body of a law is empty: call it to use its contract in a proof.

ghost use Rattle.std.specs.Prelude.{◌≡◌, ℕ, false, []};
ghost use Rattle.lapdm_frame.specs.Content.{Frame};
ghost use Rattle.lapdm_end.specs.lapdm_window.Ends.{HasWindowOfOne};
ghost use Rattle.lapdm_end.specs.lapdm_window.Rules.{nr_acknowledges_segment};
ghost use Rattle.lapdm_datalink.specs.Links.{LinkState, after_received, received_notices};
ghost use Rattle.lapdm_datalink.specs.Slots.{ChangesNothing};
ghost use Rattle.lapdm_repeats.specs.Repeats.{IsPlainRr, IsRr, HasSentWhatItMay};

/// Law: an RR with F = 0 whose N(R) acknowledges no outstanding segment changes nothing at the link that takes it.
pub fn law_rr_that_acknowledges_nothing_changes_nothing()
    ensures { (nr : ℕ) (f : Frame) (l : LinkState) → IsPlainRr nr f → HasSentWhatItMay l
        → nr_acknowledges_segment nr l.endpoint ≡ false → ChangesNothing f l }
{}

/// Law: so the link that takes an RR and then the same with F = 0 is as after the first, and reports nothing the second time.
pub fn law_rr_said_twice_changes_nothing()
    ensures link { (nr : ℕ) (f g : Frame) (l : LinkState) → IsRr nr f l → IsPlainRr nr g → HasWindowOfOne l.endpoint
        → HasSentWhatItMay l → after_received g (after_received f l) ≡ after_received f l }
    ensures notices { (nr : ℕ) (f g : Frame) (l : LinkState) → IsRr nr f l → IsPlainRr nr g → HasWindowOfOne l.endpoint
        → HasSentWhatItMay l → received_notices g (after_received f l) ≡ [] }
{}
