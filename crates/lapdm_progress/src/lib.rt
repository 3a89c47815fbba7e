//! Laws of two data links on one channel whose slots come together: how long they wait, and when a link is given up. The body of a law is
//! empty: call it to use its contract in a proof.
#![tactic(auto)]

ghost use Rattle.lapdm_progress.specs.Channels.{Run};
ghost use Rattle.lapdm_progress.specs.Progress.{PaysForExpiries, Progresses, ProgressesFromStart, KeepsLinks};
ghost use Rattle.lapdm_delivery.specs.Lockstep as Lockstep;
ghost use Rattle.lapdm_progress.specs.Whole as Whole;

/// Law: while two links of SAPI 0 on a channel are open, with one T200 of at least the round trip and no release so far, each
/// waits at most a round trip for each segment acknowledged and one more, T200 and one slot for each slot with a loss and one more, and one
/// delay and one slot.
pub fn law_data_links_progress()
    ensures { (r : Run) → Progresses r }
{}

/// Law: each repeat of an I frame has a slot with a loss, that of its last copy or that of the answer, if the other link is open when the
/// copy arrives or would have arrived; two repeats of one link have different ones. Both links of SAPI 0 have one T200 of at least the
/// round trip; there is no release so far, and nobody has given up.
#[tactic(auto, using(crate::proofs::Cut::pays_for_expiries))]
pub fn law_data_links_pay_for_expiries()
    ensures { (r : Run) → PaysForExpiries r }
{}

/// Law: from the start of a run, and until one of the two links of SAPI 0 is given up, each waits at most a round trip for each of its
/// frames (the mobile's SABM and the segments issued) and T200 and one slot for each slot with a loss; the network one slot more. T200 of a
/// link expires at most once for each earlier slot with a loss, the expiry that gives it up included. Both have one T200 of at least the
/// round trip, and there is no release so far.
pub fn law_data_links_progress_from_the_start()
    ensures { (r : Run) → ProgressesFromStart r }
{}

/// Law: while at most five slots from the start had a loss, neither of the two links of SAPI 0 has been given up. Both have one T200 of at
/// least the round trip, and there is no release so far.
#[tactic(auto, using(crate::proofs::Cut::few_losses_keep_links))]
pub fn law_few_losses_close_no_link()
    ensures { (r : Run) → KeepsLinks r }
{}

/// Law: in a run of two whole data links whose slots come together, with SAPI 0 opened with contention resolution, its links are, slot by
/// slot, those of the run of the two alone with the same calls to them and the same losses, whatever SAPI 3 does and whatever UI frames go
/// out in free slots.
pub fn law_sapi_0_of_data_links_is_a_channel()
    ensures { (r : Lockstep.Run) → Whole.AreAsAlone r }
{}

/// Law: so the links of SAPI 0 of two whole data links wait as `law_data_links_progress_from_the_start` says, and are kept as
/// `law_few_losses_close_no_link` says.
pub fn law_whole_data_links_progress()
    ensures progress { (r : Lockstep.Run) → Whole.Progresses r }
    ensures kept { (r : Lockstep.Run) → Whole.KeepsLinks r }
{}

/// Law: while at most five slots from the start had a loss, the links of SAPI 0 of two whole data links wait as
/// `law_data_links_progress_from_the_start` says: neither has been given up.
pub fn law_whole_data_links_progress_after_few_losses()
    ensures { (r : Lockstep.Run) → Whole.ProgressesAfterFewLosses r }
{}

/// Law: the frames for which a link of SAPI 0 waits so are at most those that layer 3's accepted calls ask for: one SABM for an
/// establishment, and the segments of each message.
pub fn law_whole_data_links_send_what_is_asked()
    ensures { (r : Lockstep.Run) → Whole.SendsWhatIsAsked r }
{}

/// Law: a link of SAPI 0 of two whole data links pays for its repeats as `law_data_links_pay_for_expiries` says.
#[tactic(auto, using(crate::proofs::Bounds::data_links_pay))]
pub fn law_whole_data_links_pay_for_expiries()
    ensures { (r : Lockstep.Run) → Whole.PaysForExpiries r }
{}

/// Law: in a run of two whole data links whose slots come together, if one side alone opens SAPI 3, and once, neither has released it so
/// far, and SAPI 0 does not hold it up, then the two links of SAPI 3 wait as `law_data_links_progress_from_the_start` says of SAPI 0, the
/// side that opens in the place of the mobile, and are kept as `law_few_losses_close_no_link` says. Both have one T200 of at least the
/// round trip. SAPI 0 may use any slot in which SAPI 3 has nothing to send, if its frame is not heard while SAPI 3 awaits an answer.
pub fn law_sapi_3_progresses_unless_held_up()
    ensures progress { (r : Lockstep.Run) → Whole.Sapi3Progresses r }
    ensures kept { (r : Lockstep.Run) → Whole.Sapi3KeepsLinks r }
{}

/// Law: with normal establishment of SAPI 0, if one side alone opens it, and once, and neither has released it so far, then the links of
/// SAPI 0 of two whole data links wait as `law_sapi_3_progresses_unless_held_up` says of SAPI 3, whatever SAPI 3 does: SAPI 0 has each slot
/// that it needs. T200 of SAPI 0 is at least the round trip.
pub fn law_data_links_of_normal_establishment_progress()
    ensures progress { (r : Lockstep.Run) → Whole.NormalProgresses r }
    ensures kept { (r : Lockstep.Run) → Whole.NormalKeepsLinks r }
{}
