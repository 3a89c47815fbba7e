//! Laws of runs of two data links on one channel: what is delivered, and in which order. The body of a law is empty: call it to use its
//! contract in a proof.
#![tactic(auto)]

ghost use Rattle.std.specs.Prelude.{◌≡◌, ◌<◌, ℕ, List};
ghost use Rattle.lapdm_frame.specs.declared.Channel.{Channel};
ghost use Rattle.lapdm_end.specs.lapdm_window.declared.Sapi.{Sapi};
ghost use Rattle.lapdm_end.specs.lapdm_window.Ends.{Role};
ghost use Rattle.lapdm_link.specs.Claims.{Claims, AckedAtMostDelivered, HasNoticesInOrder};
ghost use Rattle.lapdm_datalink.specs.declared.data_links.Establishment.{Establishment};
ghost use Rattle.lapdm_datalink.specs.declared.data_links.Establishment.TheVariants.{Contention};
ghost use Rattle.lapdm_delivery.specs.Runs.{RunEvent, initial_run, IsRun, run_log, log_of_link};
ghost use Rattle.lapdm_delivery.specs.Lockstep as Lockstep;

/// Law: in a run of two data links on one channel, in which frames arrive in order, late or not at all, and no link is opened again, by a
/// call or by a late SABM, each side delivers a prefix of the messages that the other accepted for sending, and reports a message as
/// acknowledged only after the other side has delivered it. Each link is closed at most once, and messages are delivered and acknowledged
/// only while it is open. SAPI 0 is opened with contention resolution. The events before one that opens a link again are such a run.
pub fn law_data_links_deliver_in_order()
    ensures delivery { (channel : Channel) (t200 : Role → Sapi → ℕ) (events : List RunEvent) →
        IsRun events (initial_run channel Contention t200)
        → Claims (run_log events (initial_run channel Contention t200)) }
    ensures acked_at_most_delivered { (channel : Channel) (t200 : Role → Sapi → ℕ) (events : List RunEvent) →
        IsRun events (initial_run channel Contention t200)
        → AckedAtMostDelivered (run_log events (initial_run channel Contention t200)) }
    ensures order { (channel : Channel) (t200 : Role → Sapi → ℕ) (events : List RunEvent) →
        IsRun events (initial_run channel Contention t200)
        → HasNoticesInOrder (run_log events (initial_run channel Contention t200)) }
{}

/// Law: with either kind of establishment of SAPI 0 the same holds of the log of each link. With normal establishment, where either side
/// opens the link of SAPI 0, or both, this log tells of it as of one of SAPI 3.
pub fn law_links_of_data_links_deliver_in_order()
    ensures delivery { (e : Establishment) (channel : Channel) (t200 : Role → Sapi → ℕ) (events : List RunEvent) →
        IsRun events (initial_run channel e t200) → (sapi : Sapi)
        → Claims (log_of_link e sapi (run_log events (initial_run channel e t200))) }
    ensures acked_at_most_delivered { (e : Establishment) (channel : Channel) (t200 : Role → Sapi → ℕ) (events : List RunEvent) →
        IsRun events (initial_run channel e t200) → (sapi : Sapi)
        → AckedAtMostDelivered (log_of_link e sapi (run_log events (initial_run channel e t200))) }
    ensures order { (e : Establishment) (channel : Channel) (t200 : Role → Sapi → ℕ) (events : List RunEvent) →
        IsRun events (initial_run channel e t200) → (sapi : Sapi)
        → HasNoticesInOrder (log_of_link e sapi (run_log events (initial_run channel e t200))) }
{}

/// Law: so two whole data links, with SAPI 0 opened with contention resolution, deliver in order up to any slot before which no link is
/// opened again, by a call or by a late SABM, and no UI frame for a free slot is refused.
pub fn law_whole_data_links_deliver_in_order()
    ensures delivery { (r : Lockstep.Run) → r.establishment ≡ Contention → Lockstep.HasCalls r → (n : ℕ)
        → ((k : ℕ) → k < n → (role : Role) → Lockstep.IsRegular r k role) → Claims (Lockstep.log_before r n) }
    ensures acked_at_most_delivered { (r : Lockstep.Run) → r.establishment ≡ Contention → Lockstep.HasCalls r → (n : ℕ)
        → ((k : ℕ) → k < n → (role : Role) → Lockstep.IsRegular r k role) → AckedAtMostDelivered (Lockstep.log_before r n) }
    ensures order { (r : Lockstep.Run) → r.establishment ≡ Contention → Lockstep.HasCalls r → (n : ℕ)
        → ((k : ℕ) → k < n → (role : Role) → Lockstep.IsRegular r k role) → HasNoticesInOrder (Lockstep.log_before r n) }
{}

/// Law: so do two whole data links with either kind of establishment, in the log of each link.
pub fn law_links_of_whole_data_links_deliver_in_order()
    ensures delivery { (r : Lockstep.Run) → Lockstep.HasCalls r → (n : ℕ)
        → ((k : ℕ) → k < n → (role : Role) → Lockstep.IsRegular r k role) → (sapi : Sapi)
        → Claims (log_of_link r.establishment sapi (Lockstep.log_before r n)) }
    ensures acked_at_most_delivered { (r : Lockstep.Run) → Lockstep.HasCalls r → (n : ℕ)
        → ((k : ℕ) → k < n → (role : Role) → Lockstep.IsRegular r k role) → (sapi : Sapi)
        → AckedAtMostDelivered (log_of_link r.establishment sapi (Lockstep.log_before r n)) }
    ensures order { (r : Lockstep.Run) → Lockstep.HasCalls r → (n : ℕ)
        → ((k : ℕ) → k < n → (role : Role) → Lockstep.IsRegular r k role) → (sapi : Sapi)
        → HasNoticesInOrder (log_of_link r.establishment sapi (Lockstep.log_before r n)) }
{}
