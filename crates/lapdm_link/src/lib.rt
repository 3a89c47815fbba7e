//! Laws of all sessions between a mobile and a network that exchange frames over two unreliable queues, on the links of SAPI 0 and 3, on
//! SDCCH or SACCH. The body of a law is empty: call it to use its contract in a proof.
#![tactic(auto)]

ghost use Rattle.std.specs.Prelude.{All, List};
ghost use Rattle.lapdm_window.specs.declared.Sapi.TheVariants.{Zero, Three};
ghost use Rattle.lapdm_window.specs.lapdm_frame.declared.Channel.{Channel};
ghost use Rattle.lapdm_link.specs.Events.{QueueCapacity, Event};
ghost use Rattle.lapdm_link.specs.Worlds.{initial_world, answers, IsBenign, IsBenignExceptReplaced, ArrivingFrameFits, SentFramesFit};
ghost use Rattle.lapdm_link.specs.Claims.{LogLine, log_lines_of_sapi, session_log, Claims, HasNoticesInOrder, AckedAtMostDelivered};

/// Law: if each frame arrives in order and unchanged, or is lost, each endpoint delivers a prefix of the messages that its peer sent, and
/// each message is delivered before it is reported as acknowledged. The queues may have any capacity, and other mobiles may send SABM
/// frames at any time.
#[tactic(auto, using(crate::proofs::Sessions::claims))]
pub fn law_lapdm_delivers_in_order()
    ensures { (capacity : QueueCapacity) (channel : Channel) (events : List Event) → IsBenign events (initial_world capacity channel)
        → Claims (session_log events (answers events (initial_world capacity channel))) }
{}

/// Law: if each frame arrives in order and unchanged, or is lost, messages are delivered in order, and before they are reported as
/// acknowledged. An RR may arrive in place of a REJ with the same N(R), a DM with F = 1 in place of any frame, and any frame with an N(R)
/// that acknowledges nothing.
pub fn law_frames_may_be_replaced()
    ensures delivery { (capacity : QueueCapacity) (channel : Channel) (events : List Event) →
        IsBenignExceptReplaced events (initial_world capacity channel)
        → Claims (session_log events (answers events (initial_world capacity channel))) }
    ensures acked_at_most_delivered { (capacity : QueueCapacity) (channel : Channel) (events : List Event) →
        IsBenignExceptReplaced events (initial_world capacity channel)
        → AckedAtMostDelivered (session_log events (answers events (initial_world capacity channel))) }
{}

/// Law: whatever frames arrive, an endpoint reports a message as acknowledged only after the message was sent. Its link is established at
/// most once, and it reports deliveries and acknowledgements only while the link is open.
#[tactic(auto, using(crate::proofs::Order::order_claims))]
pub fn law_lapdm_log_is_ordered()
    ensures { (capacity : QueueCapacity) (channel : Channel) (events : List Event)
        → HasNoticesInOrder (session_log events (answers events (initial_world capacity channel))) }
{}

/// Law: if each frame arrives in order and unchanged, or is lost, no endpoint reports more messages as acknowledged than its peer has
/// delivered.
pub fn law_lapdm_acked_at_most_delivered()
    ensures { (capacity : QueueCapacity) (channel : Channel) (events : List Event) → IsBenign events (initial_world capacity channel)
        → AckedAtMostDelivered (session_log events (answers events (initial_world capacity channel))) }
{}

/// Law: if each arriving frame fits in a block, each step sends at most two frames, which also fit in blocks, and reports at most two
/// notices.
#[tactic(auto, using(crate::proofs::Fitting::small_answers))]
pub fn law_session_frames_fit_blocks()
    ensures { (capacity : QueueCapacity) (channel : Channel) (events : List Event) → All (ArrivingFrameFits channel) events
        → All (SentFramesFit channel) (answers events (initial_world capacity channel)) }
{}

/// Law: if the claims about delivery, order or acknowledgement counts hold for the log lines of each SAPI, they hold for the whole log. So
/// each link may have its own channel or queues.
pub fn law_claims_per_sapi_hold_for_whole_log()
    ensures delivery { (ls : List LogLine) → Claims (log_lines_of_sapi Zero ls) → Claims (log_lines_of_sapi Three ls) → Claims ls }
    ensures order { (ls : List LogLine) → HasNoticesInOrder (log_lines_of_sapi Zero ls)
        → HasNoticesInOrder (log_lines_of_sapi Three ls) →
        HasNoticesInOrder ls }
    ensures acked_at_most_delivered { (ls : List LogLine) →
        AckedAtMostDelivered (log_lines_of_sapi Zero ls) → AckedAtMostDelivered (log_lines_of_sapi Three ls) → AckedAtMostDelivered ls }
{}
