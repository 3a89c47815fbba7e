//! Laws of sessions whose blocks may be lost or arrive with inverted bits, on the links of SAPI 0 and 3. The body of a law is empty: call
//! it to use its contract in a proof.
#![tactic(auto)]

ghost use Rattle.std.specs.Prelude.{◌≡◌, ◌↔◌, ℕ, ℤ, ◌<◌, ◌≤◌, List, ◌∷◌, [], ◌++◌, map, length, All};
ghost use Rattle.std.specs.Prelude.{Option, Some, IfSome};
ghost use Rattle.lapdm_link.specs.lapdm_frame.declared.Channel.{Channel};
ghost use Rattle.lapdm_link.specs.lapdm_frame.Content.{Frame};
ghost use Rattle.um_block.specs.Sent.{IsSentBlock};
ghost use Rattle.um_block.specs.Received.{soft_bits, IsReceivedBlock};
ghost use Rattle.um_block.specs.declared.received.Received.{Received};
ghost use Rattle.lapdm_link.specs.Claims.{Claims, HasNoticesInOrder, AckedAtMostDelivered};
ghost use Rattle.um_air.specs.Air.{Event, Answer, AirState, initial_session, IsAirStep, IsAirRun, Block, Octets, with_bits_inverted};
ghost use Rattle.um_air.specs.Air.{ReadsFrame};
ghost use Rattle.um_air.specs.Computed.{air_step, frame_in_accepted};
ghost use Rattle.um_air.specs.Damage.{AreCorrectableBursts};
ghost use Rattle.um_air.specs.Sessions.{session_log, IsBenign, EventMessageIsOctets, AllEventsInvertFewBits};

/// Law: the frame that `frame_in_accepted` gives is read from the accepted octets, of which there are 23, and no other frame is.
pub fn law_frame_in_block_is_the_one_read()
    ensures { (channel : Channel) (accepted : Option Octets) (read : Option Frame) → IfSome accepted (λ octets. length octets ≡ 23) →
        (frame_in_accepted channel accepted ≡ read) ↔ ReadsFrame channel accepted read }
{}

/// Law: an event leads to no state and has no answer but those that `air_step` computes.
#[tactic(auto, using(crate::proofs::Lemmas::air_step_only))]
pub fn law_event_answer_is_air_step()
    ensures { (a : AirState) (event : Event) (b : AirState) (answer : Answer) → IsAirStep a event b answer →
        air_step a event ≡ (b, answer) }
{}

/// Law: in a given state, an event has at most one answer and leads to at most one state.
#[tactic(auto, using(crate::proofs::Lemmas::one_answer))]
pub fn law_event_answer_is_unique()
    ensures { (a : AirState) (event : Event) (b c : AirState) (x y : Answer) →
        IsAirStep a event b x → IsAirStep a event c y → (b ≡ c) × (x ≡ y) }
{}

/// Law: at any point of a session, every event whose message, if any, consists of octets has an answer.
#[tactic(auto, using(crate::proofs::Lemmas::some_answer))]
pub fn law_event_answer_exists()
    ensures { (tsc : ℕ) (channel : Channel) (events : List Event) (answers : List Answer)
        (a : AirState) → tsc ≤ 7 → All EventMessageIsOctets events →
        IsAirRun (initial_session tsc channel) events answers a → (event : Event) → EventMessageIsOctets event →
        (b : AirState) × (answer : Answer) × IsAirStep a event b answer }
{}

/// Law: the events of a session determine all its answers and its last state.
#[tactic(auto, using(crate::proofs::Lemmas::one_run))]
pub fn law_session_answers_are_unique()
    ensures { (a : AirState) (events : List Event) (b c : AirState) (xs ys : List Answer) →
        IsAirRun a events xs b → IsAirRun a events ys c → (b ≡ c) × (xs ≡ ys) }
{}

/// Law: for any events whose messages consist of octets, a session with these events exists.
#[tactic(auto, using(crate::proofs::Lemmas::some_run))]
pub fn law_session_exists()
    ensures { (tsc : ℕ) (channel : Channel) (events : List Event) → tsc ≤ 7 →
        All EventMessageIsOctets events →
        (answers : List Answer) × (b : AirState) × IsAirRun (initial_session tsc channel) events answers b }
{}

/// Law: in a benign session (each block is accepted with the octets that were sent, or not at all), messages are delivered in order and
/// before they are acknowledged (`Claims`).
#[tactic(auto, using(crate::proofs::Lemmas::air_claims))]
pub fn law_session_delivers_in_order()
    ensures { (tsc : ℕ) (channel : Channel) (events : List Event) (answers : List Answer)
        (b : AirState) → IsAirRun (initial_session tsc channel) events answers b →
        IsBenign events answers → Claims (session_log events answers) }
{}

/// Law: in a benign session (each block is accepted with the octets that were sent, or not at all), no endpoint has more messages
/// acknowledged than its peer has delivered.
pub fn law_session_acked_at_most_delivered()
    ensures { (tsc : ℕ) (channel : Channel) (events : List Event) (answers : List Answer)
        (b : AirState) → IsAirRun (initial_session tsc channel) events answers b →
        IsBenign events answers → AckedAtMostDelivered (session_log events answers) }
{}

/// Law: in every session, whatever blocks are accepted, each endpoint numbers its acknowledgements in order, and reports at most once that
/// its link is established and at most once that it is closed (`HasNoticesInOrder`).
#[tactic(auto, using(crate::proofs::Lemmas::air_order))]
pub fn law_session_log_is_ordered()
    ensures { (tsc : ℕ) (channel : Channel) (events : List Event) (answers : List Answer)
        (b : AirState) → IsAirRun (initial_session tsc channel) events answers b →
        HasNoticesInOrder (session_log events answers) }
{}

/// Law: if a session extended by one step is benign, messages are delivered in order and before they are acknowledged in the extended
/// session (`Claims`).
#[tactic(auto, using(crate::proofs::Lemmas::step_claims))]
pub fn law_step_delivers_in_order()
    ensures { (tsc : ℕ) (channel : Channel) (events : List Event) (answers : List Answer)
        (a : AirState) (event : Event) (answer : Answer) (b : AirState) →
        IsAirRun (initial_session tsc channel) events answers a → IsAirStep a event b answer →
        IsBenign (events ++ event ∷ []) (answers ++ answer ∷ []) →
        Claims (session_log (events ++ event ∷ []) (answers ++ answer ∷ [])) }
{}

/// Law: if a session is extended by one step, whatever blocks are accepted, the extended session has an ordered log (`HasNoticesInOrder`).
#[tactic(auto, using(crate::proofs::Lemmas::step_order))]
pub fn law_step_keeps_log_ordered()
    ensures { (tsc : ℕ) (channel : Channel) (events : List Event) (answers : List Answer)
        (a : AirState) (event : Event) (answer : Answer) (b : AirState) →
        IsAirRun (initial_session tsc channel) events answers a → IsAirStep a event b answer →
        HasNoticesInOrder (session_log (events ++ event ∷ []) (answers ++ answer ∷ [])) }
{}

/// Law: a block with at most three inverted bits is accepted with the octets that were sent.
pub fn law_three_inverted_bits_corrected()
    ensures { (octets : List ℕ) (tsc : ℕ) (block : Block) (places : List ℕ) (r : Received) →
        IsSentBlock octets tsc block → length places ≤ 3 →
        IsReceivedBlock (map soft_bits (with_bits_inverted places block)) r → r.accepted ≡ Some octets }
{}

/// Law: a block is accepted with the octets that were sent if its bursts are lightly damaged, as they are if at most three bits are
/// inverted.
pub fn law_lightly_damaged_block_is_corrected()
    ensures received { (octets : List ℕ) (bursts : List (List ℤ)) (r : Received) → AreCorrectableBursts octets bursts →
        IsReceivedBlock bursts r → r.accepted ≡ Some octets }
    ensures flipped { (octets : List ℕ) (tsc : ℕ) (block : Block) (places : List ℕ) → IsSentBlock octets tsc block →
        length places ≤ 3 → AreCorrectableBursts octets (map soft_bits (with_bits_inverted places block)) }
{}

/// Law: if at most three bits of each block are inverted and all messages consist of octets, a session is benign.
#[tactic(auto, using(crate::proofs::Lemmas::few_inverted_is_benign))]
pub fn law_three_inverted_bits_are_benign()
    ensures { (tsc : ℕ) (channel : Channel) (events : List Event) (answers : List Answer)
        (b : AirState) → IsAirRun (initial_session tsc channel) events answers b →
        AllEventsInvertFewBits events → IsBenign events answers }
{}
