//! Laws that hold for all endpoints. The body of a law is empty: call it to use its contract in a proof.

ghost use Rattle.std.specs.Prelude.{◌≡◌, ◌↔◌, ℕ, ◌≤◌, ◌++◌, take, length, All, IfOk};
ghost use Rattle.std.specs.List.{flat_map, filter_map};
ghost use Rattle.segmenting.specs.lapdm_frame.declared.Channel.{Channel};
ghost use Rattle.segmenting.specs.lapdm_frame.Layout.{n201};
ghost use Rattle.segmenting.specs.lapdm_frame.Frames.{octets_of};
ghost use Rattle.segmenting.specs.lapdm_frame.Readings.{IsOnlyCanonicalCoding};
ghost use Rattle.segmenting.specs.Segments.{segments};
ghost use Rattle.segmenting.specs.Joining.{messages};
ghost use Rattle.lapdm_window.specs.declared.Sapi.{Sapi};
ghost use Rattle.lapdm_window.specs.Ends.{Role, EndpointState, IsValidEndpoint, initial_endpoint, acked_message_count};
ghost use Rattle.lapdm_window.specs.Steps.{StepInput, IsPossibleInput, step, message_in_got_notice, IsSameEndpoint};

/// Law: the initial state of an endpoint satisfies the invariant `IsValidEndpoint`. Every step of the endpoint preserves this invariant and
/// leaves its role, SAPI and channel unchanged.
pub fn law_endpoint_stays_valid()
    ensures start { (role : Role) (sapi : Sapi) (channel : Channel)
        → IsValidEndpoint (initial_endpoint role sapi channel) }
    ensures step { (input : StepInput) (e : EndpointState) → IsValidEndpoint e → IsPossibleInput e input
        → IfOk (step input e) (λ o. IsValidEndpoint o.new_state) }
    ensures link { (input : StepInput) (e : EndpointState) → IsValidEndpoint e → IsPossibleInput e input
        → IfOk (step input e) (λ o. IsSameEndpoint e o.new_state) }
{}

/// Law: every frame that an endpoint sends fits in a block of its channel, and reading the canonical octets of the frame gives back exactly
/// this frame.
pub fn law_endpoint_frames_fit_blocks()
    ensures { (input : StepInput) (e : EndpointState) → IsValidEndpoint e → IsPossibleInput e input
        → IfOk (step input e)
        (λ o. All (λ f. IsOnlyCanonicalCoding e.channel f (octets_of e.channel f)) o.frames) }
{}

/// Law: a step of an endpoint produces at most two frames and two notices.
pub fn law_at_most_two_frames_and_notices()
    ensures { (input : StepInput) (e : EndpointState)
        → IfOk (step input e) (λ o. (length o.frames ≤ 2) × (length o.notices ≤ 2)) }
{}

/// Law: in its notices, a step of an endpoint delivers exactly the messages that the segments accepted in this step complete.
pub fn law_notices_deliver_completed_messages()
    ensures { (input : StepInput) (e : EndpointState) → IfOk (step input e) (λ o.
        messages o.new_state.accepted_segments ≡ messages e.accepted_segments ++ filter_map message_in_got_notice o.notices) }
{}

/// Law: the first `k` messages sent count as acknowledged if and only if all their segments are acknowledged. The number of messages that
/// count as acknowledged never exceeds the number sent.
pub fn law_message_acked_iff_segments_acked()
    ensures most { (e : EndpointState) → acked_message_count e ≤ length e.messages }
    ensures whole { (e : EndpointState) (k : ℕ) → k ≤ length e.messages
        → (k ≤ acked_message_count e)
        ↔ (length (flat_map (segments (n201 e.channel)) (take k e.messages)) ≤ e.acked_segments) }
{}
