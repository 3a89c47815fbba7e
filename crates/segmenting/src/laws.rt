//! Properties of segmentation as laws: a law is a function with an empty body whose contract states a theorem.

ghost use Rattle.std.specs.Prelude.{◌≡◌, ◌↔◌, ℕ, ◌<◌, ◌≤◌, List, [], ◌∷◌, ◌++◌, map, take, length};
ghost use Rattle.std.specs.Prelude.{Some, All};
ghost use Rattle.std.specs.List.{flat_map};
ghost use Rattle.lapdm_frame.specs.declared.Channel.{Channel};
ghost use Rattle.lapdm_frame.specs.Layout.{n201};
ghost use Rattle.segmenting.specs.Segments.{Message, Segment, IsValidMessage, AreSegments, segments};
ghost use Rattle.segmenting.specs.Joining.{messages_ending_in_segments, messages, message_count, reassembly_result, message_if_whole};
ghost use Rattle.segmenting.specs.Joining.{message_delivered_by_segment, completed_message};

/// Law: for any segment size above 0, there is exactly one way to cut a message of 1 to 251 octets into segments.
pub fn law_segmentation_is_unique()
    ensures { (n : ℕ) (m : Message) (ps : List Segment) → 0 < n → IsValidMessage m
        → AreSegments n m ps ↔ (ps ≡ segments n m) }
{}

/// Law: on either channel, reassembling the segments of a list of messages of 1 to 251 octets returns exactly these messages.
pub fn law_messages_are_reassembled()
    ensures { (channel : Channel) (ms : List Message) → All IsValidMessage ms
        → messages (flat_map (segments (n201 channel)) ms) ≡ ms }
{}

/// Law: one more segment adds the message that it completes, if any, to the reassembled messages. A `Joiner` holds this message after it
/// has returned `Whole`.
pub fn law_segment_delivers_completed_message()
    ensures messages { (ps : List Segment) (p : Segment)
        → messages (ps ++ p ∷ []) ≡ messages ps ++ message_delivered_by_segment ps p }
    ensures delivered_is_completed { (ps : List Segment) (p : Segment)
        → message_delivered_by_segment ps p ≡ message_if_whole (reassembly_result ps p) (completed_message (ps ++ p ∷ [])) }
{}

/// Law: the first `r` segments of a list of messages complete the first `c` messages, none of them oversize, where `c` is the number of
/// segments with M = 0 among them. The first `k` messages are complete if and only if all their segments are among these `r` segments.
pub fn law_segments_complete_messages_in_order()
    ensures front { (channel : Channel) (ms : List Message) (r : ℕ) → All IsValidMessage ms
        → let front = take r (flat_map (segments (n201 channel)) ms) in
        messages_ending_in_segments [] front ≡ map (λ (m : Message). Some m) (take (message_count front) ms) }
    ensures whole { (channel : Channel) (ms : List Message) (r k : ℕ) → k ≤ length ms
        → let all = λ (ms : List Message). flat_map (segments (n201 channel)) ms in
        (k ≤ message_count (take r (all ms))) ↔ (length (all (take k ms)) ≤ r) }
{}
