//! Parses the script lines of `link`.
ghost use Rattle.std.specs.Prelude.{◌≡◌, ◌≤◌, ℕ, List, length, Some, IfOk};
ghost use Rattle.std.specs.Result.{result_err};
ghost use Rattle.um_link.specs.um_air.Air as A;
ghost use Rattle.um_link.specs.um_air.Sessions.{EventMessageIsOctets};
ghost use Rattle.um_lines.specs.Words.{words};
ghost use Rattle.um_lines.specs.Forms.{line_fault, never_misplaced};
ghost use Rattle.um_lines.specs.LinkForms.{link_line_forms};
ghost use Rattle.um_lines.specs.Meanings.{HasOneMeaningOrFault};
ghost use Rattle.um_script.specs.ScriptLines.{ScriptLineMeans};
ghost use Rattle.um_script.specs.ScriptReading.{parsed_layer3_call, parsed_one_word_call, parsed_octets_call, parsed_radio_event};
ghost use Rattle.um_script.specs.ScriptReading.{parsed_deliver_or_lose, parsed_bit_inversion};
ghost use Rattle.um_script.specs.ScriptReading.{parsed_script_words};
ghost use Rattle.um_script.specs.Naming.{event_of_script_line, event_or_fault, HasValidBitIndices};
ghost use Rattle.um_script.specs.Names.{link_endpoint_of, link_direction_of};
ghost use Rattle.um_link.specs.Possible.{IsPossibleEvent};

use crate::names::{Actor, RadioAction, Request, action_of_word, actor_of_word, request_of_word};
use crate::room::Room;
use um_lines::{LineFault, first_word, skips_line};
use um_link::{Air, Call, End, Event, Sapi, Way};

/// The meaning of a script line.
#[derive(Clone, Copy, Drop)]
pub enum ScriptLine<'a> {
    /// Nothing: the line is empty or begins with `#`.
    Skip,
    Step(Event<'a>),
}

/// Parses a script line, without its line feed: `mob open HEX`, `X open`, `X send HEX`, `X unit HEX`, `X close`, `X tick`, `X idle`, `W
/// deliver`, `W lose`, `W flip P ..` or `rival HEX`, for an endpoint `X` and a direction `W`. The octets and bit indices of the event are
/// stored in `room`.
pub fn parse_script<'a>(line: &[u8], room: &'a mut Room) -> Result<ScriptLine<'a>, LineFault>
    ensures means { IfOk result (λ read. ScriptLineMeans line.now (event_of_script_line read)) }
    ensures refused { result_err result ≡ line_fault link_line_forms never_misplaced line.now }

    // Every bit that the event inverts is a bit of a block: its index is 0 to 591.
    ensures possible { IfOk result (λ read. HasValidBitIndices read) }
{
    if skips_line(line)? {
        return Ok(ScriptLine::Skip);
    }
    match parse_script_words(line, room) {
        Ok(event) => Ok(ScriptLine::Step(event)),
        Err(fault) => Err(fault),
    }
}

/// Parses the words of a line that is not skipped, as `parse_script` does.
pub fn parse_script_words<'a>(line: &[u8], room: &'a mut Room) -> Result<Event<'a>, LineFault>
    requires { length line.now ≤ 4096 }
    ensures read { event_or_fault result ≡ parsed_script_words (words line.now) }
    ensures possible { IfOk result (λ event. IsPossibleEvent event) }
{
    let Some((name, rest)) = first_word(line) else {
        return Err(LineFault::Word);
    };
    match actor_of_word(name) {
        None => Err(LineFault::Word),
        Some(Actor::End(end, sapi)) => parse_layer3_call(end, sapi, rest, room),
        Some(Actor::Way(way)) => parse_radio_path_line(way, rest, room),
        Some(Actor::Rival) => Ok(Event::Rival(room.parse_octets_word(rest)?)),
    }
}

fn parse_layer3_call<'a>(
    end: End,
    sapi: Sapi,
    call_words: &[u8],
    room: &'a mut Room,
) -> Result<Event<'a>, LineFault>
    requires { length call_words.now ≤ 4096 }
    ensures read { event_or_fault result ≡ parsed_layer3_call (link_endpoint_of end sapi) (words call_words.now) }
    ensures possible { IfOk result (λ event. IsPossibleEvent event) }
{
    match first_word(call_words) {
        None => parse_one_word_call(end, sapi, request_of_word(call_words)),
        Some((verb, octets)) => parse_octets_call(end, sapi, request_of_word(verb), octets, room),
    }
}

fn parse_one_word_call<'a>(
    end: End,
    sapi: Sapi,
    request: Option<Request>,
) -> Result<Event<'a>, LineFault>
    ensures read { event_or_fault result ≡ parsed_one_word_call (link_endpoint_of end sapi) request }
    ensures possible { IfOk result (λ event. IsPossibleEvent event) }
{
    match (request, sapi) {
        (Some(Request::Open), Sapi::Three) => Ok(Event::OpenBare(end)),
        (Some(Request::Close), _) => Ok(Event::End(end, sapi, Call::Close)),
        (Some(Request::Tick), _) => Ok(Event::End(end, sapi, Call::Timer)),
        (Some(Request::Idle), Sapi::Zero) => Ok(Event::End(end, sapi, Call::Idle)),
        _ => Err(LineFault::Word),
    }
}

fn parse_octets_call<'a>(
    end: End,
    sapi: Sapi,
    request: Option<Request>,
    octets: &[u8],
    room: &'a mut Room,
) -> Result<Event<'a>, LineFault>
    requires { length octets.now ≤ 4096 }
    ensures read { event_or_fault result ≡ parsed_octets_call (link_endpoint_of end sapi) request (words octets.now) }
    ensures possible { IfOk result (λ event. IsPossibleEvent event) }
{
    match (request, end, sapi) {
        (Some(Request::Open), End::Mobile, Sapi::Zero) => Ok(Event::Open(room.parse_octets_word(
            octets,
        )?)),
        (Some(Request::Send), _, _) => {
            Ok(Event::End(end, sapi, Call::Send(room.parse_octets_word(octets)?)))
        }
        (Some(Request::Unit), _, _) => {
            Ok(Event::End(end, sapi, Call::Unit(room.parse_octets_word(octets)?)))
        }
        _ => Err(LineFault::Word),
    }
}

fn parse_radio_path_line<'a>(
    way: Way,
    action_words: &[u8],
    room: &'a mut Room,
) -> Result<Event<'a>, LineFault>
    ensures read { event_or_fault result ≡ parsed_radio_event (link_direction_of way) (words action_words.now) }
    ensures possible { IfOk result (λ event. IsPossibleEvent event) }
{
    match first_word(action_words) {
        None => parse_deliver_or_lose(way, action_of_word(action_words)),
        Some((verb, places)) => parse_bit_inversion(way, action_of_word(verb), places, room),
    }
}

fn parse_deliver_or_lose<'a>(way: Way, action: Option<RadioAction>) -> Result<Event<'a>, LineFault>
    ensures read { event_or_fault result ≡ parsed_deliver_or_lose (link_direction_of way) action }
    ensures possible { IfOk result (λ event. IsPossibleEvent event) }
{
    match action {
        Some(RadioAction::Deliver) => Ok(Event::Air(way, Air::Deliver)),
        Some(RadioAction::Lose) => Ok(Event::Air(way, Air::Lose)),
        _ => Err(LineFault::Word),
    }
}

fn parse_bit_inversion<'a>(
    way: Way,
    action: Option<RadioAction>,
    indices: &[u8],
    room: &'a mut Room,
) -> Result<Event<'a>, LineFault>
    ensures read { event_or_fault result ≡ parsed_bit_inversion (link_direction_of way) action (words indices.now) }
    ensures possible { IfOk result (λ event. IsPossibleEvent event) }
{
    match action {
        Some(RadioAction::Flip) => Ok(Event::Air(way, Air::Flip(room.parse_bit_indices(indices)?))),
        _ => Err(LineFault::Word),
    }
}

/// Law: a script line that is not refused has exactly one meaning; a script line that is refused has none.
pub fn law_script_line_meaning_is_unique()
    ensures { (line : List ℕ) → HasOneMeaningOrFault (line_fault link_line_forms never_misplaced line) (ScriptLineMeans line) }
{}

/// Law: the message in a script line, if it has one, consists of octets.
pub fn law_script_messages_are_octets()
    ensures { (line : List ℕ) (event : A.Event) → ScriptLineMeans line (Some event) → EventMessageIsOctets event }
{}
