//! The first two words of a script line: the actor and the action.
ghost use Rattle.std.specs.Prelude.{◌≡◌};
ghost use Rattle.std.specs.Str.{bytes_eq};
ghost use Rattle.um_script.specs.Names.{actor_of_name, request_of_name, action_of_name};

use um_link::{End, Sapi, Way};

/// The subject of a script line: an endpoint, a direction, or another mobile.
#[derive(Clone, Copy)]
pub(crate) enum Actor {
    End(End, Sapi),
    Way(Way),
    Rival,
}

/// A call to an endpoint: an operation of layer 3, or T200 expiry (`Tick`).
#[derive(Clone, Copy)]
pub(crate) enum Request {
    Open,
    Send,
    Unit,
    Close,
    Tick,
    Idle,
}

/// What happens to a block on the radio path.
#[derive(Clone, Copy)]
pub(crate) enum RadioAction {
    Deliver,
    Lose,
    Flip,
}

fn equals_name(word: &[u8], name: &[u8]) -> bool
    ensures { result ≡ bytes_eq word.now name.now }
{
    word == name
}

pub(crate) fn actor_of_word(word: &[u8]) -> Option<Actor>
    ensures { result ≡ actor_of_name word.now }
{
    if equals_name(word, b"mob") {
        Some(Actor::End(End::Mobile, Sapi::Zero))
    } else if equals_name(word, b"mob3") {
        Some(Actor::End(End::Mobile, Sapi::Three))
    } else if equals_name(word, b"net") {
        Some(Actor::End(End::Network, Sapi::Zero))
    } else if equals_name(word, b"net3") {
        Some(Actor::End(End::Network, Sapi::Three))
    } else if equals_name(word, b"up") {
        Some(Actor::Way(Way::Up))
    } else if equals_name(word, b"down") {
        Some(Actor::Way(Way::Down))
    } else if equals_name(word, b"rival") {
        Some(Actor::Rival)
    } else {
        None
    }
}

pub(crate) fn request_of_word(word: &[u8]) -> Option<Request>
    ensures { result ≡ request_of_name word.now }
{
    if equals_name(word, b"open") {
        Some(Request::Open)
    } else if equals_name(word, b"send") {
        Some(Request::Send)
    } else if equals_name(word, b"unit") {
        Some(Request::Unit)
    } else if equals_name(word, b"close") {
        Some(Request::Close)
    } else if equals_name(word, b"tick") {
        Some(Request::Tick)
    } else if equals_name(word, b"idle") {
        Some(Request::Idle)
    } else {
        None
    }
}

pub(crate) fn action_of_word(word: &[u8]) -> Option<RadioAction>
    ensures { result ≡ action_of_name word.now }
{
    if equals_name(word, b"deliver") {
        Some(RadioAction::Deliver)
    } else if equals_name(word, b"lose") {
        Some(RadioAction::Lose)
    } else if equals_name(word, b"flip") {
        Some(RadioAction::Flip)
    } else {
        None
    }
}
