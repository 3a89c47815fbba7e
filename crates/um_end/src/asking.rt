//! Converts events into endpoint calls.
ghost use Rattle.std.specs.Prelude.{◌≡◌};
ghost use Rattle.um_link.specs.lapdm_window.Calls.{endpoint_call_of, IsCallAllowedFor};
ghost use Rattle.um_link.specs.lapdm_window.Ends.{Role};
ghost use Rattle.um_link.specs.Naming.{spec_event_of};
ghost use Rattle.um_end.specs.Terminals.{IsCallOfRole};
ghost use Rattle.um_end.specs.CallEvents.{IsCallEvent, sapi_of_call_event, endpoint_call_in_event};

use lapdm_end::{Call, Sapi};
use um_link::Event;

pub(crate) fn sapi_of_event(event: &Event<'_>) -> Sapi
    ensures { result ≡ sapi_of_call_event (spec_event_of event.now) }
{
    match event {
        Event::OpenBare(_) => Sapi::Three,
        Event::End(_, sapi, _) => *sapi,
        Event::Open(_) => Sapi::Zero,
        Event::Air(_, _) => Sapi::Zero,
        Event::Rival(_) => Sapi::Zero,
    }
}

pub(crate) fn endpoint_call_of_event<'a>(event: &Event<'a>) -> Call<'a>
    requires call { IsCallEvent (spec_event_of event.now) }
    ensures asked_call { endpoint_call_of result ≡ endpoint_call_in_event (spec_event_of event.now) }
    ensures allowed { (role : Role) → IsCallOfRole role (spec_event_of event.now)
        → IsCallAllowedFor role (sapi_of_call_event (spec_event_of event.now)) (endpoint_call_of result) }
{
    match *event {
        Event::Open(info) => Call::Open(info),
        Event::OpenBare(_) => Call::OpenBare,
        Event::End(_, _, call) => call.as_endpoint_call(),
        Event::Air(_, _) => unreachable!(),
        Event::Rival(_) => unreachable!(),
    }
}
