//! What a data link does next, told from its state as plain data. In most slots no link acts, and none has to be restored.

ghost use Rattle.std.specs.Prelude.{◌≡◌, ◌↔◌, ◌==◌, ◌-◌, ◌||◌, ◌&&◌, not, if◌then◌else◌};
ghost use Rattle.std.specs.Prelude.{false, IsTrue, MatchOption};
ghost use Rattle.std.specs.Option.{is_none};
ghost use Rattle.lapdm_frame.specs.Content.{frame_of_view};
ghost use Rattle.lapdm_end.specs.Addresses.{spec_role_of};
ghost use Rattle.lapdm_datalink.specs.Links.{LinkState, after_slot};
ghost use Rattle.lapdm_datalink.specs.DataLinks.{DataLinkState, IsDataLink, takes_sapi3, sapi_for_frame};
ghost use Rattle.lapdm_datalink.specs.Parts.{values_of_parts, ValuesRepresent, SomeLinkHasValues, acts_in_slot};
ghost use Rattle.lapdm_datalink.specs.Outlooks.{IsOutlook, IsLinkOutlook, AreOfOneDataLink};

use crate::parts::{LinkView, is_same_role, is_timed};
use lapdm_end::{Channel, Role, Sapi, State};
use lapdm_frame::{BLOCK_OCTETS, FrameView};

/// What the next slot and the next frame need to know of a data link.
#[derive(Clone, Copy, Debug)]
pub struct Outlook {
    pub role: Role,
    pub channel: Channel,
    /// The SAPI of the endpoint of the link of SAPI 0: with normal establishment that is 3.
    pub endpoint_sapi: Sapi,
    /// Whether the link of SAPI 0 acts in the next slot: it sends a frame or is given up.
    pub acts0: bool,
    /// Whether the link of SAPI 3 acts in the next slot if SAPI 0 sends nothing in it.
    pub acts3: bool,
    /// Whether the data link takes frames of SAPI 3.
    pub takes_sapi3: bool,
}

/// What a data link needs to know of one of its links.
#[derive(Clone, Copy, Debug)]
pub struct LinkOutlook {
    pub role: Role,
    /// The SAPI of its endpoint.
    pub sapi: Sapi,
    pub channel: Channel,
    pub state: State,
    /// Whether T200 is not 0, and the clock not longer.
    pub is_timed: bool,
    /// Whether the link acts in the next slot if it has it: it sends a frame or is given up.
    pub acts: bool,
}

impl Outlook {
    /// Returns the SAPI of the link that takes this received frame, or `None` if the data link drops it.
    pub fn sapi_for(&self, frame: &FrameView<'_>) -> Option<Sapi>
        ensures { (s : DataLinkState) → IsOutlook self.now s → result ≡ sapi_for_frame (frame_of_view frame.now) s }
    {
        if frame.sapi == 0 {
            return Some(Sapi::Zero);
        }
        if frame.sapi == 3 && self.takes_sapi3 {
            return Some(Sapi::Three);
        }
        None
    }

    /// Returns what the next slot and the next frame need to know of the data link with these links of SAPI 0 and SAPI 3, or `None` if
    /// they are not those of one data link.
    pub fn of_links(
        link0: &LinkOutlook,
        link3: &LinkOutlook,
        is_main_established: bool,
    ) -> Option<Outlook>
        ensures { (s : DataLinkState) → IsLinkOutlook false link0.now s.link0 → IsLinkOutlook s.heard_sapi0 link3.now s.link3
            → is_main_established ≡ s.is_main_established
            → MatchOption result (IsDataLink s → ⊥) (λ o. IsDataLink s × IsOutlook o s) }
    {
        if !are_of_one_data_link(link0, link3) {
            return None;
        }
        Some(Outlook {
            role: link0.role,
            channel: link0.channel,
            endpoint_sapi: link0.sapi,
            acts0: link0.acts,
            acts3: link3.acts,
            takes_sapi3: takes_sapi3(link0.role, link0.channel, link0.state, is_main_established),
        })
    }
}

// Returns whether these are the links of SAPI 0 and SAPI 3 of one data link: by role, SAPI, channel and T200.
fn are_of_one_data_link(link0: &LinkOutlook, link3: &LinkOutlook) -> bool
    ensures { IsTrue result ↔ AreOfOneDataLink link0.now link3.now }
{
    link3.sapi == Sapi::Three
        && is_same_role(link3.role, link0.role)
        && link3.channel == link0.channel
        && link0.is_timed
        && link3.is_timed
}

impl LinkView<'_> {
    /// Returns what its data link needs to know of the link with this state, or `None` if no link has it. The next slot is not counted if
    /// `is_stopped`.
    pub fn outlook(&self, is_stopped: bool) -> Option<LinkOutlook>
        ensures { MatchOption result (SomeLinkHasValues (values_of_parts self.now) → ⊥)
            (λ o. SomeLinkHasValues (values_of_parts self.now)
            × ((l : LinkState) → ValuesRepresent (values_of_parts self.now) l → IsLinkOutlook is_stopped o l)) }
    {
        if !self.is_link() {
            return None;
        }
        Some(LinkOutlook {
            role: self.endpoint.role,
            sapi: self.endpoint.sapi,
            channel: self.endpoint.window.channel,
            state: self.endpoint.state,
            is_timed: is_timed(self.t200, self.clock),
            acts: self.acts_in_next_slot(is_stopped),
        })
    }

    // Returns whether the link acts in the next slot if it has it. The slot is counted first, unless it does not count.
    fn acts_in_next_slot(&self, is_stopped: bool) -> bool
        ensures { (l : LinkState) → ValuesRepresent (values_of_parts self.now) l
            → result ≡ acts_in_slot (if is_stopped then l else after_slot l) }
    {
        acts(
            owes(&self.answer),
            is_clock_over(is_stopped, self.clock),
            self.endpoint.awaits_answer(),
        )
    }
}

fn owes(answer: &Option<[u8; BLOCK_OCTETS]>) -> bool
    ensures { result ≡ not (is_none answer.now) }
{
    match answer {
        Some(_) => true,
        None => false,
    }
}

fn acts(owes: bool, is_over: bool, awaits: bool) -> bool
    ensures { result ≡ (owes || (awaits && is_over)) }
{
    owes || (awaits && is_over)
}

fn is_clock_over(is_stopped: bool, clock: u8) -> bool
    ensures { result ≡ (if is_stopped then clock == 0 else clock - 1 == 0) }
{
    if is_stopped { clock == 0 } else { clock <= 1 }
}

// Returns whether a data link takes frames of SAPI 3 whose link of SAPI 0 has this role, channel and state.
fn takes_sapi3(role: Role, channel: Channel, state: State, is_main_established: bool) -> bool
    ensures { (s : DataLinkState) → spec_role_of role ≡ s.link0.endpoint.role → channel ≡ s.link0.endpoint.channel
        → state ≡ s.link0.endpoint.state → is_main_established ≡ s.is_main_established → result ≡ takes_sapi3 s }
{
    match (role, channel) {
        (Role::Network, _) => true,
        (Role::Mobile, Channel::Sdcch) => match state {
            State::Open | State::Closing => true,
            State::Idle | State::Opening | State::Closed => false,
        },
        (Role::Mobile, Channel::Sacch) => is_main_established,
    }
}
