//! Frames that change no state, for a caller that decides itself when a frame is sent.

ghost use Rattle.lapdm_window.specs.Ends.{EndpointState, awaits_answer, command_frame};
ghost use Rattle.lapdm_frame.specs.Content.{content_of_body, Ui};
ghost use Rattle.lapdm_frame.specs.Frames.{NsAndNrFit, InformationFits, octets_of};
ghost use Rattle.lapdm_window.specs.Calls.{SendsUi};
ghost use Rattle.lapdm_end.specs.Abstraction.{Represents, channel_of};
ghost use Rattle.lapdm_end.specs.Refinement.{RefusesAsSpecified};
ghost use Rattle.lapdm_end.specs.Windows.{awaited_block};
ghost use Rattle.std.specs.Prelude.{◌≡◌, false, IfOk};

use crate::ends::Endpoint;
use lapdm_frame::{BLOCK_OCTETS, Body};
use lapdm_window::{Refused, State};

impl Endpoint {
    /// Returns whether a frame awaits an answer: the SABM, the DISC, or an I frame.
    pub fn awaits_answer(&self) -> bool
        ensures { (e : EndpointState) → Represents self.now e → result ≡ awaits_answer e }
    {
        match self.state {
            State::Idle | State::Closed => false,
            State::Opening | State::Closing => true,
            State::Open => self.window.waiting().is_some(),
        }
    }

    /// Encodes the frame that awaits an answer: the SABM, the DISC, or the outstanding I frame with P = 0 and the present N(R). Returns
    /// `None` if no frame awaits an answer. Nothing is counted. A data link encodes the frame anew in its slot, and so needs no queue.
    pub fn awaited(&self) -> Option<[u8; BLOCK_OCTETS]>
        ensures { (e : EndpointState) → Represents self.now e → result ≡ awaited_block e }
    {
        let body = match self.state {
            State::Idle | State::Closed => return None,
            State::Opening => Body::Sabm {
                p: true,
                info: self.sabm_info.octets(),
            },
            State::Closing => Body::Disc { p: true },
            State::Open => {
                let piece = self.window.waiting()?;
                Body::I {
                    ns: self.window.va(),
                    nr: self.window.vr(),
                    p: false,
                    more: piece.more,
                    info: piece.octets,
                }
            }
        };
        Some(self.address.command_block(body))
    }

    /// Encodes a UI frame with this message.
    pub fn ui_block(&self, message: &[u8]) -> Result<[u8; BLOCK_OCTETS], Refused>
        ensures refusal { RefusesAsSpecified (SendsUi message.now) self.now result }
        ensures block { IfOk result (λ block. (e : EndpointState) → Represents self.now e
            → block ≡ octets_of (channel_of self.now) (command_frame e (Ui false message.now))) }
    {
        if let Some(refusal) = self.single_frame_refusal(message) {
            return Err(refusal);
        }
        Ok(
            self.address.command_block(Body::Ui {
                p: false,
                info: message,
            }),
        )
    }
}
