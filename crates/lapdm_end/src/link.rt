//! Encodes the frames that an endpoint sends.

ghost use Rattle.std.specs.Prelude.{◌≡◌, ◌<◌, ◌≤◌, [], ◌∷◌, ◌++◌, not, length};
ghost use Rattle.lapdm_frame.specs.Content.{content_of_body, fill_frame};
ghost use Rattle.lapdm_frame.specs.Frames.{NsAndNrFit, InformationFits, octets_of};
ghost use Rattle.lapdm_window.specs.Ends.{command_cr, sapi_number};

use crate::Role;
use lapdm_frame::{BLOCK_OCTETS, Body, Channel, FrameView, fill_on, write_on};
use lapdm_window::{Effects, Sapi};

/// The side, SAPI and channel of an endpoint.
#[derive(Clone, Copy, Debug)]
pub(crate) struct Address {
    pub(crate) role: Role,
    pub(crate) sapi: Sapi,
    pub(crate) channel: Channel,
}

impl Address {
    ghost use Rattle.lapdm_end.specs.Addresses.{spec_role_of, frame_with_cr, command_frame_from, response_frame_from};

    pub(crate) fn command_cr(self) -> bool
        ensures { result ≡ command_cr (spec_role_of self.role) }
    {
        match self.role {
            Role::Mobile => false,
            Role::Network => true,
        }
    }

    pub(crate) fn sapi_number(self) -> u8
        ensures number { result ≡ sapi_number self.sapi }
        ensures fits { result ≤ 7 }
    {
        match self.sapi {
            Sapi::Zero => 0,
            Sapi::Three => 3,
        }
    }

    pub(crate) fn command_block(self, body: Body<'_>) -> [u8; BLOCK_OCTETS]
        requires numbers { NsAndNrFit (content_of_body body) }
        requires information { InformationFits self.channel (content_of_body body) }
        ensures { result ≡ octets_of self.channel (command_frame_from self (content_of_body body.entry)) }
    {
        let sapi = self.sapi_number();
        let cr = self.command_cr();
        write_on(&FrameView { sapi, cr, body }, self.channel)
    }

    fn send(self, cr: bool, body: Body<'_>, effects: &mut Effects)
        requires numbers { NsAndNrFit (content_of_body body) }
        requires information { InformationFits self.channel (content_of_body body) }
        requires space { length effects.old.frames < 2 }
        ensures frames { effects.new.frames ≡ effects.old.frames
            ++ octets_of self.channel (frame_with_cr self cr (content_of_body body.entry)) ∷ [] }
        ensures notices { effects.new.notices ≡ effects.old.notices }
    {
        let sapi = self.sapi_number();
        let block = write_on(&FrameView { sapi, cr, body }, self.channel);
        effects.frames.push(block);
    }

    pub(crate) fn send_command(self, body: Body<'_>, effects: &mut Effects)
        requires numbers { NsAndNrFit (content_of_body body) }
        requires information { InformationFits self.channel (content_of_body body) }
        requires space { length effects.old.frames < 2 }
        ensures frames { effects.new.frames ≡ effects.old.frames
            ++ octets_of self.channel (command_frame_from self (content_of_body body.entry)) ∷ [] }
        ensures notices { effects.new.notices ≡ effects.old.notices }
    {
        self.send(self.command_cr(), body, effects);
    }

    pub(crate) fn send_response(self, body: Body<'_>, effects: &mut Effects)
        requires numbers { NsAndNrFit (content_of_body body) }
        requires information { InformationFits self.channel (content_of_body body) }
        requires space { length effects.old.frames < 2 }
        ensures frames { effects.new.frames ≡ effects.old.frames
            ++ octets_of self.channel (response_frame_from self (content_of_body body.entry)) ∷ [] }
        ensures notices { effects.new.notices ≡ effects.old.notices }
    {
        self.send(!self.command_cr(), body, effects);
    }

    pub(crate) fn send_only_command(self, body: Body<'_>, effects: &mut Effects)
        requires numbers { NsAndNrFit (content_of_body body) }
        requires information { InformationFits self.channel (content_of_body body) }
        ensures frames { effects.new.frames
            ≡ octets_of self.channel (command_frame_from self (content_of_body body.entry)) ∷ [] }
        ensures notices { effects.new.notices ≡ [] }
    {
        effects.clear();
        self.send_command(body, effects);
    }

    pub(crate) fn send_only_fill_frame(self, effects: &mut Effects)
        ensures frames { effects.new.frames
            ≡ octets_of self.channel (fill_frame (command_cr (spec_role_of self.role))) ∷ [] }
        ensures notices { effects.new.notices ≡ [] }
    {
        effects.clear();
        effects
            .frames
            .push(fill_on(self.command_cr(), self.channel));
    }
}
