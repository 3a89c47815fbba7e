//! A law that holds for the rules of every command.
ghost use Rattle.um_driver.specs.Continued.{MoreOctetsContinueResponse};

use crate::command::Command;

/// Law: if more octets are read, the prescribed response is only continued, and does not change once it has a status.
pub fn law_more_octets_continue_response<C: Command>()
    ensures { MoreOctetsContinueResponse C.rules }
{}
