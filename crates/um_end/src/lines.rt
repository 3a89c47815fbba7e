//! Parses the lines of the `end` command.
//!
//! A line that begins with the name of an endpoint of this side is parsed as a script line, any other line as a burst line. This module
//! also refuses lines of other forms, and calls inside a block.
ghost use Rattle.std.specs.Prelude.{◌≡◌, ◌≤◌, ℕ, List, true, false, None, Some, length, IfOk};
ghost use Rattle.std.specs.Result.{result_err};
ghost use Rattle.um_lines.specs.Words.{words};
ghost use Rattle.um_lines.specs.Forms.{LineMeans};
ghost use Rattle.um_lines.specs.LinkForms.{end_command_line_forms, is_end_command_line_out_of_order};
ghost use Rattle.um_lines.specs.Meanings.{HasOneMeaningOrFault};
ghost use Rattle.um_link.specs.lapdm_window.Ends.{Role};
ghost use Rattle.um_link.specs.Naming.{spec_role_of};
ghost use Rattle.um_link.specs.um_air.Air.{Event as EventOf};
ghost use Rattle.um_end.specs.EndLines.{end_command_line_fault, EndCommandLineMeans, meaning_of_parsed_line, TerminalCanCarryOutLine};
ghost use Rattle.um_end.specs.EndLines.{call_line_forms, names_endpoint_of_side};
ghost use Rattle.um_end.specs.EndLines.{Calls as CallsEvent, Nothing as NoLine};
ghost use Rattle.um_end.specs.Terminals.{IsCallOfRole};
ghost use Rattle.um_end.specs.EndLines.{meaning_of_burst_line, meaning_of_parse_result, end_parse_result};
ghost use Rattle.um_end.specs.EndLines.{call_line_fault_inside_block, burst_line_fault_in_end_command};

use um_formats::{BURST_BITS, BurstLine, parse_burst_words};
use um_lines::{LineFault, first_word, skips_line};
use um_link::{End, Event};
use um_script::{Room, parse_script_words};

/// The meaning of a line of the `end` command.
#[derive(Clone, Copy, Drop)]
pub enum EndCommandLine<'a> {
    /// The line is skipped: it is empty, or begins with `#`.
    Skip,
    /// One of the four bursts of a block, as soft values, which are positive for 0 and negative for 1.
    Burst([i8; BURST_BITS]),
    /// A layer 3 call to an endpoint of this side.
    Ask(Event<'a>),
}

/// Parses a line of the `end` command, without its line feed: `n DIGITS148`, `N HEX296`, `lost`, or a call to an endpoint of this side as
/// in a script. `held` is the number of bursts of the unfinished block. The octets of a call are stored in `room`.
///
/// If several errors apply, returns the first in this order, wherever it occurs in the line: `Long`, `Word`, `Order` (a call inside a
/// block), `Digits`, `Length`, `Soft`.
pub fn parse_end<'a>(
    line: &[u8],
    side: End,
    held: u8,
    room: &'a mut Room,
) -> Result<EndCommandLine<'a>, LineFault>
    requires { held ≤ 3 }
    ensures means { IfOk result (λ read. EndCommandLineMeans (spec_role_of side) held line.now (meaning_of_parsed_line read)) }
    ensures refused { result_err result ≡ end_command_line_fault (spec_role_of side) held line.now }

    // A terminal of this side can carry out the line.
    ensures possible { IfOk result (TerminalCanCarryOutLine (spec_role_of side)) }
{
    if skips_line(line)? {
        return Ok(EndCommandLine::Skip);
    }
    if begins_with_own_endpoint_name(line, side) {
        parse_call_line(line, side, held, room)
    } else {
        parse_burst_line(line, side, held)
    }
}

fn begins_with_own_endpoint_name(line: &[u8], side: End) -> bool
    ensures { result ≡ names_endpoint_of_side (spec_role_of side) (words line.now) }
{
    let name = match first_word(line) {
        Some((name, _)) => name,
        None => line,
    };
    match side {
        End::Mobile => matches!(name, b"mob") || matches!(name, b"mob3"),
        End::Network => matches!(name, b"net") || matches!(name, b"net3"),
    }
}

fn parse_call_line<'a>(
    line: &[u8],
    side: End,
    held: u8,
    room: &'a mut Room,
) -> Result<EndCommandLine<'a>, LineFault>
    requires size { length line.now ≤ 4096 }
    requires own { names_endpoint_of_side (spec_role_of side) (words line.now) ≡ true }
    ensures { meaning_of_parse_result result ≡ end_parse_result (spec_role_of side) held (words line.now) }
{
    let read = parse_script_words(line, room);
    if held > 0 {
        return Err(call_line_fault_in_block(read.err()));
    }
    match read {
        Ok(event) => Ok(EndCommandLine::Ask(event)),
        Err(fault) => Err(fault),
    }
}

/// The fault of a call line inside a block, where only `Word` comes before `Order`.
fn call_line_fault_in_block(fault: Option<LineFault>) -> LineFault
    ensures { Some result ≡ call_line_fault_inside_block fault }
{
    match fault {
        Some(LineFault::Word) => LineFault::Word,
        _ => LineFault::Order,
    }
}

/// Parses a line with one burst of a block as if three bursts came before it: an access or synchronisation burst, which `end` does not
/// allow, then has the fault `Order`, and here `Word`.
fn parse_burst_line<'a>(
    line: &[u8],
    side: End,
    held_bursts: u8,
) -> Result<EndCommandLine<'a>, LineFault>
    requires { names_endpoint_of_side (spec_role_of side) (words line.now) ≡ false }
    ensures { meaning_of_parse_result result ≡ end_parse_result (spec_role_of side) held_bursts (words line.now) }
{
    match parse_burst_words(line, 3) {
        Ok(burst) => Ok(end_command_line_of_burst_line(burst)),
        Err(fault) => Err(end_command_fault_of_burst_line(fault)),
    }
}

fn end_command_line_of_burst_line<'a>(burst_line: BurstLine) -> EndCommandLine<'a>
    ensures { meaning_of_parsed_line result ≡ meaning_of_burst_line burst_line }
{
    match burst_line {
        BurstLine::Normal(soft) => EndCommandLine::Burst(soft),
        BurstLine::Skip => EndCommandLine::Skip,
        BurstLine::Access { .. } => EndCommandLine::Skip,
        BurstLine::Sync(_) => EndCommandLine::Skip,
    }
}

/// The fault in `end` of a burst line that has this fault inside a block of `replay`.
fn end_command_fault_of_burst_line(fault: LineFault) -> LineFault
    ensures { Some result ≡ burst_line_fault_in_end_command (Some fault) }
{
    match fault {
        LineFault::Order => LineFault::Word,
        other => other,
    }
}

/// A line of the `end` command either has exactly one meaning, or is refused for the first reason that applies.
pub fn law_end_line_meaning_is_unique()
    ensures { (role : Role) (held : ℕ) (line : List ℕ) →
        HasOneMeaningOrFault (end_command_line_fault role held line) (EndCommandLineMeans role held line) }
{}

/// Law: a line of the `end` command that has a form is not read as a skipped line, and a call is one that this side supports: an arrival,
/// a loss or the SABM of another mobile is none.
pub fn law_end_line_is_not_skipped()
    ensures skipped { (role : Role) (held : ℕ) (line : List ℕ) → EndCommandLineMeans role held line NoLine
        → LineMeans (end_command_line_forms (call_line_forms role)) (is_end_command_line_out_of_order held) line None }
    ensures calls { (role : Role) (held : ℕ) (line : List ℕ) (event : EventOf) → EndCommandLineMeans role held line (CallsEvent event)
        → IsCallOfRole role event }
{}
