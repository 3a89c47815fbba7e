//! Implements the `show` command as an `Answer` for the driver.
ghost use Rattle.std.specs.Prelude.{◌≡◌, [], Ok, Err, MatchResult};
ghost use Rattle.um_driver.specs.Rules.{answer_to_meaning};
ghost use Rattle.um_formats.specs.ShowLines.{show_line};
ghost use Rattle.um_show.specs.Show.{show_answer};

use um_driver::Answer;
use um_formats::{LineFault, ShowLine, Text, frame_line, octets_line, parse_show};

/// The `show` command, which answers each line on its own.
#[derive(Clone, Copy, Debug)]
pub struct Show;

impl Answer for Show {
    ghost answers = { λ line. answer_to_meaning show_answer (show_line line) };

    fn answer(&self, line: &[u8], out: &mut Text) -> Result<(), LineFault> {
        match parse_show(line)? {
            ShowLine::Skip => {}
            ShowLine::Octets(octets) => frame_line(out, &octets),
            ShowLine::Frame(octets) => octets_line(out, &octets),
        }
        Ok(())
    }
}
