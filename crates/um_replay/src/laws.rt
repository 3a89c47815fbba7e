//! Laws of the `replay` command. A law does nothing at run time; its contract states a theorem.
ghost use Rattle.std.specs.Prelude.{◌≡◌, ℕ, ℤ, List, [], length};
ghost use Rattle.um_driver.specs.Rules.{Runs};
ghost use Rattle.um_formats.specs.declared.burst_lines.BurstLine.{BurstLine};
ghost use Rattle.um_formats.specs.BurstLines.{BurstLineMeans};
ghost use Rattle.um_replay.specs.Replay.{replay_rules};
ghost use Rattle.um_replay.specs.Reporting.{AnswersBursts, ReportsReception};

/// Law: the answer to each line is the report on what was received: of a block, of its four bursts in order. Two texts that report on the
/// same bursts are equal.
pub fn law_replay_reports_what_was_received()
    ensures lines { (lines texts : List (List ℕ)) (held : List (List ℤ)) → Runs replay_rules [] lines texts held
        → AnswersBursts ReportsReception [] lines texts held }
    ensures only { (held : List (List ℤ)) (line : List ℕ) (meaning : BurstLine) (x y : List ℕ) →
        BurstLineMeans (length held) line meaning
        → ReportsReception held meaning x → ReportsReception held meaning y → x ≡ y }
{}
