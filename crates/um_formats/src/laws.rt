//! Laws about the functions that read lines and write the text of a frame.
ghost use Rattle.std.specs.Prelude.{ℕ, ◌≡◌, ◌↔◌, List, length, Some, None, Ok, Err};
ghost use Rattle.um_lines.specs.declared.fault.LineFault.{LineFault as Fault};
ghost use Rattle.um_lines.specs.BurstForms.{burst_line_forms, is_burst_out_of_order};
ghost use Rattle.um_lines.specs.CodeForms.{code_line_forms};
ghost use Rattle.um_lines.specs.Forms.{LineMeans, never_misplaced};
ghost use Rattle.um_lines.specs.ShowForms.{show_line_forms};
ghost use Rattle.um_formats.specs.declared.burst_lines.BurstLine.TheVariants as BurstLine;
ghost use Rattle.um_formats.specs.declared.code.CodeLine.TheVariants as CodeLine;
ghost use Rattle.um_formats.specs.declared.show.ShowLine.TheVariants as ShowLine;
ghost use Rattle.um_formats.specs.declared.burst_lines.BurstLine.{BurstLine as BurstMeaning};
ghost use Rattle.um_formats.specs.declared.code.CodeLine.{CodeLine as CodeMeaning};
ghost use Rattle.um_formats.specs.declared.show.ShowLine.{ShowLine as ShowMeaning};
ghost use Rattle.um_formats.specs.BurstLines.{burst_line, burst_line_fault, BurstLineMeans};
ghost use Rattle.um_formats.specs.CodeLines.{code_line, code_line_fault, CodeLineMeans};
ghost use Rattle.um_formats.specs.FrameTexts.{text_of_octets, IsTextOfOctets};
ghost use Rattle.um_formats.specs.ShowLines.{show_line, show_line_fault, ShowLineMeans};

/// Law: `burst_line`, `code_line` and `show_line` give a line a meaning if and only if it is one that the line has, and a fault if and only
/// if it is the first fault of the line.
pub fn law_read_lines_are_meanings_or_faults()
    ensures burst { (held : ℕ) (line : List ℕ) (meaning : BurstMeaning)
        → (burst_line held line ≡ Ok meaning) ↔ BurstLineMeans held line meaning }
    ensures burst_fault { (held : ℕ) (line : List ℕ) (fault : Fault)
        → (burst_line held line ≡ Err fault) ↔ (burst_line_fault held line ≡ Some fault) }
    ensures code { (line : List ℕ) (meaning : CodeMeaning) → (code_line line ≡ Ok meaning) ↔ CodeLineMeans line meaning }
    ensures code_fault { (line : List ℕ) (fault : Fault) → (code_line line ≡ Err fault) ↔ (code_line_fault line ≡ Some fault) }
    ensures show { (line : List ℕ) (meaning : ShowMeaning) → (show_line line ≡ Ok meaning) ↔ ShowLineMeans line meaning }
    ensures show_fault { (line : List ℕ) (fault : Fault) → (show_line line ≡ Err fault) ↔ (show_line_fault line ≡ Some fault) }
{}

/// Law: a line that has a form of its table is not read as a skipped line.
pub fn law_lines_with_a_form_are_not_skipped()
    ensures burst { (held : ℕ) (line : List ℕ) → BurstLineMeans held line BurstLine.Skip
        → LineMeans burst_line_forms (is_burst_out_of_order held) line None }
    ensures code { (line : List ℕ) → CodeLineMeans line CodeLine.Skip → LineMeans code_line_forms never_misplaced line None }
    ensures show { (line : List ℕ) → ShowLineMeans line ShowLine.Skip → LineMeans show_line_forms never_misplaced line None }
{}

/// Law: the text that `text_of_octets` gives for 23 octets is the line of the frame in them, or the line with the first reason why there is
/// none, and no other text is.
pub fn law_text_of_octets_is_that_of_their_frame()
    ensures { (octets text : List ℕ) → length octets ≡ 23 → (text_of_octets octets ≡ text) ↔ IsTextOfOctets octets text }
{}
