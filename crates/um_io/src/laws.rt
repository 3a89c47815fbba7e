//! Laws about the division of octets into lines and about the results of a line reader. A law is a function with an empty body whose
//! contract states a theorem.
ghost use Rattle.std.specs.Prelude.{◌≡◌, ℕ, List, Option, Some, ◌++◌};
ghost use Rattle.um_io.specs.Lines.{IsDividedIntoLines, lines_of_octets};
ghost use Rattle.um_io.specs.Reading.{ReaderState, IsValidReader, new_reader};
ghost use Rattle.um_io.specs.Next.{IsReaderStep};
ghost use Rattle.um_io.specs.Answers.{CallsReturnLines, ReaderStopsWith};
ghost use Rattle.um_io.specs.declared.lines.Next.{Next};

/// Law: every list of octets can be divided into lines in exactly one way.
pub fn law_division_into_lines_is_unique()
    ensures divided { (octets : List ℕ) → IsDividedIntoLines octets (lines_of_octets octets) }
    ensures only { (octets : List ℕ) (lines : List (List ℕ)) → IsDividedIntoLines octets lines → lines ≡ lines_of_octets octets }
{}

/// Law: the lines that a line reader returns are the first lines of its source: all lines if it stops with `End`, otherwise the lines
/// before a line that is too long or incomplete.
pub fn law_reader_returns_lines_of_source()
    ensures { (octets : List ℕ) (lines : List (List ℕ)) (came last : List ℕ) (r r' : ReaderState) (left left' : Option (List ℕ))
        (next : Next) → CallsReturnLines new_reader (Some octets) lines came r left → IsReaderStep r r' left left' next last →
        IsValidReader r' →
        ReaderStopsWith next octets (came ++ last) lines }
{}
