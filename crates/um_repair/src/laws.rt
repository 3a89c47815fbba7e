//! Laws of the `repair` command. A law does nothing at run time; its contract states a theorem.
ghost use Rattle.std.specs.Prelude.{ℕ, List, ◌≡◌, ◌↔◌, None, Ok, length};
ghost use Rattle.fire_repair.specs.Answers.{IsRepairResult};
ghost use Rattle.fire_repair.specs.declared.repairs.RepairAnswer.{RepairAnswer};
ghost use Rattle.um_lines.specs.bit_blocks.Bits.{AllBits};
ghost use Rattle.um_lines.specs.Forms.{LineMeans, never_misplaced};
ghost use Rattle.um_lines.specs.Meanings.{HasOneMeaningOrFault};
ghost use Rattle.um_lines.specs.RepairForms.{repair_line_forms};
ghost use Rattle.um_repair.specs.RepairLines.{repair_line_fault, RepairLineMeans};
ghost use Rattle.um_repair.specs.RepairRules.{repair_command_rules, repair_result};
ghost use Rattle.um_repair.specs.Texts.{ReportsRepair};
ghost use Rattle.um_repair.specs.declared.parsing.RepairLine.TheVariants.{Skip, Word};

/// Law: `repair_result` is the only correct result for a word of 224 bits, and the answer to a line with a word is the text of a correct
/// result for this word.
pub fn law_repair_result_is_correct()
    ensures result { (word : List ℕ) → length word ≡ 224 → AllBits word → IsRepairResult word (repair_result word) }
    ensures only { (word : List ℕ) (other : RepairAnswer) → length word ≡ 224 → AllBits word → IsRepairResult word other →
        other ≡ repair_result word }

    ensures answer { (line text : List ℕ) (word : List ℕ) → RepairLineMeans line (Word word) →
        (repair_command_rules.step (tt {0}) line ≡ Ok (text, tt {0})) ↔ ReportsRepair word text }

    // Every line either has exactly one meaning, or is refused and has none.
    ensures lines { (line : List ℕ) → HasOneMeaningOrFault (repair_line_fault line) (RepairLineMeans line) }
{}

/// Law: a line that has the form of `repair` is not read as a skipped line.
pub fn law_repair_line_is_not_skipped()
    ensures { (line : List ℕ) → RepairLineMeans line Skip → LineMeans repair_line_forms never_misplaced line None }
{}
