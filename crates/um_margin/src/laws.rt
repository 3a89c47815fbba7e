//! Laws of the `margin` command. A law does nothing at run time; its contract states a theorem.
ghost use Rattle.std.specs.Prelude.{◌≡◌, ℕ, ◌*◌, ◌-◌, ◌≤◌, ℤ, pos, ◌≤ℤ◌, unsigned_abs, List, [], length};
ghost use Rattle.std.specs.List.{All};
ghost use Rattle.std.proofs.Math.Logic.{◌↔◌};
ghost use Rattle.um_block.specs.bit_blocks.SoftValues.{count_wrong_bits};
ghost use Rattle.um_block.specs.conv_code.Code.{encoding};
ghost use Rattle.list_decode.specs.Ranking.{HasTiedWord};
ghost use Rattle.um_block.specs.Received.{access_soft_bits, sync_soft_bits, IsReceivedBlock, IsReceivedAccess, IsReceivedSync};
ghost use Rattle.um_block.specs.declared.received.Received.{Received};
ghost use Rattle.um_block.specs.declared.received.ReceivedAccess.{ReceivedAccess};
ghost use Rattle.um_block.specs.declared.received.ReceivedSync.{ReceivedSync};
ghost use Rattle.um_margin.specs.Compared.{TwoMostLikelyWords, AreTwoMostLikelyWords, AreTwoMostLikelyBlockWords};
ghost use Rattle.um_margin.specs.Compared.{compared_words, compared_block_words};
ghost use Rattle.um_margin.specs.Comparing.{ComparesWords};
ghost use Rattle.um_margin.specs.Margins.{margin_command_rules};
ghost use Rattle.um_replay.specs.Reporting.{AnswersBursts};
ghost use Rattle.um_replay.specs.um_driver.Rules.{Runs};
ghost use Rattle.um_replay.specs.um_formats.declared.burst_lines.BurstLine.{BurstLine};

/// Law: `compared_words` and `compared_block_words` compare the two most likely words, and no other comparison does.
pub fn law_comparison_is_of_two_most_likely_words()
    ensures words { (soft : List ℤ) (n : ℕ) → length soft ≡ 2 * n → 5 ≤ n → AreTwoMostLikelyWords soft (compared_words soft) }
    ensures only { (soft : List ℤ) (c d : TwoMostLikelyWords) → AreTwoMostLikelyWords soft c → AreTwoMostLikelyWords soft d →
        c ≡ d }
    ensures block { (bursts : List (List ℤ)) → length bursts ≡ 4 → All (λ burst. length burst ≡ 148) bursts →
        AreTwoMostLikelyBlockWords bursts (compared_block_words bursts) }
    ensures only_block { (bursts : List (List ℤ)) (c : TwoMostLikelyWords) → AreTwoMostLikelyBlockWords bursts c →
        c ≡ compared_block_words bursts }
{}

/// Law: the answer to each line compares the two most likely words: for a block, those for its four bursts in order. Two texts that compare
/// the words for the same bursts are equal.
pub fn law_margin_compares_what_was_received()
    ensures lines { (lines texts : List (List ℕ)) (held : List (List ℤ)) → Runs margin_command_rules [] lines texts held
        → AnswersBursts ComparesWords [] lines texts held }
    ensures only { (held : List (List ℤ)) (meaning : BurstLine) (x y : List ℕ) → ComparesWords held meaning x →
        ComparesWords held meaning y → x ≡ y }
{}

/// Law: `replay` reports the same most likely word and path metric for the same bursts.
pub fn law_replay_reports_most_likely_word()
    ensures block { (bursts : List (List ℤ)) (r : Received) (c : TwoMostLikelyWords) → IsReceivedBlock bursts r →
        AreTwoMostLikelyBlockWords bursts c → (c.best ≡ r.u) × (c.metric ≡ r.metric) }
    ensures access { (burst : List ℤ) (bsic : List ℕ) (r : ReceivedAccess) (c : TwoMostLikelyWords) →
        IsReceivedAccess burst bsic r →
        AreTwoMostLikelyWords (access_soft_bits burst) c → (c.best ≡ r.u) × (c.metric ≡ r.metric) }
    ensures sync { (burst : List ℤ) (r : ReceivedSync) (c : TwoMostLikelyWords) → IsReceivedSync burst r →
        AreTwoMostLikelyWords (sync_soft_bits burst) c → (c.best ≡ r.u) × (c.metric ≡ r.metric) }
{}

/// Law: the margin is 0 if and only if another word has the same path metric as the most likely word. For hard bits of which `e` are wrong
/// (at most three), the margin is at least 254 * (7 - 2 * e), which is 1,778 if none is wrong.
pub fn law_margin_zero_on_tie_and_lower_bound()
    ensures tie { (soft : List ℤ) (c : TwoMostLikelyWords) → AreTwoMostLikelyWords soft c →
        (c.margin ≡ pos 0) ↔ HasTiedWord soft c.best }
    ensures hard { (soft : List ℤ) (c : TwoMostLikelyWords) (e : ℕ) → AreTwoMostLikelyWords soft c →
        All (λ value. unsigned_abs value ≡ 127) soft → count_wrong_bits soft (encoding c.best) ≡ e → e ≤ 3 →
        pos (254 * (7 - 2 * e)) ≤ℤ c.margin }
{}
