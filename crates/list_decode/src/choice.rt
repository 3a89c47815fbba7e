//! Selects the branch whose most likely word ranks first.

ghost use Rattle.std.specs.Prelude.{◌≡◌, ◌⊎◌, ◌++◌, ◌∷◌, [], List, Bool, true, false, Some, IfSome};
ghost use Rattle.std.specs.Prelude.{MatchOption, ◌≤ℤ◌, length};
ghost use Rattle.weight_bound.specs.conv_code.Likelihood.{RanksAfter};
ghost use Rattle.list_decode.specs.Choices.{IsFirstRankedBranch, DecidesLexicographicOrder};
ghost use Rattle.list_decode.specs.Passes.{soft_bits_of_pass};
ghost use Rattle.list_decode.specs.Words.{DeviatesFromWords, IsRanking, open_branches, returned_words, word_made_by};
ghost use Rattle.list_decode.specs.declared.branch.WordBranch.{WordBranch as TheBranch};

use crate::branch::Deviation;
use crate::words::RankedWords;
use trellis_decode::ENCODER_INPUT_BITS;

/// The index of a branch, and the deviation that produces its most likely word.
#[derive(Clone, Copy)]
pub(crate) struct BranchChoice {
    pub(crate) branch: usize,
    pub(crate) deviation: Deviation,
}

/// Returns the branch whose most likely word ranks first, or `None` if no branch has a word.
pub(crate) fn find_first_ranked_branch(words: &RankedWords) -> Option<BranchChoice>
    requires ranking { IsRanking words.now }
    ensures first { IsFirstRankedBranch words.now.pass (returned_words words.now) (open_branches words.now) result }
{
    let mut first = None;
    let mut least = i32::MIN;
    for (i, branch) in words.branches[..2 * words.count - 1].iter().enumerate() {
        if branch.metric >= least {
            if let Some(deviation) = &branch.best {
                first = higher_ranked(words, first, i, deviation);
                least = deviation.metric;
            }
        }
    }
    first
}

/// Returns the higher-ranking of two choices: `first`, the best so far, and branch `branch_index`, whose most likely word results from
/// `deviation`.
fn higher_ranked(
    words: &RankedWords,
    first: Option<BranchChoice>,
    branch_index: usize,
    deviation: &Deviation,
) -> Option<BranchChoice>
    requires ranking { IsRanking words.now }
    requires first { IfSome first (λ old. DeviatesFromWords words.now old.deviation) }
    requires new { DeviatesFromWords words.now deviation.now }
    ensures least { MatchOption result ⊥ (λ x. deviation.now.metric ≤ℤ x.deviation.metric) }
    ensures first { (branches : List TheBranch) (branch : TheBranch) →
        IsFirstRankedBranch words.now.pass (returned_words words.now) branches first →
        branch.best ≡ Some deviation.now → branch_index ≡ length branches →
        IsFirstRankedBranch words.now.pass (returned_words words.now) (branches ++ branch ∷ []) result }
{
    match first {
        None => Some(BranchChoice {
            branch: branch_index,
            deviation: *deviation,
        }),
        Some(old) => {
            if ranks_before(words, deviation, &old.deviation) {
                Some(BranchChoice {
                    branch: branch_index,
                    deviation: *deviation,
                })
            } else {
                Some(old)
            }
        }
    }
}

/// Returns whether the word of `first` ranks before the word of `second`: by path metric, and if the metrics are equal, by lexicographic
/// order.
fn ranks_before(words: &RankedWords, first: &Deviation, second: &Deviation) -> bool
    requires ranking { IsRanking words.now }
    requires first { DeviatesFromWords words.now first.now }
    requires second { DeviatesFromWords words.now second.now }
    ensures least { result ≡ false → first.now.metric ≤ℤ second.now.metric }
    ensures before { result ≡ true → RanksAfter (soft_bits_of_pass words.now.pass) (word_made_by words.now second.now)
        (word_made_by words.now first.now) }
    ensures behind { result ≡ false →
        (word_made_by words.now first.now ≡
        word_made_by words.now second.now) ⊎
        RanksAfter (soft_bits_of_pass words.now.pass) (word_made_by words.now first.now)
        (word_made_by words.now second.now) }
{
    if first.metric != second.metric {
        return first.metric > second.metric;
    }
    match compare_deviation_chains(words, first, second) {
        Some(before) => before,
        None => is_lexicographically_before(words, first, second),
    }
}

/// Decides from the deviations alone whether the first word comes before the second in lexicographic order. It follows both chains of
/// deviations back to a common word; the two words first differ at the earlier of their deviations from that word. Returns `None` if this
/// does not decide the order. So neither word is written out.
fn compare_deviation_chains(
    words: &RankedWords,
    first: &Deviation,
    second: &Deviation,
) -> Option<bool>
    requires ranking { IsRanking words.now }
    requires first { DeviatesFromWords words.now first.now }
    requires second { DeviatesFromWords words.now second.now }
    ensures { IfSome result (DecidesLexicographicOrder (word_made_by words.now first.now)
        (word_made_by words.now second.now)) }
{
    let mut x = *first;
    let mut y = *second;
    while x.word_index != y.word_index {
        if x.word_index > y.word_index {
            x = words.parent_deviation(&x)?;
        } else {
            y = words.parent_deviation(&y)?;
        }
    }
    if x.point.index < y.point.index {
        Some(x.point.bit == 1)
    } else if y.point.index < x.point.index {
        Some(y.point.bit == 0)
    } else {
        None
    }
}

/// Writes out both words, and returns whether the first comes before the second in lexicographic order.
fn is_lexicographically_before(words: &RankedWords, first: &Deviation, second: &Deviation) -> bool
    requires ranking { IsRanking words.now }
    requires first { DeviatesFromWords words.now first.now }
    requires second { DeviatesFromWords words.now second.now }
    ensures { DecidesLexicographicOrder (word_made_by words.now first.now)
        (word_made_by words.now second.now) result }
{
    let mut first_word = [0; ENCODER_INPUT_BITS];
    let mut second_word = [0; ENCODER_INPUT_BITS];
    let u = &mut first_word[..words.pass.bits];
    let v = &mut second_word[..words.pass.bits];
    words.write_word(first.word_index, u);
    first.apply(&words.pass, u);
    words.write_word(second.word_index, v);
    second.apply(&words.pass, v);
    *u < *v
}
