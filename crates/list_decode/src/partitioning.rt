//! Finds the next word in the ranking, and splits the branch of this word (Lawler's partition).

ghost use Rattle.std.specs.Prelude.{◌≡◌, ◌≤◌, ◌+◌, ◌<◌, length, MatchOption};
ghost use Rattle.list_decode.specs.Branches.{IsBranch, IsDeviationInSpan, word_of_deviation};
ghost use Rattle.list_decode.specs.Partitioning.{NoBranchHasUnreturnedWord, IsNextRankedWord};
ghost use Rattle.list_decode.specs.Passes.{IsCompletePass};
ghost use Rattle.list_decode.specs.Words.{IsRanking, open_branches, returned_words};

use crate::branch::{Deviation, WordBranch, WordSpan};
use crate::choice::find_first_ranked_branch;
use crate::pass::ViterbiPass;
use crate::words::RankedWords;

#[derive(Clone, Copy)]
pub(crate) struct NextWord {
    /// The index of the branch whose most likely word is the next word.
    pub(crate) branch: usize,
    /// How this word deviates from an earlier word.
    pub(crate) deviation: Deviation,
    pub(crate) parts: ReplacementBranches,
}

/// The three branches that replace a branch when its most likely word is returned (see `partition`).
#[derive(Clone, Copy)]
pub(crate) struct ReplacementBranches {
    pub(crate) branch_before: WordBranch,
    pub(crate) branch_of_new_word: WordBranch,
    pub(crate) branch_after: WordBranch,
}

/// Writes the next word in the ranking to `u`. Returns `None` if no branch has a word left.
pub(crate) fn find_next_word(words: &RankedWords, u: &mut [u8]) -> Option<NextWord>
    requires ranking { IsRanking words.now }
    requires count { length u.old ≡ words.now.pass.bits }
    ensures next { MatchOption result (NoBranchHasUnreturnedWord (open_branches words.now) × (u.new ≡ u.old))
        (IsNextRankedWord words.now.pass (returned_words words.now) (open_branches words.now) u.new) }
{
    let choice = find_first_ranked_branch(words)?;
    let branches = &words.branches[..2 * words.count - 1];
    let span = branches[choice.branch].span;
    words.write_word(span.word_index, u);
    let parts = partition(&words.pass, u, span, &choice.deviation, words.count as u8);
    Some(NextWord {
        branch: choice.branch,
        deviation: choice.deviation,
        parts,
    })
}

/// Splits a span of `u` at the position where its most likely deviating word deviates, and replaces `u` by this word. In the result,
/// `branch_before` and `branch_after` cover the parts of the span before and after that position, and `branch_of_new_word` covers the
/// positions of the new word after it. The new word has the number `new_index`. Only these three parts are searched; every other branch
/// keeps its best deviation.
fn partition(
    pass: &ViterbiPass,
    u: &mut [u8],
    span: WordSpan,
    deviation: &Deviation,
    new_index: u8,
) -> ReplacementBranches
    requires pass { IsCompletePass pass.now }
    requires inside { IsDeviationInSpan pass.now u.old span deviation.now }
    ensures written { u.new ≡ word_of_deviation pass.now u.old deviation.now }
    ensures before { IsBranch pass.now u.old result.branch_before }
    ensures new_word { IsBranch pass.now u.new result.branch_of_new_word }
    ensures after { IsBranch pass.now u.old result.branch_after }
    ensures before_span { (result.branch_before.span.word_index ≡ span.word_index) × (result.branch_before.span.from ≡ span.from) ×
        (result.branch_before.span.to ≡ deviation.now.point.index) }
    ensures new_word_span { (result.branch_of_new_word.span.word_index ≡ new_index)
        × (result.branch_of_new_word.span.from ≡ deviation.now.point.index + 1) ×
        (result.branch_of_new_word.span.to + 4 ≡ pass.now.bits) }
    ensures after_span { (result.branch_after.span.word_index ≡ span.word_index)
        × (result.branch_after.span.from ≡ deviation.now.point.index + 1) ×
        (result.branch_after.span.to ≡ span.to) }
{
    let index = deviation.point.index;
    let before = WordSpan { to: index, ..span };
    let after = WordSpan {
        from: index + 1,
        state: (2 * deviation.point.state + u[usize::from(index)]) % 16,
        ..span
    };
    let branch_before = WordBranch::new(pass, u, before);
    let branch_after = WordBranch::new(pass, u, after);
    deviation.apply(pass, u);
    let behind = WordSpan {
        metric: deviation.metric,
        word_index: new_index,
        from: index + 1,
        to: (pass.bits - 4) as u8,
        state: (2 * deviation.point.state + u[usize::from(index)]) % 16,
    };
    ReplacementBranches {
        branch_before,
        branch_of_new_word: WordBranch::new(pass, u, behind),
        branch_after,
    }
}
