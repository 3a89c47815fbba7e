//! Tests whether all octets of a word belong to a set.
ghost use Rattle.std.specs.Prelude.{◌≡◌, ◌<◌, ◌≤◌, ℕ, Bool, length};
ghost use Rattle.std.specs.List.{list_all};

pub(crate) trait OctetSet {
    ghost has: { ℕ → Bool };

    fn contains_octet(octet: u8) -> bool
        ensures { result ≡ has octet };
}

/// Whether the set contains all octets of a word. Long words are tested 64 or 16 octets at a time, so that the compiler uses vector
/// instructions.
pub(crate) fn all_octets_in_set<S: OctetSet>(word: &[u8]) -> bool
    ensures { result ≡ list_all S.has word.now }
{
    if word.len() >= 64 {
        all_in_set_in_steps::<S, 64>(word)
    } else if word.len() >= 16 {
        all_in_set_in_steps::<S, 16>(word)
    } else {
        all_in_set_one_by_one::<S>(word)
    }
}

// No octet ends the loop early, so that the compiler can vectorise it.
fn all_in_set_one_by_one<S: OctetSet>(word: &[u8]) -> bool
    ensures { result ≡ list_all S.has word.now }
{
    let mut all = true;
    for octet in word {
        all &= S::contains_octet(*octet);
    }
    all
}

// Whether the set contains all octets of a word, tested `N` at a time; the last `N` may overlap the preceding ones, so that no rest needs a
// loop of its own.
fn all_in_set_in_steps<S: OctetSet, const N: usize>(word: &[u8]) -> bool
    requires some { 0 < N }
    requires enough { N ≤ length word.now }
    ensures { result ≡ list_all S.has word.now }
{
    let last = word.len() - N;
    let mut all = true;
    let mut at = 0;
    while at < last {
        all &= all_in_set_one_by_one::<S>(&word[at..at + N]);
        at += N;
    }
    all & all_in_set_one_by_one::<S>(&word[last..last + N])
}
