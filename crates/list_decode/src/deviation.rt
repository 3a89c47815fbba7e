//! The best position for a deviation from a word, and the word that deviates there.

ghost use Rattle.std.specs.Prelude.{◌≡◌, true, false, pos, ℤ, ◌-ℤ◌, ◌<ℤ◌, ◌≤ℤ◌, List, Some};
ghost use Rattle.std.specs.Prelude.{ℕ, ◌+◌, ◌-◌};
ghost use Rattle.std.specs.Prelude.{◌*◌, ◌%◌, ◌<◌, ◌≤◌, length, slice_index, ◌++◌, ◌∷◌};
ghost use Rattle.std.proofs.Common.{take, drop};
ghost use Rattle.weight_bound.specs.bit_blocks.Bits.{AllBits};
ghost use Rattle.list_decode.specs.DeviatingWords.{IsLeastLossPosition, is_in_range, state_after_bits};
ghost use Rattle.list_decode.specs.LeastLosses.{IsLeastLossDeviationOrNone};
ghost use Rattle.list_decode.specs.PartialTracebacks.{IsPartialTraceback};
ghost use Rattle.trellis_decode.specs.Trellis.{next_trellis_state, traceback};

use trellis_decode::{ENCODER_INPUT_BITS, trace_back};

/// A position where another word deviates from a given word, and the trellis state before this position.
#[derive(Clone, Copy)]
pub(crate) struct DeviationPoint {
    pub(crate) index: u8,
    pub(crate) state: u8,
    /// The bit of the original word at the position.
    pub(crate) bit: u8,
}

impl DeviationPoint {
    pub(crate) fn new(index: usize, state: usize, bit: u8) -> DeviationPoint
        requires index { index ≤ 255 }
        requires state { state < 16 }
        ensures index { result.index ≡ index }
        ensures state { result.state ≡ state }
        ensures bit { result.bit ≡ bit }
        ensures small { result.state < 16 }
    {
        DeviationPoint {
            index: index as u8,
            state: state as u8,
            bit,
        }
    }
}

/// A position for a deviation, the trellis state before it, and how much path metric the deviation loses.
#[derive(Clone, Copy)]
pub(crate) struct PossibleDeviation {
    pub(crate) index: usize,
    pub(crate) state: usize,
    pub(crate) loss: i32,
    /// A later position is better if its loss is at most this limit: the loss here, minus 1 if the word has a 1 here. Changing a 0 to a 1
    /// moves the word later in lexicographic order, so if the losses are equal, the later position is better than a 0.
    pub(crate) loss_limit: i32,
}

impl PossibleDeviation {
    pub(crate) fn new(index: usize, state: usize, loss: i16, bit: u8) -> PossibleDeviation
        requires { bit ≤ 1 }
        ensures index { result.index ≡ index }
        ensures state { result.state ≡ state }
        ensures loss { result.loss ≡ loss }
        ensures loss_limit { result.loss_limit ≡ loss -ℤ pos bit }
    {
        let loss = i32::from(loss);
        PossibleDeviation {
            index,
            state,
            loss,
            loss_limit: loss - i32::from(bit),
        }
    }

    /// Whether a later position with the loss `loss` is better for a deviation than this position.
    pub(crate) fn is_improved_by(&self, loss: i32) -> bool
        ensures after { result ≡ true → loss ≤ℤ self.now.loss_limit }
        ensures not_after { result ≡ false → self.now.loss_limit <ℤ loss }
    {
        loss <= self.loss_limit
    }

    /// Returns the better of this position, the best of a range, and `later`, the best of the range that follows.
    pub(crate) fn or_later_deviation_if_better(self, later: PossibleDeviation) -> PossibleDeviation
        ensures { (u : List ℕ) (losses : List (List ℤ)) (from k n : ℕ) →
            IsLeastLossDeviationOrNone u losses (is_in_range from k) k (Some self) →
            IsLeastLossDeviationOrNone u losses (is_in_range k n) n (Some later) →
            IsLeastLossDeviationOrNone u losses (is_in_range from n) n (Some result) }
    {
        if self.is_improved_by(later.loss) {
            later
        } else {
            self
        }
    }
}

/// The state of a traceback that has reached some position.
#[derive(Clone, Copy)]
struct PartialTraceback {
    /// The trellis state before the next position.
    state: usize,
    best: PossibleDeviation,
}

impl PartialTraceback {
    /// Traces back the bit at position `k`, and keeps the better position for a deviation.
    fn trace_back_bit(
        self,
        k: usize,
        rows: &[u16],
        losses: &[[i16; 16]],
        u: &mut [u8],
    ) -> PartialTraceback
        requires rows { length rows.now ≡ length u.old }
        requires same { length losses.now ≡ length u.old }
        requires at_most { length u.old ≤ ENCODER_INPUT_BITS }
        requires within { k + 4 < length u.old }
        requires reading { IsPartialTraceback rows.now losses.now u.old k self }
        ensures reading { IsPartialTraceback rows.now losses.now u.new (k + 1) result }
    {
        let bit = ((rows[k] >> self.state) & 1) as u8;
        let loss = losses[k][self.state];
        u[k] = bit;
        PartialTraceback {
            state: (2 * self.state + usize::from(bit)) % 16,
            best: if self.best.is_improved_by(i32::from(loss)) {
                PossibleDeviation::new(k, self.state, loss, bit)
            } else {
                self.best
            },
        }
    }
}

/// Writes to `u` the survivor of state 0, which is the most likely word, and returns the position where a deviation has the least loss. On
/// a tie, it returns the position whose deviating word comes first in lexicographic order.
pub(crate) fn find_least_loss(rows: &[u16], losses: &[[i16; 16]], u: &mut [u8]) -> PossibleDeviation
    requires rows { length rows.now ≡ length u.old }
    requires same { length losses.now ≡ length u.old }
    requires at_least { 5 ≤ length u.old }
    requires at_most { length u.old ≤ ENCODER_INPUT_BITS }
    ensures list { u.new ≡ traceback rows.now 0 }
    ensures least { IsLeastLossPosition u.new losses.now (length u.new - 4) result.index result.loss }
    ensures state { result.state ≡ state_after_bits 0 (take result.index u.new) }
    ensures within { result.index + 4 < length u.new }
{
    let free = u.len() - 4;
    let groups = free / 4;
    let mut reading = trace_back_groups_of_four(groups, rows, losses, u);
    for k in 4 * groups..free {
        reading = reading.trace_back_bit(k, rows, losses, u);
    }
    trace_back(&rows[free..], reading.state as u16, &mut u[free..]);
    reading.best
}

/// Traces back the first `4 * groups` positions, four in each iteration to reduce loop overhead.
fn trace_back_groups_of_four(
    groups: usize,
    rows: &[u16],
    losses: &[[i16; 16]],
    u: &mut [u8],
) -> PartialTraceback
    requires rows { length rows.now ≡ length u.old }
    requires same { length losses.now ≡ length u.old }
    requires at_least { 5 ≤ length u.old }
    requires at_most { length u.old ≤ ENCODER_INPUT_BITS }
    requires within { 4 * groups + 4 ≤ length u.old }
    ensures reading { IsPartialTraceback rows.now losses.now u.new (4 * groups) result }
{
    let mut reading = PartialTraceback {
        state: 0,
        best: PossibleDeviation::new(0, 0, losses[0][0], (rows[0] & 1) as u8),
    };
    for group in 0..groups {
        let k = 4 * group;
        reading = reading
            .trace_back_bit(k, rows, losses, u)
            .trace_back_bit(k + 1, rows, losses, u)
            .trace_back_bit(k + 2, rows, losses, u)
            .trace_back_bit(k + 3, rows, losses, u);
    }
    reading
}

/// Writes to `v` the word that deviates from `word` at the given position and then follows the survivors. After it, `word` must follow
/// the survivors too.
pub(crate) fn write_deviating_word(word: &[u8], rows: &[u16], point: DeviationPoint, v: &mut [u8])
    requires bits { AllBits word.now }
    requires rows { length rows.now ≡ length word.now }
    requires chosen { drop (point.index + 1) word.now ≡
        traceback (drop (point.index + 1) rows.now) (next_trellis_state point.state (slice_index word.now point.index)) }
    requires count { length v.old ≡ length word.now }
    requires within { point.index < length word.now }
    requires state { point.state < 16 }
    ensures { v.new ≡ take point.index word.now ++ (1 - slice_index word.now point.index) ∷
        traceback (drop (point.index + 1) rows.now) (next_trellis_state point.state (1 - slice_index word.now point.index)) }
{
    v.copy_from_slice(word);
    apply_deviation(rows, point, v);
}

/// Replaces `u` by the word that deviates from it at the given position. After that position, both the old and the new `u` follow the
/// survivors.
pub(crate) fn apply_deviation(rows: &[u16], point: DeviationPoint, u: &mut [u8])
    requires bits { AllBits u.old }
    requires rows { length rows.now ≡ length u.old }
    requires chosen { drop (point.index + 1) u.old ≡
        traceback (drop (point.index + 1) rows.now) (next_trellis_state point.state (slice_index u.old point.index)) }
    requires within { point.index < length u.old }
    requires state { point.state < 16 }
    ensures { u.new ≡ take point.index u.old ++ (1 - slice_index u.old point.index) ∷
        traceback (drop (point.index + 1) rows.now) (next_trellis_state point.state (1 - slice_index u.old point.index)) }
{
    let index = usize::from(point.index);
    let bit = 1 - u[index];
    u[index] = bit;
    let state = (2 * u16::from(point.state) + u16::from(bit)) % 16;
    replace_until_merged(&rows[index + 1..], state, &mut u[index + 1..]);
}

/// Replaces the survivor of some state in `u` by the survivor of `state`. Once the two reach the same state, they agree, so the loop ends
/// there, usually after some twenty positions. A state is the last four bits, so the states are compared after every fourth position, and
/// the old one is read from `u`.
fn replace_until_merged(rows: &[u16], state: u16, u: &mut [u8])
    requires count { length u.old ≡ length rows.now }
    requires chosen { (old_state : ℕ) × (u.old ≡ traceback rows.now old_state) }
    requires state { state < 16 }
    ensures { u.new ≡ traceback rows.now state }
{
    let groups = rows.len() / 4;
    let mut state = state;
    for group in 0..groups {
        let k = 4 * group;
        let first_two = 2 * u16::from(u[k]) + u16::from(u[k + 1]);
        let old_state = 2 * (2 * first_two + u16::from(u[k + 2])) + u16::from(u[k + 3]);
        for i in 0..4 {
            let bit = (rows[k + i] >> state) & 1;
            u[k + i] = bit as u8;
            state = (2 * state + bit) % 16;
        }
        if state == old_state {
            return;
        }
    }
    trace_back(&rows[4 * groups..], state, &mut u[4 * groups..]);
}
