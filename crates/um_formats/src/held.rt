//! A buffer for the bursts of an incomplete block.
ghost use Rattle.std.specs.Prelude.{◌≡◌, ◌-◌, ◌≤◌, ℕ, pos, List, [], length, map, replicate, IsTrue, IfOk, OnErr};
ghost use Rattle.std.specs.Prelude.{MatchOption, slice_index_or};
ghost use Rattle.std.specs.List.{All, list_all};
ghost use Rattle.std.specs.Result.{result_err};
ghost use Rattle.um_block.specs.conv_code.Likelihood.{AllSoftBits};
ghost use Rattle.um_block.specs.Received.{soft_bits};
ghost use Rattle.um_lines.specs.Fields.{is_bit_digit};
ghost use Rattle.um_formats.specs.SoftOctets.{signed_octets};
ghost use Rattle.um_formats.specs.declared.burst_lines.BurstLine.{BurstLine as Meaning};
ghost use Rattle.um_formats.specs.BurstLines.{burst_line_fault, BurstLineMeans};
ghost use Rattle.um_formats.specs.Held.{AddsNormalBurst, HoldsBurstOfLine, IsHardNormalBurstLine, IsSoftNormalBurstLine};
ghost use Rattle.um_formats.specs.Held.{GivesBurstsToDecode};
ghost use Rattle.um_formats.specs.Held.{HasValidSoftValues};
ghost use Rattle.um_formats.specs.Held.{normal_burst_result};

use crate::burst_lines::{
    BurstLine, hard_normal_burst_digits, parse_burst, soft_normal_burst_digits,
};
use crate::soft_digits::{has_minus_128, write_signed_values, write_soft_values_of_bit_digits};
use std::marker::Model;
use um_block::{BURST_BITS, Bits};
use um_lines::{LineFault, decode_hex};

/// A buffer for the four normal bursts of a block, filled in order. It keeps a complete block until the next normal burst arrives.
#[derive(Drop)]
pub struct HeldBursts {
    bursts: [[i8; BURST_BITS]; 4],
    count: u8,
}

// In contracts, a `HeldBursts` stands for the bursts of the incomplete block and all four bursts in the buffer.
impl Model for HeldBursts {
    ghost use Rattle.std.specs.Prelude.{◌≤◌, take};
    ghost use Rattle.std.specs.List.{All};
    ghost use Rattle.um_block.specs.conv_code.Likelihood.{AllSoftBits};
    ghost use Rattle.um_formats.specs.Held.{BurstBuffer};

    ghost Value = { BurstBuffer };

    ghost view = { λ h. record { held = take h.count h.bursts; slots = h.bursts } };

    ghost invariant = { λ h. (h.count ≤ 3) × All AllSoftBits h.bursts };
}

/// What a line of `replay` makes ready to decode: nothing, a burst, or a complete block.
#[derive(Clone, Copy, Drop)]
pub enum BurstsToDecode {
    /// Nothing: the line is empty or begins with `#`.
    Skip,
    /// A normal burst, which is held until its block is complete.
    Held,
    /// The fourth burst of a block. `HeldBursts::block` lends the whole block, so that it is not copied.
    Block,
    /// An access burst, and the base station identity code (BSIC) of the cell.
    Access { bsic: Bits<6>, soft: [i8; 88] },
    /// A synchronisation burst.
    Sync([i8; BURST_BITS]),
}

impl HeldBursts {
    /// An empty buffer.
    pub fn new() -> HeldBursts
        ensures held { result.held ≡ [] }
        ensures places { result.slots ≡ replicate 4 (replicate BURST_BITS (pos 0)) }
    {
        HeldBursts {
            bursts: [[0; BURST_BITS]; 4],
            count: 0,
        }
    }

    /// The number of bursts of the incomplete block, 0 to 3.
    pub fn count(&self) -> u8
        ensures count { result ≡ length self.now.held }
        ensures size { result ≤ 3 }
    {
        self.count
    }

    /// The four bursts in the buffer, which are the last complete block until another burst is added.
    pub fn block(&self) -> &[[i8; BURST_BITS]; 4]
        ensures bursts { result.now ≡ self.now.slots }
        ensures soft { All AllSoftBits result.now }
    {
        &self.bursts
    }

    /// Adds a normal burst to the buffer, and returns true if it completes a block.
    #[tactic(auto, using(crate::proofs::BurstLines::adds_next, crate::proofs::BurstLines::written_next))]
    pub fn add(&mut self, burst: [i8; BURST_BITS]) -> bool
        requires { AllSoftBits burst }
        ensures { AddsNormalBurst self.old burst result self.new }
    {
        self.bursts[self.count as usize] = burst;
        self.count_burst()
    }

    /// As `add`, for hard bits given as digits. Writes their soft values at their place in the block, so that no burst is copied.
    #[tactic(auto, using(crate::proofs::BurstLines::adds_next, crate::proofs::BurstLines::written_next))]
    fn add_hard_burst(&mut self, digits: &[u8]) -> bool
        requires each { IsTrue (list_all is_bit_digit digits.now) }
        requires size { length digits.now ≡ BURST_BITS }
        ensures { AddsNormalBurst self.old (soft_bits (map (λ octet. octet - 48) digits.now)) result self.new }
    {
        write_soft_values_of_bit_digits(digits, &mut self.bursts[self.count as usize]);
        self.count_burst()
    }

    /// As `add`, for soft values given as octets.
    #[tactic(auto, using(crate::proofs::BurstLines::adds_next, crate::proofs::BurstLines::written_next))]
    fn add_soft_burst(&mut self, octets: &[u8; BURST_BITS]) -> bool
        requires { AllSoftBits (signed_octets octets.now) }
        ensures { AddsNormalBurst self.old (signed_octets octets.now) result self.new }
    {
        write_signed_values(octets, &mut self.bursts[self.count as usize]);
        self.count_burst()
    }

    /// Holds the burst at the first free place, and returns true if it completes a block.
    #[inline(always)]
    #[tactic(auto, using(crate::proofs::BurstLines::next_held, crate::proofs::BurstLines::fourth_held))]
    fn count_burst(&mut self) -> bool
        ensures { AddsNormalBurst self.old (slice_index_or self.old.slots (length self.old.held) []) result self.new }
    {
        if self.count < 3 {
            self.count += 1;
            return false;
        }
        self.count = 0;
        true
    }
}

/// Adds the burst in a valid line `n DIGITS148` or `N HEX296` to `held`, and returns whether it completes a block. For any other line,
/// returns `None` and leaves `held` unchanged.
#[inline(always)]
pub fn hold_normal_burst(line: &[u8], held: &mut HeldBursts) -> Option<bool>
    ensures { MatchOption result
        ((held.new ≡ held.old) × ((digits : List ℕ) →
        (¬ IsHardNormalBurstLine line.now digits) × (¬ IsSoftNormalBurstLine line.now digits)))
        (HoldsBurstOfLine held.old line.now held.new) }
{
    match hard_normal_burst_digits(line) {
        Some(digits) => Some(held.add_hard_burst(digits)),
        None => hold_soft_burst(line, held),
    }
}

// Decodes into an array of its own, because a line that turns out to be no burst must leave `held` unchanged.
#[inline(never)]
fn hold_soft_burst(line: &[u8], held: &mut HeldBursts) -> Option<bool>
    ensures { MatchOption result ((held.new ≡ held.old) × ((digits : List ℕ) → ¬ IsSoftNormalBurstLine line.now digits))
        (HoldsBurstOfLine held.old line.now held.new) }
{
    let digits = soft_normal_burst_digits(line)?;
    let mut octets = [0; BURST_BITS];
    if !decode_hex(digits, &mut octets) {
        return None;
    }
    if has_minus_128(&octets) {
        return None;
    }
    Some(held.add_soft_burst(&octets))
}

/// Parses a line as `parse_burst` does, and adds a normal burst to `held`. Any other line, or a fault, leaves `held` unchanged.
// Not inlined: it serves the rare lines, since `replay` tries `hold_normal_burst` first.
#[inline(never)]
pub fn parse_and_hold_burst(line: &[u8], held: &mut HeldBursts) -> Result<BurstsToDecode, LineFault>
    ensures means { IfOk result (λ next. (meaning : Meaning) × BurstLineMeans (length held.old.held) line.now meaning
        × GivesBurstsToDecode held.old meaning next held.new) }
    ensures refused { result_err result ≡ burst_line_fault (length held.old.held) line.now }
    ensures soft { IfOk result HasValidSoftValues }
    ensures unchanged { OnErr result (held.new ≡ held.old) }
{
    match parse_burst(line, held.count())? {
        BurstLine::Skip => Ok(BurstsToDecode::Skip),
        BurstLine::Normal(burst) => Ok(normal_burst_result(held.add(burst))),
        BurstLine::Access { bsic, soft } => Ok(BurstsToDecode::Access { bsic, soft }),
        BurstLine::Sync(burst) => Ok(BurstsToDecode::Sync(burst)),
    }
}

fn normal_burst_result(completes_block: bool) -> BurstsToDecode
    ensures { result ≡ normal_burst_result completes_block }
{
    if completes_block {
        BurstsToDecode::Block
    } else {
        BurstsToDecode::Held
    }
}
