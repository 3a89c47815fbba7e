//! The check bits that the definitions compute, and codewords.
ghost use Rattle.std.specs.Prelude.{◌≡◌, ◌↔◌, ◌++◌, ℕ, List, length};
ghost use Rattle.bit_blocks.specs.Bits.{AllBits};
ghost use Rattle.fire_code.specs.Crcs.{xcch_crc, rach_crc, sch_crc};
ghost use Rattle.fire_code.specs.Words.{IsXcchCodeword, IsRachCodeword, IsSchCodeword};

/// Law: the check bits that the definitions compute, and no others, make information bits a codeword, which is defined by multiples of the
/// generator.
pub fn law_check_bits_make_the_codeword()
    ensures xcch { (info check : List ℕ) → length info ≡ 184 → AllBits info
        → (check ≡ xcch_crc info) ↔ IsXcchCodeword (info ++ check) }
    ensures rach { (info check bsic : List ℕ) → length info ≡ 8 → AllBits info → length bsic ≡ 6 → AllBits bsic
        → (check ≡ rach_crc info bsic) ↔ IsRachCodeword (info ++ check) bsic }
    ensures sch { (info check : List ℕ) → length info ≡ 25 → AllBits info
        → (check ≡ sch_crc info) ↔ IsSchCodeword (info ++ check) }
{}
