//! Laws of ciphering: a law is a function with an empty body whose contract states a theorem.
ghost use Rattle.std.specs.Prelude.{◌≡◌, ℕ, ℤ, List, length, map, neg_ℤ};
ghost use Rattle.bit_blocks.specs.Bits.{AllBits};
ghost use Rattle.um_cipher.specs.Ciphers.{ciphered_bits, ciphered_soft_bits};

/// Law: what is ciphered twice by one key stream is as it was, bits and soft bits.
pub fn law_ciphering_twice_is_nothing()
    ensures bits { (stream burst : List ℕ) → AllBits stream → AllBits burst →
        ciphered_bits stream (ciphered_bits stream burst) ≡ burst }
    ensures soft { (stream : List ℕ) (burst : List ℤ) →
        ciphered_soft_bits stream (ciphered_soft_bits stream burst) ≡ burst }
{}

/// Law: a burst that is sent ciphered, and received and deciphered, is received as it is without ciphering. The channel makes a soft bit of
/// each bit, that of 1 with the other sign than that of 0.
pub fn law_ciphered_bits_are_received_as_sent()
    ensures { (stream burst : List ℕ) (soft_bit : ℕ → ℤ) → AllBits stream → AllBits burst →
        soft_bit 1 ≡ neg_ℤ (soft_bit 0) →
        ciphered_soft_bits stream (map soft_bit (ciphered_bits stream burst)) ≡ map soft_bit burst }
{}
