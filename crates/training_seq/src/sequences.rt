//! The table of training sequences, as bits and as signs.
ghost use Rattle.std.specs.Prelude.{◌≡◌, ◌<◌, ◌≤◌, map, take, drop, slice_index};
ghost use Rattle.bit_blocks.specs.Bits.{AllBits};
ghost use Rattle.training_seq.specs.Sequences.{midamble, training_sequences};
ghost use Rattle.training_seq.specs.Sums.{sign_of_bit, signs_of_bits};

// A `static`: a `const` was built on the stack in each call.
static TRAINING_SEQUENCES: [[u8; 26]; 8] = [
    [
        0, 0, 1, 0, 0, 1, 0, 1, 1, 1, 0, 0, 0, 0, 1, 0, 0, 0, 1, 0, 0, 1, 0, 1, 1, 1,
    ],
    [
        0, 0, 1, 0, 1, 1, 0, 1, 1, 1, 0, 1, 1, 1, 1, 0, 0, 0, 1, 0, 1, 1, 0, 1, 1, 1,
    ],
    [
        0, 1, 0, 0, 0, 0, 1, 1, 1, 0, 1, 1, 1, 0, 1, 0, 0, 1, 0, 0, 0, 0, 1, 1, 1, 0,
    ],
    [
        0, 1, 0, 0, 0, 1, 1, 1, 1, 0, 1, 1, 0, 1, 0, 0, 0, 1, 0, 0, 0, 1, 1, 1, 1, 0,
    ],
    [
        0, 0, 0, 1, 1, 0, 1, 0, 1, 1, 1, 0, 0, 1, 0, 0, 0, 0, 0, 1, 1, 0, 1, 0, 1, 1,
    ],
    [
        0, 1, 0, 0, 1, 1, 1, 0, 1, 0, 1, 1, 0, 0, 0, 0, 0, 1, 0, 0, 1, 1, 1, 0, 1, 0,
    ],
    [
        1, 0, 1, 0, 0, 1, 1, 1, 1, 1, 0, 1, 1, 0, 0, 0, 1, 0, 1, 0, 0, 1, 1, 1, 1, 1,
    ],
    [
        1, 1, 1, 0, 1, 1, 1, 1, 0, 0, 0, 1, 0, 0, 1, 0, 1, 1, 1, 0, 1, 1, 1, 1, 0, 0,
    ],
];

// The eight training sequences as signs: 1 for each bit 0, and -1 for each bit 1.
static TRAINING_SIGNS: [[i16; 26]; 8] = [
    [
        1, 1, -1, 1, 1, -1, 1, -1, -1, -1, 1, 1, 1, 1, -1, 1, 1, 1, -1, 1, 1, -1, 1, -1, -1, -1,
    ],
    [
        1, 1, -1, 1, -1, -1, 1, -1, -1, -1, 1, -1, -1, -1, -1, 1, 1, 1, -1, 1, -1, -1, 1, -1, -1,
        -1,
    ],
    [
        1, -1, 1, 1, 1, 1, -1, -1, -1, 1, -1, -1, -1, 1, -1, 1, 1, -1, 1, 1, 1, 1, -1, -1, -1, 1,
    ],
    [
        1, -1, 1, 1, 1, -1, -1, -1, -1, 1, -1, -1, 1, -1, 1, 1, 1, -1, 1, 1, 1, -1, -1, -1, -1, 1,
    ],
    [
        1, 1, 1, -1, -1, 1, -1, 1, -1, -1, -1, 1, 1, -1, 1, 1, 1, 1, 1, -1, -1, 1, -1, 1, -1, -1,
    ],
    [
        1, -1, 1, 1, -1, -1, -1, 1, -1, 1, -1, -1, 1, 1, 1, 1, 1, -1, 1, 1, -1, -1, -1, 1, -1, 1,
    ],
    [
        -1, 1, -1, 1, 1, -1, -1, -1, -1, -1, 1, -1, -1, 1, 1, 1, -1, 1, -1, 1, 1, -1, -1, -1, -1,
        -1,
    ],
    [
        -1, -1, -1, 1, -1, -1, -1, -1, 1, 1, 1, -1, 1, 1, -1, 1, -1, -1, -1, 1, -1, -1, -1, -1, 1,
        1,
    ],
];

// The same signs by bit index, so that one vector has the signs of all eight sequences, and their eight correlations: with this a block
// takes 110 instructions less.
static TRAINING_SIGNS_BY_BIT_INDEX: [[i16; 8]; 26] = [
    [1, 1, 1, 1, 1, 1, -1, -1],
    [1, 1, -1, -1, 1, -1, 1, -1],
    [-1, -1, 1, 1, 1, 1, -1, -1],
    [1, 1, 1, 1, -1, 1, 1, 1],
    [1, -1, 1, 1, -1, -1, 1, -1],
    [-1, -1, 1, -1, 1, -1, -1, -1],
    [1, 1, -1, -1, -1, -1, -1, -1],
    [-1, -1, -1, -1, 1, 1, -1, -1],
    [-1, -1, -1, -1, -1, -1, -1, 1],
    [-1, -1, 1, 1, -1, 1, -1, 1],
    [1, 1, -1, -1, -1, -1, 1, 1],
    [1, -1, -1, -1, 1, -1, -1, -1],
    [1, -1, -1, 1, 1, 1, -1, 1],
    [1, -1, 1, -1, -1, 1, 1, 1],
    [-1, -1, -1, 1, 1, 1, 1, -1],
    [1, 1, 1, 1, 1, 1, 1, 1],
    [1, 1, 1, 1, 1, 1, -1, -1],
    [1, 1, -1, -1, 1, -1, 1, -1],
    [-1, -1, 1, 1, 1, 1, -1, -1],
    [1, 1, 1, 1, -1, 1, 1, 1],
    [1, -1, 1, 1, -1, -1, 1, -1],
    [-1, -1, 1, -1, 1, -1, -1, -1],
    [1, 1, -1, -1, -1, -1, -1, -1],
    [-1, -1, -1, -1, 1, 1, -1, -1],
    [-1, -1, -1, -1, -1, -1, -1, 1],
    [-1, -1, 1, 1, -1, 1, -1, 1],
];

/// Returns the 26 bits of the training sequence with code `tsc` (GSM 05.02 section 5.2.3).
pub fn sequence(tsc: u8) -> [u8; 26]
    requires { tsc ≤ 7 }
    ensures value { result ≡ midamble tsc }
    ensures bits { AllBits result }
    ensures repeats { take 10 result ≡ drop 16 result }
{
    TRAINING_SEQUENCES[tsc as usize]
}

pub(crate) fn signs(tsc: u8) -> &'static [i16; 26]
    requires { tsc ≤ 7 }
    ensures { result.now ≡ signs_of_bits (midamble tsc) }
{
    &TRAINING_SIGNS[tsc as usize]
}

pub(crate) fn all_tsc_signs_at(bit_index: usize) -> &'static [i16; 8]
    requires { bit_index < 26 }
    ensures { result.now ≡ map (λ bits. sign_of_bit (slice_index bits bit_index)) training_sequences }
{
    &TRAINING_SIGNS_BY_BIT_INDEX[bit_index]
}
