// The tables that codewords are read with.
ghost use Rattle.std.specs.Prelude.{◌≡◌, ◌+◌, ◌^◌, ◌<◌};
ghost use Rattle.bits.specs.Bytes.{step_of};
ghost use Rattle.codeword.specs.Ranges.{Rate};
ghost use Rattle.codeword.specs.Readings.{reading_of, reading_table, step_table};

use codeword::{BITS, WORDS};

// What the words of all rates are read as, and what each bit adds to a number that counts flips. They are made once a frame and
// lent from there on, since a constant array is copied at each use.
#[derive(Drop)]
pub struct Tables {
    readings: [u8; WORDS],
    steps: [u64; BITS],
    ghost all_words: { readings ≡ reading_table },
    ghost all_bits: { steps ≡ step_table },
}

impl Tables {
    pub fn new() -> Self {
        Tables {
            readings: codeword::readings(),
            steps: codeword::steps(),
        }
    }

    // What a word of this rate is read as.
    pub(crate) fn reading(&self, rate: u8, word: u8) -> u8
        requires { Rate rate × (word < 2 ^ (4 + rate)) }
        ensures { result ≡ reading_of rate word }
    {
        codeword::read_word(&self.readings, rate, word)
    }

    // What a bit adds, 0 to 7, or 8 for none.
    #[tactic(auto, using(codeword::proofs::Lookup::step_is))]
    pub(crate) fn step(&self, bit: u8) -> u64
        requires { bit < 9 }
        ensures { result ≡ step_of 8 bit }
    {
        self.steps[usize::from(bit)]
    }
}
