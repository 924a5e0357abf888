// The keys, 32 and 4 to a word.
use data::bits::bit_number;
use key_state::keys::{Keys, PRESSES};
use panel::keys::{key_down, num_presses};
use trace_words::words::Answer;

const KEYS_A_WORD: u32 = 32;

const COUNTS_A_WORD: u32 = 4;

// The last word is filled up by zeros.
const KEY_WORDS: u32 = 5;

const PRESS_WORDS: u32 = 37;

// As many keys from `first` on, the first in bit 0.
fn down_word(k: Keys, first: u32) -> u32 {
    let mut bits: u32 = 0;
    for i in (0..KEYS_A_WORD).rev() {
        bits = bits << 1 | bit_number(key_down(k, first % 256 + i));
    }
    bits
}

pub fn keys_down(a: &mut Answer, k: Keys) {
    for j in 0..KEY_WORDS {
        a.word(down_word(k, KEYS_A_WORD * j));
    }
}

pub fn presses(a: &mut Answer, p: &[u8; PRESSES]) {
    for j in 0..PRESS_WORDS {
        let k = COUNTS_A_WORD * j;
        a.word(u32::from_le_bytes([
            num_presses(p, k),
            num_presses(p, k + 1),
            num_presses(p, k + 2),
            num_presses(p, k + 3),
        ]));
    }
}
