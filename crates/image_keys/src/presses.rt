// How often each key was pressed in the pass, a word each.
ghost use Rattle.std.specs.Prelude.{◌≡◌, ◌+◌, ◌%◌, ◌<◌, ◌≤◌, length, None};
ghost use Rattle.std.proofs.lemmas.List.Edits.{sets};
ghost use Rattle.data.specs.Limits.{key_count};
ghost use Rattle.image.specs.Codes.{In, Each};
ghost use Rattle.image.specs.Places.{bad_at, value_at, rows_bad, rows_at};
ghost use Rattle.image_words.specs.Leaves.{found};
ghost use Rattle.image_options.specs.Options.{Near};
ghost use Rattle.image_keys.specs.Keys.{press_code};

use image_words::{rows_bad, word_at, word_bad};

const MAX_PRESSES: u32 = 255;

// Over a slice, whose length its caller knows, and tells.
pub fn presses_put(presses: &[u8], out: &mut [u32], at: usize)
    requires { (length presses.now ≡ key_count) × (at + key_count ≤ length out.old) }
    ensures { (out.new ≡ sets out.old at presses.now) × Each (In press_code) presses.now × (length presses.now ≡ key_count) }
{
    for i in 0..presses.len() {
        out[at + i] = presses[i] as u32;
    }
}

pub fn presses_bad(words: &[u32], at: usize, n: usize) -> Result<(), usize>
    requires { Near (at + n) }
    ensures { found result ≡ rows_bad 1 (bad_at press_code) n words.now at }
{
    rows_bad(at, n, 1, |k| word_bad(words, k, MAX_PRESSES))
}

// Every place is written.
pub fn presses_at(words: &[u32], at: usize, presses: &mut [u8])
    requires { (length presses.old ≡ key_count) × Near at × (rows_bad 1 (bad_at press_code) key_count words.now at ≡ None) }
    ensures { presses.new ≡ rows_at 1 (value_at press_code) key_count words.now at }
{
    for i in 0..presses.len() {
        presses[i] = (word_at(words, at + i) % 256) as u8;
    }
}
