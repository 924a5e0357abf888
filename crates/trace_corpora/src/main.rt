// Replays the stored corpora, one after the other; standard output is egui's answers, one checksum a call. compare/corpora.md says what they hold.
#![tactic(auto)]

use trace::run::{Form, replay};

// 16 MiB of words are more than the corpora have.
fn main() {
    replay(Form::Sums, 4194304);
}
