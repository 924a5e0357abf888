// A feed is split into events by their first words alone.
ghost use Rattle.std.specs.Prelude.{◌≡◌};
ghost use Rattle.feed.specs.Split.{following, piece_length};

use data::kinds::{KIND_UNIT, TOUCH_KIND};

// The words that follow an event's first word, by its kind. A touch has one more when force is present.
const LENGTHS: [u8; 16] = [0, 0, 0, 2, 2, 2, 0, 1, 1, 6, 2, 0, 0, 0, 0, 0];

// The kind as a place of the table.
const TOUCH: usize = TOUCH_KIND as usize;

// The words that follow the first word `head` of an event.
#[tactic(auto, using(crate::proofs::Lengths::length_le), unfolding(crate::specs::Split::following))]
pub fn following(head: u32) -> usize
    ensures { result ≡ following head }
{
    let kind = (head / KIND_UNIT) as usize;
    let n = LENGTHS[kind] as usize;
    if kind == TOUCH {
        return n + (head / 4 % 2) as usize;
    }
    n
}

// The words of an event whose first word is `head`.
#[tactic(auto, using(crate::proofs::Lengths::following_le), unfolding(crate::specs::Split::piece_length))]
pub fn piece_length(head: u32) -> usize
    ensures { result ≡ piece_length head }
{
    following(head) + 1
}
