// What the words of a request say. A word past the end is 0: the lengths are tested before.
ghost use Rattle.std.specs.Prelude.{◌≡◌};
ghost use Rattle.data.specs.Bits.{bit_of};
ghost use Rattle.trace_words.specs.Request.{word_at, float_at, id_at, seconds_at};

use data::layers::LayerId;
use data::widget::WidgetRect;
use emath::pos2::Pos2;
use emath::rect::Rect;

pub fn at(w: &[u32], i: usize) -> u32
    ensures { result ≡ word_at w.now i }
{
    w.get(i).copied().unwrap_or(0)
}

pub fn float(w: &[u32], i: usize) -> f32
    ensures { result ≡ float_at w.now i }
{
    ieee::bits::from_bits32(at(w, i))
}

// Low word, high word.
pub fn id(w: &[u32], i: usize, j: usize) -> u64
    ensures { result ≡ id_at w.now i j }
{
    u64::from(at(w, i)) + u64::from(at(w, j)) * 0x1_0000_0000
}

pub fn seconds(w: &[u32], i: usize, j: usize) -> f64
    ensures { result ≡ seconds_at w.now i j }
{
    ieee::bits::from_bits64(id(w, i, j))
}

// The bit of weight `of`; by division, since the contract speaks of any weight.
pub fn bit(w: u32, of: u32) -> bool
    ensures { result ≡ bit_of of w }
{
    if of == 0 {
        return false;
    }
    w / of % 2 == 1
}

// A pass has as many, and then the feed.
pub const PASS_WORDS: usize = 18;

pub const WIDGET_WORDS: usize = 17;

pub const INSERT_WORDS: usize = 18;

fn pos(w: &[u32], i: usize, j: usize) -> Pos2 {
    Pos2 {
        x: float(w, i),
        y: float(w, j),
    }
}

// The record in the first 17 words.
pub fn widget(w: &[u32]) -> WidgetRect {
    let bits = at(w, 16);
    WidgetRect {
        id: id(w, 0, 1),
        parent_id: id(w, 2, 3),
        layer_id: LayerId {
            order: at(w, 4),
            id: id(w, 5, 6),
        },
        rect: Rect {
            min: pos(w, 7, 8),
            max: pos(w, 9, 10),
        },
        interact_rect: Rect {
            min: pos(w, 11, 12),
            max: pos(w, 13, 14),
        },
        sense: at(w, 15),
        enabled: bit(bits, 1),
        visible: bit(bits, 2),
    }
}
