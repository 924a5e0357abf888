// An answer's words, one after the other. None has more than there is room for.
ghost use Rattle.std.specs.Prelude.{◌≡◌, ◌≤◌, ◌%◌, take};

use crate::said::Said;
use data::bits::bit_number;
use data::modifiers::Modifiers;
use data::widget::WidgetRect;
use emath::pos2::Pos2;
use emath::rect::Rect;
use emath::vec2::Vec2;

pub const ROOM: usize = 65536;

// The first `len` words are written.
#[derive(Clone, Copy)]
pub struct Answer {
    words: [u32; ROOM],
    len: usize,
    ghost fits: { len ≤ 65536 },
}

impl Answer {
    ghost use Rattle.data.specs.Bits.{bit_number};
    ghost use Rattle.data.specs.Modifiers.{modifiers_number};
    ghost use Rattle.trace_words.specs.Words.{Written, held, put_word, Says, zero_words, id_words, float_words, seconds_words, pos_words, vec_words, rect_words, widget_words, maybe_words, maybe_id_words, bits_number};

    // Kept (plain): words here, bytes in the output: the two have a length of 0 in common.
    pub fn new() -> Answer
        ensures { result.len ≡ 0 }
    {
        Answer {
            words: [0; ROOM],
            len: 0,
        }
    }

    pub fn clear(&mut self)
        ensures { (self.new.len ≡ 0) × (self.new.words ≡ self.old.words) }
    {
        self.len = 0;
    }

    pub fn len(&self) -> usize
        ensures { result ≡ self.now.len }
    {
        self.words().len()
    }

    // What is written.
    pub fn words(&self) -> &[u32]
        ensures { result.now ≡ take self.now.len self.now.words }
    {
        &self.words[..self.len]
    }

    #[tactic(auto, unfolding(crate::specs::Words::put_word))]
    pub fn word(&mut self, w: u32)
        ensures written { Written w self.old self.new }
        ensures put { held self.new ≡ put_word w (held self.old) }
    {
        if self.len < ROOM {
            self.words[self.len] = w;
            self.len += 1;
        }
    }

    #[tactic(auto, unfolding(crate::specs::Words::put_words))]
    pub fn all(&mut self, words: &[u32])
        ensures { Says words.now self.old self.new }
    {
        for w in words {
            self.word(*w);
        }
    }

    #[tactic(auto, unfolding(crate::specs::Words::put_words, crate::specs::Words::zero_words))]
    pub fn zeros(&mut self, k: usize)
        ensures { Says (zero_words k) self.old self.new }
    {
        for _ in 0..k {
            self.word(0);
        }
    }

    // Low word, high word.
    #[tactic(auto, unfolding(crate::specs::Words::put_words))]
    pub fn id(&mut self, d: u64)
        ensures { Says (id_words d) self.old self.new }
    {
        self.word((d % 0x1_0000_0000) as u32);
        self.word((d / 0x1_0000_0000) as u32);
    }

    pub fn count(&mut self, c: usize)
        ensures written { Written (c % 0x1_0000_0000) self.old self.new }
        ensures put { held self.new ≡ put_word (c % 0x1_0000_0000) (held self.old) }
    {
        self.word((c % 0x1_0000_0000) as u32);
    }

    pub fn flag(&mut self, b: bool)
        ensures { held self.new ≡ put_word (bit_number b) (held self.old) }
    {
        self.word(bit_number(b));
    }

    // The first in bit 0, at most 32.
    pub fn bits(&mut self, flags: &[bool])
        ensures { held self.new ≡ put_word (bits_number flags.now % 0x1_0000_0000) (held self.old) }
    {
        let mut w: u32 = 0;
        for b in flags.iter().rev() {
            w = w % 0x8000_0000 * 2 + bit_number(*b);
        }
        self.word(w);
    }

    #[tactic(auto, unfolding(crate::specs::Words::put_words))]
    pub fn float(&mut self, x: f32)
        ensures { Says (float_words x) self.old self.new }
    {
        self.word(ieee::bits::to_bits32(x));
    }

    #[tactic(auto, unfolding(crate::specs::Words::put_words))]
    pub fn seconds(&mut self, t: f64)
        ensures { Says (seconds_words t) self.old self.new }
    {
        self.id(ieee::bits::to_bits64(t));
    }

    // Kept (plain): here and in the two below: each takes the fields of another type, two each.
    #[tactic(auto, unfolding(crate::specs::Words::put_words))]
    pub fn pos(&mut self, p: Pos2)
        ensures { Says (pos_words p) self.old self.new }
    {
        self.float(p.x);
        self.float(p.y);
    }

    // Kept (plain): see `pos`.
    #[tactic(auto, unfolding(crate::specs::Words::put_words))]
    pub fn vec(&mut self, v: Vec2)
        ensures { Says (vec_words v) self.old self.new }
    {
        self.float(v.x);
        self.float(v.y);
    }

    // Kept (plain): see `pos`.
    #[tactic(auto, unfolding(crate::specs::Words::put_words))]
    pub fn rect(&mut self, r: Rect)
        ensures { Says (rect_words r) self.old self.new }
    {
        self.pos(r.min);
        self.pos(r.max);
    }

    pub fn flags(&mut self, m: Modifiers)
        ensures { held self.new ≡ put_word (modifiers_number m) (held self.old) }
    {
        self.word(m.number());
    }

    // `WIDGET_WORDS` words.
    #[tactic(auto, unfolding(crate::specs::Words::put_words))]
    pub fn widget(&mut self, w: WidgetRect)
        ensures { Says (widget_words w) self.old self.new }
    {
        self.id(w.id);
        self.id(w.parent_id);
        self.word(w.layer_id.order);
        self.id(w.layer_id.id);
        self.rect(w.rect);
        self.rect(w.interact_rect);
        self.word(w.sense);
        self.bits(&[w.enabled, w.visible]);
    }

    // None is 0.
    #[tactic(auto, unfolding(crate::specs::Words::put_words))]
    pub fn maybe_id(&mut self, d: Option<u64>)
        ensures { Says (maybe_id_words d) self.old self.new }
    {
        self.id(d.unwrap_or(0));
    }

    // 1 and the value, or zeros.
    #[tactic(auto, unfolding(crate::specs::Words::put_words))]
    pub fn maybe<T: Said>(&mut self, x: Option<T>)
        ensures { Says (maybe_words T.said T.WORDS x) self.old self.new }
    {
        match x {
            None => {
                self.word(0);
                self.zeros(T::WORDS);
            }
            Some(y) => {
                self.word(1);
                y.say(self);
            }
        }
    }
}
