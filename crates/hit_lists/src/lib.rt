// The hit lists of an interact: two words an entry, its id and its sense. A lone last word is no entry and is not read.
#![tactic(auto)]

ghost use Rattle.std.specs.Prelude.{◌≡◌, ◌*◌, ◌&&◌, leb, ltb, drop};
ghost use Rattle.data.specs.Sense.{interactive};
ghost use Rattle.model.specs.Interact.{has_hit, is_hit, order, order_of};
ghost use Rattle.hit_lists.specs.Hits.{hits_of, view, hit_at, position_from, seek_from};

// The words of an entry.
pub const WORDS: usize = 2;

// An entry: the words' own widths.
#[derive(Clone, Copy)]
pub struct Hit {
    pub id: u64,
    pub sense: u64,
}

// `WidgetHits`: the words of the lists `close` and `contains_pointer`, and the hits that a click and a drag are for.
#[derive(Clone, Copy)]
pub struct WidgetHits<'a> {
    pub close: &'a [u64],
    pub contains_pointer: &'a [u64],
    pub click: Option<Hit>,
    pub drag: Option<Hit>,
}

// Whether an entry senses clicks or drags.
// Kept (plain): no call of data's `interactive`, which is of a u32: the host's word has 64 bits, and any value of it is judged
#[tactic(auto, unfolding(data::specs::Sense::interactive, data::specs::Sense::senses_click, data::specs::Sense::senses_drag))]
pub fn interactive(sense: u64) -> bool
    ensures { result ≡ interactive sense }
{
    (sense / 1 % 2 == 1) | (sense / 2 % 2 == 1)
}

// ---- looking for an id

// The first place of the id from `from` on, if it has one there.
// Kept (plain): by index, since the place is the answer: of chunks of the words from `from * 2` on, that product may not fit, and `from` would be added to
// what they find
fn position(words: &[u64], from: usize, id: u64) -> Option<usize>
    ensures { result ≡ position_from id from (hits_of (drop (from * 2) words.now)) }
{
    let n = words.len() / 2;
    for at in from..n {
        if id == words[at * 2] {
            return Some(at);
        }
    }
    None
}

// Whether the list has an entry of the id.
pub fn has_hit(words: &[u64], id: u64) -> bool
    ensures { result ≡ has_hit id (hits_of words.now) }
{
    position(words, 0, id).is_some()
}

#[tactic(auto, unfolding(model::specs::Interact::is_hit, crate::specs::Hits::view))]
pub fn is_hit(hit: Option<Hit>, id: u64) -> bool
    ensures { result ≡ is_hit id (view hit) }
{
    hit.is_some_and(|h| id == h.id)
}

// The first place of the id in the list, 0 if it has none.
pub fn order(words: &[u64], id: u64) -> usize
    ensures { result ≡ order id (hits_of words.now) }
{
    position(words, 0, id).unwrap_or(0)
}

// Whether the entry at a place has the id.
// Kept (plain): by index: one place is looked at, and `nth` of the chunks would walk there
fn hit_at(words: &[u64], at: usize, id: u64) -> bool
    ensures { result ≡ hit_at id at words.now }
{
    at < words.len() / 2 && id == words[at * 2]
}

// Whether a place before `top` has the id.
fn hit_below(words: &[u64], top: usize, at: usize, id: u64) -> bool
    ensures { result ≡ (ltb at top && hit_at id at words.now) }
{
    at < top && hit_at(words, at, id)
}

// The first place of the id from `from` on, the number of entries if it has none there.
pub fn seek(words: &[u64], from: usize, id: u64) -> usize
    ensures { result ≡ seek_from id from (hits_of (drop (from * 2) words.now)) }
{
    position(words, from, id).unwrap_or(from.max(words.len() / 2))
}

// Whether the first place of the id is `top` or a later one. `hint` is looked at before the others.
pub fn lies_from(words: &[u64], top: usize, hint: usize, id: u64) -> bool
    ensures { result ≡ leb top (order id (hits_of words.now)) }
{
    if top == 0 {
        return true;
    }
    if words.len() / 2 <= top {
        return false;
    }
    if hit_below(words, top, hint, id) {
        return false;
    }
    let below = top * 2;
    if has_hit(&words[..below], id) {
        return false;
    }
    if hit_at(words, hint, id) {
        return true;
    }
    has_hit(words, id)
}

// The order of a hit that may be there.
// Kept (plain): no conversion: `order` of the hit's id in a list
#[tactic(auto, unfolding(model::specs::Interact::order_of, crate::specs::Hits::view))]
pub fn order_of(words: &[u64], hit: Option<Hit>) -> usize
    ensures { result ≡ order_of (view hit) (hits_of words.now) }
{
    hit.map_or(0, |h| order(words, h.id))
}
