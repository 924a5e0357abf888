// The two id sets of an interact, hovered and contains_pointer, each written to a lent buffer.
#![tactic(auto)]

ghost use Rattle.std.specs.Prelude.{◌≡◌, ◌+◌, ◌<◌, ◌≤◌, length, take};
ghost use Rattle.model.specs.Interact.{hit_id, insert_hits, insert_on_top};
ghost use Rattle.hit_lists.specs.Hits.{hits_of, hit_of, view};
ghost use Rattle.id_set.specs.Ids.{Written};
ghost use Rattle.id_lists.specs.Ids.{on_top, insert_if, both_ids, contains_ids, busy_ids, free_ids, hovered_ids};

use hit_lists::{Hit, WORDS, WidgetHits, interactive, lies_from, order_of, seek};
use id_set::{insert_id, insert_some};

#[tactic(auto, unfolding(model::specs::Interact::hit_id, hit_lists::specs::Hits::view))]
pub fn hit_id(hit: Option<Hit>) -> Option<u64>
    ensures { result ≡ hit_id (view hit) }
{
    hit.map(|h| h.id)
}

// ---- the ids of a hit list

fn insert_hits(words: &[u64], ids: &mut [u64], count: usize) -> usize
    requires { count + length (hits_of words.now) ≤ length ids.old }
    ensures { Written (insert_hits (hits_of words.now) (take count ids.old)) ids.old result ids.new }
{
    let mut r = count;
    for entry in words.chunks_exact(WORDS) {
        r = insert_id(ids, r, entry[0]);
    }
    r
}

// Whether an entry senses no click and no drag and lies on top of the interactive one, whose place in `close` is `top`. `hint` is a place of `close` to
// look at first.
fn on_top(top: usize, close: &[u64], hint: usize, id: u64, sense: u64) -> bool
    ensures { result ≡ on_top top (hits_of close.now) (hit_of id sense) }
{
    !interactive(sense) && lies_from(close, top, hint, id)
}

fn insert_if(ids: &mut [u64], count: usize, keep: bool, id: u64) -> usize
    requires { count < length ids.old }
    ensures { Written (insert_if keep id (take count ids.old)) ids.old result ids.new }
{
    if keep {
        return insert_id(ids, count, id);
    }
    count
}

// Both lists are in painting order as a rule, so an entry is sought from the last one's place in `close` on.
// Kept (plain): not `insert_hits` with a test: this walk also carries a place
fn insert_on_top(top: usize, close: &[u64], words: &[u64], ids: &mut [u64], count: usize) -> usize
    requires { count + length (hits_of words.now) ≤ length ids.old }
    ensures { Written (insert_on_top top (hits_of close.now) (hits_of words.now) (take count ids.old)) ids.old result ids.new }
{
    let mut r = count;
    let mut at: usize = 0;
    for entry in words.chunks_exact(WORDS) {
        let id = entry[0];
        at = seek(close, at, id);
        let keep = on_top(top, close, at, id, entry[1]);
        r = insert_if(ids, r, keep, id);
    }
    r
}

// ---- the two sets

// The ids of the click's and the drag's hit.
fn insert_both(click: Option<Hit>, drag: Option<Hit>, ids: &mut [u64]) -> usize
    requires { 2 ≤ length ids.old }
    ensures { Written (both_ids click drag) ids.old result ids.new }
{
    let r = insert_some(ids, 0, hit_id(drag));
    insert_some(ids, r, hit_id(click))
}

// `contains_pointer`
pub fn contains_pointer(hits: WidgetHits<'_>, ids: &mut [u64]) -> usize
    requires { 2 + length (hits_of hits.contains_pointer.now) ≤ length ids.old }
    ensures { Written (contains_ids hits.entry.contains_pointer.now hits.entry.click hits.entry.drag) ids.old result ids.new }
{
    let r = insert_both(hits.click, hits.drag, ids);
    insert_hits(hits.contains_pointer, ids, r)
}

// The ids that are clicked, dragged or long touched.
fn insert_busy(
    clicked: Option<u64>,
    dragged: Option<u64>,
    touched: Option<u64>,
    ids: &mut [u64],
) -> usize
    requires { 3 ≤ length ids.old }
    ensures { Written (busy_ids clicked dragged touched) ids.old result ids.new }
{
    let r = insert_some(ids, 0, touched);
    let s = insert_some(ids, r, dragged);
    insert_some(ids, s, clicked)
}

// While nothing is clicked or dragged.
fn insert_hovered(hits: WidgetHits<'_>, ids: &mut [u64]) -> usize
    requires { 2 + length (hits_of hits.contains_pointer.now) ≤ length ids.old }
    ensures { Written (free_ids hits.entry.close.now hits.entry.contains_pointer.now hits.entry.click hits.entry.drag) ids.old result ids.new }
{
    let top = order_of(hits.close, hits.click).max(order_of(hits.close, hits.drag));
    let r = insert_both(hits.click, hits.drag, ids);
    insert_on_top(top, hits.close, hits.contains_pointer, ids, r)
}

// `hovered`
pub fn hovered(
    hits: WidgetHits<'_>,
    clicked: Option<u64>,
    dragged: Option<u64>,
    touched: Option<u64>,
    ids: &mut [u64],
) -> usize
    requires { (3 ≤ length ids.old) × (2 + length (hits_of hits.contains_pointer.now) ≤ length ids.old) }
    ensures { Written (hovered_ids hits.entry.close.now hits.entry.contains_pointer.now hits.entry.click hits.entry.drag clicked dragged touched) ids.old result ids.new }
{
    if clicked.or(dragged).or(touched).is_some() {
        return insert_busy(clicked, dragged, touched, ids);
    }
    insert_hovered(hits, ids)
}
