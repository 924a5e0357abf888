// What of an interact's input is refused: short buffers, and by entry too many hits, a malformed sense or the id 0.
#![tactic(auto)]

ghost use Rattle.std.specs.Prelude.{◌≡◌};
ghost use Rattle.data.specs.Limits.{max_hits};
ghost use Rattle.data.specs.Sense.{sense_ok};
ghost use Rattle.model.specs.Interact.{entry_refusal, hits_refusal, hit_refusal, input_refusal};
ghost use Rattle.hit_lists.specs.Hits.{hits_of, hit_of, view};
ghost use Rattle.hit_refusals.specs.Refusals.{refusal_of, input, unknown, buffers_refusal};

use data::limits::{ID_PLACES, MAX_HITS};
use data::refusal::InteractRefusal;
use hit_lists::{Hit, WORDS, WidgetHits};

// No bit but the three that sense.rs names.
// Kept (plain): no call of data's `sense_ok`, which is of a u32: the host's word has 64 bits, and any value of it is judged
#[tactic(auto, unfolding(data::specs::Sense::sense_ok))]
fn sense_ok(sense: u64) -> bool
    ensures { result ≡ sense_ok sense }
{
    sense < 8
}

// 1, 9
fn entry_refusal(i: usize, id: u64, sense: u64) -> Result<(), InteractRefusal>
    ensures { refusal_of result ≡ entry_refusal i (hit_of id sense) }
{
    if !sense_ok(sense) {
        return Err(InteractRefusal::Malformed(i));
    }
    if id == 0 {
        return Err(InteractRefusal::ZeroId);
    }
    Ok(())
}

// 4, 1, 9 by entry
fn hits_refusal(words: &[u64]) -> Result<(), InteractRefusal>
    ensures { refusal_of result ≡ hits_refusal max_hits 0 (hits_of words.now) }
{
    for (i, entry) in words.chunks_exact(WORDS).enumerate() {
        if i == MAX_HITS {
            return Err(InteractRefusal::TooManyHits(i));
        }
        entry_refusal(i, entry[0], entry[1])?;
    }
    Ok(())
}

#[tactic(auto, unfolding(model::specs::Interact::hit_refusal, hit_lists::specs::Hits::view, crate::specs::Refusals::refusal_of))]
fn hit_refusal(hit: Option<Hit>) -> Result<(), InteractRefusal>
    ensures { refusal_of result ≡ hit_refusal (view hit) }
{
    hit.map_or(Ok(()), |h| entry_refusal(0, h.id, h.sense))
}

// 8
fn buffers_refusal(hovered: usize, contains: usize) -> Result<(), InteractRefusal>
    ensures { refusal_of result ≡ buffers_refusal hovered contains }
{
    if hovered < ID_PLACES || contains < ID_PLACES {
        return Err(InteractRefusal::ShortBuffer);
    }
    Ok(())
}

// 8, then by list close, contains_pointer, click, drag: 4, 1, 9 by entry
pub fn input_refusal(
    hits: WidgetHits<'_>,
    hovered: usize,
    contains: usize,
) -> Result<(), InteractRefusal>
    ensures { refusal_of result ≡ input_refusal (input unknown hits.entry.close.now hits.entry.contains_pointer.now hits.entry.click hits.entry.drag hovered contains) }
{
    buffers_refusal(hovered, contains)?;
    hits_refusal(hits.close)?;
    hits_refusal(hits.contains_pointer)?;
    hit_refusal(hits.click)?;
    hit_refusal(hits.drag)
}
