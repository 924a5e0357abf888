ghost use Rattle.std.specs.Prelude.{◌≤◌, ◌<◌};

use crate::fields::Fields;
use crate::record::{feed_words, word};
use data::event::Event;
use data::modifiers::Modifiers;
use feed::found::FeedError;
use feed_decode::decode::event_at;
use feed_encode::encode;

#[derive(Clone, Copy, Default)]
pub struct Tally {
    pub cases: u64,
    pub differ: u64,
}

// Written again, an accepted event has the words that it was read from.
fn written(e: Event, feed: &[u32; 12], at: usize, next: usize) -> bool {
    let w = encode(e);
    match (w.words.get(..w.count), feed.get(at..next)) {
        (Some(words), Some(read)) => words == read,
        _ => false,
    }
}

// The event at `at` of the first `n` words.
fn read(feed: [u32; 12], n: usize, at: usize) -> Result<(Event, usize), FeedError>
    requires { n ≤ 12 }
{
    event_at(&feed[..n], at)
}

fn event_case(b: &[u8; 128]) -> bool {
    let n = word(b, 1) as usize;
    let at = word(b, 2) as usize;
    let refusal = word(b, 3);
    let feed = feed_words(b);
    if 12 < n {
        return false;
    }
    match read(feed, n, at) {
        Ok((e, next)) => {
            let fields = Fields::from(e) == Fields::read(b);
            let place = next == word(b, 4) as usize;
            refusal == 0 && place && fields && written(e, &feed, at, next)
        }
        Err(FeedError::Malformed) => refusal == 1,
        Err(FeedError::OutsideDomain) => refusal == 2,
    }
}

fn bit(mask: u32, p: u32) -> bool
    requires { p < 32 }
{
    mask >> p & 1 == 1
}

fn modifiers_case(b: &[u8; 128]) -> bool {
    let a = Modifiers::of(word(b, 1));
    let mut same = true;
    for p in 0..32 {
        let m = Modifiers::of(p);
        let or = a.bitor(m);
        let flags = or.alt == bit(word(b, 3), p)
            && or.ctrl == bit(word(b, 4), p)
            && or.shift == bit(word(b, 5), p)
            && or.mac_cmd == bit(word(b, 6), p)
            && or.command == bit(word(b, 7), p);
        let any = a.matches_any(m) == bit(word(b, 2), p);
        same = same && flags && any && m.number() == p;
    }
    same
}

fn agrees(b: &[u8; 128]) -> bool {
    match word(b, 0) {
        1 => event_case(b),
        2 => modifiers_case(b),
        _ => false,
    }
}

pub fn replay(t: Tally, b: &[u8; 128]) -> Tally {
    Tally {
        cases: t.cases.wrapping_add(1),
        differ: t.differ.wrapping_add(u64::from(!agrees(b))),
    }
}
