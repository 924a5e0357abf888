// A panel parked and restored again and again: a fresh one, or one after a pass with a first feed and a thousand with a second.
use crate::WORDS;
use crate::passes::input;
use input_state::input::PassInput;
use panel::pass::pass;
use panel::state::{Panel, after_pass, fresh};
use parking::park::park;
use parking::restore::restore;
use trace_state::lent::Arrays;

// docs/IMAGE.md: the longest image.
const IMAGE_PLACES: usize = 4974;

// A pass adds one sample to the history.
const PASSES: u32 = 1000;

// At one time, so that the history keeps all samples.
fn given() -> PassInput {
    PassInput {
        time: Some(1.0),
        ..input()
    }
}

fn after_passes(start: Panel, lent: &mut Arrays, feed: &[u32], times: u32) -> Panel {
    let i = given();
    let mut p = start;
    for _ in 0..times {
        let input = p.input;
        let devices = p.devices;
        let begun = pass(
            input,
            devices,
            &mut lent.times,
            &mut lent.positions,
            &mut lent.codes,
            &mut lent.places,
            &mut lent.presses,
            i,
            feed,
        );
        p = after_pass(p, begun);
    }
    p
}

// The words that all parkings wrote.
fn parked(p: Panel, lent: &Arrays, image: &mut [u32; IMAGE_PLACES], times: u32) -> u64 {
    let mut sum: u64 = 0;
    for _ in 0..times {
        let done = park(
            p,
            &lent.times,
            &lent.positions,
            &lent.codes,
            &lent.places,
            &lent.presses,
            image,
        );
        sum = sum.wrapping_add(done.unwrap_or(0) as u64);
    }
    sum
}

// The words that all restorings read.
fn restored(start: Panel, lent: &mut Arrays, words: &[u32], times: u32) -> u64 {
    let mut sum: u64 = 0;
    let mut p = start;
    for _ in 0..times {
        let r = restore(
            &mut lent.times,
            &mut lent.positions,
            &mut lent.codes,
            &mut lent.places,
            &mut lent.presses,
            words,
        );
        sum = sum.wrapping_add(r.map_or(0, |_| words.len()) as u64);
        p = r.unwrap_or(p);
    }
    sum
}

fn filled(start: Panel, lent: &mut Arrays, feed: &[u32], first: usize) -> Panel {
    let n = feed.len();
    if n <= first || WORDS <= first {
        return start;
    }
    let p = after_passes(start, lent, &feed[0..first], 1);
    after_passes(p, lent, &feed[first..n], PASSES)
}

// The words that parking wrote, or with `restores` above 0 restoring read, in all `times`; `first` is where the second feed begins.
pub fn run(times: u32, feed: &[u32], first: u32, restores: u32) -> u64 {
    let mut lent = Arrays::default();
    let mut image = [0u32; IMAGE_PLACES];
    let start = fresh(&mut lent.presses);
    let p = filled(start, &mut lent, feed, first as usize);
    if restores == 0 {
        return parked(p, &lent, &mut image, times);
    }
    let n = parked(p, &lent, &mut image, 1);
    restored(p, &mut lent, &image[..IMAGE_PLACES.min(n as usize)], times)
}
