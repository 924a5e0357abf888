// The events of a slot and of all slots, written to the feed.
ghost use Rattle.std.specs.Prelude.{◌≡◌, ℕ, ◌+◌, ◌≤◌, length};
ghost use Rattle.feed.specs.Encode.{encode_all};
ghost use Rattle.kernel_report.specs.Put.{put};
ghost use Rattle.kernel_report.specs.Report.{slot_events, report};

use crate::change::{Change, change_of};
use crate::touch::{TOUCH_WORDS, write_touch};
use data::touch::TouchPhase;
use kernel_touch::slots::{KernelTouches, Slot};

// The number of words of a slot's events.
#[tactic(auto, using(crate::proofs::Written::slot_length))]
fn slot_words(s: Slot) -> usize
    ensures { (device : ℕ) → result ≡ length (encode_all (slot_events device s)) }
{
    match change_of(s) {
        Change::Still => 0,
        Change::Begun | Change::Moved | Change::Lifted => TOUCH_WORDS,
        Change::Replaced => 2 * TOUCH_WORDS,
    }
}

#[tactic(auto, using(crate::proofs::Written::report_last))]
pub fn report_words(k: KernelTouches) -> usize
    ensures { (device : ℕ) → result ≡ length (encode_all (report device k.slots)) }
{
    let mut words = 0;
    for slot in k.slots.iter() {
        words += slot_words(*slot);
    }
    words
}

#[tactic(auto, using(crate::proofs::Written::slot_is, crate::proofs::Written::slot_length, crate::proofs::Written::length_put), unfolding(crate::specs::Put::put))]
fn write_slot(s: Slot, device: u64, feed: &mut [u32], at: usize) -> usize
    requires { at + length (encode_all (slot_events device s)) ≤ length feed.old }
    ensures { (result ≡ at + length (encode_all (slot_events device s)))
        × (feed.new ≡ put at (encode_all (slot_events device s)) feed.old) }
{
    let now = s.now;
    let then = s.acted;
    match change_of(s) {
        Change::Still => at,
        Change::Begun => write_touch(device, TouchPhase::Start, now.id, now, feed, at),
        Change::Moved => write_touch(device, TouchPhase::Move, now.id, now, feed, at),
        Change::Lifted => write_touch(device, TouchPhase::End, then.id, now, feed, at),
        Change::Replaced => {
            let next = write_touch(device, TouchPhase::End, then.id, now, feed, at);
            write_touch(device, TouchPhase::Start, now.id, now, feed, next)
        }
    }
}

// Slot after slot; the place after the last word.
#[tactic(auto, using(crate::proofs::Written::next_length, crate::proofs::Written::report_last), unfolding(crate::specs::Put::put))]
pub fn write_report(k: KernelTouches, device: u64, feed: &mut [u32], at: usize) -> usize
    requires { at + length (encode_all (report device k.slots)) ≤ length feed.old }
    ensures { (result ≡ at + length (encode_all (report device k.slots)))
        × (feed.new ≡ put at (encode_all (report device k.slots)) feed.old) }
{
    let mut next = at;
    for slot in k.slots.iter() {
        next = write_slot(*slot, device, feed, next);
    }
    next
}
