// Kernel touch records become words of the feed.
#![tactic(auto)]

ghost use Rattle.std.specs.Prelude.{◌≡◌, true, cond, [], ℕ, ◌+◌, ◌≤◌, leb, length};
ghost use Rattle.feed.specs.Encode.{encode_all};
ghost use Rattle.kernel_record.specs.Records.{held_dropped};
ghost use Rattle.kernel_touch.specs.declared.answer.KernelRefusal.TheVariants.{FeedFull};
ghost use Rattle.kernel_touch.specs.Slots.{fresh};
ghost use Rattle.kernel_touch.specs.Step.{refusal, unless};
ghost use Rattle.kernel_report.specs.Put.{put};
ghost use Rattle.kernel_read.specs.Read.{acts, events, run, all_records, is_taken, Reads};
ghost use Rattle.kernel_read.specs.Steps.{looked, Fills};

use kernel_record::{KernelRecord, RECORD_BYTES, record_at};
use kernel_report::report::{report_words, write_report};
use kernel_touch::answer::{KernelRefusal, Taken};
use kernel_touch::slots::KernelTouches;

// What the first call goes on from: no finger on any slot.
pub fn fresh() -> KernelTouches
    ensures { result ≡ fresh }
{
    KernelTouches::fresh()
}

// Whether a record is a report end that is acted on.
#[tactic(auto, unfolding(crate::specs::Read::acts))]
fn acts(r: KernelRecord, k: KernelTouches) -> bool
    ensures { result ≡ acts r k }
{
    !k.skipping && r.is_end()
}

// The words that a record gives.
#[tactic(auto, using(crate::proofs::Run::report_events, crate::proofs::Run::no_words))]
fn record_words(r: KernelRecord, k: KernelTouches) -> usize
    ensures { (device : ℕ) → result ≡ length (encode_all (events device r k)) }
{
    if acts(r, k) { report_words(k) } else { 0 }
}

// A record's verdict, with `words` to write and room for `left`.
#[tactic(auto, unfolding(kernel_touch::specs::Step::unless))]
fn verdict(
    r: KernelRecord,
    k: KernelTouches,
    words: usize,
    left: usize,
) -> Result<(), KernelRefusal>
    ensures { result ≡ cond (acts r k) (unless (leb words left) FeedFull) (refusal r k) }
{
    if !acts(r, k) {
        return k.refusal(r);
    }
    if words <= left {
        Ok(())
    } else {
        Err(KernelRefusal::FeedFull)
    }
}

// The records one after the other, with nothing written: whether one is a 'dropped'.
fn look(k: KernelTouches, bytes: &[u8], room: usize) -> Result<bool, KernelRefusal>
    ensures { (device : ℕ) → result ≡ looked (held_dropped (all_records bytes.now))
        (run device room (all_records bytes.now) k []) }
{
    let mut kernel = k;
    let mut left = room;
    let mut dropped = false;
    for record in bytes.chunks_exact(RECORD_BYTES) {
        let r = record_at(record, 0);
        let words = record_words(r, kernel);
        verdict(r, kernel, words, left)?;
        left -= words;
        dropped |= r.is_dropped();
        kernel = kernel.after(r);
    }
    Ok(dropped)
}

// A record's words, from place `at` on; the place after them.
#[tactic(auto, using(crate::proofs::Run::report_events, crate::proofs::Run::no_words), unfolding(kernel_report::specs::Put::put))]
fn write_record(
    r: KernelRecord,
    k: KernelTouches,
    device: u64,
    feed: &mut [u32],
    at: usize,
) -> usize
    requires { at + length (encode_all (events device r k)) ≤ length feed.old }
    ensures { (result ≡ at + length (encode_all (events device r k)))
        × (feed.new ≡ put at (encode_all (events device r k)) feed.old) }
{
    if acts(r, k) {
        write_report(k, device, feed, at)
    } else {
        at
    }
}

// The records again, each report's words written: the slots after them, and how many words.
fn fill(k: &mut KernelTouches, device: u64, bytes: &[u8], feed: &mut [u32]) -> usize
    requires { is_taken (run device (length feed.old) (all_records bytes.now) k.old []) ≡ true }
    ensures { Fills k.old
        (run device (length feed.old) (all_records bytes.now) k.old [])
        feed.old k.new result feed.new }
{
    let mut at = 0;
    for record in bytes.chunks_exact(RECORD_BYTES) {
        let r = record_at(record, 0);
        at = write_record(r, *k, device, feed, at);
        *k = k.after(r);
    }
    at
}

// The bytes of a call become events of `device` in the feed buffer. Refused, the slots `k` and the buffer are as before.
pub fn read_records(
    k: &mut KernelTouches,
    device: u64,
    bytes: &[u8],
    feed: &mut [u32],
) -> Result<Taken, KernelRefusal>
    ensures { Reads k.old device bytes.now feed.old (record { kernel = k.new; answer = result }) feed.new }
{
    if bytes.len() % RECORD_BYTES != 0 {
        return Err(KernelRefusal::Length);
    }
    let dropped = look(*k, bytes, feed.len())?;
    let words = fill(k, device, bytes, feed);
    Ok(Taken { words, dropped })
}
