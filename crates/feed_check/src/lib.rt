// Whether the words at a place are an event of the domain, and who reads it: what `event_at` answers, without the event.
// `low` is the first word's low 28 bits. An event has its reader, and `next`, the place after its last word.
#![tactic(auto)]

ghost use Rattle.std.specs.Prelude.{◌≡◌, true, ◌&&◌, suc, ◌+◌, ◌/◌, ◌%◌, ◌<◌, ltb, get_or, length, drop};
ghost use Rattle.data.specs.Limits.{coordinate_ok, pos_ok, maybe_force_ok};
ghost use Rattle.feed.specs.Split.{kind, low_bits, following};
ghost use Rattle.feed.specs.Shape.{float_of, pos_of, force_of, shape_by_kind};
ghost use Rattle.feed.specs.Decode.{check_floats, found_at};
ghost use Rattle.event_loop.specs.Lists.{reader_of};
ghost use Rattle.event_loop.specs.declared.lists.Reader.TheVariants.{Touches};
ghost use Rattle.feed_check.specs.Verdict.{verdict_of, verdict_at, judged};

use data::kinds::{
    BUTTON_KIND, FOCUS_KIND, GONE_KIND, KEY_KIND, KIND_UNIT, MODIFIERS_KIND, MOTION_KIND,
    MOVED_KIND, OTHER_KIND, ROTATE_KIND, TOUCH_KIND, WHEEL_KIND, ZOOM_KIND,
};
use data::limits::{BUTTON_COUNT, KEY_COUNT, UNIT_COUNT};
use domain::{force_ok, radians_ok, zoom_ok};
use event_loop::lists::Reader;
use feed::fields::float_of;
use feed::found::FeedError;
use feed::split::following;

// An f32's pattern has the sign in its highest bit.
const SIGN: u32 = 0x8000_0000;

// 65,536's pattern. Without the sign patterns are in the order of the sizes, and an infinity's and a NaN's come last.
const MAX_COORDINATE_BITS: u32 = 0x4780_0000;

fn coordinate_word_ok(w: u32) -> bool
    ensures { result ≡ coordinate_ok (float_of w) }
{
    w % SIGN <= MAX_COORDINATE_BITS
}

// By two tests: of the first word's bits, then of the floats.
#[tactic(auto, unfolding(crate::specs::Verdict::judged))]
fn by_tests(
    bits: bool,
    floats: bool,
    reader: Reader,
    next: usize,
) -> Result<(Reader, usize), FeedError>
    ensures { result ≡ judged bits floats reader next }
{
    if !bits {
        return Err(FeedError::Malformed);
    }
    if !floats {
        return Err(FeedError::OutsideDomain);
    }
    Ok((reader, next))
}

// The two words after `at` are coordinates.
fn placed(
    feed: &[u32],
    at: usize,
    bits: bool,
    reader: Reader,
    next: usize,
) -> Result<(Reader, usize), FeedError>
    requires { at + 2 < length feed.now }
    ensures { result ≡ judged bits (pos_ok (pos_of (get_or feed.now (at + 1) 0) (get_or feed.now (at + 2) 0))) reader next }
{
    let x_ok = coordinate_word_ok(feed[at + 1]);
    let y_ok = coordinate_word_ok(feed[at + 2]);
    by_tests(bits, x_ok & y_ok, reader, next)
}

// A device's and a touch's id, which may be any, the position, and the force where bit 2 says so.
fn touch(feed: &[u32], at: usize, low: u32, next: usize) -> Result<(Reader, usize), FeedError>
    requires { at + 6 + low / 4 % 2 < length feed.now }
    ensures { result ≡ judged (ltb low 8) (pos_ok (pos_of (get_or feed.now (at + 5) 0) (get_or feed.now (at + 6) 0)) && maybe_force_ok (force_of (low / 4 % 2) (get_or feed.now (at + 7) 0))) Touches next }
{
    if low < 4 {
        return placed(feed, at + 4, true, Reader::Touches, next);
    }
    if low < 8 {
        if force_ok(float_of(feed[at + 7])) {
            return placed(feed, at + 4, true, Reader::Touches, next);
        }
        return Err(FeedError::OutsideDomain);
    }
    Err(FeedError::Malformed)
}

// The event at `at`, whose words are all there.
fn by_kind(feed: &[u32], at: usize, head: u32, next: usize) -> Result<(Reader, usize), FeedError>
    requires { at + following head < length feed.now }
    ensures { result ≡ verdict_of (reader_of (kind head)) (found_at (check_floats (shape_by_kind (kind head) (low_bits head) (drop (suc at) feed.now))) next) }
{
    let low = head % KIND_UNIT;
    // Kept (01): the decoder matches the kind number over 0 to 15
    match head / KIND_UNIT {
        0 => Err(FeedError::Malformed),
        KEY_KIND => by_tests(
            (low < 512) & (low % 256 < KEY_COUNT),
            true,
            Reader::Keys,
            next,
        ),
        MODIFIERS_KIND => by_tests(low < 32, true, Reader::Keys, next),
        MOVED_KIND => placed(feed, at, low < 1, Reader::Pointer, next),
        MOTION_KIND => placed(feed, at, low < 1, Reader::Pointer, next),
        BUTTON_KIND => placed(
            feed,
            at,
            (low < 512) & (low / 32 % 8 < BUTTON_COUNT),
            Reader::Pointer,
            next,
        ),
        GONE_KIND => by_tests(low < 1, true, Reader::Pointer, next),
        ZOOM_KIND => by_tests(low < 1, zoom_ok(float_of(feed[at + 1])), Reader::Sums, next),
        ROTATE_KIND => by_tests(
            low < 1,
            radians_ok(float_of(feed[at + 1])),
            Reader::Sums,
            next,
        ),
        TOUCH_KIND => touch(feed, at, low, next),
        WHEEL_KIND => placed(
            feed,
            at,
            (low < 2048) & (low / 32 % 4 < UNIT_COUNT),
            Reader::Wheel,
            next,
        ),
        FOCUS_KIND => by_tests(low < 2, true, Reader::Keys, next),
        OTHER_KIND => by_tests(low < 1, true, Reader::Nobody, next),
        13..=15 => Err(FeedError::Malformed),
        // four bits: there is no more
        _ => Err(FeedError::Malformed),
    }
}

// The event whose first word is at `at`. Past the end there is none: cut short.
pub fn verdict_at(feed: &[u32], at: usize) -> Result<(Reader, usize), FeedError>
    ensures { result ≡ verdict_at feed.now at }
{
    if at < feed.len() {
        let head = feed[at];
        let n = following(head);
        if n < feed.len() - at {
            return by_kind(feed, at, head, at + (n + 1));
        }
        return Err(FeedError::Malformed);
    }
    Err(FeedError::Malformed)
}
