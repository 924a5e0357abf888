// A touch event, written to the feed.
ghost use Rattle.std.specs.Prelude.{◌≡◌, ◌+◌, ◌≤◌, length, take};
ghost use Rattle.feed.specs.Encode.{encode};
ghost use Rattle.kernel_report.specs.Put.{put};
ghost use Rattle.kernel_report.specs.Report.{position, touch, touch_words};

use data::event::Event;
use data::touch::TouchPhase;
use emath::pos2::Pos2;
use feed_encode::encode;
use kernel_touch::slots::Finger;
use kernel_values::coordinate;

// The words of a touch without force.
pub const TOUCH_WORDS: usize = 7;

#[tactic(auto, unfolding(crate::specs::Report::position))]
fn position(f: Finger) -> Pos2
    ensures { result ≡ position f }
{
    Pos2 {
        x: coordinate(f.x),
        y: coordinate(f.y),
    }
}

#[tactic(auto, unfolding(crate::specs::Report::touch))]
fn touch(device: u64, phase: TouchPhase, id: i32, f: Finger) -> Event
    ensures { result ≡ touch device phase id f }
{
    let pos = position(f);
    let number = u64::from(id.unsigned_abs());
    Event::Touch(device, number, phase, pos, None)
}

// Seven words, from place `at` on; the place after them. The feed and the place stay two parameters: of a struct that holds a `&mut` each clause would have to say what stands behind it afterwards.
#[tactic(auto, using(crate::proofs::Written::put_is_mid))]
fn write_words(words: [u32; 8], feed: &mut [u32], at: usize) -> usize
    requires { at + touch_words ≤ length feed.old }
    ensures { (result ≡ at + touch_words) × (feed.new ≡ put at (take touch_words words) feed.old) }
{
    let next = at + TOUCH_WORDS;
    feed[at..next].copy_from_slice(&words[..TOUCH_WORDS]);
    next
}

pub fn write_touch(
    device: u64,
    phase: TouchPhase,
    id: i32,
    f: Finger,
    feed: &mut [u32],
    at: usize,
) -> usize
    requires { at + touch_words ≤ length feed.old }
    ensures { (result ≡ at + touch_words) × (feed.new ≡ put at (encode (touch device phase id f)) feed.old) }
{
    let w = encode(touch(device, phase, id, f));
    let words = w.words;
    write_words(words, feed, at)
}
