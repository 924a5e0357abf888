// How long to wait for a repaint.
// Kept (C): C calls each question by its own name and lends the arrays one by one: questions alike in their steps stand apart.
ghost use Rattle.host_answers.specs.Answers.{seconds_of};
ghost use Rattle.host_input.specs.Held.{clock_of, keys_of, pointer_of, screen_of, wheel_of};
ghost use Rattle.host_input.specs.Places as at;
ghost use Rattle.host_questions.specs.Shown.{Shown};
ghost use Rattle.host_touch.specs.All.{known_of};
ghost use Rattle.model.specs.Questions as ask;
ghost use Rattle.model.specs.Questions.{maybe_seconds, settled};
ghost use Rattle.panel.specs.Answers.{OfWaiting};
ghost use Rattle.std.specs.Prelude.{get_or};

use data::limits::MAX_DEVICES;
use host_answers::HostSeconds;
use host_input::places::{COUNTS, DEVICES, FLAGS, FLOATS, KEYS, SECONDS};
use host_touch::{FLAGS as DEVICE_FLAGS, FLOATS as DEVICE_FLOATS, IDS};
use pointer_events::CODES;

#[unsafe(no_mangle)]
pub extern "C" fn fivvarul_wants_repaint_after(
    seconds: &[f64; SECONDS],
    floats: &[f32; FLOATS],
    counts: &[usize; COUNTS],
    flags: &[bool; FLAGS],
    keys_down: &[u64; KEYS],
    ids0: &[u64; IDS],
    floats0: &[f32; DEVICE_FLOATS],
    flags0: &[bool; DEVICE_FLAGS],
    ids1: &[u64; IDS],
    floats1: &[f32; DEVICE_FLOATS],
    flags1: &[bool; DEVICE_FLAGS],
    ids2: &[u64; IDS],
    floats2: &[f32; DEVICE_FLOATS],
    flags2: &[bool; DEVICE_FLAGS],
    ids3: &[u64; IDS],
    floats3: &[f32; DEVICE_FLOATS],
    flags3: &[bool; DEVICE_FLAGS],
    starts: &[f64; MAX_DEVICES],
    codes: &[u32; CODES],
) -> HostSeconds
    ensures { Shown (known_of (get_or counts.now at.devices 0) starts.now ids0.now floats0.now flags0.now ids1.now floats1.now flags1.now ids2.now floats2.now flags2.now ids3.now floats3.now flags3.now) (λ ds. OfWaiting (settled ask.wants_repaint_after) (clock_of seconds.now floats.now) (screen_of seconds.now floats.now flags.now) (pointer_of seconds.now floats.now counts.now flags.now) codes.now (wheel_of seconds.now floats.now flags.now) (keys_of flags.now keys_down.now) ds (maybe_seconds (seconds_of result))) }
{
    let clock = host_input::read::clock(seconds, floats);
    let screen = host_input::read::screen(seconds, floats, flags);
    let pointer = host_input::read::pointer(seconds, floats, counts, flags);
    let wheel = host_input::read::wheel(seconds, floats, flags);
    let keys = host_input::read::keys(flags, keys_down);
    let devices = host_touch::all::devices(
        counts[DEVICES],
        ids0,
        floats0,
        flags0,
        ids1,
        floats1,
        flags1,
        ids2,
        floats2,
        flags2,
        ids3,
        floats3,
        flags3,
        starts,
    );
    panel::repaint::wants_repaint_after(clock, screen, pointer, codes, wheel, keys, devices).into()
}
