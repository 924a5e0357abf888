// An interact.
// Kept (C): a parameter for each array, number and flag that C lends, so the signature alone is long; the body reads them and makes one call.
ghost use Rattle.std.specs.Prelude.{get_or};
ghost use Rattle.host_touch.specs.All.{known_of};
ghost use Rattle.host_input.specs.Places as at;
ghost use Rattle.host_input.specs.Held.{clock_of, screen_of, pointer_of};
ghost use Rattle.host_interact.specs.Held.{hit_of};
ghost use Rattle.host_interact.specs.Interact.{Interacts, set_of, holding};

use data::limits::MAX_DEVICES;
use host_input::places::{COUNTS, DEVICES, FLAGS, FLOATS, SECONDS};
use host_interact::{HELD, HostSnapshot, hit};
use host_touch::{FLAGS as DEVICE_FLAGS, FLOATS as DEVICE_FLOATS, IDS};
use key_state::keys::PRESSES;
use pointer_events::CODES;
use widget_index::table::{Numbers, WidgetRects, Words};

// Refused, with every place as before; or taken. The hits are two words an entry, id and sense; `top` gets the hovered ids, `all` those that contain the
// pointer, both ascending; 66 places each. The widgets are those of the set of so many widgets and layers.
#[unsafe(no_mangle)]
pub extern "C" fn fivvarul_interact(
    seconds: &[f64; SECONDS],
    floats: &[f32; FLOATS],
    counts: &[usize; COUNTS],
    flags: &[bool; FLAGS],
    ids0: &[u64; IDS],
    floats0: &[f32; DEVICE_FLOATS],
    flags0: &[bool; DEVICE_FLAGS],
    ids1: &[u64; IDS],
    floats1: &[f32; DEVICE_FLOATS],
    flags1: &[bool; DEVICE_FLAGS],
    ids2: &[u64; IDS],
    floats2: &[f32; DEVICE_FLOATS],
    flags2: &[bool; DEVICE_FLAGS],
    ids3: &[u64; IDS],
    floats3: &[f32; DEVICE_FLOATS],
    flags3: &[bool; DEVICE_FLAGS],
    starts: &[f64; MAX_DEVICES],
    codes: &[u32; CODES],
    presses: &[u8; PRESSES],
    held_ids: &mut [u64; HELD],
    held_flags: &mut [bool; HELD],
    tally: &mut [u32; 1],
    widgets: usize,
    layers: usize,
    words: &Words,
    numbers: &Numbers,
    close: &[u64],
    within: &[u64],
    click_given: bool,
    click_id: u64,
    click_sense: u64,
    drag_given: bool,
    drag_id: u64,
    drag_sense: u64,
    top: &mut [u64],
    all: &mut [u64],
) -> HostSnapshot
    ensures { Interacts
        (clock_of seconds.now floats.now)
        (screen_of seconds.now floats.now flags.now)
        (pointer_of seconds.now floats.now counts.now flags.now)
        (known_of (get_or counts.now at.devices 0) starts.now ids0.now floats0.now flags0.now ids1.now floats1.now flags1.now ids2.now floats2.now flags2.now ids3.now floats3.now flags3.now)
        codes.now presses.now
        (set_of widgets layers) words.now numbers.now
        close.now within.now (hit_of click_given click_id click_sense) (hit_of drag_given drag_id drag_sense)
        (holding held_ids.old held_flags.old tally.old top.old all.old)
        result
        (holding held_ids.new held_flags.new tally.new top.new all.new) }
{
    let clock = host_input::read::clock(seconds, floats);
    let screen = host_input::read::screen(seconds, floats, flags);
    let pointer = host_input::read::pointer(seconds, floats, counts, flags);
    let devices = host_touch::all::devices(
        counts[DEVICES],
        ids0,
        floats0,
        flags0,
        ids1,
        floats1,
        flags1,
        ids2,
        floats2,
        flags2,
        ids3,
        floats3,
        flags3,
        starts,
    );
    let interaction = host_interact::interaction(held_ids, held_flags);
    let set = WidgetRects { widgets, layers };
    let click = hit(click_given, click_id, click_sense);
    let drag = hit(drag_given, drag_id, drag_sense);
    match panel::interact::interact(
        clock,
        screen,
        pointer,
        devices,
        codes,
        presses,
        interaction,
        tally[0],
        set,
        words,
        numbers,
        close,
        within,
        click,
        drag,
        top,
        all,
    ) {
        Err(q) => q.into(),
        Ok(answer) => {
            *held_ids = host_interact::ids(answer.interaction);
            *held_flags = host_interact::flags(answer.interaction);
            *tally = [answer.tally];
            answer.snapshot.into()
        }
    }
}
