// Writing an image.
ghost use Rattle.std.specs.Prelude.{◌≤◌, ◌≡◌, [], length};
ghost use Rattle.std.proofs.lemmas.List.Edits.{sets};
ghost use Rattle.image.specs.Codes.{write, In};
ghost use Rattle.image_fixed.specs.Fixed.{fixed_place, fixed_end, fixed_code, Puts};
ghost use Rattle.image_form.specs.Form.{fixed_el, image};
ghost use Rattle.image_form.specs.Placed.{lists_place};
ghost use Rattle.input_state.specs.View.{Lent, lent};
ghost use Rattle.panel.specs.View.{shown_by};
ghost use Rattle.parking.specs.Parked.{lists_code, lists_el, words_of, FixedIn, ListsIn, PanelIn, ParkedAs};

use emath_history::history::{MAX_LEN, PARTS};
use image_devices::{devices_put, devices_words};
use image_events::{EVENT_WORDS, Entries, events_put};
use image_fixed::{pointer_put, screen_put, sums_put, wheel_put};
use image_history::{Ring, SAMPLE_WORDS, history_put};
use key_state::keys::PRESSES;
use panel::state::Panel;
use pointer_events::{CODES, PLACES, counted};

#[derive(Clone, Copy)]
pub enum ParkRefusal {
    // 8
    ShortBuffer,
}

// 13 in the top bits, form 1 below
pub const FIRST_WORD: u32 = 0xD000_0001;

// The place of the history's leading word.
pub const HISTORY: usize = 243;

// The words up to the history's entries: the first word, groups 1 to 9, a leading word; and the events' leading word.
const LEAST_WORDS: usize = 245;

// How many words the panel's image has, whatever the lent arrays hold.
fn words_of(panel: Panel) -> usize
    ensures { (result ≡ words_of panel) × ((l : Lent) → result ≡ length (image (shown_by l panel))) }
{
    let samples = panel.input.pointer.place.history.len();
    let events = counted(panel.input.pointer.press.held.event_count);
    LEAST_WORDS + samples * SAMPLE_WORDS + events * EVENT_WORDS + devices_words(panel.devices)
}

// Groups 1 to 9.
fn fixed_put(panel: Panel, presses: &[u8; PRESSES], out: &mut [u32])
    requires { fixed_end ≤ length out.old }
    ensures { Puts fixed_place (write fixed_code (fixed_el (shown_by (lent [] [] [] [] presses.now) panel))) out.old out.new
        × FixedIn (shown_by (lent [] [] [] [] presses.now) panel) }
{
    let input = panel.input;
    let pointer = input.pointer;
    let dragging = pointer.started_decidedly_dragging;
    screen_put(input.clock, input.screen, out);
    pointer_put(
        pointer.place,
        pointer.press,
        dragging,
        pointer.last_move_time,
        out,
    );
    wheel_put(input.wheel, input.keys, presses, out);
    sums_put(input.sums, panel.interaction, panel.tally, out);
}

// Groups 10 to 12.
fn lists_put(panel: Panel, ring: Ring, stored: Entries, out: &mut [u32])
    requires { words_of panel ≤ length out.old }
    ensures { Puts lists_place (write lists_code (lists_el (shown_by (lent ring.entry.times.now ring.entry.positions.now stored.entry.codes.now stored.entry.positions.now []) panel))) out.old out.new
        × ListsIn (shown_by (lent ring.entry.times.now ring.entry.positions.now stored.entry.codes.now stored.entry.positions.now []) panel) }
{
    let history = panel.input.pointer.place.history;
    let count = panel.input.pointer.press.held.event_count;
    let events = HISTORY + 1 + history.len() * SAMPLE_WORDS;
    history_put(history, ring, out, HISTORY);
    events_put(stored, count, out, events);
    devices_put(
        panel.devices,
        out,
        events + 1 + counted(count) * EVENT_WORDS,
    );
}

// The panel's image, in a buffer that is long enough.
fn image_put(panel: Panel, ring: Ring, stored: Entries, presses: &[u8; PRESSES], out: &mut [u32])
    requires { words_of panel ≤ length out.old }
    ensures { Puts 0 (image (shown_by (lent ring.entry.times.now ring.entry.positions.now stored.entry.codes.now stored.entry.positions.now presses.now) panel)) out.old out.new
        × PanelIn (shown_by (lent ring.entry.times.now ring.entry.positions.now stored.entry.codes.now stored.entry.positions.now presses.now) panel) }
{
    out[0] = FIRST_WORD;
    fixed_put(panel, presses, out);
    lists_put(panel, ring, stored, out);
}

// The whole state, as words from place 0 on. Refused, with the buffer as before, where it is shorter than this state's image.
// Kept (plain): one by one, as `restore` takes the same arrays, which it writes.
pub fn park(
    panel: Panel,
    times: &[f64; MAX_LEN],
    positions: &[f32; PARTS],
    codes: &[u32; CODES],
    places: &[f32; PLACES],
    presses: &[u8; PRESSES],
    out: &mut [u32],
) -> Result<usize, ParkRefusal>
    ensures { ParkedAs
        (shown_by (lent times.now positions.now codes.now places.now presses.now) panel)
        out.old out.new result }
{
    let n = words_of(panel);
    if out.len() < n {
        return Err(ParkRefusal::ShortBuffer);
    }
    let ring = Ring { times, positions };
    let stored = Entries {
        codes,
        positions: places,
    };
    image_put(panel, ring, stored, presses, out);
    Ok(n)
}
