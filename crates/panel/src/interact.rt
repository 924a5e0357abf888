// An interact. Of the input it reads the pointer, its time, the options, the touches, the pass's pointer events and the presses of Escape.
ghost use Rattle.panel.specs.Steps.{Sees, Interacts};

use crate::touching::is_long_touch;
use data::refusal::InteractRefusal;
use hit_lists::{Hit, WidgetHits};
use input_state::clock::Clock;
use input_state::pointer::Pointer;
use input_state::screen::Screen;
use interaction_state::state::{Answer, Interaction, Seen};
use key_state::keys::PRESSES;
use pointer_clicks::{any_down, could_any_button_be_click, is_decidedly_dragging};
use pointer_events::CODES;
use pointer_questions::moving::has_pointer;
use touch_state::devices::Devices;
use widget_index::index::Table;
use widget_index::table::{Numbers, WidgetRects, Words};

// egui's Key::Escape
const ESCAPE: u32 = 4;

// What an interact reads of the panel's input, but for the pointer events.
fn seen(
    clock: Clock,
    screen: Screen,
    pointer: Pointer,
    devices: Devices,
    codes: &[u32; CODES],
    presses: &[u8; PRESSES],
) -> Seen
    ensures { Sees clock screen pointer devices codes.now presses.now result }
{
    let time = clock.pointer_time;
    let options = screen.options;
    let held = pointer.press.held;
    let moved = pointer.press.past.has_moved_too_much_for_a_click;
    Seen {
        escape_pressed: key_state::keys::key_pressed(presses, ESCAPE),
        is_long_touch: is_long_touch(clock, screen, pointer, devices),
        is_decidedly_dragging: is_decidedly_dragging(held, codes, options, time, moved),
        could_any_button_be_click: could_any_button_be_click(held, codes, options, time, moved),
        any_down: any_down(held.down),
        has_pointer: has_pointer(pointer.place),
    }
}

// Refused, with both id buffers as before; or taken: the answer holds the interaction and the tally for the next interact. `top` gets the hovered ids,
// `all` those that contain the pointer, both ascending; 66 places each. The widgets are those of the set, whose rectangles are not read.
// Kept (C): as many parameters as the host's call, since C lends each array by itself
pub fn interact(
    clock: Clock,
    screen: Screen,
    pointer: Pointer,
    devices: Devices,
    codes: &[u32; CODES],
    presses: &[u8; PRESSES],
    interaction: Interaction,
    tally: u32,
    set: WidgetRects,
    words: &Words,
    numbers: &Numbers,
    close: &[u64],
    within: &[u64],
    click: Option<Hit>,
    drag: Option<Hit>,
    top: &mut [u64],
    all: &mut [u64],
) -> Result<Answer, InteractRefusal>
    ensures { Interacts
        clock screen pointer devices codes.now presses.now interaction tally
        «set» words.now numbers.now
        close.now within.now click drag
        top.old all.old
        result top.new all.new }
{
    let view = seen(clock, screen, pointer, devices, codes, presses);
    interaction::interact::interact(
        view,
        codes,
        pointer.press.held.event_count,
        Table {
            set,
            words,
            numbers,
        },
        interaction,
        tally,
        WidgetHits {
            close,
            contains_pointer: within,
            click,
            drag,
        },
        top,
        all,
    )
}
