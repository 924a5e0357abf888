// The keys that are down, the modifiers, and the presses of the pass. The caller lends a place for each key's presses.
ghost use Rattle.std.specs.Prelude.{◌≡◌, List, ℕ, ◌<◌, ltb, get_or, set, length};
ghost use Rattle.data.specs.Limits.{key_count};
ghost use Rattle.model.specs.Types.{Key, WindowFocused};
ghost use Rattle.model.specs.Pass.{key_event, fresh};
ghost use Rattle.event_loop.specs.Shaped.{shaped_at};
ghost use Rattle.event_loop.specs.Lists.{listed, listed_events, keys_list};
ghost use Rattle.key_state.specs.View.{presses_of, one_more, keys, Room, Stepped, Passed};
ghost use Rattle.key_state.specs.declared.keys.Keys.{Keys};

use crate::bits::Set256;
use data::event::Event;
use data::kinds::{FOCUS_KIND, KEY_KIND, MODIFIERS_KIND};
use data::limits::KEY_COUNT;
use data::modifiers::Modifiers;
use event_loop::kind_at;
use event_loop::lists::{Lists, Reader};
use event_readers::readers::{focus_at, modifiers_at};

// A place for each key's presses.
pub const PRESSES: usize = KEY_COUNT as usize;

#[derive(Clone, Copy)]
pub struct Keys {
    pub down: Set256,
    pub modifiers: Modifiers,
    // held the pass's feed no event?
    pub feed_empty: bool,
}

// Before any pass.
pub fn fresh() -> Keys
    ensures { (presses : List ℕ) → ((j : ℕ) → presses_of presses j ≡ 0) → keys presses result ≡ fresh.keys }
{
    let down = crate::bits::none();
    let modifiers = Modifiers::none();
    Keys {
        down,
        modifiers,
        feed_empty: true,
    }
}

// One press more. A byte is enough: a pass has at most `MAX_EVENTS` events.
fn count_press(presses: &mut [u8], place: usize)
    requires { place < length presses.old }
    ensures { presses.new ≡ set presses.old place (one_more (get_or presses.old place 0)) }
{
    presses[place] = presses[place].saturating_add(1);
}

// A key that egui names: one that a feed's event has.
fn key(k: Keys, presses: &mut [u8; PRESSES], place: u32, pressed: bool) -> Keys
    requires place_lt_key_count { place < key_count }
    requires room { Room presses.old }
    ensures { Stepped (Key place pressed) presses.old k presses.new result }
{
    let down = crate::bits::set(k.down, place, pressed);
    if pressed {
        count_press(presses, place as usize);
        return Keys { down, ..k };
    }
    Keys { down, ..k }
}

// Lost focus clears keys and modifiers.
fn focus(k: Keys, focused: bool) -> Keys
    ensures { (presses : List ℕ) → keys presses result ≡ key_event (WindowFocused focused) (keys presses k) }
{
    if focused {
        return k;
    }
    let down = crate::bits::none();
    let modifiers = Modifiers::none();
    Keys {
        down,
        modifiers,
        ..k
    }
}

// Keys, modifiers and the focus are read, and each goes straight to its step.
fn key_at(k: Keys, presses: &mut [u8; PRESSES], feed: &[u32], at: usize) -> Keys
    requires { Room presses.old }
    ensures { Stepped (shaped_at feed.now at) presses.old k presses.new result }
{
    let kind = kind_at(feed, at);
    if kind == KEY_KIND {
        let e = event_readers::readers::key_at(feed, at);
        let Event::Key(place, pressed) = e else {
            return k;
        };
        return key(k, presses, place, pressed);
    }
    if kind == MODIFIERS_KIND {
        let e = modifiers_at(feed, at);
        let Event::ModifiersChanged(modifiers) = e else {
            return k;
        };
        return Keys { modifiers, ..k };
    }
    if kind == FOCUS_KIND {
        let e = focus_at(feed, at);
        let Event::WindowFocused(focused) = e else {
            return k;
        };
        return focus(k, focused);
    }
    k
}

// The keys' part of a pass, of the events in their list.
pub fn keys_pass(k: Keys, presses: &mut [u8; PRESSES], feed: &[u32], lists: &Lists) -> Keys
    ensures { Passed
        feed.now (listed_events feed.now (listed lists.now keys_list))
        presses.old k presses.new result }
{
    *presses = [0; PRESSES];
    let mut s = k;
    s.feed_empty = feed.len() == 0;
    let places = lists.places(Reader::Keys);
    for at in places {
        s = key_at(s, presses, feed, *at as usize);
    }
    s
}

// Is it down? No number from `KEY_COUNT` on is.
pub fn key_down(k: Keys, key: u32) -> bool
    ensures { (presses : List ℕ) → result ≡ (keys presses k).keys_down key }
{
    key < KEY_COUNT && crate::bits::has(k.down, key)
}

// How often it was pressed in the pass.
pub fn num_presses(presses: &[u8; PRESSES], key: u32) -> u8
    ensures { (k : Keys) → result ≡ (keys presses.now k).presses key }
{
    presses.get(key as usize).copied().unwrap_or(0)
}

pub fn key_pressed(presses: &[u8; PRESSES], key: u32) -> bool
    ensures { (k : Keys) → result ≡ ltb 0 ((keys presses.now k).presses key) }
{
    0 < num_presses(presses, key)
}
