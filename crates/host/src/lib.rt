// The library that Rust or C links: the archive of `host` has the operations, that of `host_questions` the questions; each has all that it uses.
// What crosses are numbers, arrays of numbers, slices of numbers and `repr(C)` records of numbers.
// The host keeps a panel in the arrays below and lends them; it need not look into them. Any contents mean some panel, so no function asks anything of
// them. `fivvarul_fresh` makes a fresh panel. A refused call leaves every place as before.
//
// The panel's memory, with its lengths:
//   seconds, floats, counts, flags   the records of the input state (host_input/src/places.rt)
//   keys_down                        the keys that are down, 64 to a word
//   ids0 floats0 flags0 .. flags3    a touch device each (host_touch/src/lib.rt); starts: when the gesture of each started
//   times, positions                 the pointer's history
//   codes, places                    the pass's pointer events
//   presses                          how often each key was pressed in the pass
//   held_ids, held_flags, tally      what the interacts leave: potential click, potential drag, dragged; the count of drags started
// A widget set, which the host keeps beside: its counts of widgets and layers, and words, numbers, edges; of each layer a slice of `WidgetRect`.
//
// `given` is what a pass is given beside its feed; `feed` has the words of 01. `close` and `within` are hits, two words each: id and sense. `top` and
// `all` are the id buffers of an interact, 66 places each. `button` is its number in the feed, and over 4 it is Extra2; `key` is its place in egui's Key;
// `device_id` is a touch device's; `i` counts from 0.
//
// Each function of `panel` is exported as fivvarul_ and its name; after_pass and after_interact are none, since fivvarul_pass and fivvarul_interact
// write the memory. Beside them: fivvarul_zoom_factor (02 A.5); fivvarul_kernel_fresh and fivvarul_read_records (02 A.1).
// Four devices are lent as three arrays each, by name: C passes plain arrays, and each export stands by itself.
#![tactic(auto)]

pub mod factor;
pub mod fresh;
pub mod inserts;
pub mod interacts;
pub mod kernel;
pub mod passes;
