// The widget set: a header by value, and its table in three lent arrays of numbers. Fresh arrays may hold anything.
// Kept (C): C lends the arrays as plain numbers, with their counts, which are clamped here; what stands in a number is worked out by hand
ghost use Rattle.std.specs.Prelude.{◌≡◌, ◌<◌, ◌≤◌};
ghost use Rattle.model.specs.Widgets.{same_layer};
ghost use Rattle.widget_index.specs.Layout.{layer_of, position_of, place, count_at, packed};
ghost use Rattle.widget_index.specs.Table.{widgets_of, layers_of};

use data::bits::bit_number;
use data::layers::LayerId;
use data::limits::{MAX_LAYERS, MAX_WIDGETS};

// How many widgets and layers are known.
#[derive(Clone, Copy)]
pub struct WidgetRects {
    pub widgets: usize,
    pub layers: usize,
}

pub const BUCKETS: u64 = 2048;

pub const SPAN: u32 = 2048;

// In `words`: ids, then parent ids, then layer ids.
pub const PARENTS: usize = MAX_WIDGETS;

pub const LAYER_IDS: usize = PARENTS + MAX_WIDGETS;

pub const WORDS: usize = LAYER_IDS + MAX_LAYERS;

pub type Words = [u64; WORDS];

// In `numbers`: heads of buckets, then a link, a place and traits for each slot, then layer orders and counts.
pub const LINKS: usize = BUCKETS as usize;

pub const PLACES: usize = LINKS + MAX_WIDGETS;

pub const TRAITS: usize = PLACES + MAX_WIDGETS;

pub const ORDERS: usize = TRAITS + MAX_WIDGETS;

pub const COUNTS: usize = ORDERS + MAX_LAYERS;

pub const NUMBERS: usize = COUNTS + MAX_LAYERS;

pub type Numbers = [u32; NUMBERS];

// In `edges`: 8 for each slot.
pub const EDGES: usize = 8 * MAX_WIDGETS;

pub type Edges = [f32; EDGES];

#[tactic(auto, unfolding(crate::specs::Table::at_most))]
pub fn widgets_of(h: WidgetRects) -> usize
    ensures { (result ≡ widgets_of h) × (result ≤ 1024) }
{
    h.widgets.min(MAX_WIDGETS)
}

#[tactic(auto, unfolding(crate::specs::Table::at_most))]
pub fn layers_of(h: WidgetRects) -> usize
    ensures { (result ≡ layers_of h) × (result ≤ 32) }
{
    h.layers.min(MAX_LAYERS)
}

#[tactic(auto, unfolding(model::specs::Widgets::same_layer))]
pub fn same_layer(a: LayerId, b: LayerId) -> bool
    ensures { result ≡ same_layer a b }
{
    a == b
}

pub fn layer_of(place: u32) -> usize
    ensures { (result ≡ layer_of place) × (result < 32) }
{
    (place / SPAN % 32) as usize
}

pub fn position_of(place: u32) -> usize
    ensures { (result ≡ position_of place) × (result < 2048) }
{
    (place % SPAN) as usize
}

pub fn place(layer: usize, position: usize) -> u32
    requires { (layer < 32) × (position ≤ 2048) }
    ensures { (result ≡ place layer position) × (result ≤ 65536) }
{
    (layer * 2048 + position) as u32
}

pub fn count_at(numbers: &Numbers, l: usize) -> usize
    requires { l < 32 }
    ensures { (result ≡ count_at numbers.now l) × (result < 2048) }
{
    (numbers[COUNTS + l] % SPAN) as usize
}

pub fn packed(sense: u32, enabled: bool, visible: bool) -> u32
    ensures { result ≡ packed sense enabled visible }
{
    sense % 8 * 4 + bit_number(enabled) * 2 + bit_number(visible)
}
