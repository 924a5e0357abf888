// The records of the widgets.
use crate::request::WIDGET_WORDS;
use data::limits::MAX_WIDGETS;

// `WIDGET_WORDS` words for each widget, by its slot in the set: what the slices lent for the insertions hold.
pub const LENT: usize = WIDGET_WORDS * MAX_WIDGETS;

pub type Lent = [u32; LENT];
