// WidgetRect of egui's widget_rect.rs.
use crate::layers::LayerId;
use emath::rect::Rect;

// `sense` is a plain number of sense.rs's bits, so that an unnamed bit can be given and refused.
#[repr(C)]
#[derive(Clone, Copy)]
pub struct WidgetRect {
    pub id: u64,
    pub parent_id: u64,
    pub layer_id: LayerId,
    pub rect: Rect,
    pub interact_rect: Rect,
    pub sense: u32,
    pub enabled: bool,
    pub visible: bool,
}
