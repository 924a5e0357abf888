// The records of a run of bytes.
#![tactic(auto)]

ghost use Rattle.std.specs.Prelude.{◌≡◌, ◌+◌, ◌≤◌, length};
ghost use Rattle.kernel_values.specs.Value.{signed};
ghost use Rattle.kernel_record.specs.Records.{half, word, record_of, record_at, record_bytes, is_end, is_dropped};

// 16 bytes of time, type, code and value
pub const RECORD_BYTES: usize = 24;

// The kernel's names, from linux/input-event-codes.h: types, codes of type 0, codes of type 3.
pub const EV_SYN: u16 = 0;

pub const EV_ABS: u16 = 3;

pub const SYN_REPORT: u16 = 0;

pub const SYN_DROPPED: u16 = 3;

pub const ABS_MT_SLOT: u16 = 0x2f;

pub const ABS_MT_POSITION_X: u16 = 0x35;

pub const ABS_MT_POSITION_Y: u16 = 0x36;

pub const ABS_MT_TRACKING_ID: u16 = 0x39;

// What a record says. Other: it is skipped.
#[derive(Clone, Copy, Debug, PartialEq, Eq)]
pub enum KernelRecord {
    MtSlot(i32),
    MtPositionX(i32),
    MtPositionY(i32),
    MtTrackingId(i32),
    ReportEnd,
    Dropped,
    Other,
}

impl KernelRecord {
    #[tactic(auto, unfolding(crate::specs::Records::is_end))]
    pub fn is_end(self) -> bool
        ensures { result ≡ is_end self }
    {
        matches!(self, KernelRecord::ReportEnd)
    }

    #[tactic(auto, unfolding(crate::specs::Records::is_dropped))]
    pub fn is_dropped(self) -> bool
        ensures { result ≡ is_dropped self }
    {
        matches!(self, KernelRecord::Dropped)
    }
}

#[tactic(auto, unfolding(crate::specs::Records::half))]
fn half(bytes: &[u8], at: usize) -> u16
    requires { at + 2 ≤ length bytes.now }
    ensures { result ≡ half bytes.now at }
{
    u16::from_le_bytes([bytes[at], bytes[at + 1]])
}

#[tactic(auto, unfolding(crate::specs::Records::half, crate::specs::Records::word, kernel_values::specs::Value::signed))]
fn value(bytes: &[u8], at: usize) -> i32
    requires { at + 4 ≤ length bytes.now }
    ensures { result ≡ signed (word bytes.now at) }
{
    i32::from_le_bytes([bytes[at], bytes[at + 1], bytes[at + 2], bytes[at + 3]])
}

// Kept (plain): no From: it would take the three values as one tuple.
#[tactic(auto, unfolding(crate::specs::Records::record_of, crate::specs::Records::report_record, crate::specs::Records::touch_record))]
fn record_of(kind: u16, code: u16, value: i32) -> KernelRecord
    ensures { result ≡ record_of kind code value }
{
    match (kind, code) {
        (EV_SYN, SYN_REPORT) => KernelRecord::ReportEnd,
        (EV_SYN, SYN_DROPPED) => KernelRecord::Dropped,
        (EV_ABS, ABS_MT_SLOT) => KernelRecord::MtSlot(value),
        (EV_ABS, ABS_MT_POSITION_X) => KernelRecord::MtPositionX(value),
        (EV_ABS, ABS_MT_POSITION_Y) => KernelRecord::MtPositionY(value),
        (EV_ABS, ABS_MT_TRACKING_ID) => KernelRecord::MtTrackingId(value),
        _ => KernelRecord::Other,
    }
}

#[tactic(auto, unfolding(crate::specs::Records::record_at))]
pub fn record_at(bytes: &[u8], at: usize) -> KernelRecord
    requires { at + record_bytes ≤ length bytes.now }
    ensures { result ≡ record_at bytes.now at }
{
    let kind = half(bytes, at + 16);
    let code = half(bytes, at + 18);
    let value = value(bytes, at + 20);
    record_of(kind, code, value)
}
