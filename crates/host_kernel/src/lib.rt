// What the reading of kernel touch records (02 A.1) answers, as it crosses to the host.
// Kept (C): a number for a refusal, a count and a flag beside it: C reads the record.
#![tactic(auto)]

ghost use Rattle.std.specs.Prelude.{◌≡◌};
ghost use Rattle.kernel_read.specs.Read.{kernel_row};
ghost use Rattle.host_kernel.specs.Kernel.{Crosses};

use kernel_touch::answer::{KernelRefusal, Taken};
use kernel_touch::slots::KernelTouches;

// `number` 0: the words written to the feed, and whether the records held a 'dropped'. Else 02's number of the refusal; `kernel` is as before then. C reads the number and the values beside it.
#[repr(C)]
#[derive(Clone, Copy, Debug, PartialEq, Eq)]
pub struct HostKernelRead {
    pub kernel: KernelTouches,
    pub number: u32,
    pub words: usize,
    pub dropped: bool,
}

// The number that C reads of a refusal.
fn number(q: KernelRefusal) -> u32
    ensures { result ≡ (kernel_row q).number }
{
    match q {
        KernelRefusal::Length => 11,
        KernelRefusal::SlotOutside => 12,
        KernelRefusal::OutsideDomain => 2,
        KernelRefusal::FeedFull => 8,
    }
}

pub fn crossing(kernel: KernelTouches, answer: Result<Taken, KernelRefusal>) -> HostKernelRead
    ensures { Crosses (record { kernel = kernel; answer = answer }) result }
{
    match answer {
        Ok(Taken { words, dropped }) => HostKernelRead {
            kernel,
            number: 0,
            words,
            dropped,
        },
        Err(q) => HostKernelRead {
            kernel,
            number: number(q),
            words: 0,
            dropped: false,
        },
    }
}
