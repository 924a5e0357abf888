// Kernel touch records become words of the feed (02 A.1).
ghost use Rattle.std.specs.Prelude.{◌≡◌};
ghost use Rattle.kernel_touch.specs.Slots.{fresh};
ghost use Rattle.host_kernel.specs.Kernel.{HostReads};

use host_kernel::{HostKernelRead, crossing};
use kernel_read::read_records;
use kernel_touch::slots::KernelTouches;

// No finger in any slot.
#[unsafe(no_mangle)]
pub extern "C" fn fivvarul_kernel_fresh() -> KernelTouches
    ensures { result ≡ fresh }
{
    KernelTouches::fresh()
}

// The bytes of a call become events of `device` in the feed buffer. Refused, every place of the buffer is as before.
#[unsafe(no_mangle)]
pub extern "C" fn fivvarul_read_records(
    mut kernel: KernelTouches,
    device: u64,
    bytes: &[u8],
    feed: &mut [u32],
) -> HostKernelRead
    ensures { HostReads kernel device bytes.now feed.old result feed.new }
{
    let answer = read_records(&mut kernel, device, bytes, feed);
    crossing(kernel, answer)
}
