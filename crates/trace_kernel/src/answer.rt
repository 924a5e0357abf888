// The answer to KERNEL.
ghost use Rattle.kernel_read.specs.Read.{kernel_row};
ghost use Rattle.trace_words.specs.Reply.{Answers};

use kernel_touch::answer::{KernelRefusal, Taken};
use trace_words::reply::{Reply, refused, refused_at, taken};
use trace_words::words::Answer;

// No call writes more: 4,096 records give at most 7 words each, and each slot that changed before them 14.
pub const FEED_PLACES: usize = 32768;

pub type Feed = [u32; FEED_PLACES];

// Kept (plain): a match and no impl of Refusal, whose trait and enum are of other crates. A value that is no word of a feed has the index 0.
fn refused_kernel(a: &mut Answer, why: KernelRefusal) -> Reply
    ensures { Answers (kernel_row why) a.old result a.new }
{
    a.clear();
    match why {
        KernelRefusal::Length => refused(11),
        KernelRefusal::SlotOutside => refused(12),
        KernelRefusal::OutsideDomain => refused_at(a, 2, 0),
        KernelRefusal::FeedFull => refused(8),
    }
}

// Whether a 'dropped' was among the records, how many words were written, and these.
pub fn answered(a: &mut Answer, feed: &Feed, answer: Result<Taken, KernelRefusal>) -> Reply {
    match answer {
        Err(why) => refused_kernel(a, why),
        Ok(Taken { words, dropped }) => {
            a.flag(dropped);
            a.count(words);
            a.all(&feed[..words.min(FEED_PLACES)]);
            taken(a.len())
        }
    }
}
