// What the words alone decide: "event by event 4, 1, 2".
ghost use Rattle.survey.specs.Survey.{Read};

use data::limits::MAX_EVENTS;
use data::refusal::PassRefusal;
use event_loop::lists::Lists;
use feed::found::FeedError;
use feed_check::verdict_at;

// The places of the events before the first refusal go into the lists of those that read them.
pub fn read(feed: &[u32], lists: &mut Lists) -> Result<(), PassRefusal>
    ensures { Read feed.now lists.new result }
{
    lists.clear();
    let mut at: usize = 0;
    for _n in 0..MAX_EVENTS {
        if at >= feed.len() {
            return Ok(());
        }
        match verdict_at(feed, at) {
            Ok((reader, next)) => {
                lists.push(reader, at as u16);
                at = next;
            }
            Err(FeedError::Malformed) => return Err(PassRefusal::Malformed(at)),
            Err(FeedError::OutsideDomain) => return Err(PassRefusal::OutsideDomain(at)),
        }
    }
    if at < feed.len() {
        return Err(PassRefusal::TooManyEvents(at));
    }
    Ok(())
}
