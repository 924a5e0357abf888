// The event at a place of a feed.
ghost use Rattle.std.specs.Prelude.{◌≡◌};
ghost use Rattle.feed.specs.Decode.{check_floats, found_at, event_at};

use crate::kinds::shape_at;
use data::event::Event;
use domain::event_ok;
use feed::found::FeedError;
use feed::split::following;

#[tactic(auto, unfolding(feed::specs::Decode::found_at, feed::specs::Decode::check_floats))]
fn check_floats(e: Option<Event>, next: usize) -> Result<(Event, usize), FeedError>
    ensures { result ≡ found_at (check_floats e) next }
{
    let event = e.ok_or(FeedError::Malformed)?;
    if !event_ok(event) {
        return Err(FeedError::OutsideDomain);
    }
    Ok((event, next))
}

// The event whose first word is at `at`. Past the end there is none: cut short.
#[tactic(auto, using(feed::proofs::Reading::event_at_past, feed::proofs::Reading::event_at_short, feed::proofs::Reading::event_at_whole))]
pub fn event_at(feed: &[u32], at: usize) -> Result<(Event, usize), FeedError>
    ensures { result ≡ event_at feed.now at }
{
    if at >= feed.len() {
        return Err(FeedError::Malformed);
    }
    let n = following(feed[at]);
    if n >= feed.len() - at {
        return Err(FeedError::Malformed);
    }
    check_floats(shape_at(feed, at), at + (n + 1))
}
