// A feed is looked through before a pass changes anything: what its words alone refuse, and the lists of its events.
#![tactic(auto)]

pub mod reading;
