// Lists of events as the words of a feed: the laws are in specs/Events and proofs/Events.
#![tactic(auto)]
