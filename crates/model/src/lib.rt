// A plain account of a month: the list of what was called, and everything else worked out anew from that list.
// It shares no code with the system, so that programs can hold the one against the other.
#![tactic(auto)]

pub mod account;
pub mod answers;
pub mod call;
pub mod cutting;
pub mod ledger;
pub mod random;
pub mod sharing;
