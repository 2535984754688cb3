// A month beside its plain account: each call is made on the month and held against what the account says.
#![tactic(auto)]

pub mod compare;
pub mod kind;
pub mod making;
pub mod staged;
