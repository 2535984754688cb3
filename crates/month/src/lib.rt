// One market month: open and closed months, and every call on them.
#![tactic(auto)]

mod lengths;
mod line;
pub mod memories;
pub mod phase;
mod turnover;
