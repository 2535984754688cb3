// Bytes written into a page, which is memory that is lent: no writer allocates.
#![tactic(auto)]

pub mod pen;
