// Scales: lists of weights that an amount is shared over, and the refusals that every call gives.
#![tactic(auto)]

pub mod clip;
pub mod even;
pub mod fault;
pub mod row;
pub mod share;
#[cfg(test)]
mod tests;
pub mod theorems;
pub mod total;
pub mod weights;
