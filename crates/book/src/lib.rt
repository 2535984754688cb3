// The book of one month: contracts at their places, and what a sound book is.
#![tactic(auto)]

pub mod classes;
pub mod contract;
pub mod cuts;
pub mod figures;
pub mod limit;
pub mod lookup;
pub mod room;
pub mod sizes;
pub mod sound;
pub mod states;
pub mod supply;
pub mod terms;
#[cfg(test)]
mod tests;
