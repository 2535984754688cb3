// Trials of the month's calls: every refusal with its number and spot, and a whole session.
#![tactic(auto)]

#[cfg(test)]
mod host;
#[cfg(test)]
mod refusals;
#[cfg(test)]
mod session;
