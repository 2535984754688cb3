// The lines that a typist writes and reads: commands, the bytes of a line as they come in, and replies.
#![tactic(auto)]

pub mod command;
pub mod hold;
pub mod parse;
pub mod reply;
pub mod say;
#[cfg(test)]
mod tests;
