// The cabinet's slot: it takes cards as lines of text, gives them up again, and opens the key once it holds enough of them.
#![tactic(auto)]

mod calls;
mod card;
mod gather;
pub mod memory;
pub mod phase;
pub mod refusal;
mod refuse;
pub mod slot;
mod state;
#[cfg(test)]
mod tests;
mod unlock;
