// A deal of cards: it is begun from a vetted plan and a store, then its blanks are taken one by one, and each is written or
// spoiled.
#![tactic(auto)]

pub mod begin;
pub mod blank;
mod casting;
mod count;
pub mod deal;
pub mod state;
mod store;
#[cfg(test)]
mod tests;
pub mod write;
