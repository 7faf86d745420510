// A plan is drafted, then admitted, then vetted: each state is a type of its own that borrows the plan's rows for reading.
#![tactic(auto)]

mod examine;
pub mod fault;
mod groups;
pub mod guard;
pub mod plan;
pub mod property;
#[cfg(test)]
mod tests;
