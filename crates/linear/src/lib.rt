// Linear algebra over any field of codes: row reduction of a matrix in place, and casting a word.
#![tactic(auto)]

pub mod casting;
pub mod reduction;
mod rows;
#[cfg(test)]
mod tests;
