// The programs, as functions from text to text.
#![tactic(auto)]

mod cards;
pub mod dealing;
mod gather;
pub mod input;
pub mod notice;
pub mod output;
mod plan_line;
mod planning;
mod plans;
mod reading;
pub mod returning;
pub mod run;
pub mod stop;
mod store;
