// What plans, deals, opening and hiding mean, and the decision for one group of cards.
#![tactic(auto)]

pub mod decision;
pub mod groups;
pub mod matrices;
pub mod plan;
pub mod sound;
pub mod systems;
pub mod worked;
