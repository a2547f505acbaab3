// Sealing and opening in the edition that the caller names by its number.
#![tactic(auto)]

pub mod opening;
pub mod sealing;
