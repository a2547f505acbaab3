// Making and reading a frame in the edition that the caller names by its number.
#![tactic(auto)]

pub mod making;
pub mod reading;
