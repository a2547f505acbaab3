// A sealed payload: the header that stands before its message, its tag, and its two parts.
#![tactic(auto)]

pub mod header;
pub mod parts;
pub mod tag;
