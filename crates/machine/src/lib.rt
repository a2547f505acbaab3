// The machine on words: the pre-output generator and the authenticator, run over one byte or four bytes of the string.
#![tactic(auto)]

pub mod edition;
pub mod engine;
