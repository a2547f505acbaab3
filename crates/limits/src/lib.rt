// The limit on messages of every cipher, in bytes.
#![tactic(auto)]

pub const MESSAGE_LIMIT: usize = 61440;
