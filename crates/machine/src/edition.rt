// The editions of Grain-128AEAD.
#[derive(Clone, Copy)]
pub enum Edition {
    First = 1,
    Second = 2,
}
