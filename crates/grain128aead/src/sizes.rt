// The limit of ADs in bytes.
pub const AD_LIMIT: usize = 65535;
