// The limits of a table (01, "Token table").
pub const ROWS: usize = 8192;

pub const BYTES: usize = 65536;

pub const OPEN: usize = 256;
