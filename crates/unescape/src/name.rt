// The predefined entities of XML 1.0, 4.6: their characters, and their names as numbers, low byte first.
pub const LT: u32 = 60;

pub const GT: u32 = 62;

pub const AMP: u32 = 38;

pub const QUOT: u32 = 34;

pub const APOS: u32 = 39;

// `lt;`, `gt;`, `amp`, `quo`, `apo`
pub const LT_END_BYTES: u64 = 0x3b746c;

pub const GT_END_BYTES: u64 = 0x3b7467;

pub const AMP_BYTES: u64 = 0x706d61;

pub const QUO_BYTES: u64 = 0x6f7571;

pub const APO_BYTES: u64 = 0x6f7061;

// what ends a name that has more than three bytes: `;`, `t;`, `s;`
pub const END_BYTE: u64 = 0x3b;

pub const T_END_BYTES: u64 = 0x3b74;

pub const S_END_BYTES: u64 = 0x3b73;

// a character and 256 times the length of its name with the `;`
pub const LT_VALUE: u64 = 0x33c;

pub const GT_VALUE: u64 = 0x33e;

pub const AMP_VALUE: u64 = 0x426;

pub const QUOT_VALUE: u64 = 0x522;

pub const APOS_VALUE: u64 = 0x527;
