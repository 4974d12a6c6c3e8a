//! The first byte of each hashed string, which says of which kind the string is. So strings of different kinds are
//! never equal.

pub const CHAIN_START: u8 = 0x10;

pub const CHAIN_STEP: u8 = 0x11;

pub const LEAF: u8 = 0x12;

pub const INNER_NODE: u8 = 0x13;

pub const STATEMENT: u8 = 0x14;

pub const BOTTOM_SECRET: u8 = 0x15;

pub const TOP_SECRET: u8 = 0x16;

pub const BOTTOM_ROOT: u8 = 0x17;

pub const NODE_SECRET: u8 = 0x20;

pub const CLIENT_SECRET: u8 = 0x21;
