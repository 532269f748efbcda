//! The numbers of the services that code calls by an ECALL, in `a7`.

pub const INIT_BEGIN: u8 = 1;

pub const INIT_DONE: u8 = 2;

pub const INIT_FAILED: u8 = 3;

pub const NEW: u8 = 4;

pub const NEW_ARRAY: u8 = 5;

pub const THROW: u8 = 6;

pub const CAST: u8 = 7;

pub const STORE_CHECK: u8 = 8;

pub const LINK_FAILURE: u8 = 10;

pub const PRINT_INT: u8 = 11;

pub const PRINT_BOOLEAN: u8 = 12;

pub const PRINT_LINE_END: u8 = 13;

pub const STOP: u8 = 14;

pub const EXIT: u8 = 15;

pub const REFILL: u8 = 16;

pub const PRINT_BYTE: u8 = 17;
