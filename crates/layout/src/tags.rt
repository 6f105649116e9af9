// The tags of inners, by document 01's names: the whole list, named or not by the code. Constants and no enum: the walks are total on any byte,
// and each match ends in `_`.
pub const CONSTRAINT_INT: u8 = 1;

pub const CONSTRAINT_ENUM: u8 = 2;

pub const BITS: u8 = 3;

pub const STRUCT: u8 = 4;

pub const WRAP: u8 = 5;

pub const ENUM: u8 = 6;

pub const CHOICE: u8 = 7;

pub const VEC: u8 = 8;

pub const ARRAY: u8 = 9;

pub const BYTES: u8 = 10;

pub const TAIL: u8 = 11;

pub const OPTION: u8 = 12;

pub const NOTHING: u8 = 13;

pub const NEVER: u8 = 14;

pub const INVOCATION: u8 = 15;

pub const MACRO_INVOCATION: u8 = 16;
