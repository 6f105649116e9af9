// Kinds, by document 01's names: of a definition, of a Struct's field, of a Choice's cases.

// Of a definition.
pub const FORMAT: u8 = 1;

pub const CONSTANT: u8 = 2;

pub const BYTE_ORDER: u8 = 3;

pub const MACRO: u8 = 4;

// Of a field.
pub const ORDINARY: u8 = 1;

pub const DEPENDENT: u8 = 2;

pub const CONST: u8 = 3;

// Of cases.
pub const ENUMS: u8 = 1;

pub const INTS: u8 = 2;

pub const ARRAYS: u8 = 3;
