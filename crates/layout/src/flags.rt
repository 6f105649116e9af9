// The byte that says whether more stands behind it: a chain's behind an inner, a Choice's before its selector. Else it is 0.
pub const MORE: u8 = 1;
