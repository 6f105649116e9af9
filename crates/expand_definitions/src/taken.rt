// The names that are taken, as crate name_table keeps them.

// Where each name stands, the ways by which it is found, and the number from which on a free name is looked for behind it. Three arrays, as
// name_table lends each alone.
#[derive(Drop)]
pub(crate) struct Taken {
    pub places: [u16; 512],
    pub ways: [u32; 1280],
    pub hints: [u16; 512],
}
