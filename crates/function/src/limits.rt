// The sizes that several kinds of functions keep to.

// The least length of an output list, and so the most outputs of a function.
pub const FULL_LIST: usize = 64;
