// Functions loaded earlier, for the tests: a list of what is known of them.
use stitched::{Earlier, Known};

pub(crate) struct Loaded<'a> {
    pub(crate) functions: &'a [Known],
}

impl Earlier for Loaded<'_> {
    ghost known = { λ l. l.functions.now };

    fn count(&self) -> usize {
        self.functions.len()
    }

    fn get(&self, index: usize) -> Option<Known> {
        self.functions.get(index).copied()
    }
}
