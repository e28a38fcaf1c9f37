// How many entries of each of the three lists of a set.
ghost use Rattle.std.specs.Prelude.{◌≡◌};
ghost use Rattle.set.specs.Steps.{has_room};

#[derive(Clone, Copy, Debug, PartialEq, Eq, Default)]
pub struct Entries {
    pub functions: usize,
    pub numbers: usize,
    pub instructions: usize,
}

impl Entries {
    // Whether so many entries are among the free ones.
    pub(crate) fn fit_in(self, free: Entries) -> bool
        ensures { result ≡ has_room self free }
    {
        self.functions <= free.functions
            && self.numbers <= free.numbers
            && self.instructions <= free.instructions
    }
}
