// A loaded function as it lies in the lists of a set.

// One entry of the instruction list. No kind of function stores any so far.
#[derive(Clone, Copy, Debug, PartialEq, Eq)]
pub enum Instruction {
    Empty,
}

// What a kind has beside its Domain and Range, by the places where its numbers begin.
#[derive(Clone, Copy, Debug, PartialEq, Eq)]
pub enum Kind {
    // C0 lies before `c1`, C1 before `n`, where N stands
    Exponential { c1: usize, n: usize },
}

// A function's numbers lie together: the Domain pairs before `range`, the Range pairs before `own`, then what the kind has,
// up to `end`. Places and no slices, since a set still writes to the list that they lie in.
#[derive(Clone, Copy, Debug, PartialEq, Eq)]
pub struct Record {
    pub kind: Kind,
    pub domain: usize,
    pub range: usize,
    pub own: usize,
    pub end: usize,
}

impl Record {
    // What to fill a list of functions with before it is lent to a set. No Default: no Kind is without places.
    pub const EMPTY: Record = Record {
        kind: Kind::Exponential { c1: 0, n: 0 },
        domain: 0,
        range: 0,
        own: 0,
        end: 0,
    };
}

impl Instruction {
    // What to fill a list of instructions with before it is lent to a set, as Record's is.
    pub const EMPTY: Instruction = Instruction::Empty;
}
