// A lent list of which the front is used. A slice with a length beside it, in this one place: the memory is lent,
// and a set has no heap for a Vec.
mod lay;

ghost use Rattle.std.specs.Prelude.{◌≡◌, ◌<◌, ◌≤◌, [], ◌∷◌, length};
ghost use Rattle.std.specs.List.{flat_map};
ghost use Rattle.set.specs.Fill.{appended};

pub(crate) use lay::Lay;
use numeric::{Numbers, put};
use std::marker::Model;

#[derive(Drop)]
pub(crate) struct Filled<'a, T> {
    list: &'a mut [T],
    used: usize,
}

// Clauses see what is used, and what is free behind it.
impl<'a, T> Model for Filled<'a, T> {
    ghost use Rattle.std.specs.Prelude.{◌≤◌, length, take, drop};
    ghost use Rattle.set.specs.Fill.{Fill};

    ghost Value = { Fill T };

    ghost view = { λ f. record { front = take f.used f.list.now; rest = drop f.used f.list.now } };

    ghost invariant = { λ f. f.used ≤ length f.list.now };
}

impl<'a, T: Copy> Filled<'a, T> {
    // The list as it is, all of it free.
    pub(crate) fn over(list: &'a mut [T]) -> Self
        ensures { result ≡ record { front = []; rest = list.old } }
    {
        Filled { list, used: 0 }
    }

    // What is used.
    pub(crate) fn as_slice(&self) -> &[T]
        ensures { result.now ≡ self.now.front }
    {
        &self.list[..self.used]
    }

    // How many entries are used.
    pub(crate) fn len(&self) -> usize
        ensures { result ≡ length self.now.front }
    {
        self.used
    }

    // How many entries are free.
    pub(crate) fn free(&self) -> usize
        ensures { result ≡ length self.now.rest }
    {
        self.list.len() - self.used
    }

    // Writes the item behind those that are used.
    pub(crate) fn push(&mut self, item: T)
        requires { 0 < length self.old.rest }
        ensures { self.new ≡ appended self.old (item ∷ []) }
    {
        self.list[self.used] = item;
        self.used += 1;
    }
}

impl Filled<'_, f32> {
    // Writes the numbers of the items behind those that are used, and says where they begin.
    pub(crate) fn append<P: Numbers>(&mut self, items: &[P]) -> usize
        requires { length (flat_map P.numbers items.now) ≤ length self.old.rest }
        ensures place { result ≡ length self.old.front }
        ensures items { self.new ≡ appended self.old (flat_map P.numbers items.now) }
    {
        let at = self.used;
        self.used = put(self.list, at, items);
        at
    }
}
