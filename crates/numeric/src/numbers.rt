// What lies in a list of numbers as one or more of them.
ghost use Rattle.std.specs.Prelude.{◌≡◌, ℕ, Bool, List, [], ◌∷◌, length, Float, refl};
ghost use Rattle.std.specs.Float.{float_is_finite};
ghost use Rattle.std.specs.List.{flat_map};
ghost use Rattle.numeric.specs.Interval.{both_finite};
ghost use Rattle.numeric.specs.Lists.{Lays};

use crate::lists::has_room;

// A value that is so many numbers in a list, the same count for each of its type.
pub trait Numbers: Copy {
    ghost COUNT: { ℕ };

    ghost numbers: { Self → List Float };

    ghost finite: { Self → Bool };

    const COUNT: usize;

    fn is_finite(self) -> bool
        ensures { result ≡ finite self };

    // Writes them from `at` on, and says which place lies behind them. Where they do not fit, nothing
    // is written and the place is `at`.
    fn put_at(self, list: &mut [f32], at: usize) -> usize
        ensures { Lays list.old at (numbers self) list.new result };

    // Writes the numbers of each item from `at` on, likewise: `put` is this. A loop as in put_each, for a type to replace
    // by one copy where its items lie as the numbers do.
    fn put_all(list: &mut [f32], at: usize, items: &[Self]) -> usize
        ensures { Lays list.old at (flat_map numbers items.now) list.new result }
    {
        if !has_room(list.len(), at, items.len(), Self::COUNT) {
            return at;
        }
        let mut end = at;
        for item in items {
            let next = end + Self::COUNT;
            item.put_at(&mut list[end..next], 0);
            end = next;
        }
        end
    }

    ghost counted: { (x : Self) → length (numbers x) ≡ COUNT };
}

impl Numbers for f32 {
    ghost COUNT = { 1 };

    ghost numbers = { λ x. x ∷ [] };

    ghost finite = { float_is_finite };

    ghost counted = { λ _. refl };

    const COUNT: usize = 1;

    fn is_finite(self) -> bool {
        f32::is_finite(self)
    }

    fn put_at(self, list: &mut [f32], at: usize) -> usize {
        if !has_room(list.len(), at, 1, Self::COUNT) {
            return at;
        }
        list[at] = self;
        at + 1
    }

    fn put_all(list: &mut [f32], at: usize, items: &[f32]) -> usize {
        if !has_room(list.len(), at, items.len(), Self::COUNT) {
            return at;
        }
        let end = at + items.len();
        list[at..end].copy_from_slice(items);
        end
    }
}

impl Numbers for (f32, f32) {
    ghost COUNT = { 2 };

    ghost numbers = { λ p. p.0 ∷ p.1 ∷ [] };

    ghost finite = { both_finite };

    ghost counted = { λ _. refl };

    const COUNT: usize = 2;

    fn is_finite(self) -> bool {
        self.0.is_finite() && self.1.is_finite()
    }

    fn put_at(self, list: &mut [f32], at: usize) -> usize {
        if !has_room(list.len(), at, 1, Self::COUNT) {
            return at;
        }
        list[at] = self.0;
        list[at + 1] = self.1;
        at + 2
    }
}
