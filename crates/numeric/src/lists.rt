// Lists of numbers and of pairs: tests over all of them, and laying them into a longer list.
ghost use Rattle.std.specs.Prelude.{◌≡◌, ◌-◌, ◌*◌, ◌&&◌, nat_le, length};
ghost use Rattle.std.specs.List.{flat_map, slice_get};
ghost use Rattle.numeric.specs.Interval.{rises};
ghost use Rattle.numeric.specs.Lists.{every, pairs_of, Lays, Makes};

use crate::numbers::Numbers;

pub fn all_finite<P: Numbers>(items: &[P]) -> bool
    ensures { result ≡ every P.finite items.now }
{
    items.iter().all(|item| item.is_finite())
}

// Whether the first number of each pair is at most the second; a NaN is not.
pub fn pairs_rise(ps: &[(f32, f32)]) -> bool
    ensures { result ≡ every rises ps.now }
{
    ps.iter().all(|p| p.0 <= p.1)
}

// How many pairs lie in a list, number after number; a last number without a second is none.
pub fn pair_count(list: &[f32]) -> usize
    ensures { result ≡ length (pairs_of list.now) }
{
    list.len() / 2
}

// The pair i of them.
pub fn pair_at(list: &[f32], i: usize) -> Option<(f32, f32)>
    ensures { result ≡ slice_get (pairs_of list.now) i }
{
    let (pairs, _) = list.as_chunks::<2>();
    let [first, second] = pairs.get(i)?;
    Some((*first, *second))
}

// Writes the numbers of what is made of each item into the list from `at` on, and says which place
// lies behind them. Where they do not all fit, nothing is written and the place is `at`: the
// contract fixes that answer, and no caller has a refusal to pass on.
pub fn put_each<T: Copy, P: Numbers, F: Fn(T) -> P>(
    list: &mut [f32],
    at: usize,
    items: &[T],
    make: F,
) -> usize
    requires { F.IsAlwaysCallable make }
    ensures { (g : T → P) → Makes F.Fn make g → Lays list.old at (flat_map (λ x. P.numbers (g x)) items.now) list.new result }
{
    if !has_room(list.len(), at, items.len(), P::COUNT) {
        return at;
    }
    let mut end = at;
    for item in items {
        // The place of the item alone: there put_at's own test is settled when this is compiled.
        let next = end + P::COUNT;
        make(*item).put_at(&mut list[end..next], 0);
        end = next;
    }
    end
}

// Whether a list of this length holds the numbers of all items from `at` on, so many for each.
pub(crate) fn has_room(len: usize, at: usize, items: usize, each: usize) -> bool
    ensures { result ≡ (nat_le at len && nat_le (items * each) (len - at)) }
{
    items
        .checked_mul(each)
        .is_some_and(|count| at <= len && count <= len - at)
}

// Writes the numbers of each item into the list, as put_each does.
pub fn put<P: Numbers>(list: &mut [f32], at: usize, items: &[P]) -> usize
    ensures { Lays list.old at (flat_map P.numbers items.now) list.new result }
{
    P::put_all(list, at, items)
}
