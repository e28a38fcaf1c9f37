// Laying a function into a set: its numbers behind those that are used, and the record that says where they are.
ghost use Rattle.std.specs.Prelude.{◌≡◌, ◌≤◌, length};
ghost use Rattle.function.specs.Exponential.{exponential_of};
ghost use Rattle.function.specs.Function.{Function};
ghost use Rattle.function.specs.Numbers.{numbers_of};
ghost use Rattle.set.specs.Fill.{appended};
ghost use Rattle.set.specs.View.{record_of};

use super::Filled;
use function::{Exponential, Kind, Record};

// A function as a caller gives it.
pub(crate) trait Lay {
    ghost function: { Self → Function };

    fn lay(&self, numbers: &mut Filled<f32>) -> Record
        requires { length (numbers_of (function self.now)) ≤ length numbers.old.rest }
        ensures record { result ≡ record_of (length numbers.old.front) (function self.now) }
        ensures numbers { numbers.new ≡ appended numbers.old (numbers_of (function self.now)) };
}

impl Lay for Exponential<'_> {
    ghost function = { exponential_of };

    fn lay(&self, numbers: &mut Filled<f32>) -> Record {
        let domain = numbers.append(self.domain);
        let range = numbers.append(self.range);
        let own = numbers.append(self.c0_numbers());
        let c1 = numbers.append(self.c1_numbers());
        let n = numbers.append(&[self.n]);
        Record {
            kind: Kind::Exponential { c1, n },
            domain,
            range,
            own,
            end: numbers.len(),
        }
    }
}
