// A Domain or Range pair: two finite numbers, the first at most the second. A ghost field says so and
// no Model, which would have PartialEq written by hand.
ghost use Rattle.std.specs.Prelude.{◌≡◌, true, is_some, IfSome};
ghost use Rattle.numeric.specs.Interval.{ordered, clamp, within};

#[derive(Clone, Copy, Debug, PartialEq)]
pub struct Pair {
    low: f32,
    high: f32,
    ghost ok: { ordered (low, high) ≡ true },
}

impl Pair {
    // The pair of two finite numbers in order; no others make one.
    pub fn new(low: f32, high: f32) -> Option<Pair>
        ensures numbers { IfSome result (λ p. (p.low ≡ low) × (p.high ≡ high)) }
        ensures made { is_some result ≡ ordered (low, high) }
    {
        if low.is_finite() && high.is_finite() && low <= high {
            Some(Pair { low, high })
        } else {
            None
        }
    }

    pub fn low(self) -> f32
        ensures { result ≡ self.low }
    {
        self.low
    }

    pub fn high(self) -> f32
        ensures { result ≡ self.high }
    {
        self.high
    }

    // A NaN and what is more than the second number become it, then what is less than the first
    // becomes the first. So every float comes into the pair.
    pub fn clamp(self, v: f32) -> f32
        ensures value { result ≡ clamp (self.low, self.high) v }
        ensures inside { within (self.low, self.high) result ≡ true }
    {
        let Pair { low, high, .. } = self;
        // No min and max: they leave the sign of a zero open.
        let capped = if v.is_nan() || v > high { high } else { v };
        if capped < low { low } else { capped }
    }
}
