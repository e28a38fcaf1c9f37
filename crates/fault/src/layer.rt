// The layers that a refusal can come from.

// In the order of the numbers that a controller logs.
#[derive(Clone, Copy, Debug, PartialEq, Eq)]
pub enum Layer {
    // What reads text.
    Text = 1,
    // The calculators' machine and their vetting.
    Machine = 2,
    // A single function.
    Function = 3,
    // The set and its units.
    Set = 4,
}

impl From<Layer> for u8 {
    ghost use Rattle.std.specs.Prelude.{◌≡◌};
    ghost use Rattle.fault.specs.Refusal.{layer_number};

    ghost from_gives = { λ layer number. number ≡ layer_number layer };

    fn from(layer: Layer) -> u8 {
        layer as u8
    }
}
