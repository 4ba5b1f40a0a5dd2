//! What all classes of immediates have in common.

ghost use Rattle.std.specs.Prelude.{◌≡◌, ℕ};

/// A class of immediates: the values that it can hold, and the field that holds each.
pub trait ImmClass {
    /// What the class depends on: a scale, a lane or a size; `()` where there is nothing.
    type Parameter;

    /// What an immediate stands for, as far as the parameter looks at it: an immediate of 32 bits
    /// looks at the low 32 bits alone.
    type Value;

    /// The values that can be held.
    ghost set: { Self.Parameter → Self.Value → Type 0 };

    /// The immediates of the parameter whose fields stand for a value of its set.
    ghost lawful: { Self.Parameter → Self → Type 0 };

    ghost value: { Self.Parameter → Self → Self.Value };

    /// The bits of the instruction's field, as one number.
    ghost field: { Self.Parameter → Self → ℕ };

    /// The value of an immediate lies in the set.
    ghost within: { (parameter : Self.Parameter) (x : Self) → lawful parameter x
        → set parameter (value parameter x) };

    /// For one parameter, two values with one field are one value.
    ghost one_value: { (parameter : Self.Parameter) (x y : Self)
        → lawful parameter x → lawful parameter y
        → field parameter x ≡ field parameter y → value parameter x ≡ value parameter y };
}
