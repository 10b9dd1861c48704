//! Types whose values are numbered.

ghost use Rattle.std.specs.Prelude.{◌≡◌, ℕ, Option, Some};

/// A type whose values have places, counted from 0.
pub trait Placed: Copy {
    /// The place of a value.
    ghost place_of: { Self → ℕ };

    /// The value at a place.
    ghost at_place: { ℕ → Option Self };

    /// The place of the value.
    fn place(&self) -> usize
        ensures { result ≡ place_of self.now };

    /// The value at the place.
    fn at(place: usize) -> Option<Self>
        ensures { result ≡ at_place place };

    /// A value is at its place.
    ghost there: { (e : Self) → at_place (place_of e) ≡ Some e };

    /// What is at a place has that place.
    ghost here: { (i : ℕ) (e : Self) → at_place i ≡ Some e → place_of e ≡ i };
}
