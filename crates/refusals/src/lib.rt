//! Refusals: enums that say why a call does not do what it is asked, each with its number and its place.

#![tactic(auto)]

ghost use Rattle.std.specs.Prelude.{◌≡◌, ℕ};

/// Why a call does not do what it is asked.
pub trait Refusal {
    ghost cause_number: { Self → ℕ };

    ghost place_number: { Self → ℕ };

    /// The number of the cause.
    fn cause(&self) -> u16
        ensures { result ≡ cause_number self.now };

    /// Where the cause was found: a byte, the number of an item, or what the refusal counts by.
    fn place(&self) -> usize
        ensures { result ≡ place_number self.now };
}
