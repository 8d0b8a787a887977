ghost use Rattle.std.specs.Prelude.{◌≡◌, ℕ};

/// A refusal, which has its number in the table of refusals.
pub trait Refusal {
    ghost number: { Self → ℕ };

    /// The number of the refusal.
    fn row(&self) -> u8
        ensures { result ≡ number self.now };
}
