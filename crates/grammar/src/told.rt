// How a refusal is told.
ghost use Rattle.std.specs.Prelude.{◌≡◌, ℕ};

// Every refusal is told as a number and a place, 0 where it has none; so `place` answers a number and not an `Option`.
pub trait Told {
    ghost number_of: { Self → ℕ };

    ghost place_of: { Self → ℕ };

    fn number(self) -> u8
        ensures { result ≡ number_of self };

    fn place(self) -> usize
        ensures { result ≡ place_of self };
}
