ghost use Rattle.std.specs.Prelude.{◌≡◌, ℕ};

/// A record that tells its tick.
pub trait Timed {
    ghost time: { Self → ℕ };

    /// When it happened, or is to happen.
    fn tick(&self) -> u32
        ensures { result ≡ time self.now };
}
