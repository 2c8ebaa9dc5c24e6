// Bytes, cut at the first one of a kind.
ghost use Rattle.std.specs.Prelude.{◌≡◌, ℕ, Bool};
ghost use Rattle.std.specs.List.{before_first, after_first};

// What stands before the first byte that `is_mark` picks, and what behind it; all stands before
// where it picks none.
pub(crate) fn cut<F: Fn(u8) -> bool>(bytes: &[u8], is_mark: F) -> (&[u8], &[u8])
    requires { F.IsAlwaysCallable is_mark }
    ensures { (marks : ℕ → Bool) → ((b : ℕ) (r : Bool) → F.post is_mark b r → r ≡ marks b)
        → (result.0.now ≡ before_first marks bytes.now)
        × (result.1.now ≡ after_first marks bytes.now) }
{
    match bytes.iter().position(|byte| is_mark(*byte)) {
        Some(place) => (&bytes[..place], &bytes[place + 1..]),
        None => (bytes, &[]),
    }
}
