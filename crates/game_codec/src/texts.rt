//! Texts that a zero byte ends.
ghost use Rattle.std.specs.Prelude.{◌≡◌, ◌+◌, ◌<◌, ◌∷◌, ◌++◌, length, take, drop, MatchOption};
ghost use Rattle.cell_core.specs.Text.{IsZeroFree};

/// The place of the first zero byte, or `None` if there is none.
pub(crate) fn zero_at(bytes: &[u8]) -> Option<usize>
    ensures place { MatchOption result (IsZeroFree bytes.now) (λ n. IsZeroFree (take n bytes.now)
        × ((n < length bytes.now) × (bytes.now ≡ take n bytes.now ++ 0 ∷ drop (n + 1) bytes.now))) }
{
    bytes.iter().position(|byte| *byte == 0)
}
