// The letters whose calls a page does not make yet.
ghost use Rattle.std.specs.Prelude.{◌≡◌, slice_index};
ghost use Rattle.page.specs.Answers.{is_not_yet};

// Whether the row's letter is P, Z, F, N or B. To be removed when a page makes their calls.
pub fn is_not_yet(row: &[u8]) -> bool
    ensures { result ≡ is_not_yet (slice_index row.now 0) }
{
    matches!(row, [b'P' | b'Z' | b'F' | b'N' | b'B', ..])
}
