//! How many words a line has that are said in bundles.

ghost use Rattle.std.specs.Prelude.{◌≡◌, ◌<◌, ◌≤◌};
ghost use Rattle.text_calls.specs.FormTests.{are_bundles};

/// Whether a count of words is that of so many bundles of a size behind others.
pub fn are_bundles(words: usize, before: usize, least: usize, most: usize, size: usize) -> bool
    requires { (0 < size) × (size ≤ 4) × (before ≤ 255) × (least ≤ 16) × (most ≤ 32) }
    ensures { result ≡ are_bundles before least most size words }
{
    if words < before + least * size {
        return false;
    }
    if before + most * size < words {
        return false;
    }
    (words - before) % size == 0
}
