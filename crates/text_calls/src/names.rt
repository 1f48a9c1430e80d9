//! What a line names by one word, and how it is found by its name.

ghost use Rattle.std.specs.Prelude.{◌≡◌, ℕ, List};
ghost use Rattle.text_calls.specs.Names.{first_named};

use base_text::is_name;

/// What has a name: a form of line, or a kind that a line says by one word.
pub trait HasName: Copy {
    /// Its name.
    ghost name_of: { Self → List ℕ };

    /// Its name. Reading, refusing and printing ask it.
    fn name(self) -> &'static [u8]
        ensures { result.now ≡ name_of self };
}

/// The first of them that has this name.
pub fn first_named<N: HasName>(all: &[N], name: &[u8]) -> Option<N>
    ensures { result ≡ first_named N.name_of all.now name.now }
{
    for one in all {
        if is_name(name, one.name()) {
            return Some(*one);
        }
    }
    None
}
