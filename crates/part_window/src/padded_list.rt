//! Lists of which the end is blank, and takes no memory that was touched.

ghost use Rattle.std.specs.Prelude.{◌≡◌, ◌-◌, ◌≤◌, ◌++◌, length, vec_capacity};
ghost use Rattle.std.proofs.Math.ListN.{replicate};

/// Appends blanks up to this length, within the list's memory.
pub(crate) fn append_blanks<T: Copy>(items: &mut Vec<T>, blank: T, len: usize)
    requires { len ≤ vec_capacity items.old }
    ensures appended { items.new.items
        ≡ items.old.items ++ replicate (len - length items.old.items) blank }
    ensures same { vec_capacity items.new ≡ vec_capacity items.old }
{
    for _ in items.len()..len {
        items.push_reserved(blank);
    }
}
