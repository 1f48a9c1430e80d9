//! The law of seals.

ghost use Rattle.std.specs.Prelude.{◌≡◌, ◌≤◌, ℕ, List, Some, length};
ghost use Rattle.proc_seal.specs.Seal.{sealed_under, opened_under};
ghost use Rattle.base_io.specs.declared.link.TheConstants.{MAX_DATAGRAM};

/// What is sealed under a key is opened under it as the same bytes, where these are at most 8,296.
pub fn seal_law()
    ensures opens { (key bytes : List ℕ) → length bytes ≤ MAX_DATAGRAM
        → opened_under key (sealed_under key bytes) ≡ Some bytes }
{}
