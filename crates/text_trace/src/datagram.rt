//! A datagram as the key of a map.

ghost use Rattle.std.specs.Prelude.{◌≡◌, nat_eq};
ghost use Rattle.std.specs.Hash as fed;
ghost use Rattle.std.specs.Cmp.Lexicographic.{pointwise, nat_list_eq_equiv, bytes_decides};
ghost use Rattle.std.specs.Cmp.{partial_equiv_from_equiv, on_per, on_equiv};
ghost use Rattle.std.proofs.Common.{ap};

use std::hash::{Hash, Hasher};

/// The bytes of a datagram. They are hashed in one piece.
#[derive(Clone, Copy)]
pub struct Datagram<'a> {
    bytes: &'a [u8],
}

impl<'a> Datagram<'a> {
    ghost use Rattle.text_trace.specs.Datagrams.{datagram_bytes};

    /// The datagram of these bytes.
    pub fn new(bytes: &'a [u8]) -> Datagram<'a>
        ensures { datagram_bytes result ≡ bytes.now }
    {
        Datagram { bytes }
    }
}

impl<'a> PartialEq for Datagram<'a> {
    ghost use Rattle.text_trace.specs.Datagrams.{datagram_bytes};

    ghost eq = { λ x y. pointwise nat_eq (datagram_bytes x) (datagram_bytes y) };

    ghost laws = { on_per datagram_bytes (partial_equiv_from_equiv nat_list_eq_equiv) };

    fn eq(&self, other: &Self) -> bool {
        self.bytes == other.bytes
    }
}

impl<'a> Eq for Datagram<'a> {
    ghost use Rattle.text_trace.specs.Datagrams.{datagram_bytes};

    ghost laws = { on_equiv datagram_bytes nat_list_eq_equiv };
}

impl<'a> Hash for Datagram<'a> {
    ghost use Rattle.text_trace.specs.Datagrams.{datagram_bytes};

    ghost hash_input = { λ d. fed.str (datagram_bytes d) };

    ghost respects_eq = { λ x y same. ap fed.str
        ((bytes_decides (datagram_bytes x) (datagram_bytes y)).0 same) };

    fn hash<H: Hasher>(&self, state: &mut H) {
        state.write(self.bytes);
        state.write_u8(0xff);
    }
}
