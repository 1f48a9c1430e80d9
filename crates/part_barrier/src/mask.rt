//! Masks of up to 256 nodes in four words, the lowest first.

ghost use Rattle.std.specs.Prelude.{◌≡◌, ◌<◌, ◌≤◌, ◌^◌, ℕ, true, bit_or};
ghost use Rattle.wire_message.specs.Notifications.{mask_number};
ghost use Rattle.part_barrier.specs.Masks.{has, has_all, mask_words};

/// The words of the mask.
pub(crate) fn words(mask: &[u64; 4]) -> [u64; 4]
    ensures { result ≡ mask_words (mask_number mask.now) }
{
    [mask[0], mask[1], mask[2], mask[3]]
}

/// The nodes that are in one of the masks.
pub(crate) fn union(first: &[u64; 4], second: &[u64; 4]) -> [u64; 4]
    ensures { mask_number result ≡ bit_or (mask_number first.now) (mask_number second.now) }
{
    [
        first[0] | second[0],
        first[1] | second[1],
        first[2] | second[2],
        first[3] | second[3],
    ]
}

/// Whether the node is in the mask.
pub(crate) fn is_in(mask: &[u64; 4], node: u16) -> bool
    requires { node < 256 }
    ensures { result ≡ has (mask_number mask.now) node }
{
    mask[(node / 64) as usize] >> (node % 64) & 1 == 1
}

/// Puts the node into the mask.
pub(crate) fn put_in(mask: &mut [u64; 4], node: u16)
    requires { node < 256 }
    ensures { mask_number mask.new ≡ bit_or (mask_number mask.old) (2 ^ node) }
{
    mask[(node / 64) as usize] |= 1 << (node % 64);
}

/// A node below which each node of the first mask is in the other one too; 256 where that is so of all of them. It looks
/// at each word at once.
pub(crate) fn first_without(mask: &[u64; 4], other: &[u64; 4]) -> u16
    ensures { (node : ℕ) → node < result → has (mask_number mask.now) node ≡ true
        → has (mask_number other.now) node ≡ true }
{
    for place in 0..4usize {
        let left = mask[place] & !other[place];
        if left != 0 {
            return place as u16 * 64 + left.trailing_zeros() as u16;
        }
    }
    256
}

/// Whether each node is in the mask.
pub(crate) fn has_all(mask: &[u64; 4], nodes: u16) -> bool
    requires { nodes ≤ 256 }
    ensures { result ≡ has_all (mask_number mask.now) nodes }
{
    for node in 0..nodes {
        if !is_in(mask, node) {
            return false;
        }
    }
    true
}
