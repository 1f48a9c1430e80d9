//! A link before another link that seals each datagram with a tag under a key, and receives those that were sealed so.
//!
//! A sealed datagram is the datagram with a tag of 16 bytes behind it: the first ones of HMAC-SHA-256 (RFC 2104, FIPS
//! 198-1) of the datagram under the key. What is proved:
//!
//! - `Hmac` gives the code of a message under a key [`code`], and `Key` the tag of a datagram, and whether a tag is
//!   that of a datagram.
//! - What is sealed under a key is opened under it as the same bytes [`seal_law`: `opens`].
//! - `SealedLink` meets `Link`. Where the link behind tells what it was sent, a datagram whose sending succeeds is
//!   there sealed, and one whose sending fails isn't there [`seals`]. Where the link behind tells its datagrams, those
//!   sent are told without their tags, and those received are the ones that open under the key.
//!
//! That nobody makes a tag without the key is no clause.
#![tactic(auto)]

mod dropped;
mod hmac;
mod key;
mod laws;
mod link;

pub use dropped::Dropped;
pub use hmac::Hmac;
pub use key::{Key, TAG_BYTES};
pub use laws::seal_law;
pub use link::SealedLink;
