//! Why a line isn't read.

ghost use Rattle.std.specs.Prelude.{◌≡◌, ◌==◌, ◌≤◌, ◌<◌, ◌&&◌, nat_le, length};
ghost use Rattle.base_text.specs.Reasons.{is_plain, is_text, words_left, after_word, why_of};

use crate::why::LineWhy;
use crate::words::name_of;

/// Whether a byte is printable, and no space.
fn is_plain(byte: u8) -> bool
    ensures { result ≡ is_plain byte }
{
    33 <= byte && byte <= 126
}

/// Whether bytes begin with a line of words and its ending byte.
#[tactic(auto, unfolding(crate::specs::Reasons::is_text))]
pub fn is_text(bytes: &[u8]) -> bool
    ensures { result ≡ is_text bytes.now }
{
    let mut begins = true;
    for b in bytes {
        if *b == b'\n' {
            return !begins;
        }
        if *b == b' ' {
            if begins {
                return false;
            }
            begins = true;
        } else {
            if !is_plain(*b) {
                return false;
            }
            begins = false;
        }
    }
    false
}

/// The words behind spaces up to the end of the line.
pub fn words_left(bytes: &[u8]) -> usize
    ensures value { result ≡ words_left bytes.now }
    ensures within { result ≤ length bytes.now }
{
    let mut count = 0;
    for b in bytes {
        if *b == b'\n' {
            return count;
        }
        if *b == b' ' {
            count += 1;
        }
    }
    count
}

/// Whether a count lies between two others.
pub fn is_between(count: usize, least: usize, most: usize) -> bool
    ensures { result ≡ (nat_le least count && nat_le count most) }
{
    least <= count && count <= most
}

/// The bytes after a space and a word.
pub fn skipped(bytes: &[u8]) -> &[u8]
    ensures { result.now ≡ after_word bytes.now }
{
    if bytes.is_empty() {
        return bytes;
    }
    let (_, others) = bytes.split_at(1);
    if bytes[0] == b' ' {
        let (_, rest) = name_of(others);
        rest
    } else {
        let (none, _) = bytes.split_at(0);
        none
    }
}

/// Why bytes aren't read, where it is known whether they have a form.
pub fn reason_of(form: bool, bytes: &[u8]) -> LineWhy
    ensures { result ≡ why_of form bytes.now }
{
    if bytes.is_empty() {
        return LineWhy::Early;
    }
    if !is_text(bytes) {
        return LineWhy::Text;
    }
    if form { LineWhy::Value } else { LineWhy::Form }
}
