//! The parts of a line that are the same in each form.

ghost use Rattle.std.specs.Prelude.{◌≡◌, IsTrue, ◌↔◌, is_some, IfSome};
ghost use Rattle.std.specs.Str.{bytes_eq};
ghost use Rattle.base_text.specs.Lines.{is_stop, first_word, behind_word, after_space, after_newline};
ghost use Rattle.base_text.specs.Lines.{has_space, has_more};
ghost use Rattle.base_text.specs.Words.{GoesOn, GoesWith, IsSame};
ghost use Rattle.base_text.specs.Found.{Finds};

use crate::miss::Other;

/// Whether two words have the same byte at a place.
#[inline(always)]
fn is_same(word: &[u8], name: &[u8], i: usize) -> bool
    ensures { IsTrue result ↔ IsSame word.now name.now i }
{
    i < word.len() && i < name.len() && word[i] == name[i]
}

/// Whether a word is this one. Most words that are asked for differ in their length or in their first byte.
#[inline(always)]
pub fn is_name(word: &[u8], name: &[u8]) -> bool
    ensures { result ≡ bytes_eq word.now name.now }
{
    if word.len() != name.len() {
        return false;
    }
    let mut end = 0;
    while is_same(word, name, end) {
        end += 1;
    }
    end == name.len()
}

/// Whether a word ends at the byte.
pub fn is_stop(byte: u8) -> bool
    ensures { result ≡ is_stop byte }
{
    byte == b' ' || byte == b'\n'
}

/// Whether the first word goes on at a place.
#[inline(always)]
pub fn goes_on(bytes: &[u8], i: usize) -> bool
    ensures { IsTrue result ↔ GoesOn bytes.now i }
{
    i < bytes.len() && !is_stop(bytes[i])
}

/// The first word, and the bytes after it.
pub fn name_of(bytes: &[u8]) -> (&[u8], &[u8])
    ensures name { result.0.now ≡ first_word bytes.now }
    ensures rest { result.1.now ≡ behind_word bytes.now }
{
    let mut end = 0;
    while goes_on(bytes, end) {
        end += 1;
    }
    bytes.split_at(end)
}

/// Whether the first word goes on at a place with the byte that a name has there.
#[inline(always)]
fn goes_with(bytes: &[u8], name: &[u8], i: usize) -> bool
    ensures { IsTrue result ↔ GoesWith bytes.now name.now i }
{
    i < name.len() && i < bytes.len() && bytes[i] == name[i] && !is_stop(name[i])
}

/// Whether the first word is this one.
#[inline(always)]
pub fn begins(name: &[u8], bytes: &[u8]) -> bool
    ensures { result ≡ bytes_eq (first_word bytes.now) name.now }
{
    if bytes.len() < name.len() {
        return false;
    }
    let mut end = 0;
    while goes_with(bytes, name, end) {
        end += 1;
    }
    if end < name.len() {
        return false;
    }
    !goes_on(bytes, end)
}

/// The bytes after the first word, where it is this one.
#[inline(always)]
pub fn behind_name<'a>(bytes: &'a [u8], name: &[u8]) -> Option<&'a [u8]>
    ensures name { is_some result ≡ bytes_eq (first_word bytes.now) name.now }
    ensures rest { IfSome result (λ rest. rest.now ≡ behind_word bytes.now) }
{
    if !begins(name, bytes) {
        return None;
    }
    let (_, rest) = bytes.split_at(name.len());
    Some(rest)
}

/// Whether a space comes next.
pub fn has_space(bytes: &[u8]) -> bool
    ensures { result ≡ has_space bytes.now }
{
    !bytes.is_empty() && bytes[0] == b' '
}

/// Whether another word of a list follows.
pub fn has_more(count: usize, most: usize, bytes: &[u8]) -> bool
    ensures { result ≡ has_more count most bytes.now }
{
    count < most && has_space(bytes)
}

/// The bytes after a space.
#[inline(always)]
pub fn spaced(bytes: &[u8]) -> Result<&[u8], Other>
    ensures { Finds (λ b. b.now) result (after_space bytes.now) }
{
    if bytes.is_empty() {
        return Err(Other);
    }
    if bytes[0] != b' ' {
        return Err(Other);
    }
    let (_, rest) = bytes.split_at(1);
    Ok(rest)
}

/// The bytes after the end of the line.
#[inline(always)]
pub fn ended(bytes: &[u8]) -> Result<&[u8], Other>
    ensures { Finds (λ b. b.now) result (after_newline bytes.now) }
{
    if bytes.is_empty() {
        return Err(Other);
    }
    if bytes[0] != b'\n' {
        return Err(Other);
    }
    let (_, rest) = bytes.split_at(1);
    Ok(rest)
}
