//! Which of the datagrams that traces got were sent: the places of those that they got, and a mark at each place.

ghost use Rattle.std.specs.Prelude.{◌≡◌, ℕ, ◌<◌, ◌↔◌, true, IsTrue, [], ◌∷◌, slice_set, List};
ghost use Rattle.std.specs.Prelude.{length, Some, IfOk, OnOk, if◌then◌else◌};
ghost use Rattle.std.specs.Str.{bytes_eq};
ghost use Rattle.text_trace.specs.Noted.{place_in, AreFound, ArePlaces, Fit, IsNoted, Marks};
ghost use Rattle.text_trace.specs.Noted.{datagram, mark, spot, HavePlaces, AreUnmarked};

use crate::datagram::Datagram;
use crate::trace::Trace;
use base_turns::Entry;
use std::alloc::{AllocError, Global};
use std::collections::HashMap;

/// For each datagram that a trace got, a place of an entry that got it.
pub type Places<'a> = HashMap<Datagram<'a>, usize>;

/// Gives a datagram this place.
fn add_place<'a>(places: &mut Places<'a>, bytes: &'a [u8], i: usize) -> Result<(), AllocError>
    ensures { OnOk result ((b : List ℕ) → place_in places.new b
        ≡ (if bytes_eq bytes.entry.now b then Some i else place_in places.old b)) }
{
    places.insert(Datagram::new(bytes), i)?;
    Ok(())
}

/// The places of a trace.
pub fn places_of<'a>(alloc: Global, entries: &'a [Entry]) -> Result<Places<'a>, AllocError>
    ensures found { IfOk result (λ p. AreFound p entries.now) }
    ensures places { IfOk result (λ p. ArePlaces p entries.now) }
{
    let mut places = HashMap::with_capacity(alloc, entries.len())?;
    for (i, entry) in entries.iter().enumerate() {
        if let Some(bytes) = &entry.got {
            add_place(&mut places, bytes.as_slice(), i)?;
        }
    }
    Ok(places)
}

/// The place of a datagram.
fn place_of(places: &Places<'_>, bytes: &[u8]) -> Option<usize>
    ensures { result ≡ place_in places.now bytes.now }
{
    places.get(&Datagram::new(bytes)).copied()
}

/// Marks a place.
fn set_mark(marks: &mut Vec<bool>, i: usize)
    requires { i < length marks.old.items }
    ensures { marks.new.items ≡ slice_set marks.old.items i true }
{
    marks.as_mut_slice()[i] = true;
}

/// The place of a datagram in a node's trace.
fn spot_of(places: &[Places<'_>], node: usize, bytes: &[u8]) -> Option<usize>
    ensures { result ≡ spot places.now node bytes.now }
{
    let Some(places) = places.get(node) else {
        return None;
    };
    place_of(places, bytes)
}

/// A datagram was sent to a node.
pub fn note(places: &[Places<'_>], marks: &mut [Vec<bool>], to: u16, bytes: &[u8])
    requires { Fit places.now marks.old }
    ensures fit { Fit places.now marks.new }
    ensures marks { Marks places.now marks.old marks.new (datagram to bytes.now ∷ []) }
{
    let to = usize::from(to);
    if let Some(i) = spot_of(places, to, bytes) {
        set_mark(&mut marks[to], i);
    }
}

/// Whether a mark at a place of a node's trace is set.
pub fn is_marked(marks: &[Vec<bool>], node: usize, at: usize) -> bool
    requires { node < length marks.now }
    ensures { result ≡ mark marks.now node at }
{
    marks[node].get(at).copied().unwrap_or(false)
}

/// Whether a datagram was sent to a node whose trace got it.
pub fn is_noted(places: &[Places<'_>], marks: &[Vec<bool>], node: usize, bytes: &[u8]) -> bool
    requires { node < length marks.now }
    ensures { IsTrue result ↔ IsNoted places.now marks.now node bytes.now }
{
    match spot_of(places, node, bytes) {
        None => false,
        Some(i) => marks[node].get(i).copied().unwrap_or(false),
    }
}

/// The places of each trace.
pub fn all_places<'a>(alloc: Global, traces: &'a [Trace]) -> Result<Vec<Places<'a>>, AllocError>
    ensures length { IfOk result (λ ps. length ps.items ≡ length traces.now) }
    ensures each { IfOk result (λ ps. HavePlaces ps.items traces.now) }
{
    let mut places = Vec::new(alloc);
    for trace in traces {
        places.push(places_of(alloc, trace.entries.as_slice())?)?;
    }
    Ok(places)
}

/// A mark for each entry, none of them set.
pub fn no_marks(alloc: Global, traces: &[Trace]) -> Result<Vec<Vec<bool>>, AllocError>
    ensures length { IfOk result (λ ms. length ms.items ≡ length traces.now) }
    ensures each { IfOk result (λ ms. AreUnmarked ms.items traces.now) }
{
    let mut marks = Vec::new(alloc);
    for trace in traces {
        marks.push(vec![in alloc; false; trace.entries.as_slice().len()]?)?;
    }
    Ok(marks)
}
