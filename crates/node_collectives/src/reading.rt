//! What stands in the parts of the local segment.

ghost use Rattle.std.specs.Prelude.{◌≡◌, ◌≢◌, ◌<◌, ◌≤◌, ◌+◌, ◌*◌, ◌%◌, length, true, is_none};
ghost use Rattle.std.specs.Prelude.{IfSome, IfNone, ℕ, List, Some};
ghost use Rattle.std.specs.Prelude.{slice_get, take};
ghost use Rattle.std.specs.Int.{w64, from_le_bytes};
ghost use Rattle.part_segment.specs.Bytes.{part};
ghost use Rattle.part_collective_area.specs.Area.{stamp_in, word_in, data_in};
ghost use Rattle.part_collective_area.specs.Shapes.{is_reduction};
ghost use Rattle.part_collective_area.specs.Results.{combination, together, together_at, word_at_place};
ghost use Rattle.node_collectives.specs.Progress.{data_of_all, end_answer, is_exchanged, is_other};
ghost use Rattle.node_collectives.specs.Progress.{is_ready, has_exhausted, other_shape, exhausted_node};
ghost use Rattle.node_collectives.specs.CollectivesState.{Stands, progress_of};
ghost use Rattle.node_collectives.specs.Ends.{HasPiece, giver_by, result_in};

use crate::answers::EndAnswer;
use crate::collectives::Collectives;
use part_collective_area::CollectiveKind;
use part_segment::{Plain, Segment};
use wire_message::MAX_PAYLOAD;

/// The number whose bytes begin at an offset, little-endian.
fn word(bytes: &[u8], offset: u64) -> u64
    requires { offset + 8 ≤ length bytes.now }
    ensures { result ≡ from_le_bytes w64 (part bytes.now offset 8) }
{
    let at = offset as usize;
    u64::read(&bytes[at..at + 8])
}

impl Collectives {
    /// The bytes of a segment that is as long as the settings say; none of any other.
    pub(crate) fn bytes<'s>(&self, segment: &'s Segment) -> Option<&'s [u8]>
        ensures some { IfSome result (λ bytes. (bytes.now ≡ segment.now)
            × (length segment.now ≡ self.now.settings.segment)) }
        ensures none { IfNone result (length segment.now ≢ self.now.settings.segment) }
    {
        if segment.len() != self.settings.segment() {
            return None;
        }
        Some(segment.bytes())
    }

    /// The stamp in the part of a node, of the phase that is open.
    fn stamp(&self, bytes: &[u8], node: u16) -> u64
        requires long { length bytes.now ≡ self.now.settings.segment }
        requires node { node < self.now.area.nodes }
        ensures { result ≡ stamp_in bytes.now self.now.area (self.now.ended % 2) node }
    {
        word(bytes, self.part(self.ended % 2, node))
    }

    /// The word of a shape there.
    fn shape_there(&self, bytes: &[u8], node: u16) -> u64
        requires long { length bytes.now ≡ self.now.settings.segment }
        requires node { node < self.now.area.nodes }
        ensures { result ≡ word_in bytes.now self.now.area (self.now.ended % 2) node }
    {
        word(bytes, self.part(self.ended % 2, node) + 8)
    }

    /// The data there, of as many bytes as each node gives.
    fn data<'s>(&self, bytes: &'s [u8], node: u16) -> &'s [u8]
        requires long { length bytes.now ≡ self.now.settings.segment }
        requires node { node < self.now.area.nodes }
        ensures data { result.now
            ≡ data_in bytes.now self.now.area (self.now.ended % 2) node self.now.shape.len }
        ensures len { length result.now ≡ self.now.shape.len }
    {
        let at = (self.part(self.ended % 2, node) + 16) as usize;
        &bytes[at..at + self.shape.len as usize]
    }

    /// Whether it has sent to all others, and all parts of the phase have its stamp.
    fn is_ready(&self, bytes: &[u8]) -> bool
        requires opened { self.now.ended < self.now.started }
        requires long { length bytes.now ≡ self.now.settings.segment }
        ensures { result ≡ is_ready self.now.area self.now.me (progress_of self.now) bytes.now }
    {
        for node in 0..self.nodes() {
            if !self.is_exchanged(bytes, node) {
                return false;
            }
        }
        true
    }

    /// Whether messages of the phase went both ways: the node was sent to, and its part has the stamp.
    fn is_exchanged(&self, bytes: &[u8], node: u16) -> bool
        requires opened { self.now.ended < self.now.started }
        requires long { length bytes.now ≡ self.now.settings.segment }
        requires node { node < self.now.area.nodes }
        ensures { result ≡ is_exchanged self.now.area self.now.me (progress_of self.now) bytes.now node }
    {
        (self.sent[usize::from(node)] || node == self.me)
            && self.stamp(bytes, node) == self.ended + 1
    }

    /// The first node whose part says another shape than the local one.
    fn other_shape(&self, bytes: &[u8]) -> Option<u16>
        requires long { length bytes.now ≡ self.now.settings.segment }
        ensures { result ≡ other_shape self.now.area (progress_of self.now) bytes.now }
    {
        for node in 0..self.nodes() {
            if self.is_other(bytes, node) {
                return Some(node);
            }
        }
        None
    }

    /// Whether the part of a node says another shape than the local one.
    fn is_other(&self, bytes: &[u8], node: u16) -> bool
        requires long { length bytes.now ≡ self.now.settings.segment }
        requires node { node < self.now.area.nodes }
        ensures { result ≡ is_other self.now.area (progress_of self.now) bytes.now node }
    {
        self.shape_there(bytes, node) != self.shape.word()
    }

    /// The first node that wasn't sent to and for which no number was left.
    fn exhausted_node(&self) -> Option<u16>
        ensures { result ≡ exhausted_node self.now.area self.now.me (progress_of self.now) }
    {
        for node in 0..self.nodes() {
            if self.has_exhausted(node) {
                return Some(node);
            }
        }
        None
    }

    /// Whether no node is left that wasn't sent to and for which no number was left when it was asked last in the
    /// phase.
    pub fn is_unexhausted(&self) -> bool
        ensures { result ≡ is_none
            (exhausted_node self.now.area self.now.me (progress_of self.now)) }
    {
        self.exhausted_node().is_none()
    }

    /// Whether a node wasn't sent to, and no number was left for it.
    fn has_exhausted(&self, node: u16) -> bool
        requires { node < self.now.area.nodes }
        ensures { result ≡ has_exhausted self.now.me (progress_of self.now) node }
    {
        self.is_left(node) && self.exhausted[usize::from(node)]
    }

    /// How a try to end is answered whose poll is allowed.
    pub(crate) fn end_answer(&self, bytes: &[u8]) -> EndAnswer
        requires opened { self.now.ended < self.now.started }
        requires long { length bytes.now ≡ self.now.settings.segment }
        ensures { result ≡ end_answer self.now.area self.now.me (progress_of self.now) bytes.now }
    {
        if self.is_ready(bytes) {
            match self.other_shape(bytes) {
                Some(node) => EndAnswer::Mismatch(node),
                None => EndAnswer::Ended,
            }
        } else {
            match self.exhausted_node() {
                Some(node) => EndAnswer::Exhausted(node),
                None => EndAnswer::NotReady,
            }
        }
    }

    /// Two words, taken together.
    fn combine(&self, one: u64, other: u64) -> u64
        ensures { result ≡ combination self.now.shape.kind one other }
    {
        match self.shape.kind {
            CollectiveKind::Min | CollectiveKind::AllMin => one.min(other),
            CollectiveKind::Max | CollectiveKind::AllMax => one.max(other),
            CollectiveKind::Sum
            | CollectiveKind::AllSum
            | CollectiveKind::Broadcast
            | CollectiveKind::Gather
            | CollectiveKind::AllGather => one.wrapping_add(other),
        }
    }

    /// The word at a place of a node's data.
    fn data_word(&self, bytes: &[u8], node: u16, place: u64) -> u64
        requires long { length bytes.now ≡ self.now.settings.segment }
        requires node { node < self.now.area.nodes }
        requires place { 8 * place + 8 ≤ self.now.shape.len }
        ensures { result ≡ word_at_place place
            (data_in bytes.now self.now.area (self.now.ended % 2) node self.now.shape.len) }
    {
        word(self.data(bytes, node), 8 * place)
    }

    /// The words of all nodes at a place, taken together.
    fn word_of_all(&self, bytes: &[u8], place: u64) -> u64
        requires long { length bytes.now ≡ self.now.settings.segment }
        requires place { 8 * place + 8 ≤ self.now.shape.len }
        ensures { result ≡ together_at (combination self.now.shape.kind)
            (data_of_all self.now.area (progress_of self.now) bytes.now 0 self.now.area.nodes) place }
    {
        let nodes = self.nodes();
        let mut all = self.data_word(bytes, 0, place);
        for node in 1..nodes {
            all = self.combine(all, self.data_word(bytes, node, place));
        }
        all
    }

    /// The bytes of all nodes, taken together word by word.
    fn reduce(&self, bytes: &[u8], piece: &mut [u8])
        requires long { length bytes.now ≡ self.now.settings.segment }
        requires reduction { is_reduction self.now.shape.kind ≡ true }
        requires len { length piece.old ≡ self.now.shape.len }
        ensures { piece.new ≡ together (combination self.now.shape.kind) self.now.shape.len
            (data_of_all self.now.area (progress_of self.now) bytes.now 0 self.now.area.nodes) }
    {
        for place in 0..self.shape.len / 8 {
            let at = (8 * place) as usize;
            let word = self.word_of_all(bytes, place);
            piece[at..at + 8].copy_from_slice(&word.to_le_bytes());
        }
    }

    /// In how many pieces the result is written.
    pub(crate) fn pieces(&self) -> u16
        ensures pieces { (bytes : List ℕ) → result ≡ length (result_in self.now bytes) }
        ensures stands { Stands self.now }
    {
        match self.shape.kind {
            CollectiveKind::AllGather => self.settings.nodes(),
            CollectiveKind::Gather if self.me == self.shape.root => self.settings.nodes(),
            _ if self.shape.has_result(self.me) => 1,
            _ => 0,
        }
    }

    /// A piece of the result, in the first bytes, where the segment is as long as the settings say; none of any other.
    pub(crate) fn piece(&self, segment: &Segment, index: u16) -> Option<[u8; MAX_PAYLOAD]>
        requires { HasPiece self.now index }
        ensures some { IfSome result (λ piece. slice_get (result_in self.now segment.now) index
            ≡ Some (take self.now.shape.len piece)) }
        ensures none { IfNone result (length segment.now ≢ self.now.settings.segment) }
    {
        match self.bytes(segment) {
            Some(bytes) => {
                let mut piece = [0; MAX_PAYLOAD];
                self.fill_piece(bytes, index, &mut piece[..self.data_len()]);
                Some(piece)
            }
            None => None,
        }
    }

    /// How many bytes each node gives.
    pub(crate) fn data_len(&self) -> usize
        ensures len { result ≡ self.now.shape.len }
        ensures few { result ≤ MAX_PAYLOAD }
    {
        self.shape.len as usize
    }

    /// Fills in a piece of the result.
    fn fill_piece(&self, bytes: &[u8], index: u16, piece: &mut [u8])
        requires long { length bytes.now ≡ self.now.settings.segment }
        requires index { index < length (result_in self.now bytes.now) }
        requires len { length piece.old ≡ self.now.shape.len }
        ensures { slice_get (result_in self.now bytes.now) index ≡ Some piece.new }
    {
        if self.shape.kind.is_reduction() {
            self.reduce(bytes, piece);
        } else {
            piece.copy_from_slice(self.data(bytes, self.giver(index)));
        }
    }

    /// The node whose data is a piece of a result that takes no words together.
    fn giver(&self, index: u16) -> u16
        ensures { result ≡ giver_by self.now.shape.kind self.now.shape.root index }
    {
        match self.shape.kind {
            CollectiveKind::Broadcast => self.shape.root,
            _ => index,
        }
    }
}
