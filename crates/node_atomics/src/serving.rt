//! The handlers of batches.

ghost use Rattle.std.specs.Prelude.{ℤ, List, ◌≡◌, ◌≤◌, ◌+◌, ◌%◌, ◌*◌, ◌++◌, ◌∷◌, [], true, None, length};
ghost use Rattle.std.specs.List.{flat_map};
ghost use Rattle.std.specs.Int.{w64, to_le_bytes};
ghost use Rattle.part_segment.specs.Image.{overwritten, written_by};
ghost use Rattle.part_handlers.specs.Tokens.{IsReadyToken, stage};
ghost use Rattle.node_atomics.specs.BatchRequests.{are_inside, are_words_aligned, place_fault};
ghost use Rattle.node_atomics.specs.Served.{AtBatchDone, AtServed, word_in, change_of, changes_of};
ghost use Rattle.node_atomics.specs.Served.{olds_of, block_of, batch_entry, block_entry};

use crate::batch::fault_of_places;
use crate::request::{MOST, number_at, ops_said};
use crate::word::{WordOp, apply};
use arrayvec::ArrayVec;
use part_handlers::{Entry, Serves, Token};
use part_segment::{Offset, Segment};

/// The index of the handler of the requests of batches.
pub const BATCH_HANDLER: u8 = 252;

/// The index of the handler of their replies, which bring the block.
pub const BLOCK_HANDLER: u8 = 253;

/// How many bytes the longest block of a reply has.
const BLOCK: usize = 8 * MOST + 8;

/// The entries of the handlers of batches: of the requests, and of their replies. They list no locks.
pub fn entries() -> [Entry; 2]
    ensures { result ≡ batch_entry ∷ block_entry ∷ [] }
{
    [
        Entry {
            index: BATCH_HANDLER,
            serves: Serves::Requests,
            locks: 0,
        },
        Entry {
            index: BLOCK_HANDLER,
            serves: Serves::Replies,
            locks: 0,
        },
    ]
}

/// Does an operation, and tells what the word was.
fn act(word: WordOp, segment: &mut Segment) -> u64
    requires inside { word.offset + 8 ≤ length segment.old }
    requires aligned { word.offset % 8 ≡ 0 }
    ensures old { result ≡ word_in segment.old word.offset }
    ensures written { segment.new ≡ overwritten segment.old (change_of segment.old word) }
{
    let at: Offset<u64> = Offset::at(word.offset);
    // The place is inside and aligned, so neither is refused.
    let Ok(old) = segment.load(at) else {
        return 0;
    };
    let _ = segment.store(at, apply(word.op, old, word.a, word.b));
    old
}

/// Puts a word behind the block.
fn push_word(word: u64, block: &mut ArrayVec<u8, BLOCK>)
    requires room { length block.old.items + 8 ≤ 520 }
    ensures pushed { block.new.items ≡ block.old.items ++ to_le_bytes w64 word }
    ensures len { length block.new.items ≡ length block.old.items + 8 }
{
    let _ = block.try_extend_from_slice(&word.to_le_bytes());
}

/// Does operations in order, and puts what each word was behind the block.
fn act_all(ops: &[WordOp], segment: &mut Segment, block: &mut ArrayVec<u8, BLOCK>)
    requires inside { are_inside (length segment.old) ops.now ≡ true }
    requires aligned { are_words_aligned ops.now ≡ true }
    requires room { length block.old.items + 8 * length ops.now ≤ 520 }
    ensures segment { segment.new ≡ written_by segment.old (changes_of segment.old ops.now) }
    ensures block { block.new.items ≡ block.old.items
        ++ flat_map (to_le_bytes w64) (olds_of segment.old ops.now) }
    ensures len { length block.new.items ≡ length block.old.items + 8 * length ops.now }
    ensures same_length { length segment.new ≡ length segment.old }
{
    for word in ops {
        let old = act(*word, segment);
        push_word(old, block);
    }
}

/// Does the operations of a batch, and gives the block of its reply: what the words were, and then the tag.
fn block_after(ops: &[WordOp], tag: u64, segment: &mut Segment) -> ArrayVec<u8, BLOCK>
    requires few { length ops.now ≤ 64 }
    requires inside { are_inside (length segment.old) ops.now ≡ true }
    requires aligned { are_words_aligned ops.now ≡ true }
    ensures segment { segment.new ≡ written_by segment.old (changes_of segment.old ops.now) }
    ensures same_length { length segment.new ≡ length segment.old }
    ensures block { result.items ≡ block_of (olds_of segment.old ops.now) tag }
{
    let mut block = ArrayVec::new();
    act_all(ops, segment, &mut block);
    push_word(tag, &mut block);
    block
}

/// Does the operations of a batch, and replies.
fn do_batch(local: u64, tag: u64, ops: &[WordOp], segment: &mut Segment, token: &mut Token<'_>)
    requires few { length ops.now ≤ 64 }
    requires placed { place_fault (length segment.old) local ops.now ≡ None }
    requires ready { IsReadyToken token.old }
    ensures at { (cells : List ℤ) → AtBatchDone (record { local = local; tag = tag; ops = ops.now })
        (stage segment.old cells token.old) (stage segment.new cells token.new) }
    ensures ready { IsReadyToken token.new }
{
    let block = block_after(ops, tag, segment);
    let _ = token.reply_long(BLOCK_HANDLER, &[], &block, local);
}

/// Serves a request: does the operations that its message says, and replies with what the words were.
fn serve_request(segment: &mut Segment, token: &mut Token<'_>)
    requires ready { IsReadyToken token.old }
    ensures at { (cells : List ℤ) → AtServed 252 (stage segment.old cells token.old)
        (stage segment.new cells token.new) }
    ensures ready { IsReadyToken token.new }
{
    if token.args().len() != 4 {
        return;
    }
    let local = number_at(token.args(), 0);
    let tag = number_at(token.args(), 2);
    let Some(ops) = ops_said(token.payload()) else {
        return;
    };
    if fault_of_places(segment.len(), local, &ops).is_some() {
        return;
    }
    do_batch(local, tag, &ops, segment, token);
}

/// Runs a handler of batches with a token: 252 does what the request's message says, if it says a batch, and replies
/// with a Long to 253; 253, and any other, does nothing. It takes no memory.
///
/// The operations act in order, each on what the one before left. The reply goes to the place that the message says:
/// for each operation what its word was, and then the tag, 8 bytes each, little-endian. It is the run's reply wherever
/// the token doesn't refuse it. Where the message hasn't four arguments, its payload doesn't spell 1 to 64 operations,
/// a word or the block isn't inside a segment or isn't at a multiple of 8, nothing happens.
pub fn serve(handler: u8, segment: &mut Segment, token: &mut Token<'_>)
    requires ready { IsReadyToken token.old }
    ensures served { (cells : List ℤ) → AtServed handler (stage segment.old cells token.old)
        (stage segment.new cells token.new) }
    ensures ready { IsReadyToken token.new }
{
    if handler == BATCH_HANDLER {
        serve_request(segment, token);
    }
}
