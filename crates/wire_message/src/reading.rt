//! Reading messages.

ghost use Rattle.std.specs.Prelude.{◌≡◌, ◌+◌, ◌*◌, ◌≤◌, ◌++◌, true, length, slice_index, drop};
ghost use Rattle.std.specs.Prelude.{IfOk};
ghost use Rattle.wire_message.specs.Content.{Message, Spells, is_version};
ghost use Rattle.wire_message.specs.Reading.{Shows, message_at, refusal_of, viewed_message};
ghost use Rattle.wire_message.specs.Refusals.{first_refusal};

use crate::kind::Kind;
use crate::refused::Refused;
use crate::refusing::{first_refusal, u16_at, u64_at};
use crate::viewed::View;

/// The fields at their places.
#[tactic(auto, unfolding(crate::specs::Reading::message_at))]
fn fields_of(bytes: &[u8], version: u8) -> View<'_>
    requires header { 40 ≤ length bytes.now }
    requires words { 40 + 4 * slice_index bytes.now 6 ≤ length bytes.now }
    ensures value { viewed_message result ≡ message_at version bytes.now }
    ensures parts { result.words.now ++ result.payload.now ≡ drop 40 bytes.now }
{
    let (_, body) = bytes.split_at(40);
    let (words, payload) = body.split_at(4 * usize::from(bytes[6]));
    View {
        version,
        kind: Kind::of_code(bytes[4]),
        job: u64_at(bytes, 8),
        from: u16_at(bytes, 16),
        to: u16_at(bytes, 18),
        slot: u16_at(bytes, 20),
        number: u64_at(bytes, 24),
        handler: bytes[5],
        words,
        offset: u64_at(bytes, 32),
        payload,
    }
}

/// Reads a message. It copies nothing: `words` and `payload` are parts of the bytes.
///
/// It accepts exactly the spellings of messages of this version, which is 1 or 2. The refusal is the first of the
/// table that applies; where none does, the bytes are the one spelling of the message.
pub fn view(bytes: &[u8], version: u8) -> Result<View<'_>, Refused>
    requires { is_version version ≡ true }
    // The first refusal of the table that applies, or Ok where none does.
    ensures refused { refusal_of result ≡ first_refusal version bytes.now }
    // What is read is of this version, and spelled so.
    ensures version { IfOk result (λ view. view.version ≡ version) }
    ensures found { IfOk result (λ view. Spells (viewed_message view) bytes.now) }
    // What is of this version and spelled so is read.
    ensures only { (message : Message) → message.version ≡ version → Spells message bytes.now
        → Shows message result }
    // The parts that are lent are what stands behind the header.
    ensures parts { IfOk result (λ view. view.words.now ++ view.payload.now ≡ drop 40 bytes.now) }
{
    if let Some(refusal) = first_refusal(bytes, version) {
        return Err(refusal);
    }
    Ok(fields_of(bytes, version))
}
