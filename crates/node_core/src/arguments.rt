//! The arguments of a message, as a handler reads them.

ghost use Rattle.std.specs.Prelude.{◌≡◌, ◌≤◌, length, take};
ghost use Rattle.wire_message.specs.Reading.{viewed_message};

use wire_message::View;

/// The arguments of a message, in the order in which it has them, and how many there are.
pub fn arguments(message: &View<'_>) -> ([i32; 16], usize)
    requires { length (viewed_message message.now).args ≤ 16 }
    ensures count { result.1 ≡ length (viewed_message message.now).args }
    ensures args { take result.1 result.0 ≡ (viewed_message message.now).args }
{
    let mut args = [0; 16];
    for place in 0..16 {
        match message.arg(place) {
            Some(arg) => args[place] = arg,
            None => return (args, place),
        }
    }
    (args, 16)
}
