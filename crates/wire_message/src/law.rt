//! The laws of the grammar, as functions.

ghost use Rattle.std.specs.Prelude.{◌≡◌, ◌<◌, ◌≤◌, true, length, Some, MatchOption};
ghost use Rattle.wire_message.specs.Content.{IsWellFormed, is_version, spelling};
ghost use Rattle.wire_message.specs.Notifications.{IsNotification, most_nodes};
ghost use Rattle.wire_message.specs.Reading.{viewed_message, outgoing_message};

use crate::notification::{BarrierNotification, args_notification, notification_args};
use crate::outgoing::Outgoing;
use crate::reading::view;
use crate::viewed::View;
use crate::writing::write_into;

/// Writes a message into the buffer and reads it again in its version: it is the same message.
///
/// None exactly where the buffer is shorter than the message's spelling.
pub fn written_again<'a>(parts: &Outgoing<'_>, buf: &'a mut [u8]) -> Option<View<'a>>
    requires { IsWellFormed (outgoing_message parts.now) }
    ensures { let message = outgoing_message parts.now in
        MatchOption result (length buf.old < length (spelling message))
        (λ view. viewed_message view ≡ message) }
{
    let len = write_into(parts, buf)?;
    view(&buf[..len], parts.version).ok()
}

/// Writes a notification as arguments and reads them again in its version: it is the same notification.
pub fn notification_again(
    notification: &BarrierNotification,
    nodes: u16,
    version: u8,
) -> Option<BarrierNotification>
    requires version { is_version version ≡ true }
    requires nodes { nodes ≤ most_nodes version }
    requires notification { IsNotification nodes notification.now }
    ensures { result ≡ Some notification.now }
{
    let mut args = [0; 12];
    let count = notification_args(notification, version, &mut args);
    args_notification(&args[..count], nodes, version)
}
