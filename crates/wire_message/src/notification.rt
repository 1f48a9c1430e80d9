//! Barrier notifications as arguments of requests.

ghost use Rattle.std.specs.Prelude.{◌≡◌, ◌+◌, ◌<◌, ◌≤◌, ◌^◌, ℕ, [], ◌∷◌, ◌++◌, true, length, drop};
ghost use Rattle.std.specs.Prelude.{slice_index, pos, Some, IfSome, is_none};
ghost use Rattle.wire_message.specs.Content.{is_version};
ghost use Rattle.wire_message.specs.Notifications.{IsNotification, most_nodes, notification_count};
ghost use Rattle.wire_message.specs.Notifications.{notification_arguments};
ghost use Rattle.wire_message.specs.Notifications.{is_no_notification, is_wrong_flags, high_half, low_half};
ghost use Rattle.wire_message.specs.Notifications.{joined_halves, word_at, mask_of, mask_arguments, middle};
ghost use Rattle.wire_message.specs.Notifications.{arguments_at, word_fits, mask_fits};

/// What a node tells another one of a phase of the barrier (profile: split-phase barriers of GASNet 1.8.1, extended
/// API, by notifications).
#[derive(Clone, Copy, Debug, PartialEq, Eq)]
pub struct BarrierNotification {
    /// The number of the phase, from 0.
    pub phase: u64,
    /// The nodes that the notification tells of: node 64 m + b is bit b of word m.
    pub mask: [u64; 4],
    /// Their identifier.
    pub id: i32,
    /// Their flags, 0 to 3: 1 where it is anonymous, and 2 where there is a mismatch.
    pub flags: u8,
}

/// The upper half of a number's bits, as an argument.
pub fn high_half(number: u64) -> i32
    ensures { result ≡ high_half number }
{
    ((number >> 32) as u32).cast_signed()
}

/// The lower half of a number's bits, as an argument.
pub fn low_half(number: u64) -> i32
    ensures { result ≡ low_half number }
{
    ((number % 0x1_0000_0000) as u32).cast_signed()
}

/// The number with these halves, each an argument.
pub fn joined(high: i32, low: i32) -> u64
    ensures value { result ≡ joined_halves high low }
    ensures high { high_half result ≡ high }
    ensures low { low_half result ≡ low }
{
    u64::from(high.cast_unsigned()) * 0x1_0000_0000 + u64::from(low.cast_unsigned())
}

/// How many arguments a notification has.
fn notification_count(version: u8) -> usize
    ensures value { result ≡ notification_count version }
    ensures some { 6 ≤ result }
{
    if version == 1 { 6 } else { 12 }
}

/// The arguments of a notification in version 1.
fn narrow_arguments(notification: &BarrierNotification) -> [i32; 6]
    ensures { result ≡ notification_arguments 1 notification.now }
{
    [
        high_half(notification.phase),
        low_half(notification.phase),
        low_half(notification.mask[0]),
        high_half(notification.mask[0]),
        notification.id,
        i32::from(notification.flags),
    ]
}

/// The arguments of a notification in version 2.
fn wide_arguments(notification: &BarrierNotification) -> [i32; 12]
    ensures { result ≡ notification_arguments 2 notification.now }
{
    [
        high_half(notification.phase),
        low_half(notification.phase),
        low_half(notification.mask[0]),
        high_half(notification.mask[0]),
        low_half(notification.mask[1]),
        high_half(notification.mask[1]),
        low_half(notification.mask[2]),
        high_half(notification.mask[2]),
        low_half(notification.mask[3]),
        high_half(notification.mask[3]),
        notification.id,
        i32::from(notification.flags),
    ]
}

/// Writes the arguments of a notification at the beginning of a list, and answers their number: 6 in version 1, and 12
/// in version 2. The rest is unchanged.
///
/// They are the phase, its upper half first; the mask in words of 32 bits, the lowest first, so that bit b of word w
/// stands for node 32 w + b, two words in version 1 and eight in version 2; the identifier; and the flags.
pub fn notification_args(
    notification: &BarrierNotification,
    version: u8,
    args: &mut [i32; 12],
) -> usize
    requires { is_version version ≡ true }
    ensures count { result ≡ notification_count version }
    ensures written { args.new ≡ notification_arguments version notification.now ++ drop result args.old }
{
    if version == 1 {
        args[..6].copy_from_slice(&narrow_arguments(notification));
        6
    } else {
        *args = wide_arguments(notification);
        12
    }
}

/// The flags that an argument spells; None exactly where they aren't 0 to 3.
fn flags_of(argument: i32) -> Option<u8>
    ensures refused { is_none result ≡ is_wrong_flags argument }
    ensures found { IfSome result (λ flags. (argument ≡ pos flags) × (flags ≤ 3)) }
{
    if argument < 0 || argument > 3 {
        return None;
    }
    Some(argument as u8)
}

/// Whether a word names none but its first nodes.
fn word_fits(word: u64, nodes: u16) -> bool
    ensures { result ≡ word_fits word nodes }
{
    nodes >= 64 || word < 1 << nodes
}

/// Whether a mask names none but the first nodes.
fn mask_fits(mask: &[u64; 4], nodes: u16) -> bool
    ensures { result ≡ mask_fits mask.now nodes }
{
    word_fits(mask[0], nodes)
        && word_fits(mask[1], nodes.saturating_sub(64))
        && word_fits(mask[2], nodes.saturating_sub(128))
        && word_fits(mask[3], nodes.saturating_sub(192))
}

/// The word of a mask whose halves stand at a place and behind it.
fn word_at(args: &[i32], at: usize) -> u64
    requires { at + 2 ≤ length args.now }
    ensures value { result ≡ word_at args.now at }
    ensures spelled { low_half result ∷ high_half result ∷ [] ≡ arguments_at args.now at 2 }
{
    joined(args[at + 1], args[at])
}

/// The mask that the arguments of a notification in version 1 spell.
fn narrow_mask(args: &[i32]) -> [u64; 4]
    requires { length args.now ≡ 6 }
    ensures value { result ≡ mask_of 1 args.now }
    ensures words { (i : ℕ) → slice_index result i < 2 ^ 64 }
    ensures spelled { mask_arguments 1 result ≡ middle 1 args.now }
{
    [word_at(args, 2), 0, 0, 0]
}

/// The mask that the arguments of a notification in version 2 spell.
fn wide_mask(args: &[i32]) -> [u64; 4]
    requires { length args.now ≡ 12 }
    ensures value { result ≡ mask_of 2 args.now }
    ensures words { (i : ℕ) → slice_index result i < 2 ^ 64 }
    ensures spelled { mask_arguments 2 result ≡ middle 2 args.now }
{
    [
        word_at(args, 2),
        word_at(args, 4),
        word_at(args, 6),
        word_at(args, 8),
    ]
}

/// The mask that the arguments of a notification spell.
fn mask_of(args: &[i32], version: u8) -> [u64; 4]
    requires version { is_version version ≡ true }
    requires count { length args.now ≡ notification_count version }
    ensures value { result ≡ mask_of version args.now }
    ensures words { (i : ℕ) → slice_index result i < 2 ^ 64 }
    ensures spelled { mask_arguments version result ≡ middle version args.now }
{
    if version == 1 {
        narrow_mask(args)
    } else {
        wide_mask(args)
    }
}

/// The notification that the arguments of a request spell among so many nodes, at most 64 in version 1 and 256 in
/// version 2.
///
/// None exactly where there are not 6 arguments in version 1, or 12 in version 2; or the flags aren't 0 to 3; or the
/// mask has a bit of a node that isn't there.
pub fn args_notification(args: &[i32], nodes: u16, version: u8) -> Option<BarrierNotification>
    requires version { is_version version ≡ true }
    requires nodes { nodes ≤ most_nodes version }
    ensures refused { is_none result ≡ is_no_notification version nodes args.now }
    // What is read is spelled so.
    ensures found { IfSome result (λ notification.
        IsNotification nodes notification × (args.now ≡ notification_arguments version notification)) }
    // What is spelled is read.
    ensures only { (notification : BarrierNotification) → IsNotification nodes notification → args.now
        ≡ notification_arguments version notification
        → result ≡ Some notification }
{
    let count = notification_count(version);
    if args.len() != count {
        return None;
    }
    let flags = flags_of(args[count - 1])?;
    let mask = mask_of(args, version);
    if !mask_fits(&mask, nodes) {
        return None;
    }
    Some(BarrierNotification {
        phase: joined(args[0], args[1]),
        mask,
        id: args[count - 2],
        flags,
    })
}
