//! Messages as docs/FORMATS.md spells them, and the codes of RFC 4231.

use proc_seal::Hmac;
use wire_message::{BarrierNotification, Kind, Outgoing, notification_args, spell};

/// A Short request of node 0 to node 1, for handler 128 with argument 5.
const REQUEST: [u8; 44] =
    *b"\x47\x41\x4d\x31\x00\x80\x01\x00\0\0\0\0\0\0\0\x07\0\0\0\x01\0\0\0\0\0\0\0\0\0\0\0\x01\0\0\0\0\0\0\0\0\0\0\0\x05";

/// Its Ack.
const ACK: [u8; 40] =
    *b"\x47\x41\x4d\x31\x06\x00\x00\x00\0\0\0\0\0\0\0\x07\0\x01\0\0\0\0\0\0\0\0\0\0\0\0\0\x01\0\0\0\0\0\0\0\0";

/// A Short reply, for handler 129 with argument -2.
const REPLY: [u8; 44] =
    *b"\x47\x41\x4d\x31\x03\x81\x01\x00\0\0\0\0\0\0\0\x07\0\x01\0\0\0\0\0\0\0\0\0\0\0\0\0\x01\0\0\0\0\0\0\0\0\xff\xff\xff\xfe";

/// A get of 4 bytes from byte 0 on, to byte 100.
const GET: [u8; 60] =
    *b"\x47\x41\x4d\x31\x00\x41\x05\x00\0\0\0\0\0\0\0\x07\0\0\0\x01\0\0\0\0\0\0\0\0\0\0\0\x01\0\0\0\0\0\0\0\0\0\0\0\0\0\0\0\0\0\0\0\x04\0\0\0\0\0\0\0\x64";

/// Its reply: four bytes of 9.
const GOT: [u8; 44] =
    *b"\x47\x41\x4d\x31\x05\x44\x00\x00\0\0\0\0\0\0\0\x07\0\x01\0\0\0\0\0\x04\0\0\0\0\0\0\0\x01\0\0\0\0\0\0\0\x64\x09\x09\x09\x09";

/// A Medium request for handler 131, with argument 1 and two bytes.
const MEDIUM: [u8; 46] =
    *b"\x47\x41\x4d\x31\x01\x83\x01\x00\0\0\0\0\0\0\0\x07\0\0\0\x01\0\0\0\x02\0\0\0\0\0\0\0\x01\0\0\0\0\0\0\0\0\0\0\0\x01\x0a\x0b";

/// A Long request for handler 131, with one byte for byte 2 ^ 32 + 5.
const LONG: [u8; 41] =
    *b"\x47\x41\x4d\x31\x02\x83\x00\x00\0\0\0\0\0\0\0\x07\0\0\0\x01\0\0\0\x01\0\0\0\0\0\0\0\x01\0\0\0\x01\0\0\0\x05\x0c";

/// A Medium reply for handler 130, with one byte.
const MEDIUM_REPLY: [u8; 41] =
    *b"\x47\x41\x4d\x31\x04\x82\x00\x00\0\0\0\0\0\0\0\x07\0\x01\0\0\0\0\0\x01\0\0\0\0\0\0\0\x01\0\0\0\0\0\0\0\0\x0d";

/// The Short request in version 2.
const SECOND: [u8; 44] =
    *b"\x47\x41\x4d\x32\x00\x80\x01\x00\0\0\0\0\0\0\0\x07\0\0\0\x01\0\0\0\0\0\0\0\0\0\0\0\x01\0\0\0\0\0\0\0\0\0\0\0\x05";

/// A barrier notification of version 2, from node 64 to node 65.
const NOTE: [u8; 88] =
    *b"\x47\x41\x4d\x32\x00\x43\x0c\x00\0\0\0\0\0\0\0\x07\0\x40\0\x41\0\0\0\0\0\0\0\0\0\0\0\x01\0\0\0\0\0\0\0\0\0\0\0\0\0\0\0\0\0\0\0\0\0\0\0\0\0\0\0\x01\0\0\0\0\0\0\0\0\0\0\0\0\0\0\0\0\0\0\0\0\0\0\0\x05\0\0\0\0";

/// The parts of a message of job 7 with number 1 in version 1: a request of node 0 to node 1, or
/// what comes back.
fn parts<'a>(
    kind: Kind,
    handler: u8,
    args: &'a [i32],
    offset: u64,
    payload: &'a [u8],
) -> Outgoing<'a> {
    let (from, to) = match kind {
        Kind::ShortRequest | Kind::MediumRequest | Kind::LongRequest => (0, 1),
        _ => (1, 0),
    };
    Outgoing {
        version: 1,
        kind,
        job: 7,
        from,
        to,
        slot: 0,
        number: 1,
        handler,
        args,
        offset,
        payload,
    }
}

/// Whether the parts are well formed, and spelled as these bytes.
fn is_spelled(parts: &Outgoing<'_>, want: &[u8]) -> bool {
    if !parts.well_formed() {
        return false;
    }
    let mut buffer = [9; 8296];
    let len = spell(parts, &mut buffer);
    &buffer[..len] == want
}

#[test]
fn spells_each_kind(rt: HostRuntime) {
    assert!(rt; is_spelled(&parts(Kind::ShortRequest, 128, &[5], 0, &[]), &REQUEST));
    assert!(rt; is_spelled(&parts(Kind::Ack, 0, &[], 0, &[]), &ACK));
    assert!(rt; is_spelled(&parts(Kind::ShortReply, 129, &[-2], 0, &[]), &REPLY));
    assert!(rt;
        is_spelled(
            &parts(Kind::ShortRequest, 65, &[0, 0, 4, 0, 100], 0, &[]),
            &GET
        )
    );
    assert!(rt; is_spelled(&parts(Kind::LongReply, 68, &[], 100, &[9; 4]), &GOT));
    assert!(rt;
        is_spelled(
            &parts(Kind::MediumRequest, 131, &[1], 0, &[10, 11]),
            &MEDIUM
        )
    );
    assert!(rt;
        is_spelled(
            &parts(Kind::LongRequest, 131, &[], 0x1_0000_0005, &[12]),
            &LONG
        )
    );
    assert!(rt; is_spelled(&parts(Kind::MediumReply, 130, &[], 0, &[13]), &MEDIUM_REPLY));
}

#[test]
fn spells_the_second_version(rt: HostRuntime) {
    let request = Outgoing {
        version: 2,
        ..parts(Kind::ShortRequest, 128, &[5], 0, &[])
    };
    let notification = Outgoing {
        version: 2,
        from: 64,
        to: 65,
        ..parts(Kind::ShortRequest, 67, &WIDE_ARGS, 0, &[])
    };
    assert!(rt; is_spelled(&request, &SECOND) && is_spelled(&notification, &NOTE));
}

/// A notification of version 1 with each of its parts.
const NARROW: BarrierNotification = BarrierNotification {
    phase: 0x1_0000_0002,
    mask: [0x8000_0002_0000_0001, 0, 0, 0],
    id: -7,
    flags: 3,
};

/// The notification of node 64 alone, with identifier 5 and flags 0.
const WIDE: BarrierNotification = BarrierNotification {
    phase: 0,
    mask: [0, 1, 0, 0],
    id: 5,
    flags: 0,
};

/// The arguments of that notification.
const WIDE_ARGS: [i32; 12] = [0, 0, 0, 0, 1, 0, 0, 0, 0, 0, 5, 0];

#[test]
fn writes_notifications(rt: HostRuntime) {
    let (mut narrow, mut wide) = ([9; 12], [9; 12]);
    let counts = [
        notification_args(&NARROW, 1, &mut narrow),
        notification_args(&WIDE, 2, &mut wide),
    ];
    assert!(rt; counts == [6, 12]);
    assert!(rt; narrow == [1, 2, 1, -0x7fff_fffe, -7, 3, 9, 9, 9, 9, 9, 9]);
    assert!(rt; wide == WIDE_ARGS);
}

/// The keys, messages and codes of RFC 4231, section 4; that of its case 5 is cut to 16 bytes.
const CODES: [(&[u8], &[u8], &[u8]); 7] = [
    (
        &[0x0b; 20],
        b"Hi There",
        b"\xb0\x34\x4c\x61\xd8\xdb\x38\x53\x5c\xa8\xaf\xce\xaf\x0b\xf1\x2b\x88\x1d\xc2\x00\xc9\x83\x3d\xa7\x26\xe9\x37\x6c\x2e\x32\xcf\xf7",
    ),
    (
        b"Jefe",
        b"what do ya want for nothing?",
        b"\x5b\xdc\xc1\x46\xbf\x60\x75\x4e\x6a\x04\x24\x26\x08\x95\x75\xc7\x5a\x00\x3f\x08\x9d\x27\x39\x83\x9d\xec\x58\xb9\x64\xec\x38\x43",
    ),
    (
        &[0xaa; 20],
        &[0xdd; 50],
        b"\x77\x3e\xa9\x1e\x36\x80\x0e\x46\x85\x4d\xb8\xeb\xd0\x91\x81\xa7\x29\x59\x09\x8b\x3e\xf8\xc1\x22\xd9\x63\x55\x14\xce\xd5\x65\xfe",
    ),
    (
        &[
            1, 2, 3, 4, 5, 6, 7, 8, 9, 10, 11, 12, 13, 14, 15, 16, 17, 18, 19, 20, 21, 22, 23, 24,
            25,
        ],
        &[0xcd; 50],
        b"\x82\x55\x8a\x38\x9a\x44\x3c\x0e\xa4\xcc\x81\x98\x99\xf2\x08\x3a\x85\xf0\xfa\xa3\xe5\x78\xf8\x07\x7a\x2e\x3f\xf4\x67\x29\x66\x5b",
    ),
    (
        &[0x0c; 20],
        b"Test With Truncation",
        b"\xa3\xb6\x16\x74\x73\x10\x0e\xe0\x6e\x0c\x79\x6c\x29\x55\x55\x2b",
    ),
    (
        &[0xaa; 131],
        b"Test Using Larger Than Block-Size Key - Hash Key First",
        b"\x60\xe4\x31\x59\x1e\xe0\xb6\x7f\x0d\x8a\x26\xaa\xcb\xf5\xb7\x7f\x8e\x0b\xc6\x21\x37\x28\xc5\x14\x05\x46\x04\x0f\x0e\xe3\x7f\x54",
    ),
    (
        &[0xaa; 131],
        b"This is a test using a larger than block-size key and a larger than block-size data. The key needs to be hashed before being used by the HMAC algorithm.",
        b"\x9b\x09\xff\xa7\x1b\x94\x2f\xcb\x27\x63\x5f\xbc\xd5\xb0\xe9\x44\xbf\xdc\x63\x64\x4f\x07\x13\x93\x8a\x7f\x51\x53\x5c\x3a\x35\xe2",
    ),
];

#[test]
fn gives_the_codes_of_rfc_4231(rt: HostRuntime) {
    for (key, message, want) in &CODES {
        assert!(rt; Hmac::new(key).code(message).starts_with(want));
    }
}
