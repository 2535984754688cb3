// Lines that are commands, lines that are none, and replies.
use crate::command::Command;
use crate::hold::LineHold;
use crate::parse::parse_line;
use crate::reply::Reply;
use crate::say::{ROOM, put_reply};
use std::test::Fail;

#[test]
fn reads_no_other_line(rt: HostRuntime) {
    let unreadable: [&[u8]; 22] = [
        b"",
        b" ",
        b"z",
        b"X",
        b"ZZ",
        b" Z",
        b"Z ",
        b"Z\r",
        b"T",
        b"T ",
        b"T2",
        b"T  2",
        b"T\t2",
        b"T 02",
        b"T +2",
        b"T -2",
        b"T 2 ",
        b"T 2 3",
        b"T \xb2",
        b"T 65536",
        b"S 1 18446744073709551616",
        b"O 1 1 2 1 1 0 1 4 4294967296",
    ];
    for line in unreadable {
        assert!(rt; parse_line(line).is_none());
    }
}

#[test]
fn reads_each_field(rt: HostRuntime) -> Result<(), Fail> {
    match parse_line(b"O 7 1 2 3 4 0 5 65535 4294967295") {
        Some(
            Command::Offer {
                number,
                seller,
                buyer,
                submarket,
                class,
                source,
                first,
                last,
                amount,
            },
        ) => {
            assert!(rt; number == 7 && seller == 1 && buyer == 2 && submarket == 3 && class == 4);
            assert!(rt; source == 0 && first == 5 && last == 65535 && amount == 4294967295);
            Ok(())
        }
        _ => Err(Fail::new("no offer")),
    }
}

#[test]
fn holds_eighty_bytes(rt: HostRuntime) {
    let mut held = LineHold::new();
    for _ in 0..81 {
        assert!(rt; held.line().is_some());
        held.push(b'Z');
    }
    assert!(rt; held.line().is_none());
    held.clear();
    assert!(rt; !held.is_started());
    held.push(b'Z');
    assert!(rt; held.is_started() && held.command().is_some());
}

#[test]
fn writes_replies(rt: HostRuntime) {
    let mut page = [0u8; ROOM];
    let n = put_reply(
        &mut page,
        Reply::Refused {
            number: 10,
            spot: 1,
        },
    );
    assert!(rt; &page[0..n] == b"no 10 1\n".as_slice());
    let n = put_reply(
        &mut page,
        Reply::AtBySource {
            conventional: -2,
            incentivised: i64::MIN,
        },
    );
    assert!(rt; &page[0..n] == b"at -2 -9223372036854775808\n".as_slice());
}
