//! Control text with the octets restored that were lost as urgent data. The function with the crate's name is the
//! example in its head.

use super::expect::holds;
use line_mender::Mender;
use std::process::Abort;

#[test]
fn line_mender(rt: HostRuntime) {
    let mut mender = Mender::new();
    let mut read = *b"ABOR\r"; // the LF was urgent
    assert!(rt; mender.mend(&mut read) == 5);
    assert!(rt; mender.silence()); // an LF is to be passed on
    let mut late = *b"\nNOOP\r\n"; // the LF is taken out if it comes after all
    assert!(rt; mender.mend(&mut late) == 6);
    assert!(rt; &late[..6] == b"NOOP\r\n".as_slice());
}

// The octets passed on for pieces that are read one after another, each followed by a silence.
fn mended(rt: &(impl Abort + AllocGlobal), pieces: &[&[u8]]) -> Vec<u8> {
    let mut mender = Mender::new();
    let mut all = Vec::new(rt.alloc());
    for piece in pieces {
        for octet in piece.iter() {
            let mut buffer = [*octet];
            let count = mender.mend(&mut buffer);
            all.extend_from_slice(&buffer[..count.min(1)])
                .expect(rt, "memory");
        }
        if mender.is_cut() {
            holds(rt, mender.silence());
            all.push(b'\n').expect(rt, "memory");
        } else {
            holds(rt, !mender.silence());
        }
    }
    all
}

/// The pieces read, and the octets passed on.
static ROWS: [(&[&[u8]], &[u8]); 7] = [
    // the LF of ABOR CR LF was urgent, and what follows is complete
    (
        &[b"NOOP\r\nabor\r", b"QUIT\r\n"],
        b"NOOP\r\nabor\r\nQUIT\r\n",
    ),
    // the LF was late
    (&[b"ABOR\r", b"\n", b"\n"], b"ABOR\r\n\n"),
    // the second IAC of IAC IP IAC DM was urgent
    (&[b"\xff\xf4\xf2ABOR\r\n"], b"\xff\xf4ABOR\r\n"),
    // no octet was urgent
    (
        &[b"\xff\xf4\xff", b"\xf2ABOR\r\n"],
        b"\xff\xf4\xff\xf2ABOR\r\n",
    ),
    // a DM within a line
    (&[b"RETR \xf2\r\n"], b"RETR \xf2\r\n"),
    // pauses within other lines
    (
        &[b"ABO", b"R\r\nABORT\r", b"\nLIST\r", b"\n"],
        b"ABOR\r\nABORT\r\nLIST\r\n",
    ),
    // Telnet within a line
    (&[b"AB\xff\xf1OR\r", b""], b"AB\xff\xf1OR\r\n"),
];

#[test]
fn rows_are_mended(rt: HostRuntime) {
    for (pieces, whole) in &ROWS {
        let all = mended(&rt, pieces);
        holds(&rt, all.as_slice() == *whole);
    }
}
