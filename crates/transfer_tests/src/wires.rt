//! Text between a file and the wire, with the calls of `Wire` alone.

use super::expect::holds;
use data_pump::Wire;
use ftp_terms::DataType;
use std::process::Abort;

static PIECES: [&[u8]; 3] = [b"a\r", b"\nb", b"\r"];

// These pieces are received as the text, with what was held back at the end.
fn expect_received(rt: &(impl Abort + AllocGlobal), data_type: DataType, wanted: &[u8]) {
    let mut wire = Wire::new(data_type);
    let mut octets = Vec::new(rt.alloc());
    let mut text = [0; 8];
    for piece in &PIECES {
        holds(rt, piece.len() < text.len());
        let count = wire.from_wire(piece, &mut text);
        octets
            .extend_from_slice(&text[..count])
            .expect(rt, "memory");
    }
    if let Some(octet) = wire.finish() {
        octets.push(octet).expect(rt, "memory");
    }
    holds(rt, octets.as_slice() == wanted);
}

// A text is sent as these octets.
fn expect_sent(rt: &impl Abort, data_type: DataType, wanted: &[u8]) {
    let wire = Wire::new(data_type);
    let mut octets = [0; 16];
    let count = wire.to_wire(b"\na\r\n\r", &mut octets);
    holds(
        rt,
        &octets[..count] == wanted && wire.data_type() == data_type,
    );
}

#[test]
fn an_lf_is_cr_lf_under_type_a(rt: HostRuntime) {
    expect_received(&rt, DataType::Ascii, b"a\nb\r");
    expect_received(&rt, DataType::Image, b"a\r\nb\r");
    expect_sent(&rt, DataType::Ascii, b"\r\na\r\r\n\r");
    expect_sent(&rt, DataType::Image, b"\na\r\n\r");
}
