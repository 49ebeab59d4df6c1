//! The examples at the heads of the crates with the names of these tests, and the first calls of their parts.

use crate::expect::holds;
use limit_tree::NodeKind;
use sheet_commands::{GrantsFault, SheetVerdict, picture_of, read_grants, run_check, run_share};
use sheet_text::{Nodes, cut_line, read_grant, read_sheet};
use std::test::Fail;
use text_io::{FallibleIo, TextReader, TextWriter, read_whole, write_whole};

#[test]
fn faults_are_reported(rt: HostRuntime) {
    let fault = GrantsFault::WrongPath(2);
    let reported = format!(in rt.alloc(); "{fault}").expect(&rt, "memory");
    holds(&rt, reported.as_str() == "line 2: WrongPath");
}

#[test]
fn lines_are_read(rt: HostRuntime) {
    let (line, _) = cut_line(b"grant /a 5 /\ngrant /b 5\n");
    let grant = read_grant(line).expect(&rt, "a grant");
    holds(&rt, grant.path == "/a" && grant.octets == 5);
    holds(&rt, grant.node == Some("")); // the root
}

#[test]
fn nodes_are_taken(rt: HostRuntime) -> Result<(), Fail> {
    let alloc = rt.alloc();
    let mut nodes = Nodes::new(alloc)?;
    // the statement of line 1 about the root, and that of line 2
    nodes.take(1, "", NodeKind::Branch { limit: Some(10) })?;
    let place = nodes.take(2, "/a/b", NodeKind::Leaf { want: 8, floor: 0 })?;
    assert!(rt; nodes.path(place) == "/a/b");
    let mut order = Vec::new(alloc);
    let tree = nodes.whole_tree(&mut order)?;
    assert!(rt; tree.nodes() == 3); // of `/`, `/a` and `/a/b`
    Ok(())
}

#[test]
fn sheet_text(rt: HostRuntime) -> Result<(), Fail> {
    let alloc = rt.alloc();
    let sheet = read_sheet(alloc, b"limit / 10\nwant /a 8\nwant /b 5\n")?;
    assert!(rt; sheet.tree().leaves() == 2);
    assert!(rt; sheet.leaf_path(0) == "/a");
    assert!(rt; sheet.node_of("/b") == Some(2));
    Ok(())
}

#[test]
fn grants_are_read(rt: HostRuntime) -> Result<(), Fail> {
    let alloc = rt.alloc();
    let sheet = read_sheet(alloc, b"limit / 10\nwant /a 8\nwant /b 5\n")?;
    let (grants, certificate) = read_grants(alloc, b"grant /a 5 /\ngrant /b 5\n", &sheet)?;
    assert!(rt; grants.as_slice() == [5, 5].as_slice());
    assert!(rt; certificate.entries() == [Some(0), None].as_slice());
    Ok(())
}

#[test]
fn text_io(rt: HostRuntime) {
    let alloc = rt.alloc();
    let mut sheet = "limit / 10\n".as_bytes(); // gives its octets, and never fails
    let text = read_whole(alloc, &mut sheet).expect(&rt, "a text");
    holds(&rt, text.as_slice() == b"limit / 10\n".as_slice());
    let mut output = Vec::new(alloc); // takes octets while memory lasts
    write_whole("total 10\n", &mut output).expect(&rt, "room");
    let mut other = FallibleIo(output); // any other end, such as a file: it may fail at each call
    other.write_text(b"QUIT\r\n").expect(&rt, "room");
    holds(&rt, other.0.as_slice() == b"total 10\nQUIT\r\n".as_slice());
}

#[test]
fn ends_are_read_in_pieces(rt: HostRuntime) {
    let mut reader: &[u8] = b"PWD\r\nQUIT\r\n";
    let mut buffer = [0u8; 5];
    let count = reader.read_front(&mut buffer).expect(&rt, "octets");
    holds(
        &rt,
        count == 5 && buffer.as_slice() == b"PWD\r\n".as_slice(),
    );
}

#[test]
fn sheet_commands(rt: HostRuntime) -> Result<(), Fail> {
    let alloc = rt.alloc();
    let sheet = "limit / 10\nwant /a 8\nwant /b 5\n";
    let mut shared = Vec::new(alloc);
    run_share(alloc, None, &mut sheet.as_bytes(), &mut shared)?;
    assert!(rt; shared.as_slice() == b"/a 5 of 8 full /\n/b 5 of 5\ntotal 10\n".as_slice());
    let mut grants = "grant /a 5 /\ngrant /b 5\n".as_bytes();
    let mut verdict = Vec::new(alloc);
    let is = run_check(
        alloc,
        None,
        &mut sheet.as_bytes(),
        &mut grants,
        &mut verdict,
    )?;
    assert!(rt; is == SheetVerdict::Yes && verdict.as_slice() == b"yes\n".as_slice());
    let picture = picture_of(alloc, sheet.as_bytes())?;
    assert!(rt; picture.as_str().starts_with("<svg "));
    assert!(rt;
        picture
            .as_str()
            .contains("<title>/a: 5 of 8, held back by /</title>")
    );
    assert!(rt; picture.as_str().contains("<title>/b: 5 of 5</title>"));
    Ok(())
}
