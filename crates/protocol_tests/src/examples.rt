//! The examples in the heads of these crates. `tools/examples` checks that both have the same lines.

use crate::expect::{holds, same_octets as same, says};
use ftp_reply::{Reply, ReplyCode, list_line};
use ftp_terms::{EntryKind, Letter, Letters, LineText, Meta};
use ftp_wire::{LineItem, LineReader, write_command};
use std::alloc::AllocError;
use std::process::Abort;

fn ftp_terms(rt: &(impl Abort + AllocGlobal)) -> Result<(), AllocError> {
    let letters = Letters::read("elr").unwrap_or(Letters::NONE);
    holds(rt, letters.holds(Letter::Retrieve));
    holds(rt, !letters.holds(Letter::Store));
    let meta = Meta::new(EntryKind::File, 120, 951_827_696); // seconds since 1970
    let text = LineText::with_number(rt.alloc(), "", meta.size, " octets")?;
    holds(rt, text.as_str() == "120 octets");
    Ok(())
}

fn ftp_reply(rt: &(impl Abort + AllocGlobal), output: &mut Vec<u8>) -> Result<(), AllocError> {
    let text = LineText::with_number(rt.alloc(), "Restarting at ", 120, "")?;
    Reply::one_line(ReplyCode::new(350), text).write_to(output)?; // a `Vec` of octets
    same(rt, output, b"350 Restarting at 120\r\n");
    let meta = Meta::new(EntryKind::File, 120, 951_827_696);
    let line = list_line(rt.alloc(), &meta, "a.txt")?;
    let wanted = "-rw-r--r-- 1 ftp ftp          120 Feb 29  2000 a.txt";
    holds(rt, line.as_str() == wanted);
    Ok(())
}

fn ftp_wire(rt: &(impl Abort + AllocGlobal)) -> Result<(), AllocError> {
    let mut reader = LineReader::new(rt.alloc());
    let items = reader.feed(b"retr a.txt\r\nFOO\r\nNO")?;
    holds(rt, reader.kept() == 2); // `NO` is no line yet
    match items.as_slice() {
        [LineItem::Command(command), LineItem::Fault(fault)] => {
            same(rt, &write_command(rt.alloc(), command)?, b"RETR a.txt\r\n");
            says(rt, fault.reply(), b"500 Unknown command\r\n");
        }
        _ => panic!(rt; "each line that has its end is a command or a fault"),
    }
    Ok(())
}

#[test]
fn examples(rt: HostRuntime) {
    ftp_terms(&rt).expect(&rt, "memory");
    let mut output = Vec::new(rt.alloc());
    ftp_reply(&rt, &mut output).expect(&rt, "memory");
    ftp_wire(&rt).expect(&rt, "memory");
}
