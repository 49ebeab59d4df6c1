//! Parts of pictures that no clause covers: that the calls succeed. Whole pictures are in `runs/pictures.toml`.

use crate::expect::holds;
use linked_list_allocator::LocalHeap;
use sheet_commands::{Column, Holder, drawn, picture_at, picture_of, push_escaped, run_picture};
use sheet_text::SheetFault;
use std::process::Abort;
use std::test::Fail;
use test_scarce_memory::{HEAP, leave_hole};

const SHEET: &[u8] = b"limit / 10\nwant /a 8\nwant /b 5\n";

static ESCAPES: [(&str, &str); 4] = [
    ("/a-_.9", "/a-_.9"),
    ("<a&b>", "&lt;a&amp;b&gt;"),
    ("\"é\"", "&quot;é&quot;"),
    (
        "a\n\u{0}\u{85}\u{ffff}b",
        "a\u{fffd}\u{fffd}\u{fffd}\u{fffd}b",
    ),
];

#[test]
fn texts_are_escaped(rt: HostRuntime) {
    for (plain, wanted) in &ESCAPES {
        let mut text = String::new(rt.alloc());
        push_escaped(&mut text, plain).expect(&rt, "memory");
        holds(&rt, text.as_str() == *wanted);
    }
}

/// A column whose names are no names of a sheet.
static NAMED: Column<'static> = Column {
    path: "<a>",
    grant: 5,
    want: 8,
    floor: 2,
    lid: Some(6),
    holder: Some(Holder {
        node: 0,
        path: "\"b\"",
    }),
    user: 0,
};

#[test]
fn names_are_escaped(rt: HostRuntime) {
    let text = drawn(rt.alloc(), &[NAMED]).expect(&rt, "memory");
    let title =
        "<title>&lt;a&gt;: 5 of 8, held back by &quot;b&quot;, guaranteed 2, limit of its own 6</title>";
    holds(&rt, text.as_str().contains(title));
}

#[test]
fn a_picture_is_written(rt: HostRuntime) -> Result<(), Fail> {
    let alloc = rt.alloc();
    let picture = picture_of(alloc, SHEET)?;
    let mut written = Vec::new(alloc);
    run_picture(alloc, None, &mut SHEET, &mut written)?;
    assert!(rt; written.as_slice() == picture.as_str().as_bytes());
    Ok(())
}

/// The columns of a user are side by side, though another want is between them in the sheet.
#[test]
fn a_picture_among_users(rt: HostRuntime) -> Result<(), Fail> {
    let alloc = rt.alloc();
    let sheet = b"limit / 8\nwant /bob/1 9\nwant /ann 9\nwant /bob/2 9\n".as_slice();
    let picture = picture_at(alloc, sheet, 1)?;
    let mut written = Vec::new(alloc);
    run_picture(alloc, Some(1), &mut &*sheet, &mut written)?;
    assert!(rt; written.as_slice() == picture.as_str().as_bytes());
    let titles = [
        "<title>/bob/1: 2 of 9",
        "<title>/bob/2: 2 of 9",
        "<title>/ann: 4 of 9",
    ];
    let mut rest = picture.as_str();
    for title in titles {
        let (_, after) = rest.split_once(title).expect(&rt, "a title");
        rest = after;
    }
    Ok(())
}

/// Returns whether a picture has room in a heap.
fn has_room(rt: &impl Abort, heap: &LocalHeap) -> bool {
    match picture_of(heap, SHEET) {
        Ok(picture) => {
            holds(rt, picture.as_str().ends_with("</svg>\n"));
            true
        }
        Err(fault) => {
            holds(rt, fault == SheetFault::Memory);
            false
        }
    }
}

/// Returns whether a picture has room in one hole of `room` octets. Checks that it has it once there is memory.
fn has_room_in(rt: &(impl Abort + AllocGlobal), heap: &LocalHeap, room: usize) -> bool {
    let rest = leave_hole(rt, heap, room).expect(rt, "a hole");
    let first = has_room(rt, heap);
    drop(rest);
    holds(rt, has_room(rt, heap));
    first
}

#[test]
fn each_growth_of_a_picture(rt: HostRuntime) {
    let heap = LocalHeap::new(rt.alloc(), HEAP).expect(&rt, "a heap");
    for step in 0..192usize {
        let first = has_room_in(&rt, &heap, 64 * step);
        // Without room it is refused, and with enough it is drawn.
        holds(&rt, step > 0 || !first);
        holds(&rt, step < 191 || first);
    }
}
