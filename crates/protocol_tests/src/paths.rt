//! Paths made from a path, the parts of paths, and their bounds.

use crate::expect::{holds, reads, same};
use std::alloc::{Allocator, Global};
use std::process::Abort;
use virtual_path::{LONGEST_NAME, LONGEST_PATH, PathFault, VPath, is_name, parent_text};

fn virtual_path(rt: &(impl Abort + AllocGlobal)) -> Result<(), PathFault> {
    let home = VPath::root(rt.alloc()).resolve(rt.alloc(), "/home/ann")?;
    let file = home.resolve(rt.alloc(), "../bob/./f")?;
    holds(rt, file.text() == "/home/bob/f");
    holds(rt, file.file_name() == Some("f"));
    Ok(())
}

/// An operation on a path.
#[derive(Clone, Copy)]
pub(crate) enum Making {
    Resolve(&'static str),
    Child(&'static str),
    /// The path of a text below this one.
    Joined(&'static str),
    /// The path without its last name; for the root, the root itself.
    Parent,
    Clone,
}

/// The path that a text names, from the root.
pub(crate) fn path_of<A: Allocator + Copy>(rt: &impl Abort, alloc: A, text: &str) -> VPath<A> {
    VPath::root(alloc).resolve(alloc, text).expect(rt, text)
}

/// The result of an operation on a path.
pub(crate) fn made<A: Allocator + Copy>(
    rt: &impl Abort,
    alloc: A,
    from: &VPath<A>,
    making: Making,
) -> Result<VPath<A>, PathFault> {
    match making {
        Making::Resolve(text) => from.resolve(alloc, text),
        Making::Child(name) => from.child(alloc, name),
        Making::Joined(text) => from.joined(alloc, &path_of(rt, alloc, text)),
        Making::Parent => Ok(from.parent(alloc)?.unwrap_or(VPath::root(alloc))),
        Making::Clone => Ok(from.try_clone(alloc)?),
    }
}

/// The resulting path, or the fault, has this text.
fn reports(rt: &(impl Abort + AllocGlobal), found: Result<VPath, PathFault>, wanted: &str) {
    match found {
        Ok(path) => same(rt, &path.text(), &wanted),
        Err(fault) => reads(rt, &fault, wanted),
    }
}

/// A path, an operation, and the text of the result or of the fault.
static MADE: &[(&str, Making, &str)] = &[
    ("/home/ann", Making::Resolve(""), "/home/ann"),
    ("/home/ann", Making::Resolve("x"), "/home/ann/x"),
    ("/home/ann", Making::Resolve("./x//y/"), "/home/ann/x/y"),
    ("/home/ann", Making::Resolve(".."), "/home"),
    ("/home/ann", Making::Resolve("../../.."), "/"),
    ("/home/ann", Making::Resolve("/a/../b/."), "/b"),
    ("/home/ann", Making::Resolve("..."), "/home/ann/..."),
    (
        "/",
        Making::Resolve("a\tb"),
        "a name contains a control octet or is not a single name",
    ),
    (
        "/",
        Making::Resolve("a\u{7f}"),
        "a name contains a control octet or is not a single name",
    ),
    ("/a", Making::Child("c"), "/a/c"),
    (
        "/",
        Making::Child(".."),
        "a name contains a control octet or is not a single name",
    ),
    ("/a", Making::Joined("/a/b"), "/a/a/b"),
    ("/a/b", Making::Clone, "/a/b"),
    ("/a/b", Making::Parent, "/a"),
    ("/", Making::Parent, "/"),
];

/// A path, its names with a `+` before each, their number, the last one, and the text of its parent.
type Parts = (
    &'static str,
    &'static str,
    usize,
    Option<&'static str>,
    Option<&'static str>,
);

static PARTS: &[Parts] = &[
    ("/", "", 0, None, None),
    ("/a", "+a", 1, Some("a"), Some("/")),
    ("/a/b", "+a+b", 2, Some("b"), Some("/a")),
];

/// A path, another, and whether the first is the other or beneath it.
static BENEATH: &[(&str, &str, bool)] = &[
    ("/a/b", "/a", true),
    ("/a", "/a", true),
    ("/a", "/a/b", false),
    ("/ab", "/a", false),
];

/// A text, and whether it is a name that a path may contain.
static NAMES: &[(&str, bool)] = &[
    ("a", true),
    ("...", true),
    ("\u{e9}", true),
    ("", false),
    (".", false),
    ("..", false),
    ("a/b", false),
    ("a\tb", false),
    ("\u{7f}", false),
];

fn check_made(rt: &(impl Abort + AllocGlobal), from: &str, making: Making, wanted: &str) {
    let from = path_of(rt, rt.alloc(), from);
    reports(rt, made(rt, rt.alloc(), &from, making), wanted);
}

/// Each of the names, a `+` before it.
fn marked(rt: &(impl Abort + AllocGlobal), names: &[&str]) -> String {
    let mut text = String::new(rt.alloc());
    for name in names {
        text.push('+').expect(rt, "memory");
        text.push_str(name).expect(rt, "memory");
    }
    text
}

fn check_parts(rt: &(impl Abort + AllocGlobal), path: &VPath, parts: &Parts) {
    let (_, names, depth, last, above) = *parts;
    let found = path.names(rt.alloc()).expect(rt, "memory");
    same(rt, &marked(rt, found.as_slice()).as_str(), &names);
    same(rt, &path.depth(), &depth);
    same(rt, &path.is_root(), &(depth == 0));
    same(rt, &path.file_name(), &last);
    same(rt, &path.parent_text(), &above);
    same(rt, &parent_text(path.text()), &above);
}

fn check_beneath(rt: &(impl Abort + AllocGlobal), text: &str, above: &str, answer: bool) {
    let above = path_of(rt, rt.alloc(), above);
    let path = path_of(rt, rt.alloc(), text);
    holds(rt, path.starts_with(&above) == answer);
}

#[test]
fn paths(rt: HostRuntime) {
    virtual_path(&rt).expect(&rt, "paths");
    for (from, making, wanted) in MADE {
        check_made(&rt, from, *making, wanted);
    }
    for parts in PARTS {
        check_parts(&rt, &path_of(&rt, rt.alloc(), parts.0), parts);
    }
    for (text, above, answer) in BENEATH {
        check_beneath(&rt, text, above, *answer);
    }
    for (name, answer) in NAMES {
        same(&rt, &is_name(name), answer);
    }
}

const TOO_LONG: &str = "a name or the path is too long";

/// Sixteen names of the longest length.
fn longest(rt: &impl Abort, alloc: Global) -> VPath {
    let name = "a".repeat(alloc, LONGEST_NAME).expect(rt, "memory");
    holds(rt, is_name(name.as_str()));
    let mut path = VPath::root(alloc);
    for _ in 0..16u32 {
        path = path.child(alloc, name.as_str()).expect(rt, "a path");
    }
    path
}

#[test]
fn bounds(rt: HostRuntime) {
    let alloc = rt.alloc();
    let long = "a".repeat(alloc, LONGEST_NAME + 1).expect(&rt, "memory");
    holds(&rt, !is_name(long.as_str()));
    let root = VPath::root(alloc);
    reports(&rt, root.resolve(alloc, long.as_str()), TOO_LONG);
    let whole = longest(&rt, alloc);
    same(&rt, &whole.text().len(), &LONGEST_PATH);
    reports(&rt, whole.resolve(alloc, "b"), TOO_LONG);
    reports(&rt, whole.child(alloc, "b"), TOO_LONG);
    reports(&rt, whole.joined(alloc, &whole), TOO_LONG);
}
