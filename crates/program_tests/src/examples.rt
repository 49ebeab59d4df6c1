//! The examples in the heads of the programs' crates. `tools/examples` compares their lines.

use crate::expect::holds;
use crate::servers::Noting;
use crate::texts::SMALL;
use ftpd_program::{Lookout, Sight, run_words};
use sheets_program::{Opener, run_sheets};
use std::io;
use virtual_path::VPath;

/// One text, for each path.
#[derive(Clone, Copy)]
struct Text(&'static str);

impl Opener for Text {
    type End = &'static [u8];

    fn open(&mut self, _path: &str) -> io::Result<&'static [u8]> {
        Ok(self.0.as_bytes())
    }

    fn reason(_end: &&'static [u8]) -> Option<io::Error> {
        None
    }
}

impl Lookout for Text {
    fn folder(&self, _path: &str) -> Sight {
        Sight::Listed
    }

    fn has_home(&self, _root: &str, _home: &VPath) -> bool {
        true
    }

    fn mode(&self, _path: &str) -> Option<u32> {
        None
    }
}

#[test]
fn sheets_program(rt: HostRuntime) {
    let mut files = Text("limit / 10\nwant /a 8\nwant /b 5\n"); // opens what the words name
    let mut output = Vec::new(rt.alloc());
    let words = ["share", "lunch.sheet"];
    let ending = run_sheets(rt.alloc(), &words, &mut files, &mut output);
    holds(&rt, ending.status() == 0);
    let shares = b"/a 5 of 8 full /\n/b 5 of 5\ntotal 10\n";
    holds(&rt, output.as_slice() == shares.as_slice());
}

#[test]
fn ftpd_program(rt: HostRuntime) {
    let mut files = Text(SMALL); // opens what the words name
    let mut output = Vec::new(rt.alloc());
    let mut server = Noting::new(); // what `serve` would call
    let words = ["migrate", "ftpd.toml"];
    let ending = run_words(rt.alloc(), &words, &mut files, &mut server, &mut output);
    holds(&rt, ending.status() == 0);
    holds(&rt, output.starts_with(b"version = 2\n"));
}
