//! The paths that a server's owner states.

use crate::expect::{holds, reports};
use ftpd_program::{
    FileIdentity, FoundFile, FtpdErrorText, FtpdExit, ServeFault, StartFault, StatedPath,
    first_twin, is_free_for_log, is_free_for_status,
};
use std::process::Abort;

/// The path of a file that is there, with its number on a device.
fn there(path: &str, inode: u64) -> StatedPath<'_> {
    StatedPath {
        path,
        there: Some(FileIdentity { device: 1, inode }),
    }
}

/// A path at which nothing is.
fn nothing(path: &str) -> StatedPath<'_> {
    StatedPath { path, there: None }
}

#[test]
fn files_that_are_stated_twice(rt: HostRuntime) {
    let apart = [there("a", 1), there("b", 2), nothing("c"), nothing("d")];
    holds(&rt, first_twin(&apart).is_none());
    let linked = [nothing("c"), there("a", 1), nothing("d"), there("b", 1)];
    holds(&rt, first_twin(&linked) == Some("a"));
    let absent = [nothing("c"), there("a", 1), nothing("c")];
    holds(&rt, first_twin(&absent) == Some("c"));
}

#[test]
fn places_of_files(rt: HostRuntime) {
    holds(&rt, is_free_for_status(FoundFile::Nothing));
    holds(&rt, is_free_for_status(FoundFile::File(b"")));
    holds(&rt, is_free_for_status(FoundFile::File(b"{\"li")));
    holds(&rt, !is_free_for_status(FoundFile::File(b"vers")));
    holds(&rt, !is_free_for_status(FoundFile::Device));
    holds(&rt, is_free_for_log(FoundFile::Nothing));
    holds(&rt, is_free_for_log(FoundFile::File(b"Thu ")));
    holds(&rt, is_free_for_log(FoundFile::Device));
    holds(&rt, !is_free_for_log(FoundFile::File(b"vers")));
    holds(&rt, !is_free_for_log(FoundFile::Other));
}

/// Checks that a fault that did not let the server start prints as this line above the fault's name.
fn starts_not(
    rt: &(impl Abort + AllocGlobal),
    fault: ServeFault,
    start: &StartFault,
    wanted: &str,
) {
    let ending = FtpdExit::Server(fault);
    let reported = FtpdErrorText {
        ending: &ending,
        output: None,
        start: Some(start),
    };
    reports(rt, &reported, wanted);
}

fn text(rt: &(impl Abort + AllocGlobal), word: &str) -> String {
    String::from_str(rt.alloc(), word).expect(rt, "memory")
}

#[test]
fn refused_paths_are_explained(rt: HostRuntime) {
    let one = StartFault::OnePath {
        path: text(&rt, "a.toml"),
    };
    starts_not(
        &rt,
        ServeFault::OnePath,
        &one,
        "a.toml is stated for two files: state a path of its own for each\nftpd: OnePath\n",
    );
    let log = StartFault::NoTransferLog {
        path: text(&rt, "a.toml"),
    };
    starts_not(
        &rt,
        ServeFault::TransferLog,
        &log,
        "a.toml is no transfer log: move it away, or state another path\nftpd: TransferLog\n",
    );
    let status = StartFault::NoStatus {
        path: text(&rt, "a.toml"),
    };
    starts_not(
        &rt,
        ServeFault::StatusFile,
        &status,
        "a.toml is no status of a server: move it away, or state another path\nftpd: StatusFile\n",
    );
}
