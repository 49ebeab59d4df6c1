//! The command `serve`, by a server that serves nobody and notes its calls.

use crate::ends::{Files, Given};
use crate::expect::{holds, reports, same};
use crate::texts::SMALL;
use ftpd_program::{
    FtpdErrorText, FtpdExit, IdleOption, Patience, ReadConfig, ServeFault, ServeFiles, Server,
    ShareBy, StartFault, idle_sessions, idle_sync, is_for_nothing, reads_input_again, run_words,
    stated_sessions,
};
use std::alloc::Global;
use std::io;
use std::process::Abort;
use text_io::TextWriter;

/// A server that writes `ready`, and returns a given result.
#[derive(Drop)]
pub(crate) struct Noting {
    /// Number of its calls.
    calls: u8,
    /// The port of the last configuration.
    port: u16,
    /// The last stop file.
    stop_file: Option<String>,
    /// The last drain file.
    drain_file: Option<String>,
    /// The last reload file.
    reload_file: Option<String>,
    /// The path of the last configuration.
    path: Option<String>,
    /// The last ready file.
    ready_file: Option<String>,
    /// The last transfer log.
    transfer_log: Option<String>,
    /// The last form of notes.
    log_form: Option<String>,
    /// The last patience.
    patience: Option<Patience>,
    /// The last way of sharing.
    share_by: Option<ShareBy>,
    /// The last configuration had warnings.
    is_warned: bool,
    fault: Option<ServeFault>,
}

impl Noting {
    pub(crate) fn new() -> Noting {
        Noting {
            calls: 0,
            port: 0,
            stop_file: None,
            drain_file: None,
            reload_file: None,
            path: None,
            ready_file: None,
            transfer_log: None,
            log_form: None,
            patience: None,
            share_by: None,
            is_warned: false,
            fault: None,
        }
    }
}

/// A copy of a path.
fn copied(alloc: Global, path: Option<&str>) -> Option<String> {
    match path {
        Some(path) => String::from_str(alloc, path).ok(),
        None => None,
    }
}

impl<W: TextWriter> Server<W> for Noting {
    fn serve(
        &mut self,
        alloc: Global,
        read: ReadConfig<'_>,
        files: ServeFiles<'_>,
        patience: Patience,
        output: &mut W,
    ) -> Result<(), ServeFault> {
        self.is_warned = !read.warnings.is_empty();
        self.calls = self.calls.saturating_add(1);
        self.port = read.config.numbers.port;
        self.stop_file = copied(alloc, files.stop_file);
        self.drain_file = copied(alloc, files.drain_file);
        self.reload_file = copied(alloc, files.reload_file);
        self.path = copied(alloc, Some(read.path));
        self.ready_file = copied(alloc, files.ready_file);
        self.transfer_log = copied(alloc, files.transfer_log);
        self.log_form = copied(alloc, files.log_form);
        self.patience = Some(patience);
        self.share_by = Some(files.share_by);
        if output.write_text(b"ready\n").is_err() {
            return Err(ServeFault::WriteFault);
        }
        match self.fault {
            Some(fault) => Err(fault),
            None => Ok(()),
        }
    }
}

/// Checks that the ending prints as this text.
fn is_reported(rt: &(impl Abort + AllocGlobal), ending: &FtpdExit<'_>, wanted: &str) {
    let reported = FtpdErrorText {
        ending,
        output: None,
        start: None,
    };
    reports(rt, &reported, wanted);
}

/// Runs `serve` by these words, on a file of this text.
fn served<'w>(
    rt: &(impl Abort + AllocGlobal),
    words: &'w [&'w str],
    text: &str,
    server: &mut Noting,
    output: &mut Vec<u8>,
) -> FtpdExit<'w> {
    let mut files = Files {
        file: Given::Whole(text),
        input: None,
    };
    run_words(rt.alloc(), words, &mut files, server, output)
}

#[test]
fn a_server_is_called(rt: HostRuntime) {
    let mut output = Vec::new(rt.alloc());
    let mut server = Noting::new();
    let ending = served(&rt, &["serve", "file"], SMALL, &mut server, &mut output);
    holds(&rt, ending.status() == 0);
    holds(&rt, server.calls == 1 && server.port == 2121);
    holds(&rt, server.is_warned); // of its passive ports
    holds(
        &rt,
        server.stop_file.is_none() && server.ready_file.is_none(),
    );
    same(&rt, &output, "ready\n");
    let usual = Patience {
        login_timeout: 60,
        idle_timeout: 0,
        login_delay: 1,
        drain_timeout: 0,
    };
    holds(&rt, server.patience == Some(usual));
}

/// Checks that a server was given this path.
fn is_path(rt: &impl Abort, given: &Option<String>, wanted: &str) {
    match given {
        Some(path) => same(rt, path.as_str().as_bytes(), wanted),
        None => holds(rt, false),
    }
}

#[test]
fn a_server_is_given_its_files(rt: HostRuntime) {
    let mut output = Vec::new(rt.alloc());
    let mut server = Noting::new();
    let words = [
        "serve",
        "file",
        "--stop-file",
        "stop",
        "--ready-file",
        "ready",
        "--drain-file",
        "drain",
        "--reload-file",
        "reload",
    ];
    let ending = served(&rt, &words, SMALL, &mut server, &mut output);
    holds(&rt, ending.status() == 0);
    holds(&rt, server.calls == 1);
    is_path(&rt, &server.stop_file, "stop");
    is_path(&rt, &server.ready_file, "ready");
    is_path(&rt, &server.drain_file, "drain");
    is_path(&rt, &server.reload_file, "reload");
    is_path(&rt, &server.path, "file");
}

#[test]
fn a_server_is_given_its_log_and_its_way(rt: HostRuntime) {
    let mut output = Vec::new(rt.alloc());
    let mut server = Noting::new();
    let words = [
        "serve",
        "file",
        "--transfer-log",
        "xferlog",
        "--log-form",
        "journal",
    ];
    let ending = served(&rt, &words, SMALL, &mut server, &mut output);
    holds(&rt, ending.status() == 0);
    is_path(&rt, &server.transfer_log, "xferlog");
    is_path(&rt, &server.log_form, "journal");
    holds(&rt, server.share_by == Some(ShareBy::Sessions));
    let words = ["serve", "file", "--share-by", "users"];
    let ending = served(&rt, &words, SMALL, &mut server, &mut output);
    holds(&rt, ending.status() == 0);
    holds(&rt, server.share_by == Some(ShareBy::Users));
}

/// Faults of a server, and their names.
static FAULTS: [(ServeFault, &str); 12] = [
    (ServeFault::Bind, "ftpd: Bind\n"),
    (ServeFault::NoThread, "ftpd: NoThread\n"),
    (ServeFault::WriteFault, "ftpd: WriteFault\n"),
    (ServeFault::Store, "ftpd: Store\n"),
    (ServeFault::Memory, "ftpd: Memory\n"),
    (ServeFault::Stopped, "ftpd: Stopped\n"),
    (ServeFault::ReadyFile, "ftpd: ReadyFile\n"),
    (ServeFault::OnePath, "ftpd: OnePath\n"),
    (ServeFault::TransferLog, "ftpd: TransferLog\n"),
    (ServeFault::LogForm, "ftpd: LogForm\n"),
    (ServeFault::StatusFile, "ftpd: StatusFile\n"),
    (ServeFault::StatusPort, "ftpd: StatusPort\n"),
];

#[test]
fn faults_are_reported(rt: HostRuntime) {
    for (fault, reported) in &FAULTS {
        let mut output = Vec::new(rt.alloc());
        let mut server = Noting::new();
        server.fault = Some(*fault);
        let ending = served(&rt, &["serve", "file"], SMALL, &mut server, &mut output);
        holds(&rt, ending.status() == 1);
        is_reported(&rt, &ending, reported);
    }
}

/// Checks that a fault that did not let the server start prints as this line above the fault's name.
fn starts_not(
    rt: &(impl Abort + AllocGlobal),
    fault: ServeFault,
    start: &StartFault,
    wanted: &str,
) {
    let ending = FtpdExit::Server(fault);
    let reported = FtpdErrorText {
        ending: &ending,
        output: None,
        start: Some(start),
    };
    reports(rt, &reported, wanted);
}

fn text(rt: &(impl Abort + AllocGlobal), word: &str) -> String {
    String::from_str(rt.alloc(), word).expect(rt, "memory")
}

#[test]
fn starts_are_explained(rt: HostRuntime) {
    let folder = StartFault::Folder {
        path: text(&rt, "/srv/ftp"),
        reason: io::Error::from_raw_os_error(2),
    };
    starts_not(
        &rt,
        ServeFault::Store,
        &folder,
        "/srv/ftp: No such file or directory (os error 2)\nftpd: Store\n",
    );
    let word = StartFault::Folder {
        path: text(&rt, "Memory"),
        reason: io::Error::from_raw_os_error(2),
    };
    starts_not(
        &rt,
        ServeFault::Store,
        &word,
        "Memory: No such file or directory (os error 2); the word for a store in memory is memory\nftpd: Store\n",
    );
}

#[test]
fn stop_files_are_explained(rt: HostRuntime) {
    let there = StartFault::StopFileThere {
        path: text(&rt, "/run/ftpd/stop"),
    };
    starts_not(
        &rt,
        ServeFault::Stopped,
        &there,
        "/run/ftpd/stop is there already: remove it\nftpd: Stopped\n",
    );
    let unseen = StartFault::StopFileUnseen {
        path: text(&rt, "/gone/stop"),
        reason: io::Error::from_raw_os_error(2),
    };
    starts_not(
        &rt,
        ServeFault::Stopped,
        &unseen,
        "the stop file /gone/stop could not be noticed: No such file or directory (os error 2)\nftpd: Stopped\n",
    );
}

#[test]
fn drain_files_are_explained(rt: HostRuntime) {
    let there = StartFault::DrainFileThere {
        path: text(&rt, "/run/ftpd/drain"),
    };
    starts_not(
        &rt,
        ServeFault::Stopped,
        &there,
        "/run/ftpd/drain is there already: remove it\nftpd: Stopped\n",
    );
    let unseen = StartFault::DrainFileUnseen {
        path: text(&rt, "/gone/drain"),
        reason: io::Error::from_raw_os_error(2),
    };
    starts_not(
        &rt,
        ServeFault::Stopped,
        &unseen,
        "the drain file /gone/drain could not be noticed: No such file or directory (os error 2)\nftpd: Stopped\n",
    );
}

#[test]
fn reload_files_are_explained(rt: HostRuntime) {
    let there = StartFault::ReloadFileThere {
        path: text(&rt, "/run/ftpd/reload"),
    };
    starts_not(
        &rt,
        ServeFault::ReloadFile,
        &there,
        "/run/ftpd/reload is there already: remove it\nftpd: ReloadFile\n",
    );
    let unseen = StartFault::ReloadFileUnseen {
        path: text(&rt, "/gone/reload"),
        reason: io::Error::from_raw_os_error(2),
    };
    starts_not(
        &rt,
        ServeFault::ReloadFile,
        &unseen,
        "the reload file /gone/reload could not be noticed: No such file or directory (os error 2)\nftpd: ReloadFile\n",
    );
}

#[test]
fn end_files_and_sessions_are_explained(rt: HostRuntime) {
    let there = StartFault::EndFileThere {
        path: text(&rt, "/run/ftpd/end"),
    };
    starts_not(
        &rt,
        ServeFault::EndFile,
        &there,
        "/run/ftpd/end is there already: remove it\nftpd: EndFile\n",
    );
    let unseen = StartFault::EndFileUnseen {
        path: text(&rt, "/gone/end"),
        reason: io::Error::from_raw_os_error(2),
    };
    starts_not(
        &rt,
        ServeFault::EndFile,
        &unseen,
        "the end file /gone/end could not be noticed: No such file or directory (os error 2)\nftpd: EndFile\n",
    );
    let none = StartFault::NoSessions {
        word: text(&rt, "two"),
    };
    starts_not(
        &rt,
        ServeFault::UserSessions,
        &none,
        "\"two\" is no number of sessions: it must be one from 0 to 65535, in digits\nftpd: UserSessions\n",
    );
    holds(&rt, stated_sessions("2") == Some(2));
    holds(&rt, stated_sessions("65536").is_none());
}

#[test]
fn a_time_for_nothing_is_explained(rt: HostRuntime) {
    starts_not(
        &rt,
        ServeFault::DrainSeconds,
        &StartFault::NothingDrains,
        "--drain-seconds has no effect without --drain-file: state one, or leave it out\nftpd: DrainSeconds\n",
    );
    let stated = Patience {
        login_timeout: 60,
        idle_timeout: 0,
        login_delay: 1,
        drain_timeout: 5,
    };
    holds(&rt, is_for_nothing(stated, false));
    holds(&rt, !is_for_nothing(stated, true));
}

#[test]
fn options_without_effect_are_explained(rt: HostRuntime) {
    starts_not(
        &rt,
        ServeFault::ReloadFile,
        &StartFault::InputAgain,
        "--reload-file has no effect with a configuration from standard input, which is read once: state a file, or leave it out\nftpd: ReloadFile\n",
    );
    holds(&rt, reads_input_again("-", true));
    holds(&rt, !reads_input_again("ftpd.toml", true));
    holds(&rt, idle_sync(true, true) == Some(IdleOption::Sync));
    let option = idle_sessions(64, 64).expect(&rt, "no effect");
    reports(
        &rt,
        &option,
        "--user-sessions 64 has no effect: max_cons is 64",
    );
    holds(&rt, idle_sessions(63, 64).is_none());
}

#[test]
fn ready_files_are_explained(rt: HostRuntime) {
    let there = StartFault::ReadyFileThere {
        path: text(&rt, "/run/ftpd/ready"),
    };
    starts_not(
        &rt,
        ServeFault::ReadyFile,
        &there,
        "/run/ftpd/ready is there already: remove it\nftpd: ReadyFile\n",
    );
    let unmade = StartFault::ReadyFileUnmade {
        path: text(&rt, "/gone/ready"),
        reason: io::Error::from_raw_os_error(2),
    };
    starts_not(
        &rt,
        ServeFault::ReadyFile,
        &unmade,
        "the ready file /gone/ready could not be made: No such file or directory (os error 2)\nftpd: ReadyFile\n",
    );
}

#[test]
fn faults_of_the_log_are_explained(rt: HostRuntime) {
    let unopened = StartFault::TransferLogUnopened {
        path: text(&rt, "/gone/xferlog"),
        reason: io::Error::from_raw_os_error(2),
    };
    starts_not(
        &rt,
        ServeFault::TransferLog,
        &unopened,
        "the transfer log /gone/xferlog could not be opened: No such file or directory (os error 2)\nftpd: TransferLog\n",
    );
    let unknown = StartFault::UnknownForm {
        word: text(&rt, "xml"),
    };
    starts_not(
        &rt,
        ServeFault::LogForm,
        &unknown,
        "\"xml\" is no form of notes: plain and journal are\nftpd: LogForm\n",
    );
}

const OUT_OF_RANGE: &str =
    "file: line 1: top: version: out of range; it must be a number from 1 to 2\nftpd: OutOfRange\n";

/// If a configuration is refused, the server is not called.
#[test]
fn a_refusal_calls_no_server(rt: HostRuntime) {
    let mut output = Vec::new(rt.alloc());
    let mut server = Noting::new();
    let ending = served(
        &rt,
        &["serve", "file"],
        "version = 3",
        &mut server,
        &mut output,
    );
    holds(&rt, ending.status() == 1);
    is_reported(&rt, &ending, OUT_OF_RANGE);
    holds(&rt, server.calls == 0 && output.is_empty());
}
