//! The commands that words of command lines are read as.

use crate::expect::holds;
use command_line::{
    Patience, ServeFiles, ShareBy, SheetWords, Words, WordsFault, read_sheet_words,
    read_usage_words, read_words, stated_depth,
};
use std::process::Abort;

#[test]
fn words_on_a_configuration(rt: HostRuntime) {
    let config = "office.toml";
    let words = ["check-config", config];
    let command = read_words(rt.alloc(), &words).expect(&rt, "a command");
    holds(
        &rt,
        command
            == Words::CheckConfig {
                config,
                json: false,
                against: None,
                running: false,
                share_by: ShareBy::Sessions,
            },
    );
    let words = ["check-config", config, "--json"];
    let command = read_words(rt.alloc(), &words).expect(&rt, "a command");
    holds(
        &rt,
        command
            == Words::CheckConfig {
                config,
                json: true,
                against: None,
                running: false,
                share_by: ShareBy::Sessions,
            },
    );
    let words = ["check-config", "--against", "old.toml", config];
    let command = read_words(rt.alloc(), &words).expect(&rt, "a command");
    holds(
        &rt,
        command
            == Words::CheckConfig {
                config,
                json: false,
                against: Some("old.toml"),
                running: false,
                share_by: ShareBy::Sessions,
            },
    );
    let words = ["check-config", config, "--against-running"];
    let command = read_words(rt.alloc(), &words).expect(&rt, "a command");
    holds(
        &rt,
        command
            == Words::CheckConfig {
                config,
                json: false,
                against: None,
                running: true,
                share_by: ShareBy::Sessions,
            },
    );
    let words = ["migrate", config];
    let command = read_words(rt.alloc(), &words).expect(&rt, "a command");
    holds(&rt, command == Words::Migrate { config });
    let words = ["script", config];
    let command = read_words(rt.alloc(), &words).expect(&rt, "a command");
    holds(&rt, command == Words::Script { config });
}

/// The files of words that name none.
const NO_FILES: ServeFiles<'static> = ServeFiles {
    stop_file: None,
    ready_file: None,
    drain_file: None,
    reload_file: None,
    running_file: None,
    transfer_log: None,
    log_form: None,
    status: None,
    status_port: None,
    syncs: false,
    end_file: None,
    user_sessions: None,
    share_by: ShareBy::Sessions,
};

/// Checks that these words are those of `serve` for `office.toml`, with those files and that patience.
fn serves(
    rt: &(impl Abort + AllocGlobal),
    words: &[&str],
    files: ServeFiles<'_>,
    patience: Patience,
) {
    let command = read_words(rt.alloc(), words).expect(rt, "a command");
    let config = "office.toml";
    let wanted = Words::Serve {
        config,
        files,
        patience,
    };
    holds(rt, command == wanted);
}

#[test]
fn words_on_a_server(rt: HostRuntime) {
    let config = "office.toml";
    let usual = Patience {
        login_timeout: 60,
        idle_timeout: 0,
        login_delay: 1,
        drain_timeout: 0,
    };
    serves(&rt, &["serve", config], NO_FILES, usual);
    let stopped = ServeFiles {
        stop_file: Some("/run/ftpd.stop"),
        ..NO_FILES
    };
    for words in [
        ["serve", config, "--stop-file", "/run/ftpd.stop"],
        ["serve", "--stop-file", "/run/ftpd.stop", config],
    ] {
        serves(&rt, &words, stopped, usual);
    }
    let words = ["serve", "--stop-file=/run/ftpd.stop", config];
    serves(&rt, &words, stopped, usual);
    let ready = ServeFiles {
        ready_file: Some("/run/ftpd.ready"),
        ..NO_FILES
    };
    let words = ["serve", config, "--ready-file", "/run/ftpd.ready"];
    serves(&rt, &words, ready, usual);
    let drained = ServeFiles {
        drain_file: Some("/run/ftpd.drain"),
        ..NO_FILES
    };
    let words = ["serve", config, "--drain-file", "/run/ftpd.drain"];
    serves(&rt, &words, drained, usual);
    let reloaded = ServeFiles {
        reload_file: Some("/run/ftpd.reload"),
        ..NO_FILES
    };
    let words = ["serve", config, "--reload-file", "/run/ftpd.reload"];
    serves(&rt, &words, reloaded, usual);
    let kept = ServeFiles {
        running_file: Some("running.toml"),
        ..NO_FILES
    };
    let words = ["serve", config, "--running-file", "running.toml"];
    serves(&rt, &words, kept, usual);
    let logged = ServeFiles {
        transfer_log: Some("xferlog"),
        log_form: Some("journal"),
        ..NO_FILES
    };
    for words in [
        [
            "serve",
            config,
            "--transfer-log",
            "xferlog",
            "--log-form",
            "journal",
        ],
        [
            "serve",
            "--log-form",
            "journal",
            "--transfer-log",
            "xferlog",
            config,
        ],
    ] {
        serves(&rt, &words, logged, usual);
    }
    let shown = ServeFiles {
        status: Some("status.json"),
        status_port: Some(8_080),
        ..NO_FILES
    };
    let words = [
        "serve",
        config,
        "--status",
        "status.json",
        "--status-port",
        "08080",
    ];
    serves(&rt, &words, shown, usual);
    let synced = ServeFiles {
        syncs: true,
        ..NO_FILES
    };
    serves(&rt, &["serve", config, "--sync"], synced, usual);
    serves(&rt, &["serve", "--sync", config], synced, usual);
    let counted = ServeFiles {
        end_file: Some("end"),
        user_sessions: Some("3"),
        ..NO_FILES
    };
    let words = ["serve", config, "--end-file", "end", "--user-sessions", "3"];
    serves(&rt, &words, counted, usual);
    let by_users = ServeFiles {
        share_by: ShareBy::Users,
        ..NO_FILES
    };
    let words = ["serve", "--share-by", "users", config];
    serves(&rt, &words, by_users, usual);
    let words = ["serve", config, "--share-by=sessions"];
    serves(&rt, &words, NO_FILES, usual);
}

// Words that ask for the transfers of a running server.
fn shows(rt: &(impl Abort + AllocGlobal), words: &[&str], once: bool, rows: u16) {
    let command = read_words(rt.alloc(), words).expect(rt, "a command");
    let wanted = Words::Top {
        status: "status.json",
        once,
        rows,
    };
    holds(rt, command == wanted);
}

#[test]
fn words_on_a_status(rt: HostRuntime) {
    shows(&rt, &["top", "status.json"], false, 24);
    shows(
        &rt,
        &["top", "status.json", "--once", "--rows", "8"],
        true,
        8,
    );
    shows(&rt, &["top", "--rows=500", "status.json"], false, 500);
}

// Words that ask for a plan of one transfer, in lines or as JSON, by one of the ways of sharing.
fn plans(rt: &(impl Abort + AllocGlobal), words: &[&str], json: bool, share_by: ShareBy) {
    let command = read_words(rt.alloc(), words).expect(rt, "a command");
    let wanted = Words::Plan {
        config: "office.toml",
        transfers: "ann=1",
        json,
        share_by,
    };
    holds(rt, command == wanted);
}

#[test]
fn words_on_a_plan(rt: HostRuntime) {
    let words = ["plan", "office.toml", "ann=1"];
    plans(&rt, &words, false, ShareBy::Sessions);
    let words = ["plan", "office.toml", "ann=1", "--json"];
    plans(&rt, &words, true, ShareBy::Sessions);
    let words = ["plan", "office.toml", "ann=1", "--share-by", "users"];
    plans(&rt, &words, false, ShareBy::Users);
}

#[test]
fn words_on_patience(rt: HostRuntime) {
    let config = "office.toml";
    let stated = Patience {
        login_timeout: 0,
        idle_timeout: 86_400,
        login_delay: 7,
        drain_timeout: 5,
    };
    let words = [
        "serve",
        "--idle-timeout=86400",
        "--drain-seconds=5",
        "--login-delay",
        "007",
        config,
        "--login-timeout",
        "0",
    ];
    serves(&rt, &words, NO_FILES, stated);
}

/// Checks that both programs read the words as that command.
fn are_of_both(rt: &(impl Abort + AllocGlobal), words: &[&str], wanted: SheetWords<'_>) {
    let command = read_words(rt.alloc(), words).expect(rt, "a command of ftpd");
    holds(rt, command == Words::Sheet(wanted));
    let command = read_sheet_words(rt.alloc(), words).expect(rt, "a command of sheets");
    holds(rt, command == wanted);
}

#[test]
fn words_on_a_sheet(rt: HostRuntime) {
    for sheet in ["a", "lunch.sheet", "/dev/stdin", "a b"] {
        let lines = SheetWords::Share {
            sheet,
            svg: false,
            by: None,
        };
        are_of_both(&rt, &["share", sheet], lines);
    }
    let sheet = "lunch.sheet";
    let picture = SheetWords::Share {
        sheet,
        svg: true,
        by: None,
    };
    are_of_both(&rt, &["share", sheet, "--svg"], picture);
    are_of_both(&rt, &["share", "--svg", sheet], picture);
    let by_users = SheetWords::Share {
        sheet,
        svg: true,
        by: Some("2"),
    };
    are_of_both(&rt, &["share", sheet, "--svg", "--by", "2"], by_users);
    let (sheet, grants) = ("office.sheet", "office.grants");
    let plain = SheetWords::Check {
        sheet,
        grants,
        by: None,
    };
    are_of_both(&rt, &["check", sheet, grants], plain);
    let by_users = SheetWords::Check {
        sheet,
        grants,
        by: Some("x"),
    };
    are_of_both(&rt, &["check", "--by=x", sheet, grants], by_users);
}

#[test]
fn depths_in_words(rt: HostRuntime) {
    for (word, depth) in [("0", 0), ("1", 1), ("16", 16), ("99", 99), ("007", 7)] {
        let stated = stated_depth(rt.alloc(), Some(word));
        holds(&rt, matches!(stated, Ok(Some(found)) if found == depth));
    }
    holds(&rt, matches!(stated_depth(rt.alloc(), None), Ok(None)));
    for word in ["", "100", "+1", "-1", "1.", "one", "4294967297"] {
        let stated = stated_depth(rt.alloc(), Some(word));
        holds(
            &rt,
            matches!(stated, Err(WordsFault::Refused { is_help: false, .. })),
        );
    }
}

#[test]
fn words_on_transfer_logs(rt: HostRuntime) {
    let words = ["usage", "old", "--by", "file", "new", "--json"];
    let command = read_words(rt.alloc(), &words).expect(&rt, "a command");
    holds(&rt, command == Words::Usage);
    let read = read_usage_words(rt.alloc(), &words).expect(&rt, "words");
    let stated = read.expect(&rt, "words of usage");
    holds(
        &rt,
        stated.logs.len() == 2 && stated.logs[0] == "old" && stated.logs[1] == "new",
    );
    holds(&rt, stated.by == Some("file") && stated.day.is_none());
    holds(&rt, stated.first.is_none() && stated.json && !stated.csv);
    let other = read_usage_words(rt.alloc(), &["migrate", "old"]).expect(&rt, "words");
    holds(&rt, other.is_none());
}
