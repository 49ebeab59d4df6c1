//! Reports on logs that are held in memory.

use crate::shown::expect::holds;
use crate::shown::sums::{CUT, NEW};
use std::io;
use std::process::Abort;
use usage_report::{
    AskFault, AskWords, FIRST, LogSource, NoUsage, UsageForm, UsageKey, asked, key_name, usage_text,
};

const PLAIN: AskWords = AskWords {
    by: None,
    day: None,
    first: None,
    json: false,
    csv: false,
};

/// Two logs.
#[derive(Drop)]
struct Logs;

impl LogSource for Logs {
    type Log = &'static [u8];

    fn open(&mut self, path: &str) -> io::Result<&'static [u8]> {
        match path {
            "new" => Ok(NEW),
            "cut" => Ok(CUT),
            _ => Err(io::Error::from(io::ErrorKind::NotFound)),
        }
    }
}

fn says(rt: &(impl Abort + AllocGlobal), words: &AskWords<'_>, paths: &[&str], wanted: &str) {
    let text = usage_text(rt.alloc(), words, paths, &mut Logs).expect(rt, "a report");
    holds(rt, text.as_str() == wanted);
}

const TABLE: &str = " transfers            octets     seconds  octets a second  user
         3              1106           7              158  ann
         1                10           1               10  bob
         4              1116           8              139  total
not of the form: 1 of 5 lines of new; the first is line 3
not of the form: 1 of 1 lines of cut; the first is line 1
";

const CSV: &str = "kind,key,transfers,octets,seconds,octets_a_second,count,first
file,\"/a\",2,106,6,17,,
rest,,,,,,1,
total,,3,116,7,16,,
unread,\"new\",,,,,1,3
";

#[test]
fn tables(rt: HostRuntime) {
    says(&rt, &PLAIN, &["new", "cut"], TABLE);
    let words = AskWords {
        by: Some("file"),
        day: Some("2026-11-26"),
        first: Some("1"),
        csv: true,
        ..PLAIN
    };
    says(&rt, &words, &["new"], CSV);
}

const JSON: &str =
    "{\"by\":\"user\",\"day\":\"2026-11-27\",\"logs\":[{\"file\":\"new\",\"first_unread\":3,\"lines\":5,\"unread\":1}],\"rows\":[{\"key\":\"ann\",\"octets\":1000,\"octets_a_second\":1000,\"seconds\":1,\"transfers\":1}],\"rows_in_all\":1,\"total\":{\"octets\":1000,\"octets_a_second\":1000,\"seconds\":1,\"transfers\":1},\"version\":1}\n";

#[test]
fn json(rt: HostRuntime) {
    let words = AskWords {
        day: Some("2026-11-27"),
        json: true,
        ..PLAIN
    };
    says(&rt, &words, &["new"], JSON);
}

fn refuses(rt: &(impl Abort + AllocGlobal), words: &AskWords<'_>, fault: AskFault) {
    holds(rt, asked(words) == Err(fault));
    let refused = usage_text(rt.alloc(), words, &["new"], &mut Logs);
    holds(rt, matches!(&refused, Err(NoUsage::Refused(_))));
}

#[test]
fn refusals(rt: HostRuntime) {
    let by = Some("users");
    refuses(&rt, &AskWords { by, ..PLAIN }, AskFault::Key);
    let day = Some("2026-11-31");
    refuses(&rt, &AskWords { day, ..PLAIN }, AskFault::Day);
    let first = Some("+1");
    refuses(&rt, &AskWords { first, ..PLAIN }, AskFault::First);
    let both = AskWords {
        json: true,
        csv: true,
        ..PLAIN
    };
    refuses(&rt, &both, AskFault::TwoForms);
    let absent = usage_text(rt.alloc(), &PLAIN, &["new", "old"], &mut Logs);
    holds(
        &rt,
        matches!(&absent, Err(NoUsage::Log { path: "old", .. })),
    );
}

#[test]
fn what_is_asked(rt: HostRuntime) {
    let ask = asked(&PLAIN).expect(&rt, "a report");
    holds(&rt, ask.by == UsageKey::User && ask.first == FIRST);
    holds(&rt, ask.day.is_none() && ask.form == UsageForm::Table);
    holds(&rt, key_name(ask.by) == "user");
}
