//! The screens of `ftpd top`: those of a status file that is read again and again.

use crate::expect::{holds, same};
use ftpd_program::{StatusSource, watch};
use server_status::read_status;
use status_table::{Status, looks_lines, table_lines};
use std::alloc::{AllocError, Global};
use std::process::Abort;

/// A status with one transfer, which began with the server and has been granted 100,000 octets in a tenth of a second.
const EARLY: &str =
    "{\"version\":1,\"unit\":\"octets\",\"started\":5,\"micros\":100000,\"line\":{\"both\":null,\"down\":null,\"up\":null},\"shared_among\":\"sessions\",\"groups\":[],\"users\":1,\"sessions\":1,\"max_sessions\":8,\"lanes\":8,\"issued\":100000,\"ended\":0,\"ended_granted\":0,\"ended_moved\":0,\"held\":{\"server\":0,\"direction\":0,\"group\":0,\"user\":0,\"session\":0,\"nothing\":1},\"failed_logins\":0,\"refused\":0,\"waits\":0,\"guaranteed_down\":null,\"guaranteed_up\":null,\"logins\":1,\"refused_logins\":0,\"refused_guarantees\":0,\"lost_lines\":0,\"endings\":{\"aborted\":0,\"file\":0,\"lost\":0,\"memory\":0,\"owner\":0,\"unconnected\":0,\"whole\":0},\"sessions_now\":[{\"session\":1,\"user\":\"ann\",\"group\":null,\"peer\":\"127.0.0.1\",\"begun\":0,\"active\":100000,\"guaranteed_down\":null,\"guaranteed_up\":null}],\"accounts\":[{\"user\":\"ann\",\"group\":null,\"granted_down\":100000,\"granted_up\":0,\"unmet_down\":0,\"unmet_up\":0}],\"transfers\":[{\"session\":1,\"user\":\"ann\",\"group\":null,\"peer\":\"127.0.0.1\",\"direction\":\"down\",\"path\":\"/a\",\"size\":200000,\"begun\":0,\"waiting\":false,\"granted\":100000,\"moved\":100000,\"held\":{\"server\":0,\"direction\":0,\"group\":0,\"user\":0,\"session\":0,\"nothing\":1},\"guaranteed\":null,\"session_rate\":null,\"user_rate\":null}]}\n";

/// The same transfer a second later: 50,000 octets more.
const LATE: &str =
    "{\"version\":1,\"unit\":\"octets\",\"started\":5,\"micros\":1100000,\"line\":{\"both\":null,\"down\":null,\"up\":null},\"shared_among\":\"sessions\",\"groups\":[],\"users\":1,\"sessions\":1,\"max_sessions\":8,\"lanes\":8,\"issued\":150000,\"ended\":0,\"ended_granted\":0,\"ended_moved\":0,\"held\":{\"server\":0,\"direction\":0,\"group\":0,\"user\":9,\"session\":0,\"nothing\":2},\"failed_logins\":0,\"refused\":0,\"waits\":0,\"guaranteed_down\":null,\"guaranteed_up\":null,\"logins\":1,\"refused_logins\":0,\"refused_guarantees\":0,\"lost_lines\":0,\"endings\":{\"aborted\":0,\"file\":0,\"lost\":0,\"memory\":0,\"owner\":0,\"unconnected\":0,\"whole\":0},\"sessions_now\":[{\"session\":1,\"user\":\"ann\",\"group\":null,\"peer\":\"127.0.0.1\",\"begun\":0,\"active\":1100000,\"guaranteed_down\":null,\"guaranteed_up\":null}],\"accounts\":[{\"user\":\"ann\",\"group\":null,\"granted_down\":150000,\"granted_up\":0,\"unmet_down\":0,\"unmet_up\":0}],\"transfers\":[{\"session\":1,\"user\":\"ann\",\"group\":null,\"peer\":\"127.0.0.1\",\"direction\":\"down\",\"path\":\"/a\",\"size\":200000,\"begun\":0,\"waiting\":false,\"granted\":150000,\"moved\":150000,\"held\":{\"server\":0,\"direction\":0,\"group\":0,\"user\":9,\"session\":0,\"nothing\":2},\"guaranteed\":null,\"session_rate\":null,\"user_rate\":null}]}\n";

const EARLY_TABLE: &str =
    "ftpd  up 0 h 0 min   1 users, 1 of 8 sessions, 1 transfers, 0 waiting\ndown 1.00M   up 0.00K   both 1.00M\n0 idle   guaranteed down 0.00K   up 0.00K\n       user       group    from            way       1 s    10 s   least    most\n       held by, parts of the rounds of 1 s    done  file\n#1     ann        -        127.0.0.1       down    1.00M   1.00M       -       -\n       client 100%                             50%  /a\n";

const LATE_TABLE: &str =
    "ftpd  up 0 h 0 min   1 users, 1 of 8 sessions, 1 transfers, 0 waiting\ndown 50.00K   up 0.00K   both 50.00K\n0 idle   guaranteed down 0.00K   up 0.00K\n       user       group    from            way       1 s    10 s   least    most\n       held by, parts of the rounds of 1 s    done  file\n#1     ann        -        127.0.0.1       down   50.00K  50.00K       -       -\n       user ann down 90% client 10%            75%  /a\n";

/// A status file that has these texts, one at each look.
#[derive(Drop)]
struct Texts<'t> {
    texts: &'t [&'t str],
    at: usize,
}

impl StatusSource for Texts<'_> {
    fn wait(&mut self) -> bool {
        self.at < self.texts.len()
    }

    fn read(&mut self, alloc: Global) -> Option<Vec<u8>> {
        let text = self.texts.get(self.at)?;
        self.at = self.at.saturating_add(1);
        Vec::from_slice(alloc, text.as_bytes()).ok()
    }
}

/// The screens of these texts.
fn screens(rt: &(impl Abort + AllocGlobal), texts: &[&str]) -> Vec<u8> {
    let mut source = Texts { texts, at: 0 };
    let mut output = Vec::new(rt.alloc());
    watch(rt.alloc(), 24, &mut source, &mut output).expect(rt, "memory");
    output
}

/// Ends the test unless the octets are a cleared screen and then the parts.
fn shows(rt: &(impl Abort + AllocGlobal), found: &[u8], parts: &[&str]) {
    let mut wanted = String::new(rt.alloc());
    for part in parts {
        wanted.push_str(part).expect(rt, "memory");
    }
    same(rt, found, wanted.as_str());
}

fn status_table(rt: &(impl Abort + AllocGlobal), status: Status) -> Result<(), AllocError> {
    let screen = table_lines(rt.alloc(), None, None, &status, 24)?;
    same(rt, screen.as_str().as_bytes(), EARLY_TABLE);
    Ok(())
}

#[test]
fn a_table_is_of_one_status(rt: HostRuntime) {
    let status = read_status(rt.alloc(), EARLY.as_bytes()).expect(&rt, "a status");
    status_table(&rt, status).expect(&rt, "memory");
}

fn looks(rt: &(impl Abort + AllocGlobal), early: Status, late: Status) -> Result<(), AllocError> {
    let both = looks_lines(rt.alloc(), &early, Some(&late), 24)?;
    same(rt, both.as_str().as_bytes(), LATE_TABLE);
    let turned = looks_lines(rt.alloc(), &late, Some(&early), 24)?;
    same(rt, turned.as_str().as_bytes(), EARLY_TABLE);
    let alone = looks_lines(rt.alloc(), &early, None, 24)?;
    same(rt, alone.as_str().as_bytes(), EARLY_TABLE);
    Ok(())
}

#[test]
fn two_looks_show_the_rates_between_them(rt: HostRuntime) {
    let early = read_status(rt.alloc(), EARLY.as_bytes()).expect(&rt, "a status");
    let late = read_status(rt.alloc(), LATE.as_bytes()).expect(&rt, "a status");
    looks(&rt, early, late).expect(&rt, "memory");
}

#[test]
fn a_watch_shows_the_rates_of_a_second(rt: HostRuntime) {
    let found = screens(&rt, &[EARLY, LATE]);
    let clear = "\u{1b}[H\u{1b}[J";
    shows(&rt, &found, &[clear, EARLY_TABLE, clear, LATE_TABLE]);
}

#[test]
fn a_watch_reports_that_nothing_is_written(rt: HostRuntime) {
    let found = screens(&rt, &[LATE, LATE, "", "{}", LATE, LATE]);
    let reported = "no new status for 5 seconds: the server has ended, or writes no more\n";
    holds(&rt, found.ends_with(reported.as_bytes()));
    let found = screens(&rt, &[LATE, LATE, "", "{}", LATE]);
    holds(&rt, !found.ends_with(reported.as_bytes()));
}
