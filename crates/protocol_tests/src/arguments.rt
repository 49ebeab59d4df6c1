//! Arguments of commands, and lines that common clients send.

use crate::expect::same;
use crate::reported::check_line;
use ftp_wire::{ExtendedPort, HostPort, LineFault, read_eprt, read_port};

/// Lines and their meaning: the command as it is written, or the reply to a fault.
static LINES: &[(&str, &str)] = &[
    // codes that are unknown
    ("CLNT x", "500 Unknown command"),
    ("LPRT x", "500 Unknown command"),
    ("PRET x", "500 Unknown command"),
    ("XSTO x", "500 Unknown command"),
    // TYPE, MODE, STRU and REST
    ("TYPE a n", "TYPE A"),
    ("TYPE A T", "504 Parameter not served"),
    ("TYPE A C", "504 Parameter not served"),
    ("TYPE E", "504 Parameter not served"),
    ("TYPE L 8", "TYPE I"),
    ("TYPE L 9", "504 Parameter not served"),
    ("TYPE L 255", "504 Parameter not served"),
    ("TYPE L 256", "501 Bad argument"),
    ("TYPE L 0", "501 Bad argument"),
    ("TYPE I ", "501 Bad argument"),
    ("TYPE L8", "501 Bad argument"),
    ("MODE s", "MODE S"),
    ("MODE B", "504 Parameter not served"),
    ("MODE C", "504 Parameter not served"),
    ("MODE Z", "501 Bad argument"),
    ("STRU F", "STRU F"),
    ("STRU R", "504 Parameter not served"),
    ("STRU P", "504 Parameter not served"),
    ("STRU X", "501 Bad argument"),
    ("REST 0000000000000000007", "REST 7"),
    ("REST 9999999999999999999", "REST 9999999999999999999"),
    ("REST 00000000000000000007", "501 Bad argument"),
    ("REST 5 ", "501 Bad argument"),
    // the switches of `ls`
    ("LIST -la x", "LIST x"),
    ("LIST -la", "LIST"),
    ("LIST -a", "LIST"),
    ("LIST -l", "LIST"),
    ("LIST -la .", "LIST ."),
    ("LIST -l -a", "LIST -a"),
    ("LIST  -la", "LIST  -la"),
    ("NLST -a  ", "NLST"),
    ("NLST -a x", "NLST x"),
    ("NLST -a", "NLST"),
    ("STAT -l", "STAT"),
    ("STAT -la x", "STAT x"),
    ("STAT f", "STAT f"),
    ("MLST -x", "MLST -x"),
    ("MLSD -a", "MLSD -a"),
    // OPTS
    ("OPTS utf8 on", "OPTS UTF8 ON"),
    ("opts UTF8 ON", "OPTS UTF8 ON"),
    ("OPTS UTF8", "501 Bad argument"),
    ("OPTS UTF8 OFF", "501 Bad argument"),
    ("OPTS UTF8 ON ", "501 Bad argument"),
    ("OPTS MLST", "OPTS MLST"),
    ("OPTS MLST ", "OPTS MLST"),
    ("OPTS MLST size;", "OPTS MLST size;"),
    ("OPTS MLST size;x;TYPE;", "OPTS MLST type;size;"),
    (
        "OPTS MLST type;size;modify;UNIX.mode;",
        "OPTS MLST type;size;modify;",
    ),
    ("OPTS MLST size", "501 Bad argument"),
    ("OPTS MLST type;size", "501 Bad argument"),
    ("OPTS MLST  size;", "501 Bad argument"),
    ("OPTS MLST type; size;", "501 Bad argument"),
    ("OPTS HASH", "501 Bad argument"),
    // blanks, and no code
    ("", "500 Empty line"),
    (" NOOP", "500 Empty line"),
    ("XPWD ", "PWD"),
    ("PASV ", "PASV"),
    ("RETR  ", "501 Argument missing"),
    ("USER  ", "501 Argument missing"),
    ("PASS ", "PASS"),
    ("PASS   ", "PASS"),
    ("CWD ./ ", "CWD ./ "),
    ("RETR  lead", "RETR  lead"),
    ("RETR trail ", "RETR trail "),
    ("PASS se cret", "PASS se cret"),
    ("CWD a\tb", "501 Bad argument"),
    ("PASS a\tb", "501 Bad argument"),
    // addresses of data connections
    ("PORT 10,0,0,1,20,0", "PORT 10,0,0,1,20,0"),
    ("PORT 10,0,0,1,20,256", "501 Bad argument"),
    ("PORT 10,0,0,1,20", "501 Bad argument"),
    ("PORT 10,0,0,1,20,0,0", "501 Bad argument"),
    ("PORT 10,0,0,1,20,0 ", "501 Bad argument"),
    ("EPRT |1|10.0.0.1|5120|", "EPRT |1|10.0.0.1|5120|"),
    ("EPRT |1|10.0.0.1|65536|", "501 Bad argument"),
    ("EPRT |2|::1|5000|", "EPRT |2|||"),
    ("EPRT |2|::1|5000", "501 Bad argument"),
    ("EPRT |2|", "501 Bad argument"),
    ("EPRT |70000|||", "EPRT |65535|||"),
    ("EPSV all", "EPSV ALL"),
    ("EPSV 1", "EPSV 1"),
    ("EPSV 99999999999999999999", "EPSV 65535"),
    ("EPSV ALL ", "501 Bad argument"),
];

#[test]
fn arguments(rt: HostRuntime) {
    for (line, item) in LINES {
        check_line(&rt, rt.alloc(), line, "", item);
    }
}

const HOST: HostPort = HostPort {
    address: [127, 0, 0, 1],
    port: 21,
};

static EXTENDED: [(&str, Result<ExtendedPort, LineFault>); 3] = [
    ("|1|127.0.0.1|21|", Ok(ExtendedPort::Ipv4(HOST))),
    ("|2|::1|5000|", Ok(ExtendedPort::Unsupported(2))),
    ("|2|", Err(LineFault::BadArgument)),
];

#[test]
fn ports_are_read(rt: HostRuntime) {
    same(&rt, &read_port("127,0,0,1,0,21"), &Ok(HOST));
    same(&rt, &read_port("127,0,0,1,0"), &Err(LineFault::BadArgument));
    for (text, wanted) in &EXTENDED {
        same(&rt, &read_eprt(text), wanted);
    }
}
