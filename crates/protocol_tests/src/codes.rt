//! Each known code, without an argument and with one.

use crate::reported::check_line;

/// A code, its meaning alone, and its meaning with the argument `x`.
static CODES: &[(&str, &str, &str)] = &[
    // without an argument
    ("CDUP", "CDUP", "501 Argument not wanted"),
    ("QUIT", "QUIT", "501 Argument not wanted"),
    ("REIN", "REIN", "501 Argument not wanted"),
    ("PASV", "PASV", "501 Argument not wanted"),
    ("ABOR", "ABOR", "501 Argument not wanted"),
    ("PWD", "PWD", "501 Argument not wanted"),
    ("SYST", "SYST", "501 Argument not wanted"),
    ("FEAT", "FEAT", "501 Argument not wanted"),
    ("NOOP", "NOOP", "501 Argument not wanted"),
    ("XCUP", "CDUP", "501 Argument not wanted"),
    ("XPWD", "PWD", "501 Argument not wanted"),
    // with a text
    ("USER", "501 Argument missing", "USER x"),
    ("CWD", "501 Argument missing", "CWD x"),
    ("RETR", "501 Argument missing", "RETR x"),
    ("STOR", "501 Argument missing", "STOR x"),
    ("APPE", "501 Argument missing", "APPE x"),
    ("RNFR", "501 Argument missing", "RNFR x"),
    ("RNTO", "501 Argument missing", "RNTO x"),
    ("DELE", "501 Argument missing", "DELE x"),
    ("RMD", "501 Argument missing", "RMD x"),
    ("MKD", "501 Argument missing", "MKD x"),
    ("SIZE", "501 Argument missing", "SIZE x"),
    ("MDTM", "501 Argument missing", "MDTM x"),
    ("XCWD", "501 Argument missing", "CWD x"),
    ("XRMD", "501 Argument missing", "RMD x"),
    ("XMKD", "501 Argument missing", "MKD x"),
    // with an argument of a form of its own, required or optional
    ("TYPE", "501 Argument missing", "501 Bad argument"),
    ("MODE", "501 Argument missing", "501 Bad argument"),
    ("STRU", "501 Argument missing", "501 Bad argument"),
    ("PORT", "501 Argument missing", "501 Bad argument"),
    ("EPRT", "501 Argument missing", "501 Bad argument"),
    ("REST", "501 Argument missing", "501 Bad argument"),
    ("OPTS", "501 Argument missing", "501 Bad argument"),
    ("EPSV", "EPSV", "501 Bad argument"),
    ("PASS", "PASS", "PASS x"),
    ("ALLO", "ALLO", "ALLO x"),
    ("HELP", "HELP", "HELP x"),
    ("MLSD", "MLSD", "MLSD x"),
    ("MLST", "MLST", "MLST x"),
    ("LIST", "LIST", "LIST x"),
    ("NLST", "NLST", "NLST x"),
    ("STAT", "STAT", "STAT x"),
    // known and not served
    ("ACCT", "502 Command not served", "502 Command not served"),
    ("SMNT", "502 Command not served", "502 Command not served"),
    ("STOU", "502 Command not served", "502 Command not served"),
    ("SITE", "502 Command not served", "502 Command not served"),
    ("LANG", "502 Command not served", "502 Command not served"),
    ("HOST", "502 Command not served", "502 Command not served"),
    ("AUTH", "502 Command not served", "502 Command not served"),
    ("ADAT", "502 Command not served", "502 Command not served"),
    ("PBSZ", "502 Command not served", "502 Command not served"),
    ("PROT", "502 Command not served", "502 Command not served"),
    ("CCC", "502 Command not served", "502 Command not served"),
    ("MIC", "502 Command not served", "502 Command not served"),
    ("CONF", "502 Command not served", "502 Command not served"),
    ("ENC", "502 Command not served", "502 Command not served"),
    ("MFMT", "502 Command not served", "502 Command not served"),
];

#[test]
fn codes(rt: HostRuntime) {
    for (code, alone, with_argument) in CODES {
        check_line(&rt, rt.alloc(), code, "", alone);
        check_line(&rt, rt.alloc(), code, " x", with_argument);
    }
}
