//! The octets of each fixed reply, worked by hand from the table; and the example with the name of the table's crate.

use crate::expect::same;
use ftp_reply::Reply;
use ftp_terms::DataType;
use ftp_wire::LineFault;
use session_table::{Answer, Notice, Octets, Refusal};
use std::process::Abort;
use virtual_path::PathFault;
use virtual_tree::StoreFault;

static NOTICES: [(Notice, &str); 24] = [
    (Notice::Opening, "150 Opening data connection\r\n"),
    (Notice::Fine, "200 OK\r\n"),
    (Notice::Utf8IsOn, "200 UTF8 is on\r\n"),
    (Notice::NoFactsInForce, "200 MLST OPTS\r\n"),
    (Notice::TypeIs(DataType::Ascii), "200 Type is A\r\n"),
    (Notice::TypeIs(DataType::Image), "200 Type is I\r\n"),
    (Notice::ModeIsStream, "200 Mode is S\r\n"),
    (Notice::StructureIsFile, "200 Structure is F\r\n"),
    (Notice::OnlyExtended, "200 EPSV ALL is in force\r\n"),
    (Notice::NoAllocation, "202 No storage allocation needed\r\n"),
    (Notice::TransferInProgress, "211 Transfer in progress\r\n"),
    (Notice::NoTransfer, "211 No transfer\r\n"),
    (
        Notice::Standards,
        "214 See RFC 959, RFC 2428 and RFC 3659\r\n",
    ),
    (Notice::System, "215 UNIX Type: L8\r\n"),
    (Notice::Goodbye, "221 Goodbye\r\n"),
    (Notice::NothingToAbort, "225 No transfer\r\n"),
    (Notice::TransferComplete, "226 Transfer complete\r\n"),
    (Notice::AbortDone, "226 Abort done\r\n"),
    (Notice::DirectoryChanged, "250 Directory changed\r\n"),
    (Notice::DirectoryRemoved, "250 Directory removed\r\n"),
    (Notice::FileRemoved, "250 File removed\r\n"),
    (Notice::Renamed, "250 Renamed\r\n"),
    (Notice::PasswordRequired, "331 Password required\r\n"),
    (Notice::SendRnto, "350 Send RNTO\r\n"),
];

static REFUSALS: [(Refusal, &str); 34] = [
    (
        Refusal::Store(StoreFault::NotFound),
        "550 No such file or directory\r\n",
    ),
    (
        Refusal::Store(StoreFault::NotDir),
        "550 Not a directory\r\n",
    ),
    (Refusal::Store(StoreFault::IsDir), "550 Is a directory\r\n"),
    (Refusal::Store(StoreFault::Exists), "550 Already exists\r\n"),
    (
        Refusal::Store(StoreFault::NotEmpty),
        "550 Directory not empty\r\n",
    ),
    (Refusal::Store(StoreFault::Full), "552 Storage is full\r\n"),
    (Refusal::Store(StoreFault::Device), "451 Local fault\r\n"),
    (Refusal::Store(StoreFault::Memory), "451 Out of memory\r\n"),
    (
        Refusal::Store(StoreFault::PastEnd),
        "550 Offset past the end\r\n",
    ),
    (
        Refusal::Store(StoreFault::Inside),
        "550 Not possible inside itself\r\n",
    ),
    (Refusal::Path(PathFault::BadName), "553 Bad name\r\n"),
    (Refusal::Path(PathFault::TooLong), "553 Name too long\r\n"),
    (Refusal::TooManyLogins, "421 Too many login attempts\r\n"),
    (Refusal::TooManyHeldLines, "421 Too many held lines\r\n"),
    (
        Refusal::NoGuarantee,
        "421 Guaranteed rate not available\r\n",
    ),
    (Refusal::NoDataConnection, "425 No data connection\r\n"),
    (Refusal::NoPassivePort, "425 No passive port is free\r\n"),
    (
        Refusal::NothingPrepared,
        "425 Use PASV, EPSV, PORT or EPRT first\r\n",
    ),
    (Refusal::ConnectionLost, "426 Connection lost\r\n"),
    (Refusal::TransferAborted, "426 Transfer aborted\r\n"),
    (Refusal::OnlyExtended, "501 EPSV ALL is in force\r\n"),
    (Refusal::ForeignAddress, "501 Foreign address\r\n"),
    (Refusal::PrivilegedPort, "501 Privileged port\r\n"),
    (Refusal::OffsetNeedsImage, "501 Offset needs TYPE I\r\n"),
    (Refusal::ListsNoFile, "501 Not a directory\r\n"),
    (Refusal::NoSource, "503 Send RNFR first\r\n"),
    (Refusal::OffsetBeforeAppend, "503 REST before APPE\r\n"),
    (Refusal::NoName, "503 Send USER first\r\n"),
    (Refusal::AlreadyInside, "503 Already logged in\r\n"),
    (
        Refusal::OtherProtocol,
        "522 Network protocol not supported, use (1)\r\n",
    ),
    (Refusal::LogInFirst, "530 Log in first\r\n"),
    (Refusal::LoginIncorrect, "530 Login incorrect\r\n"),
    (Refusal::NotPermitted, "550 Not permitted\r\n"),
    (Refusal::SizeNeedsImage, "550 SIZE needs TYPE I\r\n"),
];

/// Checks that the reply is written as these octets.
fn says(rt: &(impl Abort + AllocGlobal), reply: Reply, wanted: &[u8]) {
    let mut octets = Vec::new(rt.alloc());
    reply.write_to(&mut octets).expect(rt, "memory");
    same(rt, &octets, wanted);
}

fn session_table(rt: &(impl Abort + AllocGlobal)) {
    let answer: Answer = Answer::Refusal(Refusal::LogInFirst);
    says(rt, answer.into_reply(), b"530 Log in first\r\n");
}

fn reports(rt: &(impl Abort + AllocGlobal), answer: Answer, text: &str) {
    says(rt, answer.into_reply(), text.as_bytes());
}

#[test]
fn notices(rt: HostRuntime) {
    for (notice, text) in &NOTICES {
        reports(&rt, Answer::Notice(*notice), text);
    }
}

#[test]
fn refusals(rt: HostRuntime) {
    session_table(&rt);
    for (refusal, text) in &REFUSALS {
        reports(&rt, Answer::Refusal(*refusal), text);
    }
}

static FAULTS: [(LineFault, &str); 3] = [
    (LineFault::TooLong, "500 Line too long\r\n"),
    (LineFault::NotServed, "502 Command not served\r\n"),
    (LineFault::BadParameter, "504 Parameter not served\r\n"),
];

#[test]
fn line_faults(rt: HostRuntime) {
    for (fault, text) in &FAULTS {
        reports(&rt, Answer::Fault(*fault), text);
    }
}

/// The octets of a listing are those of its list.
#[test]
fn octets_of_a_listing(rt: HostRuntime) {
    let list = Vec::from_slice(rt.alloc(), b"a\r\n").expect(&rt, "memory");
    let octets: Octets = Octets::new(list);
    same(&rt, octets.as_slice(), b"a\r\n");
    same(&rt, &octets.into_list(), b"a\r\n");
}
