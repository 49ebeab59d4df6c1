//! The codes of commands, one row for each; reader and writer both use this table.

ghost use Rattle.std.specs.Prelude.{◌≡◌, map};
ghost use Rattle.ftp_wire.specs.Table.{row, row_of, table};

use crate::words::same_letters;

/// A command without its argument, by the kind of its argument.
#[derive(Clone, Copy)]
pub(crate) enum Verb {
    Bare(Bare),
    Text(Text),
    Form(Form),
    Optional(Optional),
    Listing(Listing),
    /// An optional argument with a form of its own.
    Epsv,
}

/// Commands without an argument.
#[derive(Clone, Copy)]
pub(crate) enum Bare {
    Cdup,
    Quit,
    Rein,
    Pasv,
    Abor,
    Pwd,
    Syst,
    Feat,
    Noop,
}

/// Commands that need a text.
#[derive(Clone, Copy)]
pub(crate) enum Text {
    User,
    Cwd,
    Retr,
    Stor,
    Appe,
    Rnfr,
    Rnto,
    Dele,
    Rmd,
    Mkd,
    Size,
    Mdtm,
}

/// Commands that need an argument with a form of its own.
#[derive(Clone, Copy)]
pub(crate) enum Form {
    SetType,
    Mode,
    Stru,
    Port,
    Eprt,
    Rest,
    Opts,
}

/// Commands with an optional text.
#[derive(Clone, Copy)]
pub(crate) enum Optional {
    Pass,
    Allo,
    Help,
    Mlsd,
    Mlst,
}

/// Commands with an optional text, and switches before it.
#[derive(Clone, Copy)]
pub(crate) enum Listing {
    List,
    Nlst,
    Stat,
}

/// The meaning of a known code.
#[derive(Clone, Copy)]
pub(crate) enum Known {
    Served(Verb),
    NotServed,
}

/// A code, in capitals, with its meaning.
#[derive(Clone, Copy)]
struct Row(&'static str, Known);

/// Passes the served commands to the macro of that name, one row for each: the variant, and its code in capitals.
macro_rules! with_served {
    ($rows:ident $($before:tt)*) => {
        $rows! {
            $($before)*:
            Bare {
                Cdup "CDUP"
                Quit "QUIT"
                Rein "REIN"
                Pasv "PASV"
                Abor "ABOR"
                Pwd "PWD"
                Syst "SYST"
                Feat "FEAT"
                Noop "NOOP"
            }
            Text {
                User "USER"
                Cwd "CWD"
                Retr "RETR"
                Stor "STOR"
                Appe "APPE"
                Rnfr "RNFR"
                Rnto "RNTO"
                Dele "DELE"
                Rmd "RMD"
                Mkd "MKD"
                Size "SIZE"
                Mdtm "MDTM"
            }
            Form {
                SetType "TYPE"
                Mode "MODE"
                Stru "STRU"
                Port "PORT"
                Eprt "EPRT"
                Rest "REST"
                Opts "OPTS"
            }
            Optional {
                Pass "PASS"
                Allo "ALLO"
                Help "HELP"
                Mlsd "MLSD"
                Mlst "MLST"
            }
            Listing {
                List "LIST"
                Nlst "NLST"
                Stat "STAT"
            }
        }
    };
}

pub(crate) use with_served;

/// The codes of the served commands, followed by those given here.
macro_rules! table {
    (: $($kind:ident { $($name:ident $code:literal)* })*) => {
        &[
            $($(Row($code, Known::Served(Verb::$kind($kind::$name))),)*)*
            Row("EPSV", Known::Served(Verb::Epsv)),
            Row("XCUP", Known::Served(Verb::Bare(Bare::Cdup))),
            Row("XPWD", Known::Served(Verb::Bare(Bare::Pwd))),
            Row("XCWD", Known::Served(Verb::Text(Text::Cwd))),
            Row("XRMD", Known::Served(Verb::Text(Text::Rmd))),
            Row("XMKD", Known::Served(Verb::Text(Text::Mkd))),
            Row("ACCT", Known::NotServed),
            Row("SMNT", Known::NotServed),
            Row("STOU", Known::NotServed),
            Row("SITE", Known::NotServed),
            Row("LANG", Known::NotServed),
            Row("HOST", Known::NotServed),
            Row("AUTH", Known::NotServed),
            Row("ADAT", Known::NotServed),
            Row("PBSZ", Known::NotServed),
            Row("PROT", Known::NotServed),
            Row("CCC", Known::NotServed),
            Row("MIC", Known::NotServed),
            Row("CONF", Known::NotServed),
            Row("ENC", Known::NotServed),
            Row("MFMT", Known::NotServed),
        ]
    };
}

/// The known codes (RFC 959, section 5.3; the X codes by RFC 1123, section 4.1.3.1; RFC 2228, 2389, 2428, 2640, 3659
/// and 7151). A code with an X means the command without it; XCUP means CDUP.
static TABLE: &[Row] = with_served!(table);

fn rows() -> &'static [Row]
    ensures rows { map row result.now ≡ table }
{
    TABLE
}

/// The first row with this code; letters match in either case.
fn find_row(rows: &[Row], code: &[u8]) -> Option<Known>
    ensures row { result ≡ row_of (map row rows.now) code.now }
{
    for row in rows {
        if same_letters(row.0.as_bytes(), code) {
            return Some(row.1);
        }
    }
    None
}

/// The meaning of a code, if it is known.
pub(crate) fn verb_of(code: &[u8]) -> Option<Known>
    ensures row { result ≡ row_of table code.now }
{
    find_row(rows(), code)
}
