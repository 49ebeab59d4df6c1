//! Lines with their replies while there is memory; and those of control sessions whose store had none.

/// A line, or the word of an input, and the actions.
pub(crate) type Row<'a> = (&'a str, &'a str);

/// The root, quotes in a name, and a name that exists already.
pub(crate) static PATHS: [Row<'static>; 7] = [
    ("begin", "220 Ready\r\n[connected]"),
    ("USER ann\n", "331 Password required\r\n"),
    ("PASS secret\n", "230 Welcome\r\n[login]"),
    ("CWD ../../..\n", "250 Directory changed\r\n"),
    ("PWD\n", "257 \"/\"\r\n"),
    ("MKD a\"b\n", "257 \"/a\"\"b\"\r\n"),
    ("MKD a\"b\n", "550 Already exists\r\n"),
];

/// A file that may not be stored, and one that may.
pub(crate) static UPLOADS: [Row<'static>; 10] = [
    ("begin", "220 Ready\r\n[connected]"),
    ("USER bob\n", "331 Password required\r\n"),
    ("PASS b\n", "230 Welcome\r\n[login]"),
    ("STOR f\n", "550 Not permitted\r\n"),
    ("PASV\n", "[passive]"),
    ("port", "227 Entering Passive Mode (127,0,0,1,156,64)\r\n"),
    ("STOR /in/g\n", "150 Opening data connection\r\n[take]"),
    ("done", "226 Transfer complete\r\n[received]"),
    (
        "MLST /in/g\n",
        "250-Listing\r\n type=file;size=0;modify=19700101000000;perm=w; /in/g\r\n250 End\r\n",
    ),
    ("QUIT\n", "221 Goodbye\r\n[logout][release][close]"),
];

/// A download that is aborted.
pub(crate) static ABORTED: [Row<'static>; 11] = [
    ("begin", "220 Ready\r\n[connected]"),
    ("USER ann\n", "331 Password required\r\n"),
    ("PASS secret\n", "230 Welcome\r\n[login]"),
    ("PORT 127,0,0,1,20,0\n", "200 OK\r\n[connect]"),
    ("RETR f\n", "150 Opening data connection\r\n[send]"),
    ("NOOP\n", "200 OK\r\n"),
    (
        "ABOR\n",
        "426 Transfer aborted\r\n[abort]226 Abort done\r\n",
    ),
    ("PWD\n", ""),
    ("lost", "[not sent]"),
    ("held", "257 \"/\"\r\n"),
    ("closed", "[logout][release][disconnected]"),
];

/// One line too many.
pub(crate) static HELD: [Row<'static>; 24] = [
    ("begin", "220 Ready\r\n[connected]"),
    ("USER ann\n", "331 Password required\r\n"),
    ("PASS secret\n", "230 Welcome\r\n[login]"),
    ("PORT 127,0,0,1,20,0\n", "200 OK\r\n[connect]"),
    ("RETR f\n", "150 Opening data connection\r\n[send]"),
    ("PWD\n", ""),
    ("PWD\n", ""),
    ("PWD\n", ""),
    ("PWD\n", ""),
    ("PWD\n", ""),
    ("PWD\n", ""),
    ("PWD\n", ""),
    ("PWD\n", ""),
    ("PWD\n", ""),
    ("PWD\n", ""),
    ("PWD\n", ""),
    ("PWD\n", ""),
    ("PWD\n", ""),
    ("PWD\n", ""),
    ("PWD\n", ""),
    ("PWD\n", ""),
    ("PWD\n", "421 Too many held lines\r\n[abort][close]"),
    ("done", "[sent]"),
    ("closed", "[logout][release][disconnected]"),
];

/// A line of a control session and its reply, and the reply to the lines after it if the store had no memory for it.
pub(crate) type Reply<'a> = (&'a str, &'a str, &'a str);

/// For a line that makes no call of the store.
const NEVER: &str = "";

/// The same paths in a control session, after its greeting.
pub(crate) static TALK: [Reply<'static>; 8] = [
    ("", "220 Ready\r\n", NEVER),
    ("USER ann\r\n", "331 Password required\r\n", NEVER),
    ("PASS secret\r\n", "230 Welcome\r\n", NEVER),
    (
        "CWD ../../..\r\n",
        "250 Directory changed\r\n",
        "257 \"/\"\r\n257 \"/a\"\"b\"\r\n550 Already exists\r\n221 Goodbye\r\n",
    ),
    ("PWD\r\n", "257 \"/\"\r\n", NEVER),
    (
        "MKD a\"b\r\n",
        "257 \"/a\"\"b\"\r\n",
        "257 \"/a\"\"b\"\r\n221 Goodbye\r\n",
    ),
    ("MKD a\"b\r\n", "550 Already exists\r\n", "221 Goodbye\r\n"),
    ("QUIT\r\n", "221 Goodbye\r\n", NEVER),
];

/// The same if the name exists from the start.
pub(crate) const PATHS_AGAIN: &str =
    "220 Ready\r\n331 Password required\r\n230 Welcome\r\n250 Directory changed\r\n257 \"/\"\r\n550 Already exists\r\n550 Already exists\r\n221 Goodbye\r\n";

/// A passive port, an upload, a listing and a download.
pub(crate) static TRANSFERS: [Reply<'static>; 9] = [
    ("", "220 Ready\r\n", NEVER),
    ("USER bob\r\n", "331 Password required\r\n", NEVER),
    ("PASS b\r\n", "230 Welcome\r\n", NEVER),
    (
        "PASV\r\n",
        "227 Entering Passive Mode (127,0,0,1,156,64)\r\n",
        NEVER,
    ),
    (
        "STOR /in/g\r\n",
        "150 Opening data connection\r\n226 Transfer complete\r\n",
        "200 OK\r\n150 Opening data connection\r\n226 Transfer complete\r\n200 OK\r\n150 Opening data connection\r\n226 Transfer complete\r\n",
    ),
    ("PORT 127,0,0,1,20,0\r\n", "200 OK\r\n", NEVER),
    (
        "LIST\r\n",
        "150 Opening data connection\r\n226 Transfer complete\r\n",
        "200 OK\r\n150 Opening data connection\r\n226 Transfer complete\r\n",
    ),
    ("PORT 127,0,0,1,20,0\r\n", "200 OK\r\n", NEVER),
    (
        "RETR f\r\n",
        "150 Opening data connection\r\n226 Transfer complete\r\n",
        "",
    ),
];
