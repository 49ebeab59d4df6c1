//! Text converted run by run: the octets before the next line end are found by one search, and copied together.

ghost use Rattle.std.specs.Prelude.{◌≡◌, ◌+◌, ◌*◌, ◌<◌, ◌≤◌, ◌++◌, ◌∷◌, [], length, take};
ghost use Rattle.ftp_terms.specs.declared.data_type.DataType.TheVariants.{Ascii};
ghost use Rattle.data_pump.specs.Runs.{HoldsNo, held_cr, PutsRun};
ghost use Rattle.data_pump.specs.WireText.{sent_text, cr_if, ReceivesOctets};

use memchr::memchr;

const LF: u8 = 10;

/// The octet that is held back at the end of a piece.
pub(crate) const CR: u8 = 13;

/// Converts each LF to CR LF. The wire text is at the start of `wire`; returns its length.
pub(crate) fn send_text(piece: &[u8], wire: &mut [u8]) -> usize
    requires room { 2 * length piece.now ≤ length wire.old }
    ensures bound { result ≤ length wire.new }
    ensures least { length piece.now ≤ result }
    ensures sent { take result wire.new ≡ sent_text piece.now }
{
    let mut from = 0;
    let mut count = 0;
    'lines: while from < piece.len() {
        let (sent, end) = send_line(&piece[from..], wire, count);
        from += sent;
        count = end;
    }
    count
}

// Appends the octets up to and including the next LF to the first `count` octets of the wire text. Returns the number
// of octets sent, and the length of the wire text.
fn send_line(piece: &[u8], wire: &mut [u8], count: usize) -> (usize, usize)
    requires some { 0 < length piece.now }
    requires room { count + 2 * length piece.now ≤ length wire.old }
    ensures some { 0 < result.0 }
    ensures within { result.0 ≤ length piece.now }
    ensures least { count + result.0 ≤ result.1 }
    ensures most { result.1 ≤ count + 2 * result.0 }
    ensures sent { take result.1 wire.new
        ≡ take count wire.old ++ sent_text (take result.0 piece.now) }
{
    let run = run_before(LF, piece);
    let end = put_run(&piece[..run], wire, count);
    if run == piece.len() {
        return (run, end);
    }
    (run + 1, put_line_end(wire, end))
}

/// Converts each CR LF to LF. Returns the length of the text at the start of `text`, and whether a CR is held back.
pub(crate) fn receive_text(holds_cr: bool, piece: &[u8], text: &mut [u8]) -> (usize, bool)
    requires room { length piece.now < length text.old }
    ensures bound { result.0 ≤ length text.new }
    ensures received { ReceivesOctets Ascii (cr_if holds_cr) piece.now (take result.0 text.new)
        (cr_if result.1) }
{
    let mut held = holds_cr;
    let mut from = 0;
    let mut count = 0;
    'runs: while from < piece.len() {
        let (received, end, holds) = receive_run(held, &piece[from..], text, count);
        from += received;
        count = end;
        held = holds;
    }
    (count, held)
}

// Appends the octets before the next CR to the first `count` octets of the text, and holds that CR back. Returns the
// number of octets received, the length of the text, and whether a CR is held back.
fn receive_run(holds_cr: bool, piece: &[u8], text: &mut [u8], count: usize) -> (usize, usize, bool)
    requires some { 0 < length piece.now }
    requires room { count + length (cr_if holds_cr) + length piece.now ≤ length text.old }
    ensures some { 0 < result.0 }
    ensures within { result.0 ≤ length piece.now }
    ensures most { result.1 + length (cr_if result.2) ≤ count + length (cr_if holds_cr) + result.0 }
    ensures received { PutsRun holds_cr (take result.0 piece.now) (take count text.old)
        (take result.1 text.new) result.2 }
{
    let start = put_held_cr(holds_cr, piece[0], text, count);
    let run = run_before(CR, piece);
    let end = put_run(&piece[..run], text, start);
    if run == piece.len() {
        return (run, end, false);
    }
    (run + 1, end, true)
}

// Number of octets before the first one with this value; all of them if there is none.
fn run_before(octet: u8, piece: &[u8]) -> usize
    ensures within { result ≤ length piece.now }
    ensures run { HoldsNo octet (take result piece.now) }
    ensures next { result < length piece.now
        → take (result + 1) piece.now ≡ take result piece.now ++ octet ∷ [] }
{
    match memchr(octet, piece) {
        Some(place) => place,
        None => piece.len(),
    }
}

// Appends a run to the first `count` octets, and returns their new number.
fn put_run(run: &[u8], octets: &mut [u8], count: usize) -> usize
    requires room { count + length run.now ≤ length octets.old }
    ensures count { result ≡ count + length run.now }
    ensures put { take result octets.new ≡ take count octets.old ++ run.now }
{
    let end = count + run.len();
    octets[count..end].copy_from_slice(run);
    end
}

// Appends CR LF to the first `count` octets, and returns their new number.
fn put_line_end(octets: &mut [u8], count: usize) -> usize
    requires room { count + 2 ≤ length octets.old }
    ensures count { result ≡ count + 2 }
    ensures put { take result octets.new ≡ take count octets.old ++ 13 ∷ 10 ∷ [] }
{
    octets[count] = CR;
    octets[count + 1] = LF;
    count + 2
}

// Appends a held CR to the first `count` octets, unless an LF is next, and returns their new number.
fn put_held_cr(holds_cr: bool, next: u8, octets: &mut [u8], count: usize) -> usize
    requires room { count + length (cr_if holds_cr) ≤ length octets.old }
    ensures count { result ≡ count + length (held_cr holds_cr next) }
    ensures most { result ≤ count + length (cr_if holds_cr) }
    ensures put { take result octets.new ≡ take count octets.old ++ held_cr holds_cr next }
{
    if !holds_cr || next == LF {
        return count;
    }
    octets[count] = CR;
    count + 1
}
