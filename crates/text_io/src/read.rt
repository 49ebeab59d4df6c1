//! A file read whole, up to the maximum size of a text.

ghost use Rattle.std.specs.Prelude.{◌≡◌, ◌≢◌, ◌≤◌, ◌<◌, ℕ, List, Option, false, true, IfErr, IfOk, IfSome, IsErrOf, OnOk, length, vec_len};
ghost use Rattle.std.specs.Io.KnownBytes.{Consumes, IsAtEnd};

use crate::ends::TextReader;
use crate::fault::TextFault;
use std::alloc::Allocator;

/// Maximum number of octets of a text that is read whole: a sheet, a grants file or a configuration.
pub const MAX_TEXT: usize = 4_194_304;

/// Maximum number of reads. Each read but the last returns at least one octet, so two more than the maximum size are
/// enough.
const MAX_READS: usize = MAX_TEXT + 2;

const AT_ONCE: usize = 65_536;

/// A buffer for reads. The size is a parameter, so that no proof computes a list that long.
fn buffer<A: Allocator>(alloc: A, size: usize) -> Result<Vec<u8, A>, TextFault>
    ensures size { IfOk result (λ v. vec_len v ≡ size) }
    ensures memory { IfErr result (λ e. e ≡ TextFault.Memory) }
{
    match vec![in alloc; 0u8; size] {
        Ok(octets) => Ok(octets),
        Err(_) => Err(TextFault::Memory),
    }
}

/// Reads once, and appends the octets. Returns whether it was not yet the end.
fn read_piece<A: Allocator, R: TextReader>(
    all: &mut Vec<u8, A>,
    chunk: &mut [u8],
    reader: &mut R,
) -> Result<bool, TextFault>
    requires few { vec_len all.old ≤ MAX_TEXT }
    requires room { 0 < length chunk.old }
    ensures short { IfOk result (λ _. vec_len all.new ≤ MAX_TEXT) }
    ensures grows { IfOk result (λ more. more ≡ true → vec_len all.old < vec_len all.new) }
    ensures taken { IfOk result (λ _. (start : Option (List ℕ))
        → Consumes start (R.remaining reader.old) all.old.items
        → Consumes start (R.remaining reader.new) all.new.items) }
    ensures end { IfOk result (λ more. more ≡ false → IsAtEnd (R.remaining reader.new)) }
    ensures too_long { IsErrOf result TextFault.TooLong → (start : Option (List ℕ))
        → Consumes start (R.remaining reader.old) all.old.items
        → IfSome start (λ xs. MAX_TEXT < length xs) }
    ensures reading { IfErr result (λ fault. fault ≢ TextFault.WriteFault) }
    ensures read_fault { IsErrOf result TextFault.ReadFault → R.may_fail reader.old ≡ true }
    ensures stays { R.may_fail reader.new ≡ R.may_fail reader.old }
{
    let Ok(count) = reader.read_front(chunk) else {
        return Err(TextFault::ReadFault);
    };
    if count == 0 {
        return Ok(false);
    }
    if count > MAX_TEXT - all.len() {
        return Err(TextFault::TooLong);
    }
    if all.extend_from_slice(&chunk[..count]).is_err() {
        return Err(TextFault::Memory);
    }
    Ok(true)
}

/// Reads all octets of the reader, at most `MAX_TEXT`.
///
/// `TooLong`: the reader has more octets. `ReadFault`: a read failed.
pub fn read_whole<A: Allocator + Clone, R: TextReader>(
    alloc: A,
    reader: &mut R,
) -> Result<Vec<u8, A>, TextFault>
    ensures short { IfOk result (λ v. vec_len v ≤ MAX_TEXT) }
    ensures whole { IfOk result
        (λ v. Consumes (R.remaining reader.old) (R.remaining reader.new) v.items) }
    ensures end { OnOk result (IsAtEnd (R.remaining reader.new)) }
    ensures too_long { IsErrOf result TextFault.TooLong
        → IfSome (R.remaining reader.old) (λ xs. MAX_TEXT < length xs) }
    ensures reading { IfErr result (λ fault. fault ≢ TextFault.WriteFault) }
    ensures read_fault { IsErrOf result TextFault.ReadFault → R.may_fail reader.old ≡ true }
{
    let Ok(copy) = alloc.clone() else {
        return Err(TextFault::Memory);
    };
    let mut all = Vec::new(alloc);
    let mut chunk = buffer(copy, AT_ONCE)?;
    'reads: for _ in 0..MAX_READS {
        match read_piece(&mut all, chunk.as_mut_slice(), reader) {
            Ok(true) => {}
            Ok(false) => return Ok(all),
            Err(fault) => return Err(fault),
        }
    }
    Err(TextFault::ReadFault)
}
