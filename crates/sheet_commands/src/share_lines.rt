//! The lines that a sharing prints.

ghost use Rattle.std.specs.Prelude.{◌≡◌, ◌<◌, ◌^◌, ◌++◌, IfOk, OnOk, string_bytes};
ghost use Rattle.sheet_commands.specs.ShareLines.{share_line, share_lines, total, total_line};

use std::alloc::{AllocError, Allocator};

/// A want and its grant, in octets.
#[derive(Clone, Copy)]
pub struct Share<'a> {
    /// The path of the want.
    pub path: &'a str,
    pub grant: u64,
    pub want: u64,
    /// The path of the deepest full branch above it, if the grant is below the want.
    pub full: Option<&'a str>,
}

fn write_share<A: Allocator>(text: &mut String<A>, share: &Share<'_>) -> Result<(), AllocError>
    ensures line { OnOk result
        (string_bytes text.new ≡ string_bytes text.old ++ share_line share.now) }
{
    let Share {
        path,
        grant,
        want,
        full,
    } = *share;
    write!(text, "{path} {grant} of {want}")?;
    if let Some(node) = full {
        write!(text, " full {node}")?;
    }
    text.push('\n')
}

fn write_total<A: Allocator>(text: &mut String<A>, total: u64) -> Result<(), AllocError>
    ensures line { OnOk result (string_bytes text.new ≡ string_bytes text.old ++ total_line total) }
{
    writeln!(text, "total {total}")
}

/// The sum of the grants, in octets.
fn total_of(shares: &[Share<'_>]) -> u64
    requires fits { total shares.now < 2 ^ 64 }
    ensures total { result ≡ total shares.now }
{
    shares.iter().map(|share| share.grant).sum()
}

/// The lines of a sharing: one for each want in their order, and last the total of the grants.
pub fn lines_of<A: Allocator>(alloc: A, shares: &[Share<'_>]) -> Result<String<A>, AllocError>
    requires fits { total shares.now < 2 ^ 64 }
    ensures lines { IfOk result (λ text. string_bytes text ≡ share_lines shares.now) }
{
    let mut text = String::new(alloc);
    for share in shares {
        write_share(&mut text, share)?;
    }
    write_total(&mut text, total_of(shares))?;
    Ok(text)
}
