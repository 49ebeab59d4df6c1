//! Ports and facts as texts, for commands and for replies.

ghost use Rattle.std.specs.Prelude.{◌≡◌, IfOk};
ghost use Rattle.ftp_terms.specs.LineText.{text_of};
ghost use Rattle.ftp_reply.specs.Written.{Appends};
ghost use Rattle.ftp_wire.specs.Written.{fact_text, facts_text, port_text, starred_facts_text};

use crate::commands::HostPort;
use ftp_terms::{Facts, LineText};
use std::alloc::{AllocError, Allocator};
use std::fmt::Write;

/// The address and port as in PORT and the reply 227: six numbers of one octet, separated by commas (RFC 959,
/// section 4.1.2). Returns `Err` if memory runs out.
pub fn port_text<A: Allocator>(alloc: A, port: &HostPort) -> Result<LineText<A>, AllocError>
    ensures text { IfOk result (λ line. text_of line ≡ port_text port.now) }
{
    let mut text = String::new(alloc);
    push_port(&mut text, port)?;
    Ok(LineText::made(text))
}

/// The names of these facts, each followed by a semicolon, as in OPTS MLST and its reply (RFC 3659, section
/// 7.9). Returns `Err` if memory runs out.
pub fn facts_text<A: Allocator>(alloc: A, facts: Facts) -> Result<LineText<A>, AllocError>
    ensures text { IfOk result (λ line. text_of line ≡ facts_text facts) }
{
    let mut text = String::new(alloc);
    push_facts(&mut text, facts)?;
    Ok(LineText::made(text))
}

/// The names of all four facts, each followed by a semicolon, with a star after each enabled one, as in the
/// reply to FEAT (RFC 3659, section 7.8). Returns `Err` if memory runs out.
pub fn starred_facts_text<A: Allocator>(alloc: A, facts: Facts) -> Result<LineText<A>, AllocError>
    ensures text { IfOk result (λ line. text_of line ≡ starred_facts_text facts) }
{
    let mut text = String::new(alloc);
    push_starred(&mut text, facts)?;
    Ok(LineText::made(text))
}

#[tactic(auto, unfolding(crate::specs::Written::port_text))]
pub(crate) fn push_port<A: Allocator>(
    out: &mut String<A>,
    port: &HostPort,
) -> Result<(), AllocError>
    ensures appended { Appends result out.old out.new (port_text port.now) }
{
    let [a, b, c, d] = port.address;
    write!(
        out,
        "{a},{b},{c},{d},{},{}",
        port.port / 256,
        port.port % 256
    )
}

fn push_fact<A: Allocator>(
    out: &mut String<A>,
    is_named: bool,
    name: &str,
) -> Result<(), AllocError>
    ensures appended { Appends result out.old out.new (fact_text is_named name.now) }
{
    if is_named { out.push_str(name) } else { Ok(()) }
}

#[tactic(auto, unfolding(crate::specs::Written::facts_text))]
pub(crate) fn push_facts<A: Allocator>(out: &mut String<A>, facts: Facts) -> Result<(), AllocError>
    ensures appended { Appends result out.old out.new (facts_text facts) }
{
    push_fact(out, facts.kind, "type;")?;
    push_fact(out, facts.size, "size;")?;
    push_fact(out, facts.modify, "modify;")?;
    push_fact(out, facts.perm, "perm;")
}

#[tactic(auto, unfolding(crate::specs::Written::starred_facts_text))]
fn push_starred<A: Allocator>(out: &mut String<A>, facts: Facts) -> Result<(), AllocError>
    ensures appended { Appends result out.old out.new (starred_facts_text facts) }
{
    out.push_str(if facts.kind { "type*;" } else { "type;" })?;
    out.push_str(if facts.size { "size*;" } else { "size;" })?;
    out.push_str(if facts.modify { "modify*;" } else { "modify;" })?;
    out.push_str(if facts.perm { "perm*;" } else { "perm;" })
}
