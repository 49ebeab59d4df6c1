//! The lines of a report on the server.

ghost use Rattle.std.specs.Prelude.{◌≡◌, ◌++◌, OnOk, string_bytes};
ghost use Rattle.std.specs.Net.Addr.{ipv4_octets};
ghost use Rattle.std.specs.Net.Text.{ipv4_text};
ghost use Rattle.config_report.specs.ServerLines.{attempts_line, bound_lines, connects_line, contents_text, from_any_line, from_one_line, greets_line, listens_line, lowest_port, memory_text, network_lines, offer_lines, port_text, ports_text, root_text, server_lines, serves_line, sessions_line, takes_line, reports_line, reported_text, whom_text};

use crate::counted::Counted;
use crate::warnings::{is_unreported, reported_address};
use config_file::{ServerTable, Tables};
use std::alloc::AllocError;
use std::net::Ipv4Addr;

const MEMORY: &str = "memory";

fn write_word(text: &mut String, word: &str) -> Result<(), AllocError>
    ensures word { OnOk result (string_bytes text.new ≡ string_bytes text.old ++ word.now) }
{
    text.push_str(word)
}

fn write_address(text: &mut String, address: Ipv4Addr) -> Result<(), AllocError>
    ensures address { OnOk result
        (string_bytes text.new ≡ string_bytes text.old ++ ipv4_text (ipv4_octets address)) }
{
    write!(text, "{address}")
}

fn write_port(text: &mut String, server: &ServerTable) -> Result<(), AllocError>
    ensures port { OnOk result
        (string_bytes text.new ≡ string_bytes text.old ++ port_text server.now) }
{
    writeln!(text, ":{}", server.port)
}

fn write_listens(text: &mut String, server: &ServerTable) -> Result<(), AllocError>
    ensures line { OnOk result
        (string_bytes text.new ≡ string_bytes text.old ++ listens_line server.now) }
{
    write_word(text, "listens on ")?;
    write_address(text, server.address)?;
    write_port(text, server)?;
    Ok(())
}

fn write_greets(text: &mut String, server: &ServerTable) -> Result<(), AllocError>
    ensures line { OnOk result
        (string_bytes text.new ≡ string_bytes text.old ++ greets_line server.now) }
{
    writeln!(text, "greets with {}", server.banner)
}

fn write_ports(text: &mut String, server: &ServerTable) -> Result<(), AllocError>
    ensures ports { OnOk result
        (string_bytes text.new ≡ string_bytes text.old ++ ports_text server.now) }
{
    let (first, last) = (server.passive_first, server.passive_last);
    writeln!(text, ", ports {first} to {last}")
}

/// Writes the address that is announced to clients, if it is a particular one.
fn write_reported(text: &mut String, server: &ServerTable) -> Result<(), AllocError>
    ensures reported { OnOk result
        (string_bytes text.new ≡ string_bytes text.old ++ reported_text server.now) }
{
    if is_unreported(server) {
        write_word(text, "the address that they reached")
    } else {
        write_address(text, reported_address(server))
    }
}

fn write_reports(text: &mut String, server: &ServerTable) -> Result<(), AllocError>
    ensures line { OnOk result
        (string_bytes text.new ≡ string_bytes text.old ++ reports_line server.now) }
{
    write_word(text, "tells clients ")?;
    write_reported(text, server)?;
    write_ports(text, server)?;
    Ok(())
}

fn write_takes(text: &mut String, server: &ServerTable) -> Result<(), AllocError>
    ensures line { OnOk result
        (string_bytes text.new ≡ string_bytes text.old ++ takes_line server.now) }
{
    let connections = Counted(u64::from(server.max_cons), "connection", "connections");
    let lanes = Counted(u64::from(server.lanes), "transfer", "transfers");
    writeln!(text, "takes {connections}, {lanes} at once")
}

fn write_from_any(text: &mut String, most: u64) -> Result<(), AllocError>
    ensures line { OnOk result
        (string_bytes text.new ≡ string_bytes text.old ++ from_any_line most) }
{
    let connections = Counted(most, "connection", "connections");
    writeln!(text, "takes {connections} from one address")
}

fn write_from_one(text: &mut String, server: &ServerTable) -> Result<(), AllocError>
    ensures line { OnOk result
        (string_bytes text.new ≡ string_bytes text.old ++ from_one_line server.now) }
{
    let most = server.max_cons_per_address;
    if most == 0 {
        writeln!(text, "takes any number of connections from one address")
    } else {
        write_from_any(text, u64::from(most))
    }
}

fn write_attempts(text: &mut String, server: &ServerTable) -> Result<(), AllocError>
    ensures line { OnOk result
        (string_bytes text.new ≡ string_bytes text.old ++ attempts_line server.now) }
{
    let attempts = u64::from(server.max_login_attempts);
    let attempts = Counted(attempts, "wrong password", "wrong passwords");
    writeln!(text, "ends a session after {attempts}")
}

/// The addresses to which data connections are permitted.
fn whom(server: &ServerTable) -> &'static str
    ensures whom { result.now ≡ whom_text server.now }
{
    if server.permit_foreign_addresses {
        "any address"
    } else {
        "the client's address"
    }
}

/// The lowest port to which data connections are permitted.
fn lowest_port(server: &ServerTable) -> u16
    ensures lowest { result ≡ lowest_port server.now }
{
    if server.permit_privileged_ports {
        1
    } else {
        1024
    }
}

fn write_connects(text: &mut String, server: &ServerTable) -> Result<(), AllocError>
    ensures line { OnOk result
        (string_bytes text.new ≡ string_bytes text.old ++ connects_line server.now) }
{
    let (whom, lowest) = (whom(server), lowest_port(server));
    writeln!(text, "connects to {whom}, ports {lowest} to 65535")
}

fn write_sessions(text: &mut String, server: &ServerTable) -> Result<(), AllocError>
    ensures line { OnOk result
        (string_bytes text.new ≡ string_bytes text.old ++ sessions_line server.now) }
{
    let sessions = server.sessions;
    if sessions == 0 {
        writeln!(text, "serves any number of sessions")
    } else {
        let sessions = Counted(sessions, "session", "sessions");
        writeln!(text, "ends after {sessions}")
    }
}

fn write_root(text: &mut String, server: &ServerTable) -> Result<(), AllocError>
    ensures root { OnOk result
        (string_bytes text.new ≡ string_bytes text.old ++ root_text server.now) }
{
    write!(text, "serves {}", server.root)
}

/// Writes the capacity of a store in memory, and the numbers of its directories and files.
#[tactic(auto, unfolding(crate::specs::ServerLines::memory_text))]
fn write_memory(text: &mut String, most: u64, dirs: usize, files: usize) -> Result<(), AllocError>
    ensures memory { OnOk result
        (string_bytes text.new ≡ string_bytes text.old ++ memory_text most dirs files) }
{
    let most = Counted(most, "octet", "octets");
    let dirs = Counted(dirs as u64, "directory", "directories");
    let files = Counted(files as u64, "file", "files");
    write!(text, ", at most {most}, at first {dirs} and {files}")
}

/// Writes the same of a store in memory; nothing of a folder.
fn write_contents(text: &mut String, tables: &Tables) -> Result<(), AllocError>
    ensures contents { OnOk result
        (string_bytes text.new ≡ string_bytes text.old ++ contents_text tables.now) }
{
    if tables.server.root != MEMORY {
        return Ok(());
    }
    write_memory(
        text,
        tables.server.capacity,
        tables.dirs.len(),
        tables.files.len(),
    )
}

fn write_serves(text: &mut String, tables: &Tables) -> Result<(), AllocError>
    ensures line { OnOk result
        (string_bytes text.new ≡ string_bytes text.old ++ serves_line tables.now) }
{
    write_root(text, &tables.server)?;
    write_contents(text, tables)?;
    write_word(text, "\n")?;
    Ok(())
}

fn write_network(text: &mut String, server: &ServerTable) -> Result<(), AllocError>
    ensures lines { OnOk result
        (string_bytes text.new ≡ string_bytes text.old ++ network_lines server.now) }
{
    write_listens(text, server)?;
    write_greets(text, server)?;
    write_reports(text, server)?;
    Ok(())
}

fn write_bounds(text: &mut String, server: &ServerTable) -> Result<(), AllocError>
    ensures lines { OnOk result
        (string_bytes text.new ≡ string_bytes text.old ++ bound_lines server.now) }
{
    write_takes(text, server)?;
    write_from_one(text, server)?;
    write_attempts(text, server)?;
    Ok(())
}

fn write_offer(text: &mut String, tables: &Tables) -> Result<(), AllocError>
    ensures lines { OnOk result
        (string_bytes text.new ≡ string_bytes text.old ++ offer_lines tables.now) }
{
    write_connects(text, &tables.server)?;
    write_sessions(text, &tables.server)?;
    write_serves(text, tables)?;
    Ok(())
}

/// Writes the lines of a server.
pub(crate) fn write_server(text: &mut String, tables: &Tables) -> Result<(), AllocError>
    ensures lines { OnOk result
        (string_bytes text.new ≡ string_bytes text.old ++ server_lines tables.now) }
{
    write_network(text, &tables.server)?;
    write_bounds(text, &tables.server)?;
    write_offer(text, tables)?;
    Ok(())
}
