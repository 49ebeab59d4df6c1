//! The command that serves a control session by a configuration.

ghost use Rattle.std.specs.Prelude.{◌≡◌, ◌<◌, true, IfErr, IfOk, IfSome, IsErrOf, OnOk, length, string_bytes};
ghost use Rattle.script_session.specs.Breaks.{MayBreakReading, MayBreakWriting};
ghost use Rattle.script_session.specs.Served.{most_reads};
ghost use Rattle.server_config.specs.Configs.{IsConfigText};
ghost use Rattle.ftpd_program.specs.Scripting.{IsConfigOf, IsJudgement, IsNotBegun, IsScriptBreak, IsScripted, IsUnconfigured, IsUnscripted, IsWarned, IsWarnedOf};
ghost use Rattle.text_io.specs.Texts.{IsTextOf};

use config_report::{Lookout, warning_texts};
use script_session::{SessionFault, serve_config};
use server_config::{Config, ConfigFault};
use std::alloc::Global;
use text_io::{MAX_TEXT, TextFault, TextReader, TextWriter, read_whole};

/// The reason for which a session is not served, or breaks off.
#[derive(Debug, Drop)]
pub enum ScriptFault {
    /// The configuration could not be read whole, or memory ran out.
    Text(TextFault),
    /// The configuration is refused.
    Config(ConfigFault),
    /// A folder is configured, or the session broke off.
    Session(SessionFault),
}

fn judged(alloc: Global, octets: &[u8]) -> Result<Config, ScriptFault>
    ensures config { IfOk result (IsConfigText octets.now) }
    ensures refused { IfErr result (IsJudgement octets.now) }
{
    match Config::read(alloc, octets) {
        Ok(config) => Ok(config),
        Err(ConfigFault::Memory) => Err(ScriptFault::Text(TextFault::Memory)),
        Err(fault) => Err(ScriptFault::Config(fault)),
    }
}

/// The configuration of a text, and the texts of its warnings, a line each, with its octets.
fn warned<L: Lookout>(
    alloc: Global,
    path: &str,
    octets: Vec<u8>,
    lookout: &L,
) -> Result<(Config, String, Vec<u8>), ScriptFault>
    ensures warned { IfOk result (λ read.
        IsWarned (L.Shows lookout.now) path.now octets.items read.0 (string_bytes read.1)) }
    ensures octets { IfOk result (λ read. read.2.items ≡ octets.items) }
    ensures refused { IfErr result (IsJudgement octets.items) }
{
    let config = judged(alloc, octets.as_slice())?;
    match warning_texts(alloc, path, octets.as_slice(), lookout) {
        Ok(reported) => Ok((config, reported, octets)),
        Err(ConfigFault::Memory) => Err(ScriptFault::Text(TextFault::Memory)),
        Err(refused) => Err(ScriptFault::Config(refused)),
    }
}

/// Reads the configuration from a reader.
fn read_config<C: TextReader>(alloc: Global, reader: &mut C) -> Result<Config, ScriptFault>
    ensures config { IfOk result (IsConfigOf (C.remaining reader.old)) }
    ensures refused { IfErr result (IsUnconfigured (C.remaining reader.old)) }
    ensures too_long { IsErrOf result (ScriptFault.Text TextFault.TooLong)
        → IfSome (C.remaining reader.old) (λ text. MAX_TEXT < length text) }
    ensures read_fault { IsErrOf result (ScriptFault.Text TextFault.ReadFault)
        → C.may_fail reader.old ≡ true }
{
    match read_whole(alloc, reader) {
        Ok(octets) => judged(alloc, octets.as_slice()),
        Err(fault) => Err(ScriptFault::Text(fault)),
    }
}

/// Reads the configuration from a reader, and makes the texts of its warnings, a line each. Its file has that path, and
/// the lookout looks at the machine. Returns the octets that were read, too.
pub(crate) fn read_warned<C: TextReader, L: Lookout>(
    alloc: Global,
    path: &str,
    reader: &mut C,
    lookout: &L,
) -> Result<(Config, String, Vec<u8>), ScriptFault>
    ensures warned { IfOk result (λ read. IsWarnedOf (L.Shows lookout.now) path.now
        (C.remaining reader.old) read.0 (string_bytes read.1)) }
    ensures octets { IfOk result (λ read. IsTextOf read.2.items (C.remaining reader.old)) }
    ensures refused { IfErr result (IsUnconfigured (C.remaining reader.old)) }
    ensures too_long { IsErrOf result (ScriptFault.Text TextFault.TooLong)
        → IfSome (C.remaining reader.old) (λ text. MAX_TEXT < length text) }
    ensures read_fault { IsErrOf result (ScriptFault.Text TextFault.ReadFault)
        → C.may_fail reader.old ≡ true }
{
    match read_whole(alloc, reader) {
        Ok(octets) => warned(alloc, path, octets, lookout),
        Err(why) => Err(ScriptFault::Text(why)),
    }
}

/// Reads a configuration whole, and then serves the control session of the input, as `serve_config` does: its replies
/// are written. The configuration is checked before anything of the input is read; if it is refused, or has a folder,
/// nothing is written. A session that breaks off may have written some replies.
///
/// `TooLong`: the configuration has more than `MAX_TEXT` octets. `Text(ReadFault)`: a read of it failed.
/// `Session(Control(ReadFault))`: a read of the input failed, or the session made all its reads.
/// `Session(Control(WriteFault))`: the writer refused a reply.
pub fn run_script<C: TextReader, R: TextReader, W: TextWriter>(
    alloc: Global,
    config: &mut C,
    input: &mut R,
    writer: &mut W,
) -> Result<(), ScriptFault>
    ensures served { OnOk result (IsScripted (C.remaining config.old)
        (R.remaining input.old) (R.remaining input.new)
        (W.contents writer.old) (W.contents writer.new)) }
    ensures unserved { IfErr result (IsUnscripted (C.remaining config.old)
        (R.remaining input.old) (R.remaining input.new)
        (W.contents writer.old) (W.contents writer.new)) }
    ensures breaks { IfErr result (IsScriptBreak
        (MayBreakReading most_reads (R.may_fail input.old) (R.remaining input.old))
        (MayBreakWriting W.contents W.may_refuse writer.old)) }
    ensures not_begun { IfErr result (λ fault. IsNotBegun fault
        → (input.new ≡ input.old) × (writer.new ≡ writer.old)) }
    ensures too_long { IsErrOf result (ScriptFault.Text TextFault.TooLong)
        → IfSome (C.remaining config.old) (λ text. MAX_TEXT < length text) }
    ensures read_fault { IsErrOf result (ScriptFault.Text TextFault.ReadFault)
        → C.may_fail config.old ≡ true }
{
    let config = read_config(alloc, config)?;
    match serve_config(alloc, config, input, writer) {
        Ok(()) => Ok(()),
        Err(fault) => Err(ScriptFault::Session(fault)),
    }
}
