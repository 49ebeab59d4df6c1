//! The service that the words of a command line ask for.
//!
//! `ftpd_program` checks the words and the configuration, and is given an [`AskedServer`], which keeps the configuration; the
//! server runs after that. A trait's method cannot pass its runtime to threads: the prover knows its bounds in this
//! thread alone. So functions on files and the console name the runtime itself, and functions that start threads have a
//! type parameter for their permission.

ghost use Rattle.std.specs.Prelude.{◌≡◌, Some, None, IfErr, IfOk, OnErr, OnOk, cond, option_map, string_bytes};
ghost use Rattle.ftpd_program.specs.declared.server.ServeFault.TheVariants.{Memory};
ghost use Rattle.machine_parts.specs.Asked.{AreSigns, AreWritten, HasAsked, IsAsked, IsKept, among, and_beside, both_texts};

use client_patience::Patience;
use ftpd_program::{ReadConfig, ServeFault, ServeFiles, Server, ShareBy};
use server_config::Config;
use std::alloc::{AllocError, Global};
use text_io::TextWriter;

/// The configuration that a server was started with.
#[derive(Drop)]
pub struct ReadText {
    /// The path of the configuration.
    pub path: String,
    pub config: Config,
    /// The texts of the configuration's warnings, a line each.
    pub warnings: String,
    /// The octets of the configuration, if it may be read again, or if there is to be a running file.
    pub octets: Option<Vec<u8>>,
}

/// The paths of the files by which the owner gives signs, of those that there are to be.
#[derive(Drop)]
pub struct SignPaths {
    /// The stop file.
    pub stop: Option<String>,
    /// The drain file.
    pub drain: Option<String>,
    /// The reload file.
    pub reload: Option<String>,
    /// The end file.
    pub end: Option<String>,
}

/// The paths of the files that the server writes, of those that there are to be.
#[derive(Drop)]
pub struct WrittenPaths {
    /// The ready file.
    pub ready: Option<String>,
    /// The transfer log.
    pub log: Option<String>,
    /// The status file, and the new file beside it.
    pub status: Option<(String, String)>,
    /// The running file, and the new file beside it.
    pub running: Option<(String, String)>,
}

/// A service that the words of a command line ask for.
#[derive(Drop)]
pub struct AskedService {
    pub read: ReadText,
    pub signs: SignPaths,
    pub written: WrittenPaths,
    /// The name of the form of notes, if one is stated.
    pub log_form: Option<String>,
    /// The port of the status page, if any.
    pub status_port: Option<u16>,
    /// Each file that is received is written to the device before its end is told.
    pub syncs: bool,
    /// The greatest number of sessions in which one user is logged in, as it is stated, if it is.
    pub user_sessions: Option<String>,
    pub patience: Patience,
}

/// The service that the words of a command line ask for, if any.
#[derive(Drop)]
pub struct AskedServer {
    service: Option<AskedService>,
}

impl AskedServer {
    /// No service yet.
    pub fn new() -> AskedServer
        ensures none { result.service ≡ None }
    {
        AskedServer { service: None }
    }

    /// Returns the service, if a server was asked for.
    pub fn into_service(self) -> Option<AskedService>
        ensures service { result ≡ self.service }
    {
        self.service
    }
}

fn copied(alloc: Global, path: Option<&str>) -> Result<Option<String>, AllocError>
    ensures copied { IfOk result
        (λ own. option_map string_bytes own ≡ option_map (λ t. t.now) path.entry) }
{
    match path {
        Some(path) => {
            let own = String::from_str(alloc, path)?;
            Ok(Some(own))
        }
        None => Ok(None),
    }
}

/// A copy of octets, if there is to be one.
fn copied_octets(alloc: Global, keeps: bool, octets: &[u8]) -> Result<Option<Vec<u8>>, AllocError>
    ensures copied { IfOk result (λ own. option_map (λ octets. octets.items) own
        ≡ cond keeps (Some octets.now) None) }
{
    if !keeps {
        return Ok(None);
    }
    let copy = Vec::from_slice(alloc, octets)?;
    Ok(Some(copy))
}

/// A path, with that of a new file beside it.
fn with_beside(alloc: Global, path: Option<&str>) -> Result<Option<(String, String)>, AllocError>
    ensures both { IfOk result
        (λ own. option_map (λ both. both_texts both) own
        ≡ option_map (λ t. and_beside t.now) path.entry) }
{
    match path {
        Some(path) => {
            let own = String::from_str(alloc, path)?;
            let beside = format!(in alloc; "{path}.new")?;
            Ok(Some((own, beside)))
        }
        None => Ok(None),
    }
}

/// The configuration of a line that is shared among these.
fn among(config: Config, share_by: ShareBy) -> Config
    ensures among { result ≡ among share_by config }
{
    let Config {
        settings,
        numbers,
        users,
        store,
        limits,
        groups,
    } = config;
    Config {
        settings,
        numbers,
        users,
        store,
        limits: limits.shared_by(share_by),
        groups,
    }
}

/// The configuration of a line that is shared among these; its octets are kept if they are needed.
fn kept_text(
    alloc: Global,
    read: ReadConfig<'_>,
    share_by: ShareBy,
    keeps: bool,
) -> Result<ReadText, AllocError>
    ensures kept { IfOk result (IsKept read.entry share_by keeps) }
{
    let ReadConfig {
        path,
        config,
        warnings,
        octets,
    } = read;
    let octets = copied_octets(alloc, keeps, octets)?;
    let path = String::from_str(alloc, path)?;
    let warnings = String::from_str(alloc, warnings)?;
    let config = among(config, share_by);
    Ok(ReadText {
        path,
        config,
        warnings,
        octets,
    })
}

/// The paths of signs.
fn sign_paths(alloc: Global, files: &ServeFiles<'_>) -> Result<SignPaths, AllocError>
    ensures signs { IfOk result (AreSigns files.now) }
{
    Ok(SignPaths {
        stop: copied(alloc, files.stop_file)?,
        drain: copied(alloc, files.drain_file)?,
        reload: copied(alloc, files.reload_file)?,
        end: copied(alloc, files.end_file)?,
    })
}

/// The paths of files that are written.
fn written_paths(alloc: Global, files: &ServeFiles<'_>) -> Result<WrittenPaths, AllocError>
    ensures written { IfOk result (AreWritten files.now) }
{
    Ok(WrittenPaths {
        ready: copied(alloc, files.ready_file)?,
        log: copied(alloc, files.transfer_log)?,
        status: with_beside(alloc, files.status)?,
        running: with_beside(alloc, files.running_file)?,
    })
}

/// The service that files and a patience ask for, with a configuration that was read.
fn asked_service(
    alloc: Global,
    read: ReadConfig<'_>,
    files: &ServeFiles<'_>,
    patience: Patience,
) -> Result<AskedService, AllocError>
    ensures asked { IfOk result (IsAsked read.entry files.now patience) }
{
    let keeps = files.reload_file.is_some() || files.running_file.is_some();
    Ok(AskedService {
        read: kept_text(alloc, read, files.share_by, keeps)?,
        signs: sign_paths(alloc, files)?,
        written: written_paths(alloc, files)?,
        log_form: copied(alloc, files.log_form)?,
        status_port: files.status_port,
        syncs: files.syncs,
        user_sessions: copied(alloc, files.user_sessions)?,
        patience,
    })
}

impl<W: TextWriter> Server<W> for AskedServer {
    fn serve(
        &mut self,
        alloc: Global,
        read: ReadConfig<'_>,
        files: ServeFiles<'_>,
        patience: Patience,
        _output: &mut W,
    ) -> Result<(), ServeFault>
        ensures asked { OnOk result (HasAsked read.entry files.entry patience
            self.new.service) }
        ensures refused { OnErr result (self.new ≡ self.old) }
        ensures memory { IfErr result (λ fault. fault ≡ Memory) }
    {
        self.service = Some(asked_service(alloc, read, &files, patience)?);
        Ok(())
    }
}
