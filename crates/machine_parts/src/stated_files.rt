//! The files that a server's owner states, as they are at the start.

ghost use Rattle.std.specs.Prelude.{◌≡◌, ◌++◌, List, IfOk, OnOk, map, option_map, string_bytes};
ghost use Rattle.std.specs.Option.{option_to_list};
ghost use Rattle.ftpd_program.specs.Paths.{first_twin};
ghost use Rattle.ftpd_program.specs.declared.paths.StatedPath.{StatedPath};
ghost use Rattle.machine_parts.specs.StatedFiles.{IsFound, found_without, paths_of_both, stated_paths};

use crate::answers::{FileKind, is_absent, kind_of};
use crate::asked::AskedService;
use ftpd_program::{FileIdentity, FoundFile, StatedPath, first_twin};
use std::alloc::{AllocError, Global};
use std::fs::Metadata;
use std::io::Read;
use std::os::unix::fs::MetadataExt;
use std::{fs, io};

/// The number of octets by which a file is known.
pub(crate) const FRONT: usize = 4;

// The numbers of the file at a path, if there is one.
fn identity_at(machine: &HostRuntime, path: &str) -> Option<FileIdentity> {
    match fs::metadata(machine, path) {
        Ok(found) => Some(FileIdentity {
            device: found.dev(),
            inode: found.ino(),
        }),
        Err(_) => None,
    }
}

// Adds a path, if it is stated.
fn add<'a>(paths: &mut Vec<&'a str>, path: &'a Option<String>) -> Result<(), AllocError>
    ensures added { OnOk result (map (λ t. t.now) paths.new.items
        ≡ map (λ t. t.now) paths.old.items ++ option_to_list (option_map string_bytes path.now)) }
{
    if let Some(path) = path {
        paths.push(path.as_str())?;
    }
    Ok(())
}

// Adds a path and that of the new file beside it, if they are stated.
fn add_both<'a>(
    paths: &mut Vec<&'a str>,
    both: &'a Option<(String, String)>,
) -> Result<(), AllocError>
    ensures added { OnOk result (map (λ t. t.now) paths.new.items
        ≡ map (λ t. t.now) paths.old.items ++ paths_of_both both.now) }
{
    if let Some((path, beside)) = both {
        paths.push(path.as_str())?;
        paths.push(beside.as_str())?;
    }
    Ok(())
}

// The paths of the files of a service.
fn stated_paths(alloc: Global, service: &AskedService) -> Result<Vec<&str>, AllocError>
    ensures paths { IfOk result
        (λ paths. map (λ t. t.now) paths.items ≡ stated_paths service.now) }
{
    let mut paths = Vec::new(alloc);
    paths.push(service.read.path.as_str())?;
    add(&mut paths, &service.signs.stop)?;
    add(&mut paths, &service.signs.drain)?;
    add(&mut paths, &service.signs.reload)?;
    add(&mut paths, &service.signs.end)?;
    add(&mut paths, &service.written.ready)?;
    add(&mut paths, &service.written.log)?;
    add_both(&mut paths, &service.written.status)?;
    add_both(&mut paths, &service.written.running)?;
    Ok(paths)
}

// Paths, as they are.
fn looked<'a>(
    machine: &HostRuntime,
    alloc: Global,
    paths: &[&'a str],
) -> Result<Vec<StatedPath<'a>>, AllocError>
    ensures paths { IfOk result
        (λ stated. map (λ one. one.path.now) stated.items ≡ map (λ t. t.now) paths.now) }
{
    let mut stated = Vec::new(alloc);
    for path in paths {
        stated.push(StatedPath {
            path: *path,
            there: identity_at(machine, *path),
        })?;
    }
    Ok(stated)
}

/// The first path of a service that is that of two of its files; none if each has a path of its own.
pub(crate) fn twin_of(
    machine: &HostRuntime,
    alloc: Global,
    service: &AskedService,
) -> Result<Option<String>, AllocError>
    ensures twin { IfOk result (λ twin. (stated : List StatedPath)
        × (map (λ one. one.path.now) stated ≡ stated_paths service.now)
        × (option_map string_bytes twin ≡ first_twin stated)) }
{
    let paths = stated_paths(alloc, service)?;
    let stated = looked(machine, alloc, &paths)?;
    match first_twin(&stated) {
        Some(path) => Ok(Some(String::from_str(alloc, path)?)),
        None => Ok(None),
    }
}

// Reads the first octets of a file. Returns their number.
fn read_front(machine: &HostRuntime, path: &str, octets: &mut [u8]) -> io::Result<usize> {
    let mut file = fs::open(machine, path)?;
    let count = file.read(octets)?;
    Ok(count.min(octets.len()))
}

// A file of this kind, with its first octets if it is a regular one.
fn found_file<'a>(
    machine: &HostRuntime,
    path: &str,
    kind: FileKind,
    octets: &'a mut [u8],
) -> io::Result<FoundFile<'a>>
    ensures found { IfOk result (IsFound kind) }
{
    match kind {
        FileKind::File => {
            let count = read_front(machine, path, octets)?.min(octets.len());
            Ok(FoundFile::File(&octets[..count]))
        }
        FileKind::Device => Ok(FoundFile::Device),
        FileKind::Other => Ok(FoundFile::Other),
    }
}

// The answer for a path at which the machine finds nothing, for this reason. `Err` is the reason, if there may be something.
fn found_without<'a>(reason: io::Error) -> io::Result<FoundFile<'a>>
    ensures found { result ≡ found_without reason }
{
    if is_absent(&reason) {
        return Ok(FoundFile::Nothing);
    }
    Err(reason)
}

/// The kind of what is at a path. The first octets of a regular file go to `octets`. `Err` is the machine's reason for which
/// it cannot be examined or read.
pub(crate) fn found_at<'a>(
    machine: &HostRuntime,
    path: &str,
    octets: &'a mut [u8],
) -> io::Result<FoundFile<'a>> {
    match fs::metadata(machine, path) {
        Ok(found) => found_file(machine, path, kind_of(found.mode()), octets),
        Err(reason) => found_without(reason),
    }
}
