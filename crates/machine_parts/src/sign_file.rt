//! The files by which the owner of a server ends it.

ghost use Rattle.std.specs.Prelude.{◌≡◌, IfSome, Result, Some, cond, is_some, string_bytes};
ghost use Rattle.std.specs.Result.{result_err};
ghost use Rattle.std.specs.declared.io.Error.{Error};
ghost use Rattle.folder_store.specs.MachineCalls.MachineCall.{Follows};
ghost use Rattle.folder_store.specs.declared.looked.Looked.{Looked};
ghost use Rattle.machine_parts.specs.Answers.{is_given, look_of, noted_of, refusal_of};

use crate::answers::is_absent;
use folder_store::{FolderMachine, Looked};
use std::io;
use std::sync::atomic::{AtomicU64, Ordering};

/// A look at the path of a sign.
#[derive(Clone, Copy)]
pub enum SignLook {
    /// The file.
    There,
    /// Nothing.
    Nothing,
    /// The machine's reason for which it cannot be examined.
    Unseen(io::Error),
}

/// A file whose appearance is a sign.
#[derive(Drop)]
pub struct SignFile {
    machine: HostRuntime,
    path: String,
    // 1 if it could not be examined the last time
    unseen: AtomicU64,
}

// The machine's reason for which nothing is found at a path, if its answer has one.
fn reason_in(found: io::Result<Looked>) -> Option<io::Error>
    ensures reason { result ≡ result_err found }
{
    match found {
        Ok(_) => None,
        Err(reason) => Some(reason),
    }
}

// The look that has this reason for which nothing is found, if it has one.
fn look_of(reason: Option<io::Error>) -> SignLook
    ensures look { result ≡ look_of reason }
{
    match reason {
        None => SignLook::There,
        Some(reason) if is_absent(&reason) => SignLook::Nothing,
        Some(reason) => SignLook::Unseen(reason),
    }
}

/// A look at a path.
pub(crate) fn look_at<M: FolderMachine>(machine: &mut M, path: &str) -> SignLook
    ensures look { (found : Result Looked Error)
        × M.Does machine.old (Follows path.now found) machine.new
        × (result ≡ look_of (result_err found)) }
{
    look_of(reason_in(machine.follow(path)))
}

// Returns whether a look has found the file of a sign.
fn is_given(look: SignLook) -> bool
    ensures given { result ≡ is_given look }
{
    matches!(look, SignLook::There)
}

// The machine's reason for which a look was refused, if it was.
fn refusal_of(look: SignLook) -> Option<io::Error>
    ensures refusal { result ≡ refusal_of look }
{
    match look {
        SignLook::There | SignLook::Nothing => None,
        SignLook::Unseen(reason) => Some(reason),
    }
}

// The reason of a look that is noted, after one that was refused or was not.
fn noted_of(was_unseen: bool, look: SignLook) -> Option<io::Error>
    ensures noted { result ≡ noted_of was_unseen look }
{
    if was_unseen {
        return None;
    }
    refusal_of(look)
}

// The mark of a look that was refused, or was not.
fn mark_of(look: SignLook) -> u64
    ensures mark { result ≡ cond (is_some (refusal_of look)) 1 0 }
{
    u64::from(refusal_of(look).is_some())
}

impl SignFile {
    /// The file of a path.
    pub fn new(machine: HostRuntime, path: String) -> SignFile
        ensures path { result.path ≡ path }
    {
        SignFile {
            machine,
            path,
            unseen: AtomicU64::new(0),
        }
    }

    pub fn path(&self) -> &str
        ensures path { result.now ≡ string_bytes self.now.path }
    {
        self.path.as_str()
    }

    /// Returns whether there is a file at the path.
    pub fn is_there(&self) -> bool {
        is_given(self.look())
    }

    /// Looks at the path.
    pub fn look(&self) -> SignLook {
        let mut machine = self.machine;
        look_at(&mut machine, self.path.as_str())
    }

    /// The machine's reason for which it cannot be examined, if it could be the time before.
    pub fn new_reason(&self, look: SignLook) -> Option<io::Error>
        ensures reason { IfSome result (λ reason. refusal_of look ≡ Some reason) }
    {
        noted_of(self.unseen.swap(mark_of(look), Ordering::SeqCst) == 1, look)
    }
}
