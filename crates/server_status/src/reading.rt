//! A status read from a text of JSON.

ghost use Rattle.std.specs.Prelude.{◌≡◌, ◌⊎◌, IfErr, IfOk, Some};
ghost use Rattle.serde_json.specs.Read.{read};
ghost use Rattle.serde_json.specs.View.{view};
ghost use Rattle.server_status.specs.declared.fault.StatusFault.TheVariants.{Memory, NotJson};
ghost use Rattle.server_status.specs.declared.status.Status.{Status};
ghost use Rattle.server_status.specs.ReadBack.{HasNoJson, HasStatus, HavePeers, IsReadAs, IsReadFault, without_feed};
ghost use Rattle.server_status.specs.StatusData.{IsStatusText};
ghost use Rattle.server_status.specs.StatusRead.{IsFaultOf, IsStatusOf};

use crate::fault::StatusFault;
use crate::judging::judge;
use crate::records::status_of;
use crate::status::Status;
use serde_json::Value;
use std::alloc::Global;

/// The octets before the line feed at the end, if there is one.
fn without_feed(octets: &[u8]) -> &[u8]
    ensures octets { result.now ≡ without_feed octets.now }
{
    let len = octets.len();
    if len > 0 && octets[len - 1] == b'\n' {
        &octets[..len - 1]
    } else {
        octets
    }
}

fn value_of(alloc: Global, octets: &[u8]) -> Result<Value, StatusFault>
    ensures value { IfOk result (λ v. read octets.now ≡ Some (view v)) }
    ensures fault { IfErr result
        (λ fault. (fault ≡ Memory) ⊎ ((fault ≡ NotJson) × HasNoJson octets.now)) }
{
    match Value::from_slice(alloc, octets) {
        Ok(value) => Ok(value),
        Err(error) => {
            if error.is_memory() {
                Err(StatusFault::Memory)
            } else {
                Err(StatusFault::NotJson)
            }
        }
    }
}

fn status_in(alloc: Global, value: &Value) -> Result<Status, StatusFault>
    ensures status { IfOk result (IsStatusOf (view value.now)) }
    ensures fault { IfErr result
        (λ fault. (fault ≡ Memory) ⊎ IsFaultOf (view value.now) fault) }
{
    judge(value)?;
    match status_of(alloc, value) {
        Ok(status) => Ok(status),
        Err(_) => Err(StatusFault::Memory),
    }
}

/// Reads a status from a text of JSON, which may end with a line feed. Members that are not of a status are passed
/// over.
///
/// # Errors
///
/// That the octets are no JSON; or the first fault of their value: another version, a member that is missing, or one
/// of another kind; or that memory ran out.
pub fn read_status(alloc: Global, octets: &[u8]) -> Result<Status, StatusFault>
    ensures status { IfOk result (HasStatus octets.now) }
    ensures fault { IfErr result (IsReadFault octets.now) }
    ensures read_back { (status : Status) → HavePeers status → IsStatusText status octets.now
        → IsReadAs status result }
{
    match value_of(alloc, without_feed(octets)) {
        Ok(value) => status_in(alloc, &value),
        Err(fault) => Err(fault),
    }
}
