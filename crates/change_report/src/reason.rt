//! The reason for which a server would refuse a configuration while it runs.

ghost use Rattle.std.specs.Prelude.{◌≡◌};
ghost use Rattle.change_report.specs.Reasons.{AreFixed, IsReason, store_capacity};

use config_change::{CountFault, FixedKey, FixedValues, count_fault, fixed_key};
use config_file::ServerTable;
use server_config::ServerNumbers;

/// The reason for which a server would refuse a configuration, whoever is connected.
#[derive(Clone, Copy, Debug)]
pub(crate) enum Reason<'a> {
    /// A key that cannot change while a server runs has another value.
    Key(FixedKey<'a>),
    /// The maximum number of connections is above that of the start.
    Count(CountFault),
}

/// The capacity of a store in memory; 0 for a folder.
fn store_capacity(server: &ServerTable<'_>) -> u64
    ensures capacity { result ≡ store_capacity server.now }
{
    if server.root == "memory" {
        server.capacity
    } else {
        0
    }
}

/// The values of a table that stay the same while a server runs.
fn fixed_values<'a>(server: &ServerTable<'a>) -> FixedValues<'a>
    ensures values { AreFixed server.now result }
{
    FixedValues {
        numbers: ServerNumbers {
            address: server.address.octets(),
            port: server.port,
            max_cons: server.max_cons,
            max_cons_per_address: server.max_cons_per_address,
            passive_first: server.passive_first,
            passive_last: server.passive_last,
            lanes: server.lanes,
            sessions: server.sessions,
        },
        root: server.root,
        capacity: store_capacity(server),
    }
}

/// The reason for which a server that has one table since its start would refuse another, whoever is connected; none if
/// there is none.
pub(crate) fn reason_of<'a>(old: &ServerTable<'a>, new: &ServerTable<'a>) -> Option<Reason<'a>>
    ensures reason { IsReason old.now new.now result }
{
    let (before, after) = (fixed_values(old), fixed_values(new));
    if let Some(key) = fixed_key(&before, &after) {
        return Some(Reason::Key(key));
    }
    match count_fault(old.max_cons, 0, new.max_cons) {
        Some(fault) => Some(Reason::Count(fault)),
        None => None,
    }
}
