//! A configuration in the latest version.

ghost use Rattle.std.specs.Prelude.{◌≡◌, ◌≤◌, false, IfErr, IfOk, OnOk, Some, length, string_bytes};
ghost use Rattle.toml.specs.Parse.{parse_document};
ghost use Rattle.toml.specs.Text.{IsDocumentText};
ghost use Rattle.toml.specs.View.{table_view};
ghost use Rattle.server_config.specs.Migrated.{IsMigrated, IsUnmigrated, IsUnprinted, IsVersioned, SameBranches};

use crate::config::{config_of, read_document};
use crate::depth::table_within;
use crate::fault::ConfigFault;
use std::alloc::{AllocError, Global};
use toml::{Table, Value};

/// Maximum number of levels that the TOML reader goes down.
pub const DEEPEST: usize = 80;

/// Maximum number of octets of a configuration.
pub const LONGEST_TEXT: usize = 4_194_304;

/// States version 2 in a document.
fn set_version(alloc: Global, document: &mut Table) -> Result<(), AllocError>
    ensures version { OnOk result
        (IsVersioned (table_view document.old) (table_view document.new)) }
{
    let key = String::from_str(alloc, "version")?;
    document.insert(key, Value::Integer(2))?;
    Ok(())
}

/// The text of a document, as `toml` prints it, which is read back as that document.
fn print(alloc: Global, document: &Table) -> Result<String, ConfigFault>
    ensures printed { IfOk result (λ text.
        IsDocumentText false (table_view document.now) (string_bytes text)) }
    ensures reads_back { IfOk result (λ text.
        parse_document (string_bytes text) ≡ Some (table_view document.now)) }
    ensures short { IfOk result (λ text. length (string_bytes text) ≤ LONGEST_TEXT) }
    ensures refused { IfErr result (IsUnprinted (table_view document.now)) }
{
    if !table_within(document, DEEPEST) {
        return Err(ConfigFault::TooDeep);
    }
    match toml::table_to_string(alloc, document) {
        Ok(text) => {
            if text.len() > LONGEST_TEXT {
                return Err(ConfigFault::TooLong);
            }
            Ok(text)
        }
        Err(toml::ser::Error::DateInvalid) => Err(ConfigFault::BadDate),
        Err(toml::ser::Error::OutOfMemory) => Err(ConfigFault::Memory),
    }
}

/// The text of a configuration in version 2, as `toml` prints its table: a text of the same configuration. A file that
/// [`Config::read`](crate::Config::read) refuses is refused alike. A file whose text could not be read back is refused
/// too.
pub fn migrate(alloc: Global, octets: &[u8]) -> Result<String, ConfigFault>
    ensures migrated { IfOk result (λ text. IsMigrated octets.now (string_bytes text)) }
    ensures refused { IfErr result (IsUnmigrated octets.now) }
{
    let mut document = read_document(alloc, octets)?;
    let _config = config_of(alloc, octets, &document)?;
    set_version(alloc, &mut document)?;
    print(alloc, &document)
}

/// A document and the same with version 2 set the same rates: at every tick and for every list of asks, they have the
/// same branches with the same limits.
pub fn same_branches()
    ensures branches { SameBranches }
{}
