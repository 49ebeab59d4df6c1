//! Configurations on which there is no report of a change.

use server_config::ConfigFault;

/// The fault of one of two configurations. Lack of memory is a fault of the one that is judged.
#[derive(Debug, Drop)]
pub enum ChangeFault {
    /// The configuration that is to be read is refused.
    New(ConfigFault),
    /// The configuration that the server has is refused.
    Old(ConfigFault),
}
