//! The smallest server: a folder, a user, and a limit to downloads. It names one crate.
#![tactic(auto)]

use ftp_server::{FtpServer, FtpServerFault, NoHooks};

fn main(rt: HostRuntime) -> Result<(), FtpServerFault> {
    let mut server = FtpServer::at(rt.alloc(), [127, 0, 0, 1], 2121)?;
    server.users.add_user("ann", "secret", "/", "elradfmw")?;
    server.down_rate = 4_000_000;
    server.serve_folder(&rt, &rt, "files", NoHooks)?;
    Ok(())
}
