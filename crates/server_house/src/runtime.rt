//! The runtime of a server.

use std::net::{Net, TcpListener, TcpStream};
use std::sync::Wait;
use std::time::Clock;

/// A runtime of a server: its threads wait, it has clocks, sockets of the machine, and memory.
pub trait ServerRuntime: Wait
    + Clock
    + Net<Listener = TcpListener, Stream = TcpStream>
    + AllocGlobal {}

impl<R: Wait + Clock + Net<Listener = TcpListener, Stream = TcpStream> + AllocGlobal> ServerRuntime
    for R {}
