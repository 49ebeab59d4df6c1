//! Jobs, and what is left of them.

use crate::gate::Remnant;
use data_pump::{DataIn, DataOut};
use ftp_terms::DataType;
use std::alloc::{Allocator, Global};
use std::io::{Read, Write};
use virtual_tree::{Sink, Source};

/// A transfer that waits for a worker.
#[derive(Drop)]
pub enum LaneJob<R: Source, K: Sink, C: Read + Write + Drop> {
    /// A file is sent to the client.
    Send {
        user: u32,
        session: u32,
        source: R,
        connection: C,
        data_type: DataType,
    },
    /// A file is received from the client.
    Take {
        user: u32,
        session: u32,
        connection: C,
        sink: K,
        data_type: DataType,
    },
}

/// The remnant of a job.
#[derive(Drop)]
pub enum Ran<R: Source, K: Sink, C: Read + Write + Drop, A: Allocator = Global> {
    Out(DataOut<R, C, A>),
    In(DataIn<C, K, A>),
    /// There was no memory for its buffer, or its source could not be read.
    Unopened,
}

impl<R: Source, K: Sink, C: Read + Write + Drop, A: Allocator> Remnant for Ran<R, K, C, A> {
    ghost use Rattle.transfer_worker.specs.Ends.{MayReport};

    ghost may_report = { λ ran go end. MayReport go end ran };
}
