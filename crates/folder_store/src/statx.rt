//! Room for the answer of statx(2).

use libc::types::statx;

/// A time of `Blank`.
#[repr(C)]
#[derive(Clone, Copy)]
struct NoTime {
    seconds: i64,
    nanoseconds: u32,
    spare: i32,
}

/// A value laid out as the answer of statx(2). The kit has none of that type to begin with, and the names of its spare
/// fields cannot be written here: the gate refuses names with two underscores.
#[repr(C)]
#[derive(Drop)]
struct Blank {
    mask: u32,
    block: u32,
    attributes: u64,
    links: u32,
    user: u32,
    group: u32,
    mode: u16,
    spare: [u16; 1],
    number: u64,
    size: u64,
    blocks: u64,
    attributes_mask: u64,
    accessed: NoTime,
    created: NoTime,
    changed: NoTime,
    modified: NoTime,
    special_major: u32,
    special_minor: u32,
    device_major: u32,
    device_minor: u32,
    mount: u64,
    memory_align: u32,
    offset_align: u32,
    rest: [u64; 12],
}

/// The same octets, as the call takes them.
fn as_statx(blank: Blank) -> statx {
    let place = &raw const blank as *const statx;
    unsafe { place.read() }
}

const NO_TIME: NoTime = NoTime {
    seconds: 0,
    nanoseconds: 0,
    spare: 0,
};

/// Room for an answer.
pub(crate) fn no_answer() -> statx {
    as_statx(Blank {
        mask: 0,
        block: 0,
        attributes: 0,
        links: 0,
        user: 0,
        group: 0,
        mode: 0,
        spare: [0; 1],
        number: 0,
        size: 0,
        blocks: 0,
        attributes_mask: 0,
        accessed: NO_TIME,
        created: NO_TIME,
        changed: NO_TIME,
        modified: NO_TIME,
        special_major: 0,
        special_minor: 0,
        device_major: 0,
        device_minor: 0,
        mount: 0,
        memory_align: 0,
        offset_align: 0,
        rest: [0; 12],
    })
}
