//! Folders of the machine for tests.

use std::env::Env;
use std::rt::Files;
use std::test::Fail;
use std::{env, fs};

/// A fresh empty folder of the machine.
pub fn fresh(rt: &(impl Env + Files + AllocGlobal), name: &str) -> Result<String, Fail> {
    let above = env::temp_dir(rt)?;
    for number in 0..1000u32 {
        let folder = format!(in rt.alloc();
            "{}/store_tests_{name}_{number}",
            above.as_path().display()
        )?;
        if fs::create_dir(rt, folder.as_str()).is_ok() {
            return Ok(folder);
        }
    }
    Err(Fail::from("no fresh folder"))
}

/// The machine's path of an entry in a folder.
pub fn inside(rt: &impl AllocGlobal, folder: &str, name: &str) -> Result<String, Fail> {
    Ok(format!(in rt.alloc(); "{folder}/{name}")?)
}
