//! A store of files that are made when they are asked for.

use crate::expect::comes_out;
use page_store::{PageFault, PageStore, Pages};
use std::alloc::Global;

/// Two files; a name that no path has, one that is listed twice, and one without a page.
#[derive(Drop)]
pub(crate) struct Two;

impl Pages for Two {
    fn names(&mut self, alloc: Global) -> Result<Vec<String>, PageFault> {
        let mut names = Vec::new(alloc);
        for name in ["b.txt", "a.txt", "no/name", "gone.txt", "b.txt"] {
            names.push(String::from_str(alloc, name)?)?;
        }
        Ok(names)
    }

    fn page(&mut self, alloc: Global, name: &str) -> Result<Option<Vec<u8>>, PageFault> {
        let text = match name {
            "a.txt" => "one",
            "b.txt" => "three",
            "broken.txt" => return Err(PageFault::Broken),
            "short.txt" => return Err(PageFault::Memory),
            _ => return Ok(None),
        };
        let text = String::from_str(alloc, text)?;
        Ok(Some(text.into_bytes()))
    }
}

/// The calls, with their results. A change is a fault of the device, and so is a page that cannot be had; each is counted.
const CALLS: &str = "names / = a.txt b.txt
size /a.txt = 3
size /b.txt = 5
size / = 0
read /a.txt = one
read:2 /b.txt = ree
read:5 /b.txt =
read:6 /b.txt = past the end
read /gone.txt = not found
read /a.txt/b = not found
size /a.txt/b = not found
read / = a directory
names /a.txt = not a directory
names /gone.txt = not found
faults = 0
new /n x = device fault
make /d = device fault
remove-file /a.txt = device fault
remove-directory /d = device fault
rename /a.txt /n = device fault
faults = 5
read /broken.txt = device fault
faults = 6
read /short.txt = out of memory
faults = 6
read /a.txt = one";

#[test]
fn of_two(rt: HostRuntime) {
    let mut store = PageStore::new(rt.alloc(), Two);
    comes_out(&rt, rt.alloc(), &mut store, CALLS);
}
