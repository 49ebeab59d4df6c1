//! Scripts with the same results on every store.

/// Files and directories, and the faults of each call.
pub const DIRECTORIES: &str = "new /f ab
make /d
rename /d /d/e = inside itself
rename /f /f = already exists
remove-directory /f = not a directory
remove-file /d = a directory
names / = d f
names /f = not a directory
names /n = not found
make / = already exists
remove-directory / = not empty
remove-file / = a directory
rename / /g = inside itself
new / x = a directory
read / = a directory
new /f/g x = not a directory
new /f/g/h x = not found
new /n/g x = not found
at:0 /n x = not found
remove-file /f
size /f = not found";

/// Files and directories that are renamed and removed.
pub const RENAMES: &str = "make /a
make /a/b
make /ab
new /a/b/f xyz
new /ab/g w
rename /a /ab = already exists
rename /a /ab/c
rename /ab/g /h
rename /ab/g /i = not found
read /ab/c/b/f = xyz
read /h = w
names /ab = c
size /a/b/f = not found
remove-directory /ab/c = not empty
remove-file /ab/c/b/f
remove-directory /ab/c/b
names /ab/c =
remove-directory /ab/c
names / = ab h";

/// A file that is written anew, after some of its octets, and after all.
pub const FILES: &str = "new /f abcdef
new /f abc
read /f = abc
append /f de
at:4 /f xy
read:1 /f = bcdxy
read:6 /f =
read:7 /f = past the end
at:7 /f z = past the end
append /g z
read /g = z
faults = 0";
