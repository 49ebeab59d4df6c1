//! The tables `[[dir]]` and `[[file]]`: the initial contents of a store in memory.

use crate::keys::{MODIFIED, PATH, TEXT};
use crate::rows::Keyed;
use crate::stated::{DirTable, FileTable};
use crate::values::{line, number, text};
use toml::Table;

impl<'a> Keyed<'a> for DirTable<'a> {
    ghost use Rattle.config_file.specs.TableKeys.{dir_rows, dir_values};

    ghost Keys = { dir_rows };

    ghost Values = { dir_values };

    fn read(table: &'a Table) -> DirTable<'a> {
        DirTable {
            path: line(table, &PATH),
        }
    }
}

impl<'a> Keyed<'a> for FileTable<'a> {
    ghost use Rattle.config_file.specs.TableKeys.{file_rows, file_values};

    ghost Keys = { file_rows };

    ghost Values = { file_values };

    fn read(table: &'a Table) -> FileTable<'a> {
        FileTable {
            path: line(table, &PATH),
            text: text(table, &TEXT),
            modified: number(table, &MODIFIED),
        }
    }
}
