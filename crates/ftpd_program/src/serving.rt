//! The command that serves clients by a configuration.

ghost use Rattle.std.specs.Prelude.{◌≡◌, ◌⊎◌, ℕ, IfErr, IfOk, List, Option, option_map, string_bytes};
ghost use Rattle.ftpd_program.specs.Endings.{IsUnwritten};
ghost use Rattle.ftpd_program.specs.Causes.{IsReadWhy};
ghost use Rattle.text_io.specs.Texts.{IsTextOf};
ghost use Rattle.ftpd_program.specs.Serving.{IsServeEnd, IsUnconfiguredEnd, IsWarnedIn, end_of};

use crate::ending::FtpdExit;
use crate::scripting::{ScriptFault, read_warned};
use crate::server::{ReadConfig, ServeFault, Server};
use command_line::{Patience, ServeFiles};
use config_report::Lookout;
use server_config::Config;
use sheets_program::{Exit as Common, Opener, text_cause};
use std::alloc::Global;
use text_io::{TextFault, TextWriter};

/// Reads the configuration of a file, which is then closed, and makes the texts of its warnings. Returns its octets, too.
/// `Err` is the ending of the command without it.
fn config_at<'w, O: Opener + Lookout>(
    alloc: Global,
    path: &'w str,
    files: &mut O,
) -> Result<(Config, String, Vec<u8>), FtpdExit<'w>>
    ensures config { IfOk result (λ read. IsWarnedIn (O.Gives files.old path.now)
        (O.Shows files.new) path.now read.0 (string_bytes read.1)) }
    ensures octets { IfOk result (λ read. (text : Option (List ℕ))
        × O.Gives files.old path.now text × IsTextOf read.2.items text) }
    ensures refused { IfErr result (IsUnconfiguredEnd (O.Gives files.old path.now)) }
    ensures why { IfErr result
        (IsReadWhy path.now (O.MayRefuse files.old path.now ⊎ O.MayFail files.old path.now)) }
    ensures opened { O.Opens files.old path.now files.new }
{
    let mut file = match files.open(path) {
        Ok(file) => file,
        Err(error) => {
            let cause = text_cause(TextFault::ReadFault, path, Some(error));
            return Err(FtpdExit::Common(Common::Text(TextFault::ReadFault, cause)));
        }
    };
    match read_warned(alloc, path, &mut file, &*files) {
        Ok(read) => Ok(read),
        Err(ScriptFault::Config(fault)) => Err(FtpdExit::Config { file: path, fault }),
        Err(ScriptFault::Session(fault)) => Err(FtpdExit::Session(fault)),
        Err(ScriptFault::Text(fault)) => {
            let cause = text_cause(fault, path, O::reason(&file));
            Err(FtpdExit::Common(Common::Text(fault, cause)))
        }
    }
}

fn ended<'w>(answer: Result<(), ServeFault>) -> FtpdExit<'w>
    ensures end { result ≡ end_of answer }
{
    match answer {
        Ok(()) => FtpdExit::Common(Common::Done),
        Err(fault) => FtpdExit::Server(fault),
    }
}

/// Runs `serve`. The configuration is read whole and checked, its warnings are made, and its file is closed, before the
/// server is called.
pub(crate) fn serve<'w, O: Opener + Lookout, W: TextWriter, V: Server<W>>(
    alloc: Global,
    config: &'w str,
    signs: ServeFiles<'_>,
    patience: Patience,
    files: &mut O,
    server: &mut V,
    output: &mut W,
) -> FtpdExit<'w>
    ensures end { IsServeEnd (O.Gives files.old config.now) (O.Shows files.new) config.now V.Serves
        (option_map (λ w. w.now) signs.entry.stop_file)
        (option_map (λ w. w.now) signs.entry.ready_file) patience
        (W.contents output.old) (W.contents output.new) result }
    ensures why { IsReadWhy config.now
        (O.MayRefuse files.old config.now ⊎ O.MayFail files.old config.now) result }
    ensures opened { O.Opens files.old config.now files.new }
    ensures unwritten { IsUnwritten result → output.new ≡ output.old }
{
    match config_at(alloc, config, files) {
        Ok((read, warnings, octets)) => {
            let read = ReadConfig {
                path: config,
                config: read,
                warnings: warnings.as_str(),
                octets: octets.as_slice(),
            };
            ended(server.serve(alloc, read, signs, patience, output))
        }
        Err(ending) => ending,
    }
}
