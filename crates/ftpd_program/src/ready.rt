//! The ready file of a server: it is made before the server writes that it is ready, and removed at its end.

ghost use Rattle.std.specs.Prelude.{◌≡◌, Bool, None, IfSome, OnErr, OnOk, false, is_some, true};
ghost use Rattle.std.specs.Io.KnownBytes.{Appends};
ghost use Rattle.text_io.specs.Parts.{AppendsPart};
ghost use Rattle.ftpd_program.specs.Ready.{cause_of};

use crate::server::ServeFault;
use std::io;
use text_io::TextWriter;

/// A file that others see while a server is ready.
pub trait ReadyFile {
    /// The file was made, and has not been removed since.
    ghost is_there: { Self → Bool };

    /// Returns whether the file was made, and has not been removed since.
    fn is_there(&self) -> bool
        ensures there { result ≡ is_there self.now };

    /// Makes the file. `Err` is the machine's reason for which it could not be made.
    fn make(&mut self) -> io::Result<()>
        ensures made { OnOk result (is_there self.new ≡ true) }
        ensures unmade { OnErr result (is_there self.new ≡ is_there self.old) };

    /// Removes the file.
    fn remove(&mut self)
        ensures removed { is_there self.new ≡ false };
}

/// The output of a server that writes first that it is ready. Its ready file, if it has one, is there before that; if the
/// file cannot be made, nothing is written.
#[derive(Drop)]
pub struct ReadyOutput<W, F> {
    pub output: W,
    /// The ready file, if there is to be one.
    pub file: Option<F>,
    /// The machine's reason for which the file could not be made, if it could not.
    pub fault: Option<io::Error>,
}

impl<W, F: ReadyFile> ReadyOutput<W, F> {
    /// An output to which nothing was written yet.
    pub fn new(output: W, file: Option<F>) -> ReadyOutput<W, F>
        ensures output { result.output ≡ output }
        ensures file { result.file ≡ file }
        ensures fault { result.fault ≡ None }
    {
        ReadyOutput {
            output,
            file,
            fault: None,
        }
    }

    /// Makes the file, if there is to be one that is not there.
    fn make_ready(&mut self) -> io::Result<()>
        ensures ready { OnOk result (IfSome self.new.file (λ f. F.is_there f ≡ true)) }
        ensures fault { OnErr result (is_some self.new.fault ≡ true) }
        ensures no_fault { OnOk result (self.new.fault ≡ self.old.fault) }
        ensures output { self.new.output ≡ self.old.output }
    {
        let Some(file) = &mut self.file else {
            return Ok(());
        };
        if file.is_there() {
            return Ok(());
        }
        let made = file.make();
        if let Err(reason) = made {
            self.fault = Some(reason);
        }
        made
    }

    /// Removes the file, if it is there.
    pub fn remove_file(&mut self)
        ensures removed { IfSome self.new.file (λ f. F.is_there f ≡ false) }
        ensures output { self.new.output ≡ self.old.output }
        ensures fault { self.new.fault ≡ self.old.fault }
    {
        if let Some(file) = &mut self.file {
            if file.is_there() {
                file.remove();
            }
        }
    }

    /// The fault with which a server ended: if its ready file could not be made, that is the cause.
    pub fn cause(&self, fault: ServeFault) -> ServeFault
        ensures cause { result ≡ cause_of self.now.fault fault }
    {
        match self.fault {
            Some(_) => ServeFault::ReadyFile,
            None => fault,
        }
    }
}

impl<W: TextWriter, F: ReadyFile> TextWriter for ReadyOutput<W, F> {
    ghost contents = { λ o. W.contents o.output };

    ghost may_refuse = { λ _ _. Unit {0} };

    fn write_text(&mut self, text: &[u8]) -> io::Result<()>
        ensures octets { OnOk result (Appends (W.contents self.old.output)
            (W.contents self.new.output) text.now) }
        ensures part { OnErr result (AppendsPart (W.contents self.old.output)
            (W.contents self.new.output) text.now) }
        ensures refuses { OnErr result (Unit {0}) }
        ensures ready { OnOk result (IfSome self.new.file (λ f. F.is_there f ≡ true)) }
        ensures unready { OnErr result (self.old.fault ≡ None → is_some self.new.fault ≡ true
            → self.new.output ≡ self.old.output) }
    {
        self.make_ready()?;
        self.output.write_text(text)
    }
}
