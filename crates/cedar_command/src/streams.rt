//! The streams of a run: a reader and writers, each with how its calls went.
ghost use Rattle.std.specs.Prelude.{◌≡◌, ◌⊎◌, ℕ, None, OnOk, IfOk, IfErr, IfSome, string_bytes};
ghost use Rattle.std.specs.Io.KnownBytes.{Keeps};

use std::alloc::Global;
use std::fmt::Display;
use std::io::{ErrorKind, Read, Write};
use std::{fmt, io};

/// Why a run ends with no answer about the text.
#[derive(Clone, Copy)]
pub enum Stop {
    Memory,
    InputOutput,
    /// From this byte on what was read isn't UTF-8.
    NotUtf8(usize),
}

impl fmt::Display for Stop {
    ghost use Rattle.std.proofs.Common.{Some};
    ghost use Rattle.cedar_command.specs.Ends.{stop_message};

    ghost output = { λ stop. Some (stop_message stop) };

    fn fmt<W: fmt::Write>(&self, f: &mut fmt::Formatter<W>) -> fmt::Result {
        match self {
            Stop::Memory => f.write_str("want of memory"),
            Stop::InputOutput => f.write_str("input or output failed"),
            Stop::NotUtf8(byte) => write!(f, "input isn't UTF-8 from byte {byte} on"),
        }
    }
}

impl From<io::Error> for Stop {
    ghost use Rattle.cedar_command.specs.Streams.{StandsFor};

    ghost from_gives = { λ error stop. StandsFor stop error };

    fn from(error: io::Error) -> Stop {
        match error.kind() {
            ErrorKind::OutOfMemory => Stop::Memory,
            _ => Stop::InputOutput,
        }
    }
}

/// Why a text wasn't written. Where no call of the writer failed, the text itself did, and a text
/// of this program only does so for want of memory: a tree that nests deep is printed by a list.
fn cause_of(error: io::Error) -> io::Error {
    match (error.kind(), error.raw_os_error()) {
        (ErrorKind::Uncategorized, None) => io::Error::from(ErrorKind::OutOfMemory),
        _ => error,
    }
}

/// A reader, and why reading failed, if it did.
#[derive(Drop)]
pub struct Input<R> {
    reader: R,
    failure: Option<io::Error>,
}

impl<R: Read + Drop> Input<R> {
    ghost use Rattle.cedar_command.specs.Streams.{reader_of, read_failure, FailsToRead, IsNoText};

    /// A reader that wasn't read yet.
    pub fn new(reader: R) -> Input<R>
        ensures reader { reader_of result ≡ reader }
        ensures failure { read_failure result ≡ None }
    {
        Input {
            reader,
            failure: None,
        }
    }

    /// The text up to the reader's end. Refused where reading failed, now or before, and where
    /// what was read isn't UTF-8.
    pub fn text(&mut self, alloc: Global) -> Result<String, Stop>
        ensures text { IfOk result (λ text.
            IfSome (R.remaining (reader_of self.old)) (λ known. string_bytes text ≡ known)) }
        ensures ok { OnOk result (read_failure self.new ≡ None) }
        ensures err { IfErr result (λ stop. FailsToRead (read_failure self.new) stop
            ⊎ ((byte : ℕ) × (stop ≡ Stop.NotUtf8 byte)
            × IsNoText (R.remaining (reader_of self.old)) byte)) }
    {
        if let Some(first) = self.failure {
            return Err(Stop::from(first));
        }
        let mut bytes = Vec::new(alloc);
        if let Err(error) = self.reader.read_to_end(&mut bytes) {
            self.failure = Some(error);
            return Err(Stop::from(error));
        }
        match String::from_utf8(bytes) {
            Ok(text) => Ok(text),
            Err(error) => Err(Stop::NotUtf8(error.utf8_error().valid_up_to())),
        }
    }
}

/// How the calls of a writer went so far.
#[derive(Clone, Copy)]
pub enum WriterState {
    /// Each write succeeded, and a flush behind the last one.
    Flushed,
    /// Each write succeeded, and no flush stands behind the last one.
    Written,
    /// A write or a flush failed; the first that did.
    Failed(io::Error),
}

/// A writer, and how its calls went. Behind one that failed each call answers that failure.
#[derive(Drop)]
pub struct Output<W> {
    writer: W,
    state: WriterState,
}

impl<W: Write> Output<W> {
    ghost use Rattle.cedar_command.specs.Streams.{writer_state, writer_of, writing, AreBytesWritten, Repeats, Leaves};

    /// A writer that nothing was written to yet.
    pub fn new(writer: W) -> Output<W>
        ensures writer { writer_of result ≡ writer }
        ensures state { writer_state result ≡ WriterState.Flushed }
    {
        Output {
            writer,
            state: WriterState::Flushed,
        }
    }

    /// The writer itself, with what was written to it.
    pub fn into_writer(self) -> W
        ensures { result ≡ writer_of self }
    {
        let Output { writer, state: _ } = self;
        writer
    }

    /// Writes a text: the call of `write!` and `writeln!`.
    pub fn write_fmt<D: Display + Drop>(&mut self, text: D) -> Result<(), Stop>
        ensures left { Leaves WriterState.Written (writer_state self.old) result
            (writer_state self.new) }
        ensures written { OnOk result (IfSome (D.output text)
            (λ bytes. AreBytesWritten bytes (writing W.contents self.old self.new))) }
    {
        let answer = self.writer.write_fmt(text).map_err(cause_of);
        self.record_answer(answer, WriterState::Written)
    }

    /// Passes on what the writer holds back.
    pub fn flush(&mut self) -> Result<(), Stop>
        ensures left { Leaves WriterState.Flushed (writer_state self.old) result
            (writer_state self.new) }
        ensures kept { Keeps
            (W.contents (writer_of self.old)) (W.contents (writer_of self.new)) }
    {
        let answer = self.writer.flush();
        self.record_answer(answer, WriterState::Flushed)
    }

    /// Keeps what a call answered: that it failed, or that it comes to this state.
    fn record_answer(&mut self, answer: io::Result<()>, state: WriterState) -> Result<(), Stop>
        ensures repeated { Repeats (writer_state self.old) answer result }
        ensures left { Leaves state (writer_state self.old) result (writer_state self.new) }
        ensures kept { writer_of self.new ≡ writer_of self.old }
    {
        if let WriterState::Failed(first) = self.state {
            return Err(Stop::from(first));
        }
        match answer {
            Ok(()) => {
                self.state = state;
                Ok(())
            }
            Err(error) => {
                self.state = WriterState::Failed(error);
                Err(Stop::from(error))
            }
        }
    }
}
