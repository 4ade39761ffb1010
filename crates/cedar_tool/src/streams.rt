//! The streams of a run: a reader, and writers that keep how their calls went.
ghost use Rattle.std.specs.Prelude.{◌≡◌, None, Some, OnOk, IfOk, IfErr, IfSome};
ghost use Rattle.std.specs.Io.KnownBytes.{Keeps};

use std::alloc::Global;
use std::fmt::Display;
use std::io::{self, ErrorKind, Read, Write};

/// How many bytes a text has at most: 256 MiB. A device may have no end.
pub const LONGEST: usize = 268_435_456;

/// A reader of a text, and why reading failed, if it did.
#[derive(Drop)]
pub struct Input<R> {
    reader: Option<R>,
    failure: Option<io::Error>,
}

impl<R: Read + Drop> Input<R> {
    ghost use Rattle.cedar_tool.specs.Streams.{known_of, input_failure};

    /// A reader that wasn't read yet.
    pub fn new(reader: R) -> Input<R>
        ensures known { known_of R.remaining result ≡ R.remaining reader }
        ensures failure { input_failure result ≡ None }
    {
        Input {
            reader: Some(reader),
            failure: None,
        }
    }

    /// All bytes up to the reader's end, once. Refused where a read fails, where there are more
    /// than a text has, and where they were read before.
    pub fn bytes(&mut self, alloc: Global) -> io::Result<Vec<u8>>
        ensures bytes { IfOk result (λ bytes.
            IfSome (known_of R.remaining self.old) (λ known. bytes.items ≡ known)) }
        ensures err { IfErr result (λ error. input_failure self.new ≡ Some error) }
    {
        let answer = match self.reader.take() {
            Some(reader) => read_all(alloc, reader),
            None => Err(io::Error::other("read before")),
        };
        if let Err(error) = &answer {
            self.failure = Some(*error);
        }
        answer
    }
}

/// All bytes of a reader, where these are no more than a text has.
fn read_all<R: Read + Drop>(alloc: Global, reader: R) -> io::Result<Vec<u8>>
    ensures { IfOk result (λ bytes. IfSome (R.remaining reader) (λ known. bytes.items ≡ known)) }
{
    let mut bytes = Vec::new(alloc);
    let mut limited = reader.take(LONGEST as u64 + 1);
    limited.read_to_end(&mut bytes)?;
    if bytes.len() > LONGEST {
        return Err(io::Error::new(ErrorKind::FileTooLarge, "longer than 256 MiB"));
    }
    Ok(bytes)
}

/// How the calls of a writer went so far.
#[derive(Clone, Copy)]
pub enum WriterState {
    /// Each write succeeded, and a flush behind the last one.
    Flushed,
    /// Each write succeeded, and no flush stands behind the last one.
    Written,
    /// A write or a flush failed; the first that did.
    Failed(io::Error),
}

/// A writer, and how its calls went. Behind one that failed each call answers that failure.
#[derive(Drop)]
pub struct Output<W> {
    writer: W,
    state: WriterState,
}

impl<W: Write> Output<W> {
    ghost use Rattle.cedar_command.specs.Streams.{AreBytesWritten};
    ghost use Rattle.cedar_tool.specs.Streams.{output_state, output_writer, output_writing, RepeatsFailure, LeavesState};

    /// A writer that nothing was written to yet.
    pub fn new(writer: W) -> Output<W>
        ensures writer { output_writer result ≡ writer }
        ensures state { output_state result ≡ WriterState.Flushed }
    {
        Output {
            writer,
            state: WriterState::Flushed,
        }
    }

    /// The writer itself, with what was written to it.
    pub fn into_writer(self) -> W
        ensures { result ≡ output_writer self }
    {
        let Output { writer, state: _ } = self;
        writer
    }

    /// Writes a text: the call of `write!` and `writeln!`.
    pub fn write_fmt<D: Display + Drop>(&mut self, text: D) -> io::Result<()>
        ensures left { LeavesState WriterState.Written (output_state self.old) result
            (output_state self.new) }
        ensures written { OnOk result (IfSome (D.output text)
            (λ bytes. AreBytesWritten bytes (output_writing W.contents self.old self.new))) }
    {
        let answer = self.writer.write_fmt(text);
        self.record_answer(answer, WriterState::Written)
    }

    /// Passes on what the writer holds back.
    pub fn flush(&mut self) -> io::Result<()>
        ensures left { LeavesState WriterState.Flushed (output_state self.old) result
            (output_state self.new) }
        ensures kept { Keeps
            (W.contents (output_writer self.old)) (W.contents (output_writer self.new)) }
    {
        let answer = self.writer.flush();
        self.record_answer(answer, WriterState::Flushed)
    }

    /// Keeps what a call answered: that it failed, or that it comes to this state.
    fn record_answer(&mut self, answer: io::Result<()>, state: WriterState) -> io::Result<()>
        ensures repeated { RepeatsFailure (output_state self.old) answer result }
        ensures left { LeavesState state (output_state self.old) result (output_state self.new) }
        ensures kept { output_writer self.new ≡ output_writer self.old }
    {
        if let WriterState::Failed(error) = self.state {
            return Err(error);
        }
        match answer {
            Ok(()) => {
                self.state = state;
                Ok(())
            }
            Err(error) => {
                self.state = WriterState::Failed(error);
                Err(error)
            }
        }
    }
}

/// Where a run writes: what is asked for, and what is said of it.
#[derive(Drop)]
pub struct Console<O, E> {
    pub output: Output<O>,
    pub errors: Output<E>,
    /// whether people read in colours what is said, where the words don't tell
    pub is_terminal: bool,
}
