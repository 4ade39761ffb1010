//! Runs over readers and writers that fail, and a fault that is printed alone.
use super::assertions::{holds, holds_for, made};
use cedar_command::run::{print_fault, run};
use cedar_command::streams::{Input, Output};
use cedar_syntax::err::{ParseError, ToASTError, ToASTErrorKind};
use std::io;
use std::io::{ErrorKind, Read, Write};
use std::process::Abort;

const EXPR: &[&str] = &["expr"];

/// The program's words.
fn owned(rt: &(impl Abort + AllocGlobal), words: &[&str]) -> Vec<String> {
    let mut owned = Vec::new(rt.alloc());
    for word in words {
        let word = made(rt, String::from_str(rt.alloc(), word));
        made(rt, owned.push(word));
    }
    owned
}

/// Runs over a writer, with a list of bytes for what is said: the status, the writer, and that
/// list.
pub(super) fn run_on<R: Read + Drop, O: Write>(
    rt: &(impl Abort + AllocGlobal),
    words: &[&str],
    reader: R,
    writer: O,
) -> (u8, O, Vec<u8>) {
    let words = owned(rt, words);
    let mut input = Input::new(reader);
    let mut out = Output::new(writer);
    let mut err = Output::new(Vec::new(rt.alloc()));
    let status = run(rt.alloc(), words.as_slice(), &mut input, &mut out, &mut err);
    (status, out.into_writer(), err.into_writer())
}

/// Gives its bytes one at a time, and fails at the read with this number, counted from 0.
#[derive(Drop)]
pub(super) struct FailingReader<'a> {
    pub(super) rest: &'a [u8],
    pub(super) reads_left: usize,
}

impl Read for FailingReader<'_> {
    fn read(&mut self, buf: &mut [u8]) -> io::Result<usize> {
        if self.reads_left == 0 {
            return Err(io::Error::from(ErrorKind::BrokenPipe));
        }
        self.reads_left -= 1;
        match (self.rest.split_first(), buf.split_first_mut()) {
            (Some((byte, rest)), Some((place, _))) => {
                *place = *byte;
                self.rest = rest;
                Ok(1)
            }
            _ => Ok(0),
        }
    }
}

#[test]
fn tells_of_a_read_that_fails(rt: HostRuntime) {
    for reads_left in 0..3 {
        let reader = FailingReader {
            rest: b"1+2",
            reads_left,
        };
        let (status, out, err) = run_on(&rt, EXPR, reader, Vec::new(rt.alloc()));
        holds(&rt, status == 4);
        holds(&rt, out.is_empty());
        holds(
            &rt,
            err.as_slice() == b"input or output failed\n".as_slice(),
        );
    }
}

/// Takes so many writes, and then fails.
#[derive(Drop)]
pub(super) struct FailingWriter {
    pub(super) writes_left: usize,
    pub(super) taken: Vec<u8>,
}

impl Write for FailingWriter {
    fn write(&mut self, buf: &[u8]) -> io::Result<usize> {
        if self.writes_left == 0 {
            return Err(io::Error::from(ErrorKind::BrokenPipe));
        }
        self.writes_left -= 1;
        self.taken.extend_from_slice(buf)?;
        Ok(buf.len())
    }

    fn flush(&mut self) -> io::Result<()> {
        Ok(())
    }
}

/// Runs on a text with each number of writes that are taken, until the run ends as it does on a
/// sound writer.
pub(super) fn fails_at_each_write(
    rt: &(impl Abort + AllocGlobal),
    words: &[&str],
    text: &str,
    want: &str,
    status: u8,
) {
    for writes_left in 0..200 {
        let writer = FailingWriter {
            writes_left,
            taken: Vec::new(rt.alloc()),
        };
        let (got, out, _) = run_on(rt, words, text.as_bytes(), writer);
        if got == status {
            holds(rt, out.taken.as_slice() == want.as_bytes());
            holds_for(rt, writes_left > 0, &"no write was needed");
            return;
        }
        holds_for(rt, got == 4, &writes_left);
    }
    holds_for(rt, false, &"no number of writes was enough");
}

#[test]
fn tells_of_a_write_that_fails(rt: HostRuntime) {
    fails_at_each_write(&rt, EXPR, "1", "1\nok\n", 0);
    fails_at_each_write(&rt, EXPR, "", "0..0: unexpected end of input\n", 1);
    let lines = "permit ( principal , action , resource ) ;\n";
    fails_at_each_write(&rt, &["format"], lines, lines, 0);
}

/// Takes all that is written, and fails at the flush.
#[derive(Drop)]
struct UnflushedWriter;

impl Write for UnflushedWriter {
    fn write(&mut self, buf: &[u8]) -> io::Result<usize> {
        Ok(buf.len())
    }

    fn flush(&mut self) -> io::Result<()> {
        Err(io::Error::from(ErrorKind::BrokenPipe))
    }
}

#[test]
fn tells_of_a_flush_that_fails(rt: HostRuntime) {
    for text in &["1", "1 +"] {
        let (status, _, err) = run_on(&rt, EXPR, text.as_bytes(), UnflushedWriter);
        holds(
            &rt,
            status == 4 && err.as_slice() == b"input or output failed\n".as_slice(),
        );
    }
}

#[test]
fn a_fault_without_a_place_stands_behind_a_dash(rt: HostRuntime) {
    let fault = ParseError::ToAST(ToASTError::new(ToASTErrorKind::InvalidSingleEq, None));
    let mut out = Output::new(Vec::new(rt.alloc()));
    let printed = print_fault(&fault, &mut out);
    drop(fault);
    holds(&rt, printed.is_ok());
    holds(
        &rt,
        out.into_writer().as_slice() == b"-: '=' is not a valid operator in Cedar\n".as_slice(),
    );
}
