//! Files and streams that fail.
use super::assertions::{holds, holds_for};
use super::runs::{run_on, run_on_files, shelf_of};
use std::io::{self, ErrorKind, Read, Write};

const LOOSE: &str = "permit(principal,action,resource);";

/// Fails at each read.
#[derive(Drop)]
struct SealedReader;

impl Read for SealedReader {
    fn read(&mut self, _buf: &mut [u8]) -> io::Result<usize> {
        Err(io::Error::from(ErrorKind::BrokenPipe))
    }
}

/// Takes so many writes, and then fails.
#[derive(Drop)]
struct FailingWriter {
    writes_left: usize,
    taken: Vec<u8>,
}

impl Write for FailingWriter {
    fn write(&mut self, buf: &[u8]) -> io::Result<usize> {
        if self.writes_left == 0 {
            return Err(io::Error::from(ErrorKind::BrokenPipe));
        }
        self.writes_left -= 1;
        self.taken.extend_from_slice(buf)?;
        Ok(buf.len())
    }

    fn flush(&mut self) -> io::Result<()> {
        Ok(())
    }
}

#[test]
fn tells_of_an_input_that_fails(rt: HostRuntime) {
    let lists = (Vec::new(rt.alloc()), Vec::new(rt.alloc()));
    let given = (SealedReader, shelf_of(&rt, &[], false));
    let left = run_on(&rt, &["check-parse"], given, lists);
    holds(&rt, left.status == 4 && left.output.is_empty());
    holds(
        &rt,
        left.errors.as_slice() == b"cedar: <stdin>: broken pipe\n".as_slice(),
    );
    drop(left);
}

#[test]
fn tells_of_a_file_that_cannot_be_written(rt: HostRuntime) {
    let words = ["format", "-w", "-p", "a"];
    let left = run_on_files(&rt, words.as_slice(), shelf_of(&rt, &[("a", LOOSE)], true));
    holds(&rt, left.status == 4 && left.output.is_empty());
    holds(&rt, left.errors.starts_with(b"cedar: a: "));
    drop(left);
}

#[test]
fn tells_of_an_output_that_fails_at_each_write(rt: HostRuntime) {
    let mut is_whole = false;
    for writes_left in 0..20 {
        let output = FailingWriter {
            writes_left,
            taken: Vec::new(rt.alloc()),
        };
        let given = (LOOSE.as_bytes(), shelf_of(&rt, &[], false));
        let left = run_on(&rt, &["format"], given, (output, Vec::new(rt.alloc())));
        is_whole = left.status == 0;
        holds_for(&rt, is_whole || left.status == 4, &writes_left);
        holds(
            &rt,
            is_whole || left.errors.as_slice() == b"cedar: <stdout>: broken pipe\n".as_slice(),
        );
        drop(left);
    }
    holds(&rt, is_whole);
}

#[test]
fn tells_of_a_stream_of_errors_that_fails(rt: HostRuntime) {
    let errors = FailingWriter {
        writes_left: 0,
        taken: Vec::new(rt.alloc()),
    };
    let given = (b"permit".as_slice(), shelf_of(&rt, &[], false));
    let left = run_on(&rt, &["check-parse"], given, (Vec::new(rt.alloc()), errors));
    holds(&rt, left.status == 4 && left.output.is_empty());
    drop(left);
}
