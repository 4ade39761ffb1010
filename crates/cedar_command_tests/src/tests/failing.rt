//! Streams that fail under `policies` and `format`, a stream of errors that fails, and memory that
//! is refused before a run.
use super::arguments::USAGE_LINE;
use super::assertions::{holds, holds_for};
use super::streams::{FailingReader, FailingWriter, fails_at_each_write, run_on};
use cedar_command::run::{refuse, refuse_arguments, run};
use cedar_command::streams::{Input, Output};
use std::io;
use std::io::ErrorKind;
use std::process::Abort;

/// What is said where a stream fails.
const FAILED: &str = "input or output failed\n";

/// What is said where no memory is left.
const MEMORY: &str = "want of memory\n";

/// Each of the first reads fails, of a text that means a set of policies.
fn fails_at_each_read(rt: &(impl Abort + AllocGlobal), words: &[&str]) {
    for reads_left in 0..3 {
        let reader = FailingReader {
            rest: b"// x",
            reads_left,
        };
        let (status, out, err) = run_on(rt, words, reader, Vec::new(rt.alloc()));
        holds_for(rt, status == 4 && out.is_empty(), &reads_left);
        holds(rt, err.as_slice() == FAILED.as_bytes());
    }
}

#[test]
fn tells_of_a_read_that_fails_under_each_command(rt: HostRuntime) {
    fails_at_each_read(&rt, &["policies"]);
    fails_at_each_read(&rt, &["format"]);
}

/// A template and a static policy.
const POLICIES: &str =
    "permit(principal == ?principal, action, resource); permit(principal, action, resource);";

/// A text with two faults.
const FAULTS: &str = "permit(principal);";

/// What is said of them.
const TOLD: &str =
    "16..16: this policy is missing the `action` variable in the scope\n16..16: this policy is missing the `resource` variable in the scope\n";

#[test]
fn tells_of_a_write_that_fails_under_policies(rt: HostRuntime) {
    let names = "policy0 template\npolicy1 static\nok 2\n";
    fails_at_each_write(&rt, &["policies"], POLICIES, names, 0);
    fails_at_each_write(&rt, &["policies"], FAULTS, TOLD, 1);
}

#[test]
fn tells_of_a_write_that_fails_under_format(rt: HostRuntime) {
    fails_at_each_write(&rt, &["format"], FAULTS, TOLD, 1);
}

/// A writer that takes so many writes, and then fails.
fn failing(rt: &impl AllocGlobal, writes_left: usize) -> Output<FailingWriter> {
    Output::new(FailingWriter {
        writes_left,
        taken: Vec::new(rt.alloc()),
    })
}

/// The status is that of a sound writer, to which this was written, or 4 where a write failed.
/// Answers whether all was written.
fn is_said(
    rt: &(impl Abort + AllocGlobal),
    status: u8,
    err: Output<FailingWriter>,
    (sound, said): (u8, &str),
) -> bool {
    let is_whole = status == sound;
    holds_for(rt, is_whole || status == 4, &status);
    let taken = err.into_writer().taken;
    holds(rt, !is_whole || taken.as_slice() == said.as_bytes());
    is_whole
}

#[test]
fn tells_of_a_stream_of_errors_that_fails(rt: HostRuntime) {
    let mut is_whole = true;
    for writes_left in 0..20 {
        let mut input = Input::new(b"".as_slice());
        let mut out = Output::new(Vec::new(rt.alloc()));
        let mut err = failing(&rt, writes_left);
        let status = run(rt.alloc(), &[], &mut input, &mut out, &mut err);
        is_whole = is_said(&rt, status, err, (2, USAGE_LINE));
        holds_for(&rt, !is_whole || writes_left > 0, &writes_left);
    }
    holds(&rt, is_whole);
}

#[test]
fn tells_of_a_stream_of_errors_that_fails_before_the_run(rt: HostRuntime) {
    let mut is_whole = true;
    for writes_left in 0..20 {
        let mut err = failing(&rt, writes_left);
        let status = refuse(&mut err);
        is_whole = is_said(&rt, status, err, (3, MEMORY));
        holds_for(&rt, !is_whole || writes_left > 0, &writes_left);
    }
    holds(&rt, is_whole);
}

#[test]
fn arguments_for_which_no_memory_is_left_are_no_usage_fault(rt: HostRuntime) {
    let mut err = Output::new(Vec::new(rt.alloc()));
    let error = io::Error::from(ErrorKind::OutOfMemory);
    let status = refuse_arguments(error, &mut err);
    holds(
        &rt,
        status == 3 && err.into_writer().as_slice() == MEMORY.as_bytes(),
    );
    let mut sealed = failing(&rt, 0);
    let error = io::Error::from(ErrorKind::InvalidData);
    let status = refuse_arguments(error, &mut sealed);
    drop(sealed);
    holds(&rt, status == 4);
}
