//! The process's arguments.
use super::assertions::{holds, made, refusal};
use cedar_command::run::{arguments, refuse_arguments};
use cedar_command::streams::Output;
use std::env::{Env, FillError};

/// What is said where the words ask for nothing.
pub(super) const USAGE_LINE: &str =
    "usage: cedar-parse expr|policies|format [fn:NAME | method:NAME]*\n";

/// Arguments that the process might be given, the program's name first.
#[derive(Drop)]
struct Given(&'static [&'static [u8]]);

impl Env for Given {
    fn arg(&self, i: usize, buf: &mut [u8]) -> Result<usize, FillError> {
        let Some(word) = self.0.get(i) else {
            return Err(FillError::NotPresent);
        };
        if word.len() > buf.len() {
            return Err(FillError::TooLong);
        }
        buf[..word.len()].copy_from_slice(word);
        Ok(word.len())
    }

    fn var(&self, _name: &str, _buf: &mut [u8]) -> Result<usize, FillError> {
        Err(FillError::NotPresent)
    }

    fn var_at(&self, _i: usize, _buf: &mut [u8]) -> Result<usize, FillError> {
        Err(FillError::NotPresent)
    }
}

#[test]
fn an_argument_that_is_no_text_is_a_usage_fault(rt: HostRuntime) {
    let given = (Given(&[b"cedar-parse", b"expr", b"fn:\xff"]), rt.alloc());
    let error = refusal(&rt, arguments(&given));
    let mut err = Output::new(Vec::new(rt.alloc()));
    let status = refuse_arguments(error, &mut err);
    let said = err.into_writer();
    holds(&rt, status == 2 && said.as_slice() == USAGE_LINE.as_bytes());
}

#[test]
fn arguments_come_without_the_programs_name(rt: HostRuntime) {
    let given = (Given(&[b"cedar-parse", b"expr", b"fn:f"]), rt.alloc());
    let words = made(&rt, arguments(&given));
    holds(
        &rt,
        words.len() == 2 && words[0].as_str() == "expr" && words[1].as_str() == "fn:f",
    );
}
