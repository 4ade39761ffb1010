//! The README's example of library use.
use super::super::assertions::{holds_for, made};
use cedar_policy_parser::err::Failure;
use cedar_policy_parser::{ExtStyles, parse_policyset};
use std::alloc::Global;
use std::fmt;

/// Writes how many policies a text has, or the first of its faults.
fn report<W: fmt::Write>(alloc: Global, text: &str, out: &mut W) -> fmt::Result {
    match parse_policyset(alloc, text, &ExtStyles::cedar(alloc)?) {
        Ok(set) => writeln!(out, "{} policies", set.len()),
        Err(Failure::Memory(_)) => Err(fmt::Error),
        Err(Failure::Errors(faults)) => writeln!(out, "{faults}"),
    }
}

/// Texts, and what is written of them.
const ROWS: [(&str, &str); 3] = [
    (
        "permit(principal, action, resource); forbid(principal == ?principal, action, resource);",
        "2 policies\n",
    ),
    (
        "permit(principal, action, resource) when { ip(\"::1\").isIpv7() };",
        "`isIpv7` is not a valid method\n",
    ),
    ("", "0 policies\n"),
];

#[test]
fn counts_policies(rt: HostRuntime) {
    for (text, wanted) in &ROWS {
        let mut out = String::new(rt.alloc());
        made(&rt, report(rt.alloc(), text, &mut out));
        holds_for(&rt, out.as_str() == *wanted, &out);
        drop(out);
    }
}
