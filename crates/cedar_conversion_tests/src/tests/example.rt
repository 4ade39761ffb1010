//! The whole program of docs/LIBRARY.md.
use super::assertions::{holds, holds_for};
use cedar_policy_parser::err::{Failure, ParseError};
use cedar_policy_parser::position::Position;
use cedar_policy_parser::{ExtStyles, parse_policyset};
use std::alloc::Global;
use std::fmt;

/// Writes how many static policies a text means, or each fault on a line.
fn report<W: fmt::Write>(alloc: Global, text: &str, out: &mut W) -> fmt::Result {
    match parse_policyset(alloc, text, &ExtStyles::cedar(alloc)?) {
        Ok(set) => writeln!(out, "{} policies", set.static_policies().count()),
        Err(Failure::Memory(_)) => Err(fmt::Error),
        Err(Failure::Errors(faults)) => {
            for fault in &faults {
                tell(alloc, text, fault, out)?;
            }
            Ok(())
        }
    }
}

/// Writes a fault: its line and column, what it is, what could have stood there, what may help.
fn tell<W: fmt::Write>(alloc: Global, text: &str, fault: &ParseError, out: &mut W) -> fmt::Result {
    if let Some(span) = fault.primary_source_span() {
        let at = Position::of(text, span.offset());
        write!(out, "{}:{}: ", at.line, at.column)?;
    }
    write!(out, "{fault}")?;
    if let Some(label) = fault.label(alloc)? {
        write!(out, ": {label}")?;
    }
    if let Some(help) = fault.help(alloc)? {
        write!(out, " ({help})")?;
    }
    writeln!(out)
}

#[test]
fn reports_policies_or_faults(rt: HostRuntime) {
    let rows = [
        (
            "permit(principal, action, resource) when { ip(\"::1\").isIpv6() };",
            "1 policies\n",
        ),
        (
            "permit(principal, action, resource) when { ip(\"::1\").isIpv7() };",
            "1:44: `isIpv7` is not a valid method (the table of extensions has no method of this name)\n",
        ),
        (
            "permit(principal,\n  action resource);",
            "2:10: unexpected token `resource`: expected `!=`, `)`, `,`, `:`, `<`, `<=`, `==`, `>`, `>=`, `in`, or `is`\n",
        ),
    ];
    for (text, want) in &rows {
        let mut out = String::new(rt.alloc());
        holds(&rt, report(rt.alloc(), text, &mut out).is_ok());
        holds_for(&rt, out.as_str() == *want, text);
        drop(out);
    }
}
