//! A finding as one line.
ghost use Rattle.std.specs.Prelude.{flat_map, OnOk};
ghost use Rattle.std.proofs.Common.{Some};
ghost use Rattle.std.specs.Fmt.{WritesInCalls};
ghost use Rattle.cedar_report.specs.PlainLines.{plain_line};

use crate::finding::{Extent, Finding};
use crate::glyph::Escaped;
use crate::report::Report;
use std::fmt;

impl Report<'_> {
    /// Writes each finding as `NAME:LINE:COLUMN: message: label (help)`, a line each. The place is
    /// that of the cause; line ends in what is written are shown escaped. It fails where the
    /// writer does.
    pub fn write_plain<W: fmt::Write>(&self, out: &mut W) -> fmt::Result
        ensures { OnOk result (WritesInCalls W.write_str_gives out.old
            (flat_map (plain_line self.now.name.now) self.now.findings.items) out.new) }
    {
        let name = self.name;
        for finding in self.findings() {
            let line = PlainLine { name, finding };
            write!(out, "{line}")?;
        }
        Ok(())
    }
}

// A finding's line, with its line feed.
#[derive(Clone, Copy)]
struct PlainLine<'a> {
    name: &'a str,
    finding: &'a Finding,
}

impl fmt::Display for PlainLine<'_> {
    ghost output = { λ line. Some (plain_line line.name.now line.finding.now) };

    fn fmt<W: fmt::Write>(&self, f: &mut fmt::Formatter<W>) -> fmt::Result {
        let name = Escaped(self.name);
        let place = Place(&self.finding.cause);
        let told = Told(self.finding);
        write!(f, "{name}{place}: {told}")
    }
}

// What is said of a fault at its place, with a line feed.
#[derive(Clone, Copy)]
struct Told<'a>(&'a Finding);

impl fmt::Display for Told<'_> {
    ghost use Rattle.cedar_report.specs.PlainLines.{told_text};

    ghost output = { λ told. Some (told_text told.0.now) };

    fn fmt<W: fmt::Write>(&self, f: &mut fmt::Formatter<W>) -> fmt::Result {
        let message = Escaped(self.0.message.as_str());
        let label = Label(&self.0.label);
        let help = Help(&self.0.help);
        let follows = Follows(self.0.follows);
        write!(f, "{message}{label}{help}{follows}\n")
    }
}

// A place as `:LINE:COLUMN`; nothing where there is none.
#[derive(Clone, Copy)]
struct Place<'a>(&'a Option<Extent>);

impl fmt::Display for Place<'_> {
    ghost use Rattle.cedar_report.specs.PlainLines.{spot_text};

    ghost output = { λ place. Some (spot_text place.0.now) };

    fn fmt<W: fmt::Write>(&self, f: &mut fmt::Formatter<W>) -> fmt::Result {
        match self.0 {
            Some(extent) => write!(f, ":{}:{}", extent.from.line, extent.from.column),
            None => Ok(()),
        }
    }
}

// What could have stood there, behind a colon; nothing where it isn't told.
#[derive(Clone, Copy)]
struct Label<'a>(&'a Option<String>);

impl fmt::Display for Label<'_> {
    ghost use Rattle.cedar_report.specs.PlainLines.{label_text};

    ghost output = { λ label. Some (label_text label.0.now) };

    fn fmt<W: fmt::Write>(&self, f: &mut fmt::Formatter<W>) -> fmt::Result {
        match self.0 {
            Some(label) => write!(f, ": {}", Escaped(label.as_str())),
            None => Ok(()),
        }
    }
}

// What to write instead, in parentheses; nothing where there is nothing to say.
#[derive(Clone, Copy)]
struct Help<'a>(&'a Option<String>);

impl fmt::Display for Help<'_> {
    ghost use Rattle.cedar_report.specs.PlainLines.{help_text};

    ghost output = { λ help. Some (help_text help.0.now) };

    fn fmt<W: fmt::Write>(&self, f: &mut fmt::Formatter<W>) -> fmt::Result {
        match self.0 {
            Some(help) => write!(f, " ({})", Escaped(help.as_str())),
            None => Ok(()),
        }
    }
}

// Whether it may follow from another fault.
#[derive(Clone, Copy)]
struct Follows(bool);

impl fmt::Display for Follows {
    ghost use Rattle.cedar_report.specs.PlainLines.{follows_text};

    ghost output = { λ follows. Some (follows_text follows.0) };

    fn fmt<W: fmt::Write>(&self, f: &mut fmt::Formatter<W>) -> fmt::Result {
        if self.0 {
            f.write_str(" (may follow from the fault before)")
        } else {
            Ok(())
        }
    }
}
