//! What a run is asked for.

use cedar_policy_parser::{ExtStyles, LayoutOptions};
use cedar_report::Palette;

/// What is asked of each text.
#[derive(Clone, Copy)]
pub enum Task {
    /// `check-parse`: whether it means policies.
    Check,
    /// `list`: its policies, each on a line.
    List,
    /// `format`: the text laid out anew, and what becomes of that.
    Format(LayoutOptions, Purpose),
}

/// What becomes of a text that is laid out anew.
#[derive(Clone, Copy)]
pub enum Purpose {
    /// It is written to standard output.
    Print,
    /// It takes the place of its file.
    Write,
    /// It is compared with the text.
    Check,
}

/// Whether what people read is coloured.
#[derive(Clone, Copy)]
pub enum Colours {
    None,
    Ansi,
}

/// How faults are told.
#[derive(Clone, Copy)]
pub enum Format {
    /// As people read them, on the stream of errors.
    Human(Colours),
    /// A line each, there.
    Plain,
    /// A JSON object a line, on standard output.
    Json,
}

impl Format {
    /// The colours of what people read.
    pub fn palette(&self) -> Palette {
        match self {
            Format::Human(Colours::Ansi) => Palette::ansi(),
            _ => Palette::plain(),
        }
    }
}

/// What a run is asked for, but for its texts.
#[derive(Drop)]
pub struct Request {
    pub task: Task,
    pub format: Format,
    pub styles: ExtStyles,
}
