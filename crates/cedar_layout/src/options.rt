//! What a layout can be asked for.
ghost use Rattle.std.specs.Prelude.{◌≡◌, ◌≤◌, ◌<◌, IfOk, IfErr};

use std::fmt;

/// How long lines may be, and how much deeper the content of a bracket stands.
///
/// `new` refuses an indent that is past the width. Options that are written out aren't tried: such
/// an indent is taken for the width, since no line begins further on.
#[derive(Debug, Clone, Copy, PartialEq, Eq)]
pub struct LayoutOptions {
    /// How many characters a line's words may take where they leave a choice: 80 by default.
    /// Comments aren't counted.
    pub width: usize,
    /// How many spaces deeper the content of a bracket stands: 2 by default.
    pub indent: usize,
}

/// Why options are refused: one step of the indent is longer than a line.
#[derive(Debug, Clone, Copy, PartialEq, Eq)]
pub struct IndentPastWidth {
    pub width: usize,
    pub indent: usize,
}

impl LayoutOptions {
    /// Lines of `width` characters whose steps are of `indent` spaces; `IndentPastWidth` where a
    /// step is longer than a line.
    pub fn new(width: usize, indent: usize) -> Result<LayoutOptions, IndentPastWidth>
        ensures made { IfOk result (λ o. (o.width ≡ width) × (o.indent ≡ indent)) }
        ensures within { IfOk result (λ o. o.indent ≤ o.width) }
        ensures refused { IfErr result (λ e. (e.width ≡ width) × (e.indent ≡ indent)) }
        ensures past { IfErr result (λ e. e.width < e.indent) }
    {
        if indent <= width {
            Ok(LayoutOptions { width, indent })
        } else {
            Err(IndentPastWidth { width, indent })
        }
    }
}

impl Default for LayoutOptions {
    ghost use Rattle.std.specs.Prelude.{◌≡◌};

    ghost is_default = { λ o. (o.width ≡ 80) × (o.indent ≡ 2) };

    fn default() -> LayoutOptions {
        LayoutOptions {
            width: 80,
            indent: 2,
        }
    }
}

impl fmt::Display for IndentPastWidth {
    fn fmt<W: fmt::Write>(&self, f: &mut fmt::Formatter<W>) -> fmt::Result {
        write!(
            f,
            "an indent of {} is past the width, which is {}",
            self.indent, self.width
        )
    }
}
