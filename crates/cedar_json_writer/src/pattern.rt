//! The parts of a pattern: wildcards, and the texts between them.
ghost use Rattle.std.specs.Prelude.{[]};
ghost use Rattle.json.specs.Tree.{items_tokens};
ghost use Rattle.cedar_json_writer.specs.Forms.{pattern_items};
ghost use Rattle.cedar_json_writer.specs.machines.Outputs.{run_tokens, Appends};

use cedar_expressions::PatternElem;
use json::Writer;
use std::alloc::{AllocError, Global};

/// Writes the parts of a pattern, characters that stand together as one text, and the bracket that
/// closes their array.
pub fn write_pattern(
    alloc: Global,
    elems: &[PatternElem],
    out: &mut Writer,
) -> Result<(), AllocError>
    ensures { Appends result out.old out.new (items_tokens (pattern_items [] elems.now)) }
{
    let mut run = String::new(alloc);
    let mut left = elems;
    while let Some((first, rest)) = left.split_first() {
        match first {
            PatternElem::Char(character) => run.push(*character)?,
            PatternElem::Wildcard => {
                write_run(run.as_str(), out)?;
                run.clear();
                out.string("Wildcard")?;
            }
        }
        left = rest;
    }
    write_run(run.as_str(), out)?;
    out.end_array()
}

/// A text that stands for itself, if it has a character.
fn write_run(run: &str, out: &mut Writer) -> Result<(), AllocError>
    ensures { Appends result out.old out.new (run_tokens run.now) }
{
    if run.is_empty() {
        return Ok(());
    }
    out.begin_object()?;
    out.key("Literal")?;
    out.string(run)?;
    out.end_object()
}
