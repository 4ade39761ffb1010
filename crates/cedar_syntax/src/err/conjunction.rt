//! Lists as people write them: `a`, `a or b`, `a, b, or c`.
ghost use Rattle.std.specs.Prelude.{List, ℕ, map, codes, ◌++◌};
ghost use Rattle.std.specs.List.{flat_map};
ghost use Rattle.std.specs.Fmt.{WritesOnOk};
ghost use Rattle.cedar_syntax.specs.messages.Conjoined.{list_text};

use std::fmt;

/// What can be written in a list.
pub trait Listed {
    ghost text: { Self → List ℕ };

    /// Writes the text that is listed.
    fn write_listed<W: fmt::Write>(&self, f: &mut fmt::Formatter<W>) -> fmt::Result
    where
        ensures { WritesOnOk W.write_str_gives f.old result (text self.now) f.new };
}

/// Writes `first` and those after it, joined with commas and `word`.
pub fn write_list<T: Listed, W: fmt::Write>(
    first: &T,
    others: &[T],
    word: &str,
    f: &mut fmt::Formatter<W>,
) -> fmt::Result
    ensures { WritesOnOk W.write_str_gives f.old result
        (list_text word.now (T.text first.now) (map T.text others.now)) f.new }
{
    first.write_listed(f)?;
    let Some((last, between)) = others.split_last() else {
        return Ok(());
    };
    if between.is_empty() {
        write!(f, " {word} ")?;
        return last.write_listed(f);
    }
    write_between(between, f)?;
    write!(f, ", {word} ")?;
    last.write_listed(f)
}

// Each behind a comma.
fn write_between<T: Listed, W: fmt::Write>(items: &[T], f: &mut fmt::Formatter<W>) -> fmt::Result
    ensures { WritesOnOk W.write_str_gives f.old result
        (flat_map (λ item. codes ", " ++ T.text item) items.now) f.new }
{
    for item in items {
        f.write_str(", ")?;
        item.write_listed(f)?;
    }
    Ok(())
}
