//! The calls from a text to what it means.

use crate::faults::{Told, tell_failure};
use crate::formatted::{self, formats};
use crate::policies::set_text;
use crate::reports::copies;
use crate::tables::{find, has_word, styles};
use crate::trees::reads_again;
use crate::values::value_text;
use crate::{laid, written};
use cedar_expressions::Expr;
use cedar_policy_parser::formatter::format_policies;
use cedar_policy_parser::{layout_policies, parse_expression, parse_policyset};
use cedar_policy_store::PolicySet;
use cedar_syntax::cst;
use cedar_syntax::err::Failure;
use std::alloc::{AllocError, Global};

/// The calls that there are.
#[derive(Clone, Copy)]
pub(crate) enum ConversionCall {
    Expression,
    PolicySet,
    SameSet,
    Lines,
    Layout,
    WrittenExpression,
    WrittenSet,
    Table,
}

/// What a text can mean.
trait Meaning: Drop {
    fn tell(&self, alloc: Global, words: &str) -> Result<String, AllocError>;
}

impl Meaning for Expr {
    fn tell(&self, alloc: Global, words: &str) -> Result<String, AllocError> {
        let mut lines = value_text(alloc, self, has_word(words, "places"))?;
        copies(&mut lines, self)?;
        Ok(lines)
    }
}

impl Meaning for PolicySet {
    fn tell(&self, alloc: Global, _words: &str) -> Result<String, AllocError> {
        let mut lines = set_text(alloc, self)?;
        copies(&mut lines, self)?;
        Ok(lines)
    }
}

/// What a call gives for a text under the table that the words name: what the text means, or its
/// faults. Behind the word `places` the bytes of each node stand in a value, behind the word
/// `help` the hint of each fault below it.
pub(crate) fn answer(
    alloc: Global,
    call: ConversionCall,
    words: &str,
    text: &str,
) -> Result<String, AllocError> {
    match call {
        ConversionCall::Expression => expression(alloc, words, text),
        ConversionCall::PolicySet => policyset(alloc, words, text),
        ConversionCall::SameSet => same_set(alloc, words, text),
        ConversionCall::Lines => formatted::answer(alloc, words, text),
        ConversionCall::Layout => laid::answer(alloc, words, text),
        ConversionCall::WrittenExpression => written::answer::<Expr>(alloc, words, text),
        ConversionCall::WrittenSet => written::answer::<PolicySet>(alloc, words, text),
        ConversionCall::Table => find(alloc, words, text),
    }
}

/// Why a call refuses a text, if it does; of two texts, the one that is given.
pub(crate) fn refusal(
    alloc: Global,
    call: ConversionCall,
    words: &str,
    text: &str,
) -> Result<Option<Failure>, AllocError> {
    let styles = styles(alloc, words)?;
    let refusal = match call {
        ConversionCall::Expression | ConversionCall::WrittenExpression => {
            parse_expression(alloc, text, &styles).err()
        }
        ConversionCall::PolicySet | ConversionCall::SameSet | ConversionCall::WrittenSet => {
            parse_policyset(alloc, text, &styles).err()
        }
        ConversionCall::Lines => format_policies(alloc, text, &styles).err(),
        ConversionCall::Layout => layout_policies(alloc, text, &laid::options(words)).err(),
        ConversionCall::Table => None,
    };
    drop(styles);
    Ok(refusal)
}

fn expression(alloc: Global, words: &str, text: &str) -> Result<String, AllocError> {
    let styles = styles(alloc, words)?;
    let answer = parse_expression(alloc, text, &styles);
    drop(styles);
    let mut lines = what_is_meant::<Expr>(alloc, words, answer)?;
    reads_again::<cst::Expr>(alloc, &mut lines, text)?;
    Ok(lines)
}

fn policyset(alloc: Global, words: &str, text: &str) -> Result<String, AllocError> {
    let styles = styles(alloc, words)?;
    let answer = parse_policyset(alloc, text, &styles);
    let mut lines = what_is_meant::<PolicySet>(alloc, words, answer)?;
    reads_again::<cst::Policies>(alloc, &mut lines, text)?;
    formats(alloc, &mut lines, text, &styles)?;
    drop(styles);
    Ok(lines)
}

fn what_is_meant<T: Meaning>(
    alloc: Global,
    words: &str,
    answer: Result<T, Failure>,
) -> Result<String, AllocError> {
    match answer {
        Ok(value) => value.tell(alloc, words),
        Err(failure) => tell_failure(alloc, detail_under(words), failure),
    }
}

/// How much is told of a fault under these words.
fn detail_under(words: &str) -> Told {
    if has_word(words, "help") {
        Told::All
    } else {
        Told::Message
    }
}

/// Whether two texts, between which a line `==` stands, mean equal sets.
fn same_set(alloc: Global, words: &str, text: &str) -> Result<String, AllocError> {
    let Some((left, right)) = text.split_once("\n==\n") else {
        return String::from_str(alloc, "one text");
    };
    let styles = styles(alloc, words)?;
    let left = parse_policyset(alloc, left, &styles);
    let right = parse_policyset(alloc, right, &styles);
    drop(styles);
    same::<PolicySet>(alloc, left, right)
}

/// Whether two values are equal, or the faults of the first that isn't there.
pub(crate) fn same<T: PartialEq + Drop>(
    alloc: Global,
    left: Result<T, Failure>,
    right: Result<T, Failure>,
) -> Result<String, AllocError> {
    match left {
        Ok(left) => same_as::<T>(alloc, &left, right),
        Err(failure) => {
            drop(right);
            tell_failure(alloc, Told::Message, failure)
        }
    }
}

fn same_as<T: PartialEq + Drop>(
    alloc: Global,
    left: &T,
    right: Result<T, Failure>,
) -> Result<String, AllocError> {
    match right {
        Ok(right) => sameness(alloc, *left == right),
        Err(failure) => tell_failure(alloc, Told::Message, failure),
    }
}

fn sameness(alloc: Global, is_same: bool) -> Result<String, AllocError> {
    if is_same {
        String::from_str(alloc, "the same")
    } else {
        String::from_str(alloc, "not the same")
    }
}
