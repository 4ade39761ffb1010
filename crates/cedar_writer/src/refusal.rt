//! Why a value isn't written.
ghost use Rattle.std.specs.Prelude.{Some};
ghost use Rattle.cedar_writer.specs.Refusals.{refusal_text, unwritable_text};

use std::alloc::AllocError;
use std::error::Error;
use std::fmt;

/// What of a value no text means.
#[derive(Debug, Clone, Copy, PartialEq, Eq)]
pub enum NotWritable {
    /// An `and` of two: a text joins operands by `&&` to one of any number, and conditions one
    /// behind another.
    Conjunction,
    /// An `||`, `&&`, `*` or sum with one operand alone.
    LonePart,
    /// A call of what the table lacks, of a function whose name a method or a variable has, or of
    /// a method without anything to call it on.
    Call,
    /// Right of `has`: attributes within attributes, of which one is no identifier.
    Attributes,
    /// A record with a key that stands twice.
    RepeatedKey,
    /// A slot in a condition.
    SlotInCondition,
    /// An action of a type whose last identifier isn't `Action`.
    NoAction,
}

/// Why a value isn't written.
#[derive(Debug, Clone, Copy, PartialEq, Eq)]
pub enum NotWritten {
    /// Want of memory.
    Memory,
    /// No text means the value: what of it none means.
    NotWritable(NotWritable),
}

impl From<AllocError> for NotWritten {
    ghost use Rattle.std.specs.Prelude.{◌≡◌};
    ghost use Rattle.cedar_writer.specs.declared.refusal.NotWritten.TheVariants.{Memory};

    ghost from_gives = { λ _ refusal. refusal ≡ Memory };

    fn from(_: AllocError) -> NotWritten {
        NotWritten::Memory
    }
}

impl fmt::Display for NotWritable {
    ghost output = { λ part. Some (unwritable_text part) };

    fn fmt<W: fmt::Write>(&self, f: &mut fmt::Formatter<W>) -> fmt::Result {
        f.write_str(match self {
            NotWritable::Conjunction => "an `and` of two outside of a policy's conditions",
            NotWritable::LonePart => "an operator of any number with one operand alone",
            NotWritable::Call => "a call that no text makes under this table",
            NotWritable::Attributes => "a `has` of attributes of which one is no identifier",
            NotWritable::RepeatedKey => "a record with a key that stands twice",
            NotWritable::SlotInCondition => "a slot in a condition",
            NotWritable::NoAction => "an action whose type isn't an action's",
        })
    }
}

impl fmt::Display for NotWritten {
    ghost output = { λ refusal. Some (refusal_text refusal) };

    fn fmt<W: fmt::Write>(&self, f: &mut fmt::Formatter<W>) -> fmt::Result {
        match self {
            NotWritten::Memory => f.write_str("want of memory"),
            NotWritten::NotWritable(what) => write!(f, "no text means {what}"),
        }
    }
}

impl Error for NotWritable {}

impl Error for NotWritten {}
