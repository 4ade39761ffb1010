//! Values of expressions as text: the calls of the builder that make them, as `is_eq(1,
//! not(principal))`.
//!
//! Constants, variables and slots stand as they are written, a string escaped between double
//! quotes, a record's key with its own characters; in a pattern `*` is any text, and a backslash
//! stands before a star and before a backslash.

use cedar_expressions::{
    AddOp, BinaryCall, BinaryOp, Boxed, Expr, ExprKind, Items, ListCall, NaryOp, PatternElem,
    Place, Text, UnaryCall, UnaryOp,
};
use std::alloc::{AllocError, Global};
use std::fmt::Display;

/// What is written of a value so far.
#[derive(Drop)]
pub(crate) struct Written {
    alloc: Global,
    text: String,
    /// Whether the bytes at which a node stands are written behind it, as `1@0..1`.
    has_places: bool,
}

/// A value's text.
pub(crate) fn value_text(
    alloc: Global,
    value: &Expr,
    has_places: bool,
) -> Result<String, AllocError> {
    let mut out = Written {
        alloc,
        text: String::new(alloc),
        has_places,
    };
    write(value, &mut out)?;
    let Written { text, .. } = out;
    Ok(text)
}

impl Written {
    fn push(&mut self, text: &str) -> Result<(), AllocError> {
        self.text.push_str(text)
    }

    fn show<T: Display>(&mut self, value: &T) -> Result<(), AllocError> {
        let text = format!(in self.alloc; "{value}")?;
        self.text.push_str(text.as_str())
    }

    fn place(&mut self, place: Option<Place>) -> Result<(), AllocError> {
        match place {
            Some(place) => {
                let end = place.offset.saturating_add(place.length);
                let text = format!(in self.alloc; "@{}..{end}", place.offset)?;
                self.text.push_str(text.as_str())
            }
            None => self.text.push_str("@-"),
        }
    }
}

#[cycle(write)]
fn write(value: &Expr, out: &mut Written) -> Result<(), AllocError> {
    write_kind(value.kind(), out)?;
    if out.has_places {
        return out.place(value.place());
    }
    Ok(())
}

#[cycle(write)]
fn write_kind(kind: &ExprKind, out: &mut Written) -> Result<(), AllocError> {
    match kind {
        ExprKind::Val(literal) => out.show(literal),
        ExprKind::Var(var) => out.show(var),
        ExprKind::Slot(slot) => out.show(slot),
        ExprKind::Ite(parts) => write_conditional(parts, out),
        ExprKind::Unary(call, operand) => {
            out.push(unary_name(call))?;
            write(operand.as_ref(), out)?;
            end_unary(call, out)
        }
        ExprKind::Binary(call, parts) => {
            out.push(binary_name(call))?;
            write(&parts.as_ref().0, out)?;
            write_type(call, out)?;
            write(&parts.as_ref().1, out)?;
            out.push(")")
        }
        ExprKind::Nary(op, first, rest) => {
            out.push(nary_name(*op))?;
            write(first.as_ref(), out)?;
            write_others(rest, out)
        }
        ExprKind::Sum(first, rest) => {
            out.push("add_nary(")?;
            write(first.as_ref(), out)?;
            write_terms(rest, out)
        }
        ExprKind::List(call, items) => {
            begin_list(call, out)?;
            write_items(items, out)
        }
        ExprKind::Record(pairs) => write_pairs(pairs, out),
    }
}

/// A condition, what it gives where it holds, and what else.
#[cycle(write)]
fn write_conditional(
    parts: &Boxed<(Expr, Expr, Expr)>,
    out: &mut Written,
) -> Result<(), AllocError> {
    out.push("ite(")?;
    write(&parts.as_ref().0, out)?;
    out.push(", ")?;
    write(&parts.as_ref().1, out)?;
    out.push(", ")?;
    write(&parts.as_ref().2, out)?;
    out.push(")")
}

/// The operands behind a first one.
#[cycle(write)]
fn write_others(items: &Items<Expr>, out: &mut Written) -> Result<(), AllocError> {
    for item in items.as_slice() {
        out.push(", ")?;
        write(item, out)?;
    }
    out.push(")")
}

/// The operands behind the first one of a sum, each behind its sign.
#[cycle(write)]
fn write_terms(terms: &Items<(AddOp, Expr)>, out: &mut Written) -> Result<(), AllocError> {
    for (op, item) in terms.as_slice() {
        out.push(", ")?;
        out.show(op)?;
        out.push(" ")?;
        write(item, out)?;
    }
    out.push(")")
}

/// The items of a list, behind the name of its call.
#[cycle(write)]
fn write_items(items: &Items<Expr>, out: &mut Written) -> Result<(), AllocError> {
    let mut has_item = false;
    for item in items.as_slice() {
        separate(has_item, out)?;
        write(item, out)?;
        has_item = true;
    }
    close(has_item, out)
}

#[cycle(write)]
fn write_pairs(pairs: &Items<(Text, Expr)>, out: &mut Written) -> Result<(), AllocError> {
    out.push("record")?;
    let mut has_item = false;
    for (key, item) in pairs.as_slice() {
        separate(has_item, out)?;
        out.show(key)?;
        out.push(": ")?;
        write(item, out)?;
        has_item = true;
    }
    close(has_item, out)
}

/// What stands before an item of a list: a comma, if there was one before it.
fn separate(has_item: bool, out: &mut Written) -> Result<(), AllocError> {
    if has_item {
        out.push(", ")
    } else {
        out.push("(")
    }
}

/// Closes a list, which may be empty.
fn close(has_item: bool, out: &mut Written) -> Result<(), AllocError> {
    if has_item {
        out.push(")")
    } else {
        out.push("()")
    }
}

fn unary_name(call: &UnaryCall) -> &'static str {
    match call {
        UnaryCall::Op(UnaryOp::Not) => "not(",
        UnaryCall::Op(UnaryOp::Neg) => "neg(",
        UnaryCall::IsEmpty => "is_empty(",
        UnaryCall::Like(_) => "like(",
        UnaryCall::Is(_) => "is_entity_type(",
        UnaryCall::GetAttr(_) => "get_attr(",
        UnaryCall::ExtendedHasAttr(_, _) => "extended_has_attr(",
    }
}

/// What a call of one expression takes behind that.
fn end_unary(call: &UnaryCall, out: &mut Written) -> Result<(), AllocError> {
    match call {
        UnaryCall::Op(_) | UnaryCall::IsEmpty => out.push(")"),
        UnaryCall::Like(pattern) => {
            out.push(", \"")?;
            write_pattern(pattern.as_slice(), &mut out.text)?;
            out.push("\")")
        }
        UnaryCall::Is(entity_type) => {
            out.push(", ")?;
            out.show(entity_type)?;
            out.push(")")
        }
        UnaryCall::GetAttr(attr) => {
            write_attribute(attr, out)?;
            out.push(")")
        }
        UnaryCall::ExtendedHasAttr(first, rest) => {
            write_attribute(first, out)?;
            for attr in rest.as_slice() {
                write_attribute(attr, out)?;
            }
            out.push(")")
        }
    }
}

fn write_attribute(attr: &Text, out: &mut Written) -> Result<(), AllocError> {
    out.push(", \"")?;
    out.push(attr.as_str())?;
    out.push("\"")
}

/// A pattern, as one may write it.
pub(crate) fn write_pattern(pattern: &[PatternElem], text: &mut String) -> Result<(), AllocError> {
    for element in pattern {
        match element {
            PatternElem::Wildcard => text.push('*')?,
            PatternElem::Char('*') => text.push_str("\\*")?,
            PatternElem::Char('\\') => text.push_str("\\\\")?,
            PatternElem::Char(other) => text.push(*other)?,
        }
    }
    Ok(())
}

fn binary_name(call: &BinaryCall) -> &'static str {
    match call {
        BinaryCall::Op(op) => operator_name(*op),
        BinaryCall::IsIn(_) => "is_in_entity_type(",
    }
}

fn operator_name(op: BinaryOp) -> &'static str {
    match op {
        BinaryOp::And => "and(",
        BinaryOp::Less => "less(",
        BinaryOp::LessEq => "lesseq(",
        BinaryOp::Greater => "greater(",
        BinaryOp::GreaterEq => "greatereq(",
        BinaryOp::Eq => "is_eq(",
        BinaryOp::NotEq => "noteq(",
        BinaryOp::In => "is_in(",
        BinaryOp::Contains => "contains(",
        BinaryOp::ContainsAll => "contains_all(",
        BinaryOp::ContainsAny => "contains_any(",
        BinaryOp::GetTag => "get_tag(",
        BinaryOp::HasTag => "has_tag(",
    }
}

/// What stands between the two expressions of a call.
fn write_type(call: &BinaryCall, out: &mut Written) -> Result<(), AllocError> {
    out.push(", ")?;
    match call {
        BinaryCall::Op(_) => Ok(()),
        BinaryCall::IsIn(entity_type) => {
            out.show(entity_type)?;
            out.push(", ")
        }
    }
}

fn nary_name(op: NaryOp) -> &'static str {
    match op {
        NaryOp::Or => "or_nary(",
        NaryOp::And => "and_naryl(",
        NaryOp::Mul => "mul_nary(",
    }
}

/// The name of a call of a list, without its parenthesis.
fn begin_list(call: &ListCall, out: &mut Written) -> Result<(), AllocError> {
    match call {
        ListCall::Set => out.push("set"),
        ListCall::Extension(function) => {
            out.push("call_extension_fn ")?;
            out.show(function)
        }
    }
}
