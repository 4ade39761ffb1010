//! How an expression is shown: the builder calls that made it, by their names. It goes down the
//! expression by an explicit list, however deep that is.
ghost use Rattle.std.specs.Prelude.{◌≡◌, [], ◌∷◌, ◌++◌, ◌+◌, ◌*◌, ◌<◌, OnOk, codes, map};
ghost use Rattle.std.specs.Fmt.{WritesOnOk};
ghost use Rattle.std.specs.List.{sum_by};
ghost use Rattle.cedar_expressions.specs.Parts.{parts, size};
ghost use Rattle.cedar_expressions.specs.Pieces.{kind_text, own_text, operand_shown, pair_shown, piece_text, pieces_text, piece_weight, pieces_weight, text_now};
ghost use Rattle.cedar_expressions.specs.Shown.{expr_text, each_behind_comma, call_text, unary_call_text, binary_call_text, binary_name, nary_name, list_call_text};

use crate::escape::{EscapedPattern, EscapedText};
use crate::stack::Stack;
use crate::{
    AddOp, BinaryCall, BinaryOp, Expr, ExprKind, ListCall, Literal, Name, NaryOp, PatternElem,
    SlotId, Text, UnaryCall, UnaryOp, Var,
};
use std::alloc::{AllocError, Global};
use std::fmt::{self, Display};

/// What is shown as it stands.
#[derive(Clone, Copy)]
pub(crate) enum Leaf<'a> {
    /// A constant.
    Literal(&'a Literal),
    /// A variable.
    Var(Var),
    /// A slot.
    Slot(SlotId),
    /// A name.
    Name(&'a Name),
    /// A text as a string.
    Text(&'a str),
    /// Later texts as strings, each behind a comma.
    Texts(&'a [Text]),
    /// A pattern as a string.
    Pattern(&'a [PatternElem]),
    /// An operator of a sum.
    Op(AddOp),
}

/// What is still to be shown.
#[derive(Clone, Copy)]
pub(crate) enum Piece<'a> {
    /// A word, or signs between others.
    Word(&'a str),
    /// What is shown as it stands.
    Leaf(Leaf<'a>),
    /// An expression.
    Expr(&'a Expr),
    /// Later expressions, each behind a comma.
    Items(&'a [Expr]),
    /// Later operands of a sum, each behind a comma and its operator.
    Terms(&'a [(AddOp, Expr)]),
    /// Later parts of a record, each behind a comma and its key.
    Pairs(&'a [(Text, Expr)]),
}

type Pieces<'a> = Stack<Piece<'a>>;

impl fmt::Display for Leaf<'_> {
    ghost use Rattle.std.proofs.Common.{Some};
    ghost use Rattle.cedar_expressions.specs.Pieces.{leaf_text};

    ghost output = { λ leaf. Some (leaf_text leaf) };

    fn fmt<W: fmt::Write>(&self, f: &mut fmt::Formatter<W>) -> fmt::Result {
        match self {
            Leaf::Literal(literal) => literal.fmt(f),
            Leaf::Var(var) => var.fmt(f),
            Leaf::Slot(id) => id.fmt(f),
            Leaf::Name(name) => name.fmt(f),
            Leaf::Text(text) => write!(f, "\"{}\"", EscapedText::new(text)),
            Leaf::Texts(texts) => LaterTexts(texts).fmt(f),
            Leaf::Pattern(pattern) => write!(f, "\"{}\"", EscapedPattern(pattern)),
            Leaf::Op(op) => op.fmt(f),
        }
    }
}

/// Texts as strings, each behind a comma.
#[derive(Clone, Copy)]
struct LaterTexts<'a>(&'a [Text]);

impl fmt::Display for LaterTexts<'_> {
    ghost use Rattle.std.proofs.Common.{Some};
    ghost use Rattle.std.specs.Prelude.{map};
    ghost use Rattle.cedar_expressions.specs.Shown.{each_behind_comma, string_text};

    ghost output = { λ texts. Some (each_behind_comma (map string_text texts.0.now)) };

    fn fmt<W: fmt::Write>(&self, f: &mut fmt::Formatter<W>) -> fmt::Result {
        for text in self.0 {
            write!(f, ", \"{}\"", EscapedText::new(text.as_str()))?;
        }
        Ok(())
    }
}

/// The builder calls that made the expression, by their names, as `get_attr(context, "mfa")`;
/// constants, variables and slots as they are written. But for places nothing is left out. It goes
/// down by a list, however deep the expression is, and fails where memory for that is wanting.
/// (`cedar_writer` gives Cedar text.)
impl fmt::Display for Expr {
    ghost use Rattle.std.proofs.Common.{Some};
    ghost use Rattle.cedar_expressions.specs.Shown.{expr_text};

    ghost output = { λ e. Some (expr_text e) };

    fn fmt<W: fmt::Write>(&self, f: &mut fmt::Formatter<W>) -> fmt::Result {
        match self.kind() {
            ExprKind::Val(literal) => literal.fmt(f),
            ExprKind::Var(var) => var.fmt(f),
            ExprKind::Slot(id) => id.fmt(f),
            ExprKind::Ite(parts) => show_all(self, parts.alloc(), f),
            ExprKind::Unary(_, operand) => show_all(self, operand.alloc(), f),
            ExprKind::Binary(_, parts) => show_all(self, parts.alloc(), f),
            ExprKind::Nary(_, first, _) => show_all(self, first.alloc(), f),
            ExprKind::Sum(first, _) => show_all(self, first.alloc(), f),
            ExprKind::List(_, items) => show_all(self, items.alloc(), f),
            ExprKind::Record(pairs) => show_all(self, pairs.alloc(), f),
        }
    }
}

/// Shows an expression by a list of what is still to be shown.
fn show_all<W: fmt::Write>(expr: &Expr, alloc: Global, f: &mut fmt::Formatter<W>) -> fmt::Result
    ensures { WritesOnOk W.write_str_gives f.old result (expr_text expr.now) f.new }
{
    let mut rest = Stack::with_room(alloc)?;
    rest.push(Piece::Expr(expr))?;
    while let Some(piece) = rest.pop() {
        show_next(piece, &mut rest, f)?;
    }
    Ok(())
}

/// Shows what is shown as it stands, or puts in its place what it is shown as.
fn show_next<'a, W: fmt::Write>(
    piece: Piece<'a>,
    rest: &mut Pieces<'a>,
    f: &mut fmt::Formatter<W>,
) -> fmt::Result
    ensures shown { WritesOnOk W.write_str_gives f.old result (text_now piece.entry) f.new }
    ensures text { OnOk result (text_now piece.entry ++ pieces_text rest.new
        ≡ piece_text piece.entry ++ pieces_text rest.old) }
    ensures less { OnOk result (pieces_weight rest.new
        < piece_weight piece.entry + pieces_weight rest.old) }
{
    match piece {
        Piece::Word(word) => f.write_str(word),
        Piece::Leaf(leaf) => leaf.fmt(f),
        Piece::Expr(expr) => Ok(open(expr, rest)?),
        Piece::Items(items) => Ok(open_items(items, rest)?),
        Piece::Terms(terms) => Ok(open_terms(terms, rest)?),
        Piece::Pairs(pairs) => Ok(open_pairs(pairs, rest)?),
    }
}

/// Puts what an expression is shown as on what is still to be shown.
fn open<'a>(expr: &'a Expr, rest: &mut Pieces<'a>) -> Result<(), AllocError>
    ensures text { OnOk result (pieces_text rest.new
        ≡ own_text expr.now ++ pieces_text rest.old) }
    ensures less { OnOk result (pieces_weight rest.new
        < 16 + 20 * sum_by size (parts expr.now) + pieces_weight rest.old) }
{
    match expr.kind() {
        ExprKind::Val(literal) => put(rest, &[Piece::Leaf(Leaf::Literal(literal))]),
        ExprKind::Var(var) => put(rest, &[Piece::Leaf(Leaf::Var(*var))]),
        ExprKind::Slot(id) => put(rest, &[Piece::Leaf(Leaf::Slot(*id))]),
        ExprKind::Ite(parts) => open_conditional(parts.as_ref(), rest),
        ExprKind::Unary(call, operand) => open_unary(call, operand.as_ref(), rest),
        ExprKind::Binary(call, parts) => open_binary(call, parts.as_ref(), rest),
        ExprKind::Nary(op, first, more) => { open_nary(*op, first.as_ref(), more.as_slice(), rest) }
        ExprKind::Sum(first, terms) => open_sum(first.as_ref(), terms.as_slice(), rest),
        ExprKind::List(call, items) => open_list(call, items.as_slice(), rest),
        ExprKind::Record(pairs) => open_record(pairs.as_slice(), rest),
    }
}

fn open_conditional<'a>(
    parts: &'a (Expr, Expr, Expr),
    rest: &mut Pieces<'a>,
) -> Result<(), AllocError>
    ensures text { OnOk result (pieces_text rest.new ≡ call_text (codes "ite")
        (expr_text parts.now.0 ∷ expr_text parts.now.1 ∷ expr_text parts.now.2 ∷ [])
        ++ pieces_text rest.old) }
    ensures less { OnOk result (pieces_weight rest.new
        < 16 + 20 * sum_by size (parts.now.0 ∷ parts.now.1 ∷ parts.now.2 ∷ [])
        + pieces_weight rest.old) }
{
    let pieces = [
        Piece::Word("ite("),
        Piece::Expr(&parts.0),
        Piece::Word(", "),
        Piece::Expr(&parts.1),
        Piece::Word(", "),
        Piece::Expr(&parts.2),
        Piece::Word(")"),
    ];
    put(rest, &pieces)
}

fn open_unary<'a>(
    call: &'a UnaryCall,
    operand: &'a Expr,
    rest: &mut Pieces<'a>,
) -> Result<(), AllocError>
    ensures text { OnOk result (pieces_text rest.new
        ≡ unary_call_text call.now (expr_text operand.now) ++ pieces_text rest.old) }
    ensures less { OnOk result (pieces_weight rest.new
        < 16 + 20 * sum_by size (operand.now ∷ []) + pieces_weight rest.old) }
{
    let (a, end) = (Piece::Expr(operand), Piece::Word(")"));
    let comma = Piece::Word(", ");
    match call {
        UnaryCall::Op(UnaryOp::Not) => put(rest, &[Piece::Word("not("), a, end]),
        UnaryCall::Op(UnaryOp::Neg) => put(rest, &[Piece::Word("neg("), a, end]),
        UnaryCall::IsEmpty => put(rest, &[Piece::Word("is_empty("), a, end]),
        UnaryCall::Like(pattern) => {
            let pattern = Piece::Leaf(Leaf::Pattern(pattern.as_slice()));
            put(rest, &[Piece::Word("like("), a, comma, pattern, end])
        }
        UnaryCall::Is(entity_type) => {
            let name = Piece::Leaf(Leaf::Name(entity_type.name()));
            put(rest, &[Piece::Word("is_entity_type("), a, comma, name, end])
        }
        UnaryCall::GetAttr(attr) => {
            let attr = Piece::Leaf(Leaf::Text(attr.as_str()));
            put(rest, &[Piece::Word("get_attr("), a, comma, attr, end])
        }
        UnaryCall::ExtendedHasAttr(first, more) => {
            let first = Piece::Leaf(Leaf::Text(first.as_str()));
            let more = Piece::Leaf(Leaf::Texts(more.as_slice()));
            let name = Piece::Word("extended_has_attr(");
            put(rest, &[name, a, comma, first, more, end])
        }
    }
}

fn open_binary<'a>(
    call: &'a BinaryCall,
    parts: &'a (Expr, Expr),
    rest: &mut Pieces<'a>,
) -> Result<(), AllocError>
    ensures text { OnOk result (pieces_text rest.new ≡ binary_call_text call.now
        (expr_text parts.now.0) (expr_text parts.now.1) ++ pieces_text rest.old) }
    ensures less { OnOk result (pieces_weight rest.new
        < 16 + 20 * sum_by size (parts.now.0 ∷ parts.now.1 ∷ []) + pieces_weight rest.old) }
{
    let (a, b) = (Piece::Expr(&parts.0), Piece::Expr(&parts.1));
    let (comma, end) = (Piece::Word(", "), Piece::Word(")"));
    match call {
        BinaryCall::Op(op) => {
            let name = Piece::Word(name_of_binary(*op));
            put(rest, &[name, Piece::Word("("), a, comma, b, end])
        }
        BinaryCall::IsIn(entity_type) => {
            let entity_type = Piece::Leaf(Leaf::Name(entity_type.name()));
            let name = Piece::Word("is_in_entity_type(");
            put(rest, &[name, a, comma, entity_type, comma, b, end])
        }
    }
}

fn name_of_binary(op: BinaryOp) -> &'static str
    ensures { result.now ≡ binary_name op }
{
    match op {
        BinaryOp::And => "and",
        BinaryOp::Less => "less",
        BinaryOp::LessEq => "lesseq",
        BinaryOp::Greater => "greater",
        BinaryOp::GreaterEq => "greatereq",
        BinaryOp::Eq => "is_eq",
        BinaryOp::NotEq => "noteq",
        BinaryOp::In => "is_in",
        BinaryOp::Contains => "contains",
        BinaryOp::ContainsAll => "contains_all",
        BinaryOp::ContainsAny => "contains_any",
        BinaryOp::GetTag => "get_tag",
        BinaryOp::HasTag => "has_tag",
    }
}

fn open_nary<'a>(
    op: NaryOp,
    first: &'a Expr,
    more: &'a [Expr],
    rest: &mut Pieces<'a>,
) -> Result<(), AllocError>
    ensures text { OnOk result (pieces_text rest.new
        ≡ call_text (nary_name op) (expr_text first.now ∷ map expr_text more.now)
        ++ pieces_text rest.old) }
    ensures less { OnOk result (pieces_weight rest.new
        < 16 + 20 * sum_by size (first.now ∷ more.now) + pieces_weight rest.old) }
{
    let name = Piece::Word(name_of_nary(op));
    let (first, more) = (Piece::Expr(first), Piece::Items(more));
    put(
        rest,
        &[name, Piece::Word("("), first, more, Piece::Word(")")],
    )
}

fn name_of_nary(op: NaryOp) -> &'static str
    ensures { result.now ≡ nary_name op }
{
    match op {
        NaryOp::Or => "or_nary",
        NaryOp::And => "and_naryl",
        NaryOp::Mul => "mul_nary",
    }
}

fn open_sum<'a>(
    first: &'a Expr,
    terms: &'a [(AddOp, Expr)],
    rest: &mut Pieces<'a>,
) -> Result<(), AllocError>
    ensures text { OnOk result (pieces_text rest.new
        ≡ call_text (codes "add_nary") (expr_text first.now ∷ map operand_shown terms.now)
        ++ pieces_text rest.old) }
    ensures less { OnOk result (pieces_weight rest.new
        < 16 + 20 * sum_by size (first.now ∷ map (λ t. t.1) terms.now)
        + pieces_weight rest.old) }
{
    let (first, more) = (Piece::Expr(first), Piece::Terms(terms));
    put(
        rest,
        &[Piece::Word("add_nary("), first, more, Piece::Word(")")],
    )
}

fn open_list<'a>(
    call: &'a ListCall,
    items: &'a [Expr],
    rest: &mut Pieces<'a>,
) -> Result<(), AllocError>
    ensures text { OnOk result (pieces_text rest.new
        ≡ list_call_text call.now (map expr_text items.now) ++ pieces_text rest.old) }
    ensures less { OnOk result (pieces_weight rest.new
        < 16 + 20 * sum_by size items.now + pieces_weight rest.old) }
{
    match call {
        ListCall::Set => match items.split_first() {
            None => put(rest, &[Piece::Word("set()")]),
            Some((first, more)) => {
                let (first, more) = (Piece::Expr(first), Piece::Items(more));
                put(rest, &[Piece::Word("set("), first, more, Piece::Word(")")])
            }
        },
        ListCall::Extension(function) => {
            let (function, items) = (Piece::Leaf(Leaf::Name(function)), Piece::Items(items));
            let name = Piece::Word("call_extension_fn(");
            put(rest, &[name, function, items, Piece::Word(")")])
        }
    }
}

fn open_record<'a>(pairs: &'a [(Text, Expr)], rest: &mut Pieces<'a>) -> Result<(), AllocError>
    ensures text { OnOk result (pieces_text rest.new
        ≡ call_text (codes "record") (map pair_shown pairs.now) ++ pieces_text rest.old) }
    ensures less { OnOk result (pieces_weight rest.new
        < 16 + 20 * sum_by size (map (λ p. p.1) pairs.now) + pieces_weight rest.old) }
{
    match pairs.split_first() {
        None => put(rest, &[Piece::Word("record()")]),
        Some((first, more)) => {
            let key = Piece::Leaf(Leaf::Text(first.0.as_str()));
            let (value, more) = (Piece::Expr(&first.1), Piece::Pairs(more));
            let (name, colon) = (Piece::Word("record("), Piece::Word(": "));
            put(rest, &[name, key, colon, value, more, Piece::Word(")")])
        }
    }
}

/// The first of later expressions behind a comma, and the others.
fn open_items<'a>(items: &'a [Expr], rest: &mut Pieces<'a>) -> Result<(), AllocError>
    ensures text { OnOk result (pieces_text rest.new
        ≡ each_behind_comma (map expr_text items.now) ++ pieces_text rest.old) }
    ensures less { OnOk result (pieces_weight rest.new
        < 1 + 20 * sum_by size items.now + pieces_weight rest.old) }
{
    match items.split_first() {
        None => Ok(()),
        Some((first, more)) => {
            let (first, more) = (Piece::Expr(first), Piece::Items(more));
            put(rest, &[Piece::Word(", "), first, more])
        }
    }
}

/// The first of a sum's later operands behind a comma and its operator, and the others.
fn open_terms<'a>(terms: &'a [(AddOp, Expr)], rest: &mut Pieces<'a>) -> Result<(), AllocError>
    ensures text { OnOk result (pieces_text rest.new
        ≡ each_behind_comma (map operand_shown terms.now) ++ pieces_text rest.old) }
    ensures less { OnOk result (pieces_weight rest.new
        < 1 + 20 * sum_by size (map (λ t. t.1) terms.now) + pieces_weight rest.old) }
{
    match terms.split_first() {
        None => Ok(()),
        Some((first, more)) => {
            let op = Piece::Leaf(Leaf::Op(first.0));
            let (value, more) = (Piece::Expr(&first.1), Piece::Terms(more));
            put(
                rest,
                &[Piece::Word(", "), op, Piece::Word(" "), value, more],
            )
        }
    }
}

/// The first of a record's later parts behind a comma and its key, and the others.
fn open_pairs<'a>(pairs: &'a [(Text, Expr)], rest: &mut Pieces<'a>) -> Result<(), AllocError>
    ensures text { OnOk result (pieces_text rest.new
        ≡ each_behind_comma (map pair_shown pairs.now) ++ pieces_text rest.old) }
    ensures less { OnOk result (pieces_weight rest.new
        < 1 + 20 * sum_by size (map (λ p. p.1) pairs.now) + pieces_weight rest.old) }
{
    match pairs.split_first() {
        None => Ok(()),
        Some((first, more)) => {
            let key = Piece::Leaf(Leaf::Text(first.0.as_str()));
            let (value, more) = (Piece::Expr(&first.1), Piece::Pairs(more));
            put(
                rest,
                &[Piece::Word(", "), key, Piece::Word(": "), value, more],
            )
        }
    }
}

/// Puts these on top, the first uppermost.
fn put<'a>(rest: &mut Pieces<'a>, pieces: &[Piece<'a>]) -> Result<(), AllocError>
    ensures { OnOk result (rest.new ≡ pieces.now ++ rest.old) }
{
    let mut left = pieces.len();
    while left > 0 {
        left -= 1;
        rest.push(pieces[left])?;
    }
    Ok(())
}
