//! What stands in the place of an expression that is next to be written.
ghost use Rattle.std.specs.Prelude.{◌≡◌, ◌∷◌, [], map, Option, MatchOption};
ghost use Rattle.std.specs.List.{list_all};
ghost use Rattle.cedar_expressions.specs.declared.atoms.Literal.TheVariants as literals;
ghost use Rattle.cedar_expressions.specs.declared.place.Place.{Place};
ghost use Rattle.cedar_expressions.specs.Path.{is_unreserved_identifier};
ghost use Rattle.cedar_expressions.specs.Meaning.{expr_meaning, unary_call, operator_call, binary_call, between_call, nary_call};
ghost use Rattle.cedar_expressions.specs.Value as v;
ghost use Rattle.cedar_expressions.specs.Value.{values, terms};
ghost use Rattle.cedar_conversion.specs.strict.Extensions.{Extensions};
ghost use Rattle.cedar_conversion.specs.strict.Table.{table_of};
ghost use Rattle.cedar_writer.specs.Fitness.{IsFitSought};
ghost use Rattle.cedar_writer.specs.machines.Pending.{infix_todo, method_todo, sought, whole_todo};
ghost use Rattle.cedar_writer.specs.machines.Todos.{todo_seen, todos_seen, term_meaning};
ghost use Rattle.cedar_writer.specs.machines.Turns.{Opens, Stacks};

use crate::calls::open_list;
use crate::records::open_record;
use crate::refusal::{NotWritable, NotWritten};
use crate::sort::Sort;
use crate::todo::{Pending, Todo, put_all};
use cedar_conversion::styles::ExtStyles;
use cedar_expressions::{
    AddOp, BinaryCall, BinaryOp, EntityUID, Expr, ExprKind, Items, Literal, NaryOp, SlotId, Text,
    UnaryCall, UnaryOp, UnreservedId, Var,
};
use cedar_lexer::token::TokenKind;

/// Puts in the place of an expression what it is written as, without parentheses around it.
pub fn open<'a>(
    expr: &'a Expr,
    styles: &ExtStyles,
    todo: &mut Pending<'a>,
) -> Result<(), NotWritten>
    ensures { Opens (table_of styles.now) (expr_meaning expr.now) result
        (todos_seen todo.old) (todos_seen todo.new) }
{
    match expr.kind() {
        ExprKind::Val(literal) => open_literal(literal, todo),
        ExprKind::Var(var) => open_var(*var, todo),
        ExprKind::Slot(slot) => open_slot(*slot, todo),
        ExprKind::Ite(parts) => open_conditional(parts.as_ref(), todo),
        ExprKind::Unary(call, a) => open_unary(call, a.as_ref(), todo),
        ExprKind::Binary(call, parts) => open_binary(call, parts.as_ref(), todo),
        ExprKind::Nary(op, first, rest) => open_nary(*op, first.as_ref(), rest.as_slice(), todo),
        ExprKind::Sum(first, rest) => open_sum(first.as_ref(), rest.as_slice(), todo),
        ExprKind::List(call, items) => open_list(call, items.as_slice(), styles, todo),
        ExprKind::Record(pairs) => open_record(pairs, todo),
    }
}

fn open_literal<'a>(literal: &'a Literal, todo: &mut Pending<'a>) -> Result<(), NotWritten>
    ensures { (table : Extensions) → Opens table (v.val literal.now) result
        (todos_seen todo.old) (todos_seen todo.new) }
{
    match literal {
        Literal::Bool(truth) => open_truth(*truth, todo),
        Literal::Long(number) => open_number(*number, todo),
        Literal::String(text) => Ok(put_all(todo, &[Todo::Text(text.as_str())])?),
        Literal::EntityUID(entity) => open_entity(entity, todo),
    }
}

fn open_truth(truth: bool, todo: &mut Pending<'_>) -> Result<(), NotWritten>
    ensures { (table : Extensions) → Opens table (v.val (literals.Bool truth)) result
        (todos_seen todo.old) (todos_seen todo.new) }
{
    if truth {
        Ok(put_all(todo, &[Todo::Word(TokenKind::True, "true")])?)
    } else {
        Ok(put_all(todo, &[Todo::Word(TokenKind::False, "false")])?)
    }
}

fn open_number(number: i64, todo: &mut Pending<'_>) -> Result<(), NotWritten>
    ensures { (table : Extensions) → Opens table (v.val (literals.Long number)) result
        (todos_seen todo.old) (todos_seen todo.new) }
{
    let size = Todo::Number(number.unsigned_abs());
    if number < 0 {
        Ok(put_all(todo, &[Todo::Word(TokenKind::Minus, "-"), size])?)
    } else {
        Ok(put_all(todo, &[size])?)
    }
}

fn open_entity<'a>(entity: &'a EntityUID, todo: &mut Pending<'a>) -> Result<(), NotWritten>
    ensures { (table : Extensions) → Opens table (v.val (literals.EntityUID entity.now)) result
        (todos_seen todo.old) (todos_seen todo.new) }
{
    let items = [
        Todo::Name(entity.entity_type().name()),
        Todo::Word(TokenKind::ColonColon, "::"),
        Todo::Text(entity.eid().as_str()),
    ];
    Ok(put_all(todo, &items)?)
}

fn open_var(var: Var, todo: &mut Pending<'_>) -> Result<(), NotWritten>
    ensures { (table : Extensions) → Opens table (v.var var) result
        (todos_seen todo.old) (todos_seen todo.new) }
{
    let word = match var {
        Var::Principal => Todo::Word(TokenKind::Principal, "principal"),
        Var::Action => Todo::Word(TokenKind::Action, "action"),
        Var::Resource => Todo::Word(TokenKind::Resource, "resource"),
        Var::Context => Todo::Word(TokenKind::Context, "context"),
    };
    Ok(put_all(todo, &[word])?)
}

fn open_slot(slot: SlotId, todo: &mut Pending<'_>) -> Result<(), NotWritten>
    ensures { (table : Extensions) (place : Option Place)
        → Opens table (v.slot (record { id = slot; place = place })) result
        (todos_seen todo.old) (todos_seen todo.new) }
{
    let word = match slot {
        SlotId::Principal => Todo::Word(TokenKind::PrincipalSlot, "?principal"),
        SlotId::Resource => Todo::Word(TokenKind::ResourceSlot, "?resource"),
    };
    Ok(put_all(todo, &[word])?)
}

fn open_conditional<'a>(
    parts: &'a (Expr, Expr, Expr),
    todo: &mut Pending<'a>,
) -> Result<(), NotWritten>
    ensures { (table : Extensions) → Opens table (v.ite (expr_meaning parts.now.0)
        (expr_meaning parts.now.1) (expr_meaning parts.now.2)) result
        (todos_seen todo.old) (todos_seen todo.new) }
{
    let items = [
        Todo::Word(TokenKind::If, "if"),
        Todo::Operand(Sort::Expression, &parts.0),
        Todo::Word(TokenKind::Then, "then"),
        Todo::Operand(Sort::Expression, &parts.1),
        Todo::Word(TokenKind::Else, "else"),
        Todo::Operand(Sort::Expression, &parts.2),
    ];
    Ok(put_all(todo, &items)?)
}

fn open_unary<'a>(
    call: &'a UnaryCall,
    a: &'a Expr,
    todo: &mut Pending<'a>,
) -> Result<(), NotWritten>
    ensures { (table : Extensions) → Opens table (unary_call call.now (expr_meaning a.now)) result
        (todos_seen todo.old) (todos_seen todo.new) }
{
    match call {
        UnaryCall::Op(op) => open_sign(*op, a, todo),
        UnaryCall::IsEmpty => open_method(a, "isEmpty", todo),
        UnaryCall::Like(pattern) => {
            let word = Todo::Word(TokenKind::Like, "like");
            let pattern = Todo::Pattern(pattern.as_slice());
            Ok(put_all(todo, &[Todo::Operand(Sort::Sum, a), word, pattern])?)
        }
        UnaryCall::Is(entity_type) => {
            let word = Todo::Word(TokenKind::Is, "is");
            let name = Todo::Name(entity_type.name());
            Ok(put_all(todo, &[Todo::Operand(Sort::Sum, a), word, name])?)
        }
        UnaryCall::GetAttr(attr) => open_access(a, attr.as_str(), todo),
        UnaryCall::ExtendedHasAttr(first, rest) => open_has(a, first, rest, todo),
    }
}

fn open_sign<'a>(op: UnaryOp, a: &'a Expr, todo: &mut Pending<'a>) -> Result<(), NotWritten>
    ensures { (table : Extensions) → Opens table (operator_call op (expr_meaning a.now)) result
        (todos_seen todo.old) (todos_seen todo.new) }
{
    match op {
        UnaryOp::Not => {
            let word = Todo::Word(TokenKind::Bang, "!");
            Ok(put_all(todo, &[word, Todo::Operand(Sort::Member, a)])?)
        }
        UnaryOp::Neg => {
            let word = Todo::Word(TokenKind::Minus, "-");
            Ok(put_all(todo, &[word, Todo::Negated(a)])?)
        }
    }
}

/// A method without arguments.
fn open_method<'a>(a: &'a Expr, id: &'a str, todo: &mut Pending<'a>) -> Result<(), NotWritten>
    ensures { Stacks (method_todo (expr_meaning a.now) id.now []) result
        (todos_seen todo.old) (todos_seen todo.new) }
{
    let items = [
        Todo::Operand(Sort::Member, a),
        Todo::Word(TokenKind::Dot, "."),
        Todo::Identifier(id),
        Todo::Word(TokenKind::OpenParen, "("),
        Todo::Word(TokenKind::CloseParen, ")"),
    ];
    Ok(put_all(todo, &items)?)
}

fn open_access<'a>(a: &'a Expr, attr: &'a str, todo: &mut Pending<'a>) -> Result<(), NotWritten>
    ensures { (table : Extensions) → Opens table (v.get_attr (expr_meaning a.now) attr.now) result
        (todos_seen todo.old) (todos_seen todo.new) }
{
    let target = Todo::Operand(Sort::Member, a);
    if UnreservedId::is_spelled(attr) {
        let word = Todo::Word(TokenKind::Dot, ".");
        Ok(put_all(todo, &[target, word, Todo::Identifier(attr)])?)
    } else {
        let open = Todo::Word(TokenKind::OpenBracket, "[");
        let close = Todo::Word(TokenKind::CloseBracket, "]");
        Ok(put_all(todo, &[target, open, Todo::Text(attr), close])?)
    }
}

/// `has` with one attribute, or with identifiers.
fn open_has<'a>(
    a: &'a Expr,
    first: &'a Text,
    rest: &'a Items<Text>,
    todo: &mut Pending<'a>,
) -> Result<(), NotWritten>
    ensures { (table : Extensions)
        → Opens table (v.extended_has_attr (expr_meaning a.now) first.now rest.now) result
        (todos_seen todo.old) (todos_seen todo.new) }
{
    match sought(first.as_str(), rest.as_slice()) {
        None => Err(NotWritten::NotWritable(NotWritable::Attributes)),
        Some(sought) => {
            let word = Todo::Word(TokenKind::Has, "has");
            Ok(put_all(todo, &[Todo::Operand(Sort::Sum, a), word, sought])?)
        }
    }
}

/// What stands right of `has`, if a text can say it.
fn sought<'a>(first: &'a str, rest: &'a [Text]) -> Option<Todo<'a>>
    ensures { MatchOption result (¬ IsFitSought first.now rest.now) (λ t.
        (todo_seen t ≡ sought first.now rest.now) × IsFitSought first.now rest.now) }
{
    if rest.is_empty() {
        return Some(Todo::Key(first));
    }
    if is_path(first, rest) {
        Some(Todo::Attributes(first, rest))
    } else {
        None
    }
}

/// Whether all of a path's texts are identifiers that a name may hold.
fn is_path(first: &str, rest: &[Text]) -> bool
    ensures { result ≡ list_all is_unreserved_identifier (first.now ∷ rest.now) }
{
    UnreservedId::is_spelled(first) && are_identifiers(rest)
}

/// Whether each text is an identifier that a name may hold.
fn are_identifiers(texts: &[Text]) -> bool
    ensures { result ≡ list_all is_unreserved_identifier texts.now }
{
    texts
        .iter()
        .all(|text| UnreservedId::is_spelled(text.as_str()))
}

fn open_binary<'a>(
    call: &'a BinaryCall,
    parts: &'a (Expr, Expr),
    todo: &mut Pending<'a>,
) -> Result<(), NotWritten>
    ensures { (table : Extensions) → Opens table (binary_call call.now (expr_meaning parts.now.0)
        (expr_meaning parts.now.1)) result (todos_seen todo.old) (todos_seen todo.new) }
{
    match call {
        BinaryCall::Op(op) => open_between(*op, &parts.0, &parts.1, todo),
        BinaryCall::IsIn(entity_type) => {
            let items = [
                Todo::Operand(Sort::Sum, &parts.0),
                Todo::Word(TokenKind::Is, "is"),
                Todo::Name(entity_type.name()),
                Todo::Word(TokenKind::In, "in"),
                Todo::Operand(Sort::Sum, &parts.1),
            ];
            Ok(put_all(todo, &items)?)
        }
    }
}

fn open_between<'a>(
    op: BinaryOp,
    a: &'a Expr,
    b: &'a Expr,
    todo: &mut Pending<'a>,
) -> Result<(), NotWritten>
    ensures { (table : Extensions) → Opens table (between_call op (expr_meaning a.now)
        (expr_meaning b.now)) result (todos_seen todo.old) (todos_seen todo.new) }
{
    match op {
        BinaryOp::And => Err(NotWritten::NotWritable(NotWritable::Conjunction)),
        BinaryOp::Less => open_infix(a, TokenKind::Less, "<", b, todo),
        BinaryOp::LessEq => open_infix(a, TokenKind::LessEq, "<=", b, todo),
        BinaryOp::Greater => open_infix(a, TokenKind::Greater, ">", b, todo),
        BinaryOp::GreaterEq => open_infix(a, TokenKind::GreaterEq, ">=", b, todo),
        BinaryOp::Eq => open_infix(a, TokenKind::EqEq, "==", b, todo),
        BinaryOp::NotEq => open_infix(a, TokenKind::NotEq, "!=", b, todo),
        BinaryOp::In => open_infix(a, TokenKind::In, "in", b, todo),
        BinaryOp::Contains => open_method_of(a, "contains", b, todo),
        BinaryOp::ContainsAll => open_method_of(a, "containsAll", b, todo),
        BinaryOp::ContainsAny => open_method_of(a, "containsAny", b, todo),
        BinaryOp::GetTag => open_method_of(a, "getTag", b, todo),
        BinaryOp::HasTag => open_method_of(a, "hasTag", b, todo),
    }
}

/// An operator between two sums.
fn open_infix<'a>(
    a: &'a Expr,
    kind: TokenKind,
    text: &'a str,
    b: &'a Expr,
    todo: &mut Pending<'a>,
) -> Result<(), NotWritten>
    ensures { Stacks (infix_todo kind text.now (expr_meaning a.now) (expr_meaning b.now)) result
        (todos_seen todo.old) (todos_seen todo.new) }
{
    let left = Todo::Operand(Sort::Sum, a);
    let right = Todo::Operand(Sort::Sum, b);
    Ok(put_all(todo, &[left, Todo::Word(kind, text), right])?)
}

/// A method of one argument.
fn open_method_of<'a>(
    a: &'a Expr,
    id: &'a str,
    b: &'a Expr,
    todo: &mut Pending<'a>,
) -> Result<(), NotWritten>
    ensures { Stacks (method_todo (expr_meaning a.now) id.now
        (whole_todo (expr_meaning b.now) ∷ [])) result
        (todos_seen todo.old) (todos_seen todo.new) }
{
    let items = [
        Todo::Operand(Sort::Member, a),
        Todo::Word(TokenKind::Dot, "."),
        Todo::Identifier(id),
        Todo::Word(TokenKind::OpenParen, "("),
        Todo::Operand(Sort::Expression, b),
        Todo::Word(TokenKind::CloseParen, ")"),
    ];
    Ok(put_all(todo, &items)?)
}

fn open_nary<'a>(
    op: NaryOp,
    first: &'a Expr,
    rest: &'a [Expr],
    todo: &mut Pending<'a>,
) -> Result<(), NotWritten>
    ensures { (table : Extensions) → Opens table (nary_call op (expr_meaning first.now)
        (values (map expr_meaning rest.now))) result (todos_seen todo.old) (todos_seen todo.new) }
{
    if rest.is_empty() {
        return Err(NotWritten::NotWritable(NotWritable::LonePart));
    }
    match op {
        NaryOp::Or => {
            let more = Todo::Behind(TokenKind::OrOr, "||", Sort::Conjunction, rest);
            Ok(put_all(todo, &[Todo::Operand(Sort::Conjunction, first), more])?)
        }
        NaryOp::And => {
            let more = Todo::Behind(TokenKind::AndAnd, "&&", Sort::Relation, rest);
            Ok(put_all(todo, &[Todo::Operand(Sort::Relation, first), more])?)
        }
        NaryOp::Mul => {
            let more = Todo::Behind(TokenKind::Star, "*", Sort::Signed, rest);
            Ok(put_all(todo, &[Todo::Operand(Sort::Signed, first), more])?)
        }
    }
}

fn open_sum<'a>(
    first: &'a Expr,
    rest: &'a [(AddOp, Expr)],
    todo: &mut Pending<'a>,
) -> Result<(), NotWritten>
    ensures { (table : Extensions) → Opens table (v.add_nary (expr_meaning first.now)
        (terms (map term_meaning rest.now))) result (todos_seen todo.old) (todos_seen todo.new) }
{
    if rest.is_empty() {
        return Err(NotWritten::NotWritable(NotWritable::LonePart));
    }
    Ok(put_all(
        todo,
        &[Todo::Operand(Sort::Product, first), Todo::Terms(rest)],
    )?)
}
