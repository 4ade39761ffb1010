//! Accesses of a primary, applied from the left.
ghost use Rattle.std.specs.Prelude.{◌≡◌, ◌∷◌, [], List, Option, MatchOption, IfOk, Ok, Err, map, true, if◌then◌else◌};
ghost use Rattle.cedar_expressions.specs.Path.{Path};
ghost use Rattle.cedar_expressions.specs.Value as v;
ghost use Rattle.cedar_expressions.specs.Value.{Value};
ghost use Rattle.cedar_syntax.specs.declared.err.faults.Failure.{Failure as Told};
ghost use Rattle.cedar_syntax.specs.declared.loc.Loc.{Loc};
ghost use Rattle.cedar_conversion.specs.declared.answer.special.ExprOrSpecial.TheVariants as special;
ghost use Rattle.cedar_conversion.specs.outcome.Held.{Held, as_expression, expression};
ghost use Rattle.cedar_conversion.specs.parts.Members.{Access as Given, accesses_of, name_accesses, some_accesses, member_outcome};
ghost use Rattle.cedar_conversion.specs.outcome.Detail as d;
ghost use Rattle.cedar_conversion.specs.outcome.Outcome.{Outcome, next, no_methods, invalid_access, variable_call};
ghost use Rattle.cedar_conversion.specs.outcome.Seen.{Gives};
ghost use Rattle.cedar_conversion.specs.strict.Table.{table_of};
ghost use Rattle.cedar_conversion.specs.machines.Applied.{after_field, begins_call, called_outcome, called_variable, is_value, seen_access, seen_accesses, variable_of};
ghost use Rattle.cedar_conversion.specs.machines.Views.{TellsOne, plain};

use crate::answer::failure::BoxedFailure;
use crate::answer::special::{ExprOrSpecial, builder_at, empty_node, expr_at, refusal};
use crate::answer::{Converted, put, take, value_in};
use crate::primaries::methods::{CallSite, function, method};
use cedar_expressions::{ExprBuilderInfallibleBuild, Name, Text, TryClone, UnreservedId, Var};
use cedar_syntax::err::ToASTErrorKind;
use std::alloc::{AllocError, Global};

/// What an access gives.
#[derive(Drop)]
pub(crate) enum AccessValue<E> {
    Field(UnreservedId),
    Call(Vec<E>),
    Index(Text),
}

/// The value once the field that waits, if one does, is applied to it.
#[inline(always)]
fn settled<B: ExprBuilderInfallibleBuild>(
    site: CallSite<'_>,
    value: B::Expr,
    field: Option<UnreservedId>,
) -> Result<B::Expr, AllocError>
    ensures { IfOk result (λ e. B.meaning e ≡ after_field (B.meaning value) field) }
{
    match field {
        None => Ok(value),
        Some(id) => builder_at::<B>(site.alloc, site.loc).get_attr(value, id.into_text()),
    }
}

/// A call of a value: a method's if a field waits, else of an expression, which none may be.
#[inline(never)]
fn called<B: ExprBuilderInfallibleBuild>(
    site: CallSite<'_>,
    value: B::Expr,
    field: Option<UnreservedId>,
    args: Vec<B::Expr>,
) -> Result<B::Expr, BoxedFailure>
    ensures { Gives B.meaning result (called_outcome (table_of site.entry.styles.now)
        site.entry.loc.now (B.meaning value) field (map B.meaning args.items)) }
{
    match field {
        None => Err(refusal(site.alloc, ToASTErrorKind::ExpressionCall, site.loc)),
        Some(id) => method::<B>(site, value, id, args),
    }
}

/// What all of these accesses make of a value, from the left. A field waits for the access behind
/// it: if that is a call, it is a method's.
#[inline(always)]
fn apply_accesses<B: ExprBuilderInfallibleBuild>(
    site: CallSite<'_>,
    value: B::Expr,
    accesses: Vec<AccessValue<B::Expr>>,
) -> Result<B::Expr, BoxedFailure>
    ensures { Gives (λ e. expression site.entry.loc.now (B.meaning e)) result
        (accesses_of (table_of site.entry.styles.now) site.entry.loc.now (B.meaning value)
        (seen_accesses B.meaning accesses)) }
{
    let mut value = value;
    let mut field = None;
    for access in accesses {
        match access {
            AccessValue::Call(args) => {
                value = called::<B>(site, value, field, args)?;
                field = None;
            }
            AccessValue::Field(id) => {
                value = settled::<B>(site, value, field)?;
                field = Some(id);
            }
            AccessValue::Index(text) => {
                let whole = settled::<B>(site, value, field)?;
                value = builder_at::<B>(site.alloc, site.loc).get_attr(whole, text)?;
                field = None;
            }
        }
    }
    Ok(settled::<B>(site, value, field)?)
}

/// Whether a call comes first.
fn begins_call<E>(accesses: &[AccessValue<E>]) -> bool
    ensures { (meaning : E → Value)
        → result ≡ begins_call (map (seen_access meaning) accesses.now) }
{
    matches!(accesses.first(), Some(AccessValue::Call(_)))
}

/// A field of a name, which has none, and no methods.
fn field_of_name(site: CallSite<'_>, name: Name, id: UnreservedId, is_called: bool) -> BoxedFailure
    ensures { TellsOne result (
      if is_called then no_methods else invalid_access,
      site.entry.loc.now,
      d.asked_of name id,
    ) }
{
    let kind = if is_called {
        ToASTErrorKind::NoMethods(name, id)
    } else {
        ToASTErrorKind::InvalidAccess {
            lhs: name,
            field: id.into_text(),
        }
    };
    refusal(site.alloc, kind, site.loc)
}

/// Accesses of a name that is no variable: a call, and accesses of what that gives.
fn of_name<B: ExprBuilderInfallibleBuild>(
    site: CallSite<'_>,
    name: Name,
    first: AccessValue<B::Expr>,
    rest: Vec<AccessValue<B::Expr>>,
) -> Result<ExprOrSpecial<B::Expr>, BoxedFailure>
    ensures { Gives (plain B.meaning) result (name_accesses (table_of site.entry.styles.now)
        site.entry.loc.now name (seen_access B.meaning first ∷ seen_accesses B.meaning rest)) }
{
    match first {
        AccessValue::Call(args) => {
            let value = function::<B>(site, name, args)?;
            expr_at::<B>(apply_accesses::<B>(site, value, rest)?, site.loc)
        }
        AccessValue::Field(id) => {
            let is_called = begins_call(rest.as_slice());
            Err(field_of_name(site, name, id, is_called))
        }
        AccessValue::Index(text) => {
            let kind = ToASTErrorKind::InvalidIndex {
                lhs: name,
                field: text,
            };
            Err(refusal(site.alloc, kind, site.loc))
        }
    }
}

/// The first access and the others.
fn split_first<E: Drop>(
    accesses: Vec<AccessValue<E>>,
) -> Option<(AccessValue<E>, Vec<AccessValue<E>>)>
    ensures { MatchOption result (accesses.items ≡ [])
        (λ parts. accesses.items ≡ parts.0 ∷ parts.1.items) }
{
    if accesses.is_empty() {
        return None;
    }
    let mut rest = accesses;
    let first = rest.remove(0);
    Some((first, rest))
}

/// Accesses of a name that is no variable, or the failure that the primary is. Another form is its
/// caller's.
#[inline(never)]
fn named_in<B: ExprBuilderInfallibleBuild>(
    site: CallSite<'_>,
    item: &mut Converted<B::Expr>,
    accesses: Vec<AccessValue<B::Expr>>,
    answer: &mut Converted<B::Expr>,
)
    ensures name { (own : Option Loc) (name : Path) (a : Given) (all : List Given)
        → item.old ≡ Ok (special.Name name own) → seen_accesses B.meaning accesses ≡ a ∷ all
        → Gives (plain B.meaning) answer.new
        (name_accesses (table_of site.entry.styles.now) site.entry.loc.now name (a ∷ all)) }
    ensures failure { (failure : Told) → item.old ≡ Err failure → answer.new ≡ Err failure }
{
    match take(item) {
        Ok(ExprOrSpecial::Name(name, _)) => match split_first(accesses) {
            Some((first, rest)) => put(answer, of_name::<B>(site, name, first, rest)),
            None => put(answer, Err(empty_node(site.alloc, site.loc))),
        },
        other => put(answer, other),
    }
}

/// Whether this is a value: any form but a name that is no variable.
#[inline(always)]
fn is_value<E>(item: &Converted<E>) -> bool
    ensures { result ≡ is_value item.now }
{
    match item {
        Ok(ExprOrSpecial::Expr(_, _)) => true,
        Ok(ExprOrSpecial::Var(_, _)) => true,
        Ok(ExprOrSpecial::Name(_, _)) => false,
        Ok(ExprOrSpecial::BoolLit(_, _)) => true,
        Ok(ExprOrSpecial::StrLit(_, _)) => true,
        Err(_) => false,
    }
}

/// The variable that this is, if it is one.
#[inline(always)]
fn variable_of<E>(item: &Converted<E>) -> Option<Var>
    ensures { result ≡ variable_of item.now }
{
    match item {
        Ok(ExprOrSpecial::Var(var, _)) => Some(*var),
        Ok(ExprOrSpecial::Name(_, _)) => None,
        Ok(ExprOrSpecial::Expr(_, _)) => None,
        Ok(ExprOrSpecial::BoolLit(_, _)) => None,
        Ok(ExprOrSpecial::StrLit(_, _)) => None,
        Err(_) => None,
    }
}

/// The variable that is called, if one is.
#[inline(always)]
fn called_variable<E>(item: &Converted<E>, accesses: &[AccessValue<E>]) -> Option<Var>
    ensures { (meaning : E → Value)
        → result ≡ called_variable item.now (map (seen_access meaning) accesses.now) }
{
    if begins_call(accesses) {
        variable_of(item)
    } else {
        None
    }
}

/// A call of a variable, which can't be called.
#[cold]
#[inline(never)]
fn variable_call(site: CallSite<'_>, var: Var) -> BoxedFailure
    ensures { TellsOne result (variable_call, site.entry.loc.now, d.variable var) }
{
    refusal(site.alloc, ToASTErrorKind::VariableCall(var), site.loc)
}

/// Accesses of a value, once it is an expression. A variable can't be called.
#[inline(always)]
fn of_value<B: ExprBuilderInfallibleBuild>(
    site: CallSite<'_>,
    item: &mut Converted<B::Expr>,
    accesses: Vec<AccessValue<B::Expr>>,
) -> Result<B::Expr, BoxedFailure>
    requires { is_value item.old ≡ true }
    ensures { (x : Outcome Held) (a : Given) (all : List Given)
        → Gives (plain B.meaning) item.old x → seen_accesses B.meaning accesses ≡ a ∷ all
        → Gives (λ e. expression site.entry.loc.now (B.meaning e)) result (next x
        (λ h. some_accesses (table_of site.entry.styles.now) site.entry.loc.now h (a ∷ all))) }
{
    if let Some(var) = called_variable(item, accesses.as_slice()) {
        return Err(variable_call(site, var));
    }
    let value = value_in::<B>(site.alloc, item)?;
    apply_accesses::<B>(site, value, accesses)
}

/// Accesses of a value.
#[inline(never)]
fn valued_in<B: ExprBuilderInfallibleBuild>(
    site: CallSite<'_>,
    item: &mut Converted<B::Expr>,
    accesses: Vec<AccessValue<B::Expr>>,
    answer: &mut Converted<B::Expr>,
)
    requires { is_value item.old ≡ true }
    ensures { (x : Outcome Held) (a : Given) (all : List Given)
        → Gives (plain B.meaning) item.old x → seen_accesses B.meaning accesses ≡ a ∷ all
        → Gives (plain B.meaning) answer.new (next x
        (λ h. some_accesses (table_of site.entry.styles.now) site.entry.loc.now h (a ∷ all))) }
{
    match of_value::<B>(site, item, accesses) {
        Ok(value) => put(answer, expr_at::<B>(value, site.loc)),
        Err(failure) => put(answer, Err(failure)),
    }
}

/// A primary and its accesses.
pub(crate) fn accessed_in<B: ExprBuilderInfallibleBuild>(
    site: CallSite<'_>,
    item: &mut Converted<B::Expr>,
    accesses: Vec<AccessValue<B::Expr>>,
    answer: &mut Converted<B::Expr>,
)
    ensures { (x : Outcome Held) → Gives (plain B.meaning) item.old x
        → Gives (plain B.meaning) answer.new (next x
        (λ h. member_outcome (table_of site.entry.styles.now) site.entry.loc.now h
        (seen_accesses B.meaning accesses))) }
{
    if accesses.is_empty() {
        return put(answer, take(item));
    }
    if is_value(item) {
        valued_in::<B>(site, item, accesses, answer)
    } else {
        named_in::<B>(site, item, accesses, answer)
    }
}

/// A value's attribute.
#[inline(always)]
fn attribute<B: ExprBuilderInfallibleBuild>(
    site: CallSite<'_>,
    item: &mut Converted<B::Expr>,
    name: Text,
) -> Result<ExprOrSpecial<B::Expr>, BoxedFailure>
    ensures { (x : Outcome Held) → Gives (plain B.meaning) item.old x
        → Gives (plain B.meaning) result (next (next x as_expression)
        (λ w. Ok (expression site.entry.loc.now (v.get_attr w name)))) }
{
    let value = value_in::<B>(site.alloc, item)?;
    let place = site.loc.try_clone()?;
    let value = builder_at::<B>(site.alloc, site.loc).get_attr(value, name)?;
    Ok(ExprOrSpecial::Expr(value, place))
}

/// A list of one access.
#[inline(never)]
fn list_of<E: Drop>(
    alloc: Global,
    access: AccessValue<E>,
) -> Result<Vec<AccessValue<E>>, AllocError>
    ensures { IfOk result (λ all. all.items ≡ access ∷ []) }
{
    let mut all = Vec::new(alloc);
    all.push(access)?;
    Ok(all)
}

/// A primary and one access in a list.
#[inline(never)]
fn listed_in<B: ExprBuilderInfallibleBuild>(
    site: CallSite<'_>,
    item: &mut Converted<B::Expr>,
    access: AccessValue<B::Expr>,
    answer: &mut Converted<B::Expr>,
)
    ensures { (x : Outcome Held) → Gives (plain B.meaning) item.old x
        → Gives (plain B.meaning) answer.new (next x
        (λ h. some_accesses (table_of site.entry.styles.now) site.entry.loc.now h
        (seen_access B.meaning access ∷ []))) }
{
    match list_of(site.alloc, access) {
        Ok(all) => accessed_in::<B>(site, item, all, answer),
        Err(error) => put(answer, Err(BoxedFailure::from(error))),
    }
}

/// A primary and its one access: an attribute of a value takes no list.
pub(crate) fn lone_accessed_in<B: ExprBuilderInfallibleBuild>(
    site: CallSite<'_>,
    item: &mut Converted<B::Expr>,
    access: AccessValue<B::Expr>,
    answer: &mut Converted<B::Expr>,
)
    ensures { (x : Outcome Held) → Gives (plain B.meaning) item.old x
        → Gives (plain B.meaning) answer.new (next x
        (λ h. some_accesses (table_of site.entry.styles.now) site.entry.loc.now h
        (seen_access B.meaning access ∷ []))) }
{
    if !is_value(item) {
        return listed_in::<B>(site, item, access, answer);
    }
    match access {
        AccessValue::Field(id) => put(answer, attribute::<B>(site, item, id.into_text())),
        AccessValue::Index(text) => put(answer, attribute::<B>(site, item, text)),
        AccessValue::Call(args) => { listed_in::<B>(site, item, AccessValue::Call(args), answer) }
    }
}
