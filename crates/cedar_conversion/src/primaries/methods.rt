//! Calls: the methods that every text may call, and the functions and methods of the table.
ghost use Rattle.std.specs.Prelude.{◌≡◌, ◌∷◌, [], ◌≢◌, MatchOption, IfOk, IfSome, map, length};
ghost use Rattle.std.specs.Option.{is_some};
ghost use Rattle.cedar_conversion.specs.outcome.Detail.{arguments};
ghost use Rattle.cedar_conversion.specs.parts.Members.{arity, takes_one, standard_outcome, extension_method, method_outcome, function_outcome, no_method};
ghost use Rattle.cedar_conversion.specs.outcome.Outcome.{wrong_arity};
ghost use Rattle.cedar_conversion.specs.outcome.Seen.{Gives};
ghost use Rattle.cedar_conversion.specs.strict.StrictCalls.{method_word, standard_method, names_method};
ghost use Rattle.cedar_conversion.specs.strict.Table.{table_of};
ghost use Rattle.cedar_conversion.specs.machines.Views.{TellsOne};

use crate::answer::failure::BoxedFailure;
use crate::answer::special::{builder_at, refusal};
use crate::styles::ExtStyles;
use cedar_expressions::{ExprBuilderInfallibleBuild, Name, TryClone, UnreservedId};
use cedar_syntax::err::ToASTErrorKind;
use cedar_syntax::loc::Loc;
use std::alloc::{AllocError, Global};

/// The methods that every text may call.
#[derive(Clone, Copy)]
pub enum Standard {
    Contains,
    ContainsAll,
    ContainsAny,
    IsEmpty,
    GetTag,
    HasTag,
}

/// Where a form stands, which calls have a meaning there, and what answers are made with.
#[derive(Clone, Copy)]
pub struct CallSite<'a> {
    pub alloc: Global,
    pub styles: &'a ExtStyles,
    pub loc: &'a Option<Loc>,
}

fn standard_method(id: &str) -> Option<Standard>
    ensures { result ≡ standard_method id.now }
{
    match id {
        "contains" => Some(Standard::Contains),
        "containsAll" => Some(Standard::ContainsAll),
        "containsAny" => Some(Standard::ContainsAny),
        "isEmpty" => Some(Standard::IsEmpty),
        "getTag" => Some(Standard::GetTag),
        "hasTag" => Some(Standard::HasTag),
        _ => None,
    }
}

/// A method as it is called, and how many arguments it takes.
fn usage(method: Standard) -> (&'static str, usize)
    ensures word { result.0.now ≡ method_word method }
    ensures takes { result.1 ≡ arity (takes_one method) }
{
    match method {
        Standard::Contains => ("contains", 1),
        Standard::ContainsAll => ("containsAll", 1),
        Standard::ContainsAny => ("containsAny", 1),
        Standard::IsEmpty => ("isEmpty", 0),
        Standard::GetTag => ("getTag", 1),
        Standard::HasTag => ("hasTag", 1),
    }
}

/// A call with another number of arguments than the method takes.
fn wrong_arity(site: CallSite<'_>, method: Standard, got: usize) -> BoxedFailure
    ensures { TellsOne result (
      wrong_arity,
      site.entry.loc.now,
      arguments (method_word method) (arity (takes_one method)) got,
    ) }
{
    let (name, expected) = usage(method);
    refusal(
        site.alloc,
        ToASTErrorKind::wrong_arity(name, expected, got),
        site.loc,
    )
}

fn with_argument<B: ExprBuilderInfallibleBuild>(
    site: CallSite<'_>,
    method: Standard,
    object: B::Expr,
    argument: B::Expr,
) -> Result<B::Expr, BoxedFailure>
    ensures { Gives B.meaning result (standard_outcome site.entry.loc.now method (B.meaning object)
        (B.meaning argument ∷ [])) }
{
    let builder = builder_at::<B>(site.alloc, site.loc);
    let called = match method {
        Standard::Contains => builder.contains(object, argument),
        Standard::ContainsAll => builder.contains_all(object, argument),
        Standard::ContainsAny => builder.contains_any(object, argument),
        Standard::IsEmpty => return Err(wrong_arity(site, method, 1)),
        Standard::GetTag => builder.get_tag(object, argument),
        Standard::HasTag => builder.has_tag(object, argument),
    };
    Ok(called?)
}

fn without_argument<B: ExprBuilderInfallibleBuild>(
    site: CallSite<'_>,
    method: Standard,
    object: B::Expr,
) -> Result<B::Expr, BoxedFailure>
    ensures { Gives B.meaning result (standard_outcome site.entry.loc.now method
        (B.meaning object) []) }
{
    match method {
        Standard::IsEmpty => Ok(builder_at::<B>(site.alloc, site.loc).is_empty(object)?),
        _ => Err(wrong_arity(site, method, 0)),
    }
}

/// The element of a list that has just one.
fn only_one<E: Drop>(list: Vec<E>) -> Option<E>
    ensures { MatchOption result (length list.items ≢ 1) (λ item. list.items ≡ item ∷ []) }
{
    let mut list = list;
    if list.len() == 1 { list.pop() } else { None }
}

fn standard_call<B: ExprBuilderInfallibleBuild>(
    site: CallSite<'_>,
    method: Standard,
    object: B::Expr,
    args: Vec<B::Expr>,
) -> Result<B::Expr, BoxedFailure>
    ensures { Gives B.meaning result (standard_outcome site.entry.loc.now method (B.meaning object)
        (map B.meaning args.items)) }
{
    let got = args.len();
    if got == 0 {
        return without_argument::<B>(site, method, object);
    }
    match only_one(args) {
        Some(argument) => with_argument::<B>(site, method, object, argument),
        None => Err(wrong_arity(site, method, got)),
    }
}

/// A method that is none of the table's.
fn no_method<B: ExprBuilderInfallibleBuild>(
    site: CallSite<'_>,
    id: UnreservedId,
) -> Result<B::Expr, BoxedFailure>
    ensures { Gives B.meaning result
        (no_method (table_of site.entry.styles.now) site.entry.loc.now id) }
{
    let name = Name::from(id.try_clone()?);
    if site.styles.is_function(&name) {
        return Err(refusal(
            site.alloc,
            ToASTErrorKind::MethodCallOnFunction(id),
            site.loc,
        ));
    }
    let kind = ToASTErrorKind::UnknownMethod { id, hint: None };
    Err(refusal(site.alloc, kind, site.loc))
}

fn extension_call<B: ExprBuilderInfallibleBuild>(
    site: CallSite<'_>,
    object: B::Expr,
    id: UnreservedId,
    args: Vec<B::Expr>,
) -> Result<B::Expr, BoxedFailure>
    ensures { Gives B.meaning result (extension_method
        (table_of site.entry.styles.now) site.entry.loc.now id
        (B.meaning object) (map B.meaning args.items)) }
{
    if !site.styles.is_method(&id) {
        return no_method::<B>(site, id);
    }
    let mut args = args;
    args.insert(0, object)?;
    let builder = builder_at::<B>(site.alloc, site.loc);
    Ok(builder.call_extension_fn(Name::from(id), args)?)
}

/// A method called on a value.
pub(crate) fn method<B: ExprBuilderInfallibleBuild>(
    site: CallSite<'_>,
    object: B::Expr,
    id: UnreservedId,
    args: Vec<B::Expr>,
) -> Result<B::Expr, BoxedFailure>
    ensures { Gives B.meaning result (method_outcome
        (table_of site.entry.styles.now) site.entry.loc.now id
        (B.meaning object) (map B.meaning args.items)) }
{
    match standard_method(id.as_str()) {
        Some(method) => standard_call::<B>(site, method, object, args),
        None => extension_call::<B>(site, object, id, args),
    }
}

/// The identifier of a name without a path.
fn unqualified_id(name: &Name) -> Result<Option<UnreservedId>, AllocError>
    ensures { IfOk result (λ found. MatchOption found (name.now.path ≢ [])
        (λ id. (name.now.path ≡ []) × (id ≡ name.now.id))) }
{
    if !name.as_internal().namespace_components().is_empty() {
        return Ok(None);
    }
    match UnreservedId::unless_reserved(name.basename().try_clone()?) {
        Ok(id) => Ok(Some(id)),
        Err(_) => Ok(None),
    }
}

/// The method that an unqualified name is, if it is one.
fn method_named(styles: &ExtStyles, name: &Name) -> Result<Option<UnreservedId>, AllocError>
    ensures found { IfOk result (λ found.
        is_some found ≡ names_method (table_of styles.now) name.now.path name.now.id) }
    ensures id { IfOk result (λ found. IfSome found (λ id. id ≡ name.now.id)) }
{
    match unqualified_id(name)? {
        Some(id) => {
            if standard_method(id.as_str()).is_some() || styles.is_method(&id) {
                Ok(Some(id))
            } else {
                Ok(None)
            }
        }
        None => Ok(None),
    }
}

/// A call of a name.
pub(crate) fn function<B: ExprBuilderInfallibleBuild>(
    site: CallSite<'_>,
    name: Name,
    args: Vec<B::Expr>,
) -> Result<B::Expr, BoxedFailure>
    ensures { Gives B.meaning result (function_outcome
        (table_of site.entry.styles.now) site.entry.loc.now name
        (map B.meaning args.items)) }
{
    if let Some(id) = method_named(site.styles, &name)? {
        return Err(refusal(
            site.alloc,
            ToASTErrorKind::FunctionCallOnMethod(id),
            site.loc,
        ));
    }
    if site.styles.is_function(&name) {
        let builder = builder_at::<B>(site.alloc, site.loc);
        return Ok(builder.call_extension_fn(name, args)?);
    }
    let kind = ToASTErrorKind::UnknownFunction {
        id: name,
        hint: None,
    };
    Err(refusal(site.alloc, kind, site.loc))
}
