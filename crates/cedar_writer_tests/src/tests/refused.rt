//! Values that no text means, made by hand, and what their refusals say.
use super::assertions::{holds_for, made, refusal};
use cedar_policy_parser::{
    Expr, ExprBuilder, ExprBuilderInfallibleBuild, ExtStyles, Id, Literal, Name, NotWritable,
    NotWritten, Text, UnreservedId, Var, expr_to_cedar,
};
use std::alloc::AllocError;
use std::process::Abort;

fn build(rt: &impl AllocGlobal) -> ExprBuilder<()> {
    ExprBuilder::new(rt.alloc())
}

fn truth(rt: &(impl Abort + AllocGlobal)) -> Expr {
    made(rt, build(rt).val(Literal::Bool(true)))
}

fn nothing(rt: &impl AllocGlobal) -> Vec<Expr> {
    Vec::new(rt.alloc())
}

/// The function or method of a word.
fn word(rt: &(impl Abort + AllocGlobal), word: &str) -> Name {
    let text = made(rt, Text::from_str(rt.alloc(), word));
    let id = Id::new(text).expect(rt, "no identifier");
    Name::from(made(rt, UnreservedId::try_from(id)))
}

/// The value is refused with this.
fn refuses(rt: &(impl Abort + AllocGlobal), value: Result<Expr, AllocError>, what: NotWritable) {
    let value = made(rt, value);
    let styles = made(rt, ExtStyles::cedar(rt.alloc()));
    let why = refusal(rt, expr_to_cedar(rt.alloc(), &value, &styles));
    holds_for(rt, why == NotWritten::NotWritable(what), &why);
    drop(value);
    drop(styles);
}

#[test]
fn refuses_lone_parts(rt: HostRuntime) {
    refuses(
        &rt,
        build(&rt).or_nary(truth(&rt), nothing(&rt)),
        NotWritable::LonePart,
    );
    refuses(
        &rt,
        build(&rt).and_naryl(truth(&rt), nothing(&rt)),
        NotWritable::LonePart,
    );
    refuses(
        &rt,
        build(&rt).mul_nary(truth(&rt), nothing(&rt)),
        NotWritable::LonePart,
    );
    refuses(
        &rt,
        build(&rt).add_nary(truth(&rt), Vec::new(rt.alloc())),
        NotWritable::LonePart,
    );
}

#[test]
fn refuses_an_and_of_two(rt: HostRuntime) {
    refuses(
        &rt,
        build(&rt).and(truth(&rt), truth(&rt)),
        NotWritable::Conjunction,
    );
    let inner = made(&rt, build(&rt).and(truth(&rt), truth(&rt)));
    refuses(&rt, build(&rt).not(inner), NotWritable::Conjunction);
}

#[test]
fn refuses_calls(rt: HostRuntime) {
    for name in &["nothing", "contains", "isIpv4", "principal"] {
        let call = build(&rt).call_extension_fn(word(&rt, name), nothing(&rt));
        refuses(&rt, call, NotWritable::Call);
    }
}

#[test]
fn refuses_attributes(rt: HostRuntime) {
    let first = made(&rt, Text::from_str(rt.alloc(), "a"));
    let mut rest = Vec::new(rt.alloc());
    made(&rt, rest.push(made(&rt, Text::from_str(rt.alloc(), "b c"))));
    let principal = made(&rt, build(&rt).var(Var::Principal));
    let has = build(&rt).extended_has_attr(principal, first, rest);
    refuses(&rt, has, NotWritable::Attributes);
}
