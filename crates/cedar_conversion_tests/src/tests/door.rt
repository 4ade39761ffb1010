//! A program that names one crate: the modules that it passes on, the owners, and Cedar's own
//! extensions.
use super::assertions::{holds, holds_for, made};
use cedar_policy_parser::err::{Failure, ParseErrors};
use cedar_policy_parser::lexer::{InvalidToken, Lexer, Token, TokenKind};
use cedar_policy_parser::loc::SourceSpan;
use cedar_policy_parser::node::Node;
use cedar_policy_parser::text_to_cst::parse_expr;
use cedar_policy_parser::unescape::to_unescaped_string;
use cedar_policy_parser::{Boxed, Expr, ExprAst, ExprBuilder, ExtStyles, Items, Source, Text, cst};
use std::alloc::Global;

/// The value of a text under Cedar's own table, by way of its tree.
fn read(alloc: Global, text: &str) -> Result<Expr, Failure> {
    let styles = ExtStyles::cedar(alloc)?;
    let tree: Node<Option<cst::Expr>> = parse_expr(alloc, text)?;
    tree.to_expr::<ExprBuilder<()>>(alloc, &styles)
}

/// Where the first fault stands.
fn first_place(faults: &ParseErrors) -> Option<SourceSpan> {
    faults.iter().next()?.primary_source_span()
}

#[test]
fn calls_cedars_own_extensions(rt: HostRuntime) {
    let texts = [
        "ip(\"10.0.0.1\").isInRange(ip(\"10.0.0.0/8\"))",
        "decimal(\"1.5\").lessThanOrEqual(decimal(\"2.0\"))",
        "datetime(\"2024-10-15\").offset(duration(\"1d\")).toDate() == context.day",
    ];
    for text in &texts {
        let value = read(rt.alloc(), text);
        holds_for(&rt, value.is_ok(), text);
        drop(value);
    }
}

#[test]
fn refuses_other_extensions(rt: HostRuntime) {
    let rows = [("ipaddr(1)", 0, 9), ("1 + principal.toYears()", 4, 23)];
    for (text, start, end) in &rows {
        match read(rt.alloc(), text) {
            Err(Failure::Errors(faults)) => {
                let place = first_place(&faults);
                holds_for(&rt, place == Some(SourceSpan::between(*start, *end)), text);
                drop(faults);
            }
            other => {
                holds_for(&rt, false, text);
                drop(other);
            }
        }
    }
}

/// The kind of a text's first token, or where none begins.
fn first_kind(text: &str) -> Option<Result<TokenKind, usize>> {
    match Lexer::new(text).next()? {
        Ok(Token { kind, .. }) => Some(Ok(kind)),
        Err(InvalidToken { location }) => Some(Err(location)),
    }
}

#[test]
fn names_tokens_and_owners(rt: HostRuntime) {
    holds(&rt, first_kind("permit(") == Some(Ok(TokenKind::Permit)));
    holds(&rt, first_kind(" $") == Some(Err(1)));
    let text = made(&rt, to_unescaped_string(rt.alloc(), "a\\tb"));
    let text = made(&rt, Text::from_string(text));
    holds(&rt, text.as_str() == "a\tb");
    let items: Items<Text> = Items::new(rt.alloc());
    holds(&rt, items.is_empty());
    let boxed = made(&rt, Boxed::new(rt.alloc(), text));
    holds(&rt, boxed.as_ref().as_str() == "a\tb");
    let source = made(&rt, Source::from_str(rt.alloc(), "a"));
    holds(&rt, source.as_str() == "a");
    drop((boxed, items, source));
}
