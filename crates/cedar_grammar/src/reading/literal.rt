//! Numbers and strings: what their tokens' texts write.
ghost use Rattle.std.specs.Prelude.{◌≡◌, ◌∷◌, [], ◌++◌, ℕ, List, Some, None, cond, codes};
ghost use Rattle.std.specs.Str.Parse.{IsNumeral};
ghost use Rattle.cedar_lexer.specs.declared.token.TokenKind.TheVariants as kind;
ghost use Rattle.cedar_syntax.specs.tokens.Tokens.{between_quotes, fits, number_of};
ghost use Rattle.cedar_grammar.specs.grammar.WrittenTokens.{Written};

/// The number that these digits write, if 64 bits hold it.
pub fn as_number(text: &str) -> Option<u64>
    requires { IsNumeral 10 text.now }
    ensures { result ≡ cond (fits text.now) (Some (number_of text.now)) None }
{
    match text.parse::<u64>() {
        Ok(number) => Some(number),
        Err(_) => None,
    }
}

/// The text behind the first quote of a string.
fn behind_quote(text: &str) -> &str
    requires { Written kind.StringLit text.now }
    ensures { text.now ≡ codes "\"" ++ result.now }
{
    let Some(rest) = text.strip_prefix('"') else {
        unreachable!()
    };
    rest
}

/// The text before the last quote of a string.
fn before_quote(text: &str) -> &str
    requires { (front : List ℕ) × (text.now ≡ front ++ codes "\"") }
    ensures { text.now ≡ result.now ++ codes "\"" }
{
    let Some(front) = text.strip_suffix('"') else {
        unreachable!()
    };
    front
}

/// The raw text of a string: what stands between its quotes.
pub fn between_quotes(text: &str) -> &str
    requires { Written kind.StringLit text.now }
    ensures { result.now ≡ between_quotes text.now }
{
    before_quote(behind_quote(text))
}
