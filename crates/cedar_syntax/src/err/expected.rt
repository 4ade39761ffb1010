//! Expected tokens as a fault tells them.
ghost use Rattle.std.specs.Prelude.{◌≡◌, not, filter, IfOk, codes, bytes_eq, true, map, string_bytes, ◌∷◌, []};
ghost use Rattle.std.specs.Option.{option_map};
ghost use Rattle.std.proofs.Common.{Some};
ghost use Rattle.std.specs.HashSet as bag;
ghost use Rattle.std.specs.BTreeSet as tree;
ghost use Rattle.std.specs.Ordering.{nat_cmp};
ghost use Rattle.std.specs.Map.{lookup, keys_of};
ghost use Rattle.std.specs.Cmp.Lexicographic.{slice_cmp};
ghost use Rattle.cedar_syntax.specs.messages.Kept.{rules_of, is_in, is_among, are_distinct, table_texts, policy_rules, friendly_of, friendly_names, kept_token_names, without, shown_name, with_backquotes as backquoted, AreInOrder, SaysExpected};

use crate::err::conjunction::{Listed, write_list};
use std::alloc::{AllocError, Global};
use std::collections::{BTreeSet, HashMap, HashSet};
use std::fmt;

/// How expected tokens are shown: which names are left out, and under which names the others
/// appear.
#[derive(Debug, Drop)]
pub struct ExpectedTokenConfig {
    /// how a name is shown; a name that isn't there is shown as it is, with backquotes in place of
    /// double quotes
    pub friendly_token_names: HashMap<&'static str, &'static str>,
    /// names that are never shown, since every tree with such a token is refused later
    pub impossible_tokens: HashSet<&'static str>,
    /// names of words that are identifiers too: not shown beside `identifier_sentinel`
    pub special_identifier_tokens: HashSet<&'static str>,
    /// the name that stands for whatever identifier
    pub identifier_sentinel: &'static str,
    /// names of words that begin an expression as themselves, and are identifiers elsewhere: not
    /// shown beside `identifier_sentinel` without `first_set_sentinel`
    pub first_set_identifier_tokens: HashSet<&'static str>,
    /// a name that is there where an expression can begin
    pub first_set_sentinel: &'static str,
}

impl Listed for String {
    ghost text = { λ string. string_bytes string };

    fn write_listed<W: fmt::Write>(&self, f: &mut fmt::Formatter<W>) -> fmt::Result {
        f.write_str(self.as_str())
    }
}

// Shown names as a list of alternatives.
#[derive(Drop)]
struct Alternatives<'a> {
    first: &'a String,
    others: &'a [String],
}

impl fmt::Display for Alternatives<'_> {
    ghost use Rattle.cedar_syntax.specs.messages.Conjoined.{list_text};

    ghost output = { λ names. Some (list_text (codes "or") (string_bytes names.first.now)
        (map (λ text. string_bytes text) names.others.now)) };

    fn fmt<W: fmt::Write>(&self, f: &mut fmt::Formatter<W>) -> fmt::Result {
        write_list(self.first, self.others, "or", f)
    }
}

/// The table of Cedar's own tokens. Only want of memory refuses it.
pub fn policy_token_config(alloc: Global) -> Result<ExpectedTokenConfig, AllocError>
    ensures { IfOk result (λ config. rules_of config ≡ policy_rules) }
{
    let friendly_token_names = policy_token_names(alloc)?;
    let impossible_tokens = set_of_names(alloc, &["\"=\"", "\"%\"", "\"/\"", "OTHER_SLOT"])?;
    let special_identifier_tokens = set_of_names(
        alloc,
        &[
            "PERMIT",
            "FORBID",
            "WHEN",
            "UNLESS",
            "IN",
            "HAS",
            "LIKE",
            "IS",
            "THEN",
            "ELSE",
            "PRINCIPAL",
            "ACTION",
            "RESOURCE",
            "CONTEXT",
        ],
    )?;
    let first_set_identifier_tokens = set_of_names(alloc, &["TRUE", "FALSE", "IF"])?;
    Ok(ExpectedTokenConfig {
        friendly_token_names,
        impossible_tokens,
        special_identifier_tokens,
        identifier_sentinel: "IDENTIFIER",
        first_set_identifier_tokens,
        first_set_sentinel: "\"!\"",
    })
}

// How words, slots and classes of tokens are shown.
fn policy_token_names(alloc: Global) -> Result<HashMap<&'static str, &'static str>, AllocError>
    ensures { IfOk result (λ map. friendly_of map
        ≡ (λ name. lookup (bytes_eq name) friendly_names)) }
{
    table_of(
        alloc,
        &[
            ("TRUE", "`true`"),
            ("FALSE", "`false`"),
            ("IF", "`if`"),
            ("PERMIT", "`permit`"),
            ("FORBID", "`forbid`"),
            ("WHEN", "`when`"),
            ("UNLESS", "`unless`"),
            ("IN", "`in`"),
            ("HAS", "`has`"),
            ("LIKE", "`like`"),
            ("IS", "`is`"),
            ("THEN", "`then`"),
            ("ELSE", "`else`"),
            ("PRINCIPAL", "`principal`"),
            ("ACTION", "`action`"),
            ("RESOURCE", "`resource`"),
            ("CONTEXT", "`context`"),
            ("PRINCIPAL_SLOT", "`?principal`"),
            ("RESOURCE_SLOT", "`?resource`"),
            ("IDENTIFIER", "identifier"),
            ("NUMBER", "number"),
            ("STRINGLIT", "string literal"),
        ],
    )
}

// Each name with what is shown for it.
fn table_of(
    alloc: Global,
    pairs: &[(&'static str, &'static str)],
) -> Result<HashMap<&'static str, &'static str>, AllocError>
    requires { are_distinct (keys_of pairs.now) ≡ true }
    ensures { IfOk result (λ table.
        friendly_of table ≡ (λ name. lookup (bytes_eq name) (table_texts pairs.now))) }
{
    pairs.iter().copied().collect(alloc)
}

// A set of these names.
fn set_of_names(alloc: Global, names: &[&'static str]) -> Result<HashSet<&'static str>, AllocError>
    ensures { IfOk result (λ set. is_in set ≡ is_among (map (λ name. name.now) names.now)) }
{
    names.iter().copied().collect(alloc)
}

// The names that aren't in the set.
fn without<'a>(
    alloc: Global,
    names: &[&'a str],
    set: &HashSet<&'static str>,
) -> Result<Vec<&'a str>, AllocError>
    ensures { IfOk result (λ left.
        left.items ≡ filter (λ name. not (bag.contains_by
        (λ key. bytes_eq name.now key.now) set.now)) names.now) }
{
    names
        .iter()
        .copied()
        .filter(|name| !set.contains(*name))
        .collect(alloc)
}

fn kept_names<'a>(
    alloc: Global,
    names: &[&'a str],
    config: &ExpectedTokenConfig,
) -> Result<Vec<&'a str>, AllocError>
    ensures { IfOk result (λ left. map (λ name. name.now) left.items
        ≡ kept_token_names (rules_of config.now) (map (λ name. name.now) names.now)) }
{
    let possible = without(alloc, names, &config.impossible_tokens)?;
    if !possible.contains(&config.identifier_sentinel) {
        return Ok(possible);
    }
    let general = without(
        alloc,
        possible.as_slice(),
        &config.special_identifier_tokens,
    )?;
    if general.contains(&config.first_set_sentinel) {
        return Ok(general);
    }
    without(
        alloc,
        general.as_slice(),
        &config.first_set_identifier_tokens,
    )
}

// Backquotes in place of double quotes.
fn with_backquotes(alloc: Global, text: &str) -> Result<String, AllocError>
    ensures { IfOk result (λ copy. string_bytes copy ≡ backquoted text.now) }
{
    text.chars()
        .map(|c| if c == '"' { '`' } else { c })
        .collect(alloc)
}

// How one name is shown.
fn shown_text(alloc: Global, name: &str, config: &ExpectedTokenConfig) -> Result<String, AllocError>
    ensures { IfOk result (λ text. string_bytes text ≡ shown_name (rules_of config.now) name.now) }
{
    match config.friendly_token_names.get(name) {
        Some(friendly) => String::from_str(alloc, friendly),
        None => with_backquotes(alloc, name),
    }
}

// How each of the names is shown.
fn shown_texts(
    alloc: Global,
    names: &[&str],
    config: &ExpectedTokenConfig,
) -> Result<Vec<String>, AllocError>
    ensures { IfOk result (λ texts. map (λ text. string_bytes text) texts.items
        ≡ map (λ name. shown_name (rules_of config.now) name.now) names.now) }
{
    let mut texts = Vec::with_capacity(alloc, names.len())?;
    for name in names {
        texts.push(shown_text(alloc, name, config)?)?;
    }
    Ok(texts)
}

// The names in byte order, each once.
fn in_order<'a>(alloc: Global, names: &[&'a str]) -> Result<Vec<&'a str>, AllocError>
    ensures { IfOk result (λ shown.
        AreInOrder (map (λ name. name.now) names.now) (map (λ name. name.now) shown.items)) }
{
    let set = set_of(alloc, names)?;
    keys_of(alloc, set)
}

// The keys of a set, in order.
fn keys_of<'a>(alloc: Global, set: BTreeSet<&'a str>) -> Result<Vec<&'a str>, AllocError>
    ensures { IfOk result (λ list. list.items ≡ set.entry.keys) }
{
    set.into_iter().collect(alloc)
}

// The names as a set.
fn set_of<'a>(alloc: Global, names: &[&'a str]) -> Result<BTreeSet<&'a str>, AllocError>
    ensures { IfOk result
        (tree.IsFromIterResult (λ x y. slice_cmp nat_cmp x.now y.now) names.now) }
{
    names.iter().copied().collect(alloc)
}

/// What is said of expected names: `None` where none of them is kept, else `expected ` and the
/// kept ones, in byte order, each once, as `a`, `a or b` or `a, b, or c`. Only want of memory
/// refuses it.
pub fn expected_to_string(
    alloc: Global,
    expected: &[&str],
    config: &ExpectedTokenConfig,
) -> Result<Option<String>, AllocError>
    ensures { IfOk result (λ said. SaysExpected (rules_of config.now)
        (map (λ name. name.now) expected.now) (option_map (λ text. string_bytes text) said)) }
{
    let kept = kept_names(alloc, expected, config)?;
    let names = in_order(alloc, kept.as_slice())?;
    let shown = shown_texts(alloc, names.as_slice(), config)?;
    let Some((first, others)) = shown.as_slice().split_first() else {
        return Ok(None);
    };
    let alternatives = Alternatives { first, others };
    Ok(Some(format!(in alloc; "expected {alternatives}")?))
}
