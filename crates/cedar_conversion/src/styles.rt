//! What a text may call.
ghost use Rattle.std.specs.Prelude.{◌≡◌, ◌&&◌, true, false, ℕ, List, IfOk, MatchOption};
ghost use Rattle.std.specs.BTreeSet.{contains, keys};
ghost use Rattle.std.specs.List.{list_any};
ghost use Rattle.std.specs.Str.{bytes_eq};
ghost use Rattle.cedar_expressions.specs.Path.{Path, is_unreserved_identifier};
ghost use Rattle.cedar_conversion.specs.strict.CedarExtensions.{cedar_extensions, is_word_alone};
ghost use Rattle.cedar_conversion.specs.strict.Table.{table_of};

use cedar_expressions::{Id, Name, Text, UnreservedId};
use std::alloc::{AllocError, Global};
use std::collections::BTreeSet;
use std::collections::btree_set::Iter;

/// The functions of Cedar's own extensions.
const CEDAR_FUNCTIONS: [&str; 4] = ["ip", "decimal", "datetime", "duration"];

/// The methods of Cedar's own extensions.
const CEDAR_METHODS: [&str; 18] = [
    "isIpv4",
    "isIpv6",
    "isLoopback",
    "isMulticast",
    "isInRange",
    "lessThan",
    "lessThanOrEqual",
    "greaterThan",
    "greaterThanOrEqual",
    "offset",
    "durationSince",
    "toDate",
    "toTime",
    "toMilliseconds",
    "toSeconds",
    "toMinutes",
    "toHours",
    "toDays",
];

/// The extension functions and methods that a text may call: two sets.
#[derive(Drop)]
pub struct ExtStyles {
    functions: BTreeSet<Name>,
    methods: BTreeSet<UnreservedId>,
}

impl ExtStyles {
    /// The table of these functions and these methods.
    pub fn new(functions: BTreeSet<Name>, methods: BTreeSet<UnreservedId>) -> ExtStyles
        ensures functions { (name : Path)
            → (table_of result).functions name ≡ contains ⟦<Name as Ord>⟧.cmp functions name }
        ensures methods { (id : List ℕ)
            → (table_of result).methods id ≡ contains ⟦<UnreservedId as Ord>⟧.cmp methods id }
    {
        ExtStyles { functions, methods }
    }

    /// The table of Cedar's own extensions. Its functions are `ip`, `decimal`, `datetime` and
    /// `duration`. Its methods are, of an IP address, `isIpv4`, `isIpv6`, `isLoopback`,
    /// `isMulticast` and `isInRange`; of a decimal number, `lessThan`, `lessThanOrEqual`,
    /// `greaterThan` and `greaterThanOrEqual`; of a date, `offset`, `durationSince`, `toDate` and
    /// `toTime`; and of a duration, `toMilliseconds`, `toSeconds`, `toMinutes`, `toHours` and
    /// `toDays`. It is refused for want of memory alone.
    pub fn cedar(alloc: Global) -> Result<ExtStyles, AllocError>
        ensures { IfOk result (λ styles. table_of styles ≡ cedar_extensions) }
    {
        let functions = functions_named(alloc, &CEDAR_FUNCTIONS)?;
        let methods = methods_named(alloc, &CEDAR_METHODS)?;
        Ok(ExtStyles::new(functions, methods))
    }

    /// Whether the table has a function of this name.
    pub fn is_function(&self, name: &Name) -> bool
        ensures { result ≡ (table_of self.now).functions name.now }
    {
        self.functions.contains(name)
    }

    /// Whether the table has a method of this name.
    pub fn is_method(&self, id: &UnreservedId) -> bool
        ensures { result ≡ (table_of self.now).methods id.now }
    {
        self.methods.contains(id)
    }

    /// The functions of the table, in the order of their names.
    pub fn functions(&self) -> Iter<'_, Name>
        ensures { result ≡ keys self.now.functions }
    {
        self.functions.iter()
    }

    /// The methods of the table, the same.
    pub fn methods(&self) -> Iter<'_, UnreservedId>
        ensures { result ≡ keys self.now.methods }
    {
        self.methods.iter()
    }
}

/// The functions whose names are these words, each alone.
fn functions_named(alloc: Global, words: &[&str]) -> Result<BTreeSet<Name>, AllocError>
    ensures { IfOk result (λ set. (name : Path) → contains ⟦<Name as Ord>⟧.cmp set name
        ≡ list_any (λ word. is_unreserved_identifier word.now && is_word_alone name word.now)
        words.now) }
{
    let mut functions = BTreeSet::new(alloc);
    for word in words {
        if let Some(id) = id_of(alloc, word)? {
            functions.insert(Name::from(id))?;
        }
    }
    Ok(functions)
}

/// The methods whose names are these words.
fn methods_named(alloc: Global, words: &[&str]) -> Result<BTreeSet<UnreservedId>, AllocError>
    ensures { IfOk result (λ set. (id : List ℕ) → contains ⟦<UnreservedId as Ord>⟧.cmp set id
        ≡ list_any (λ word. is_unreserved_identifier word.now && bytes_eq id word.now)
        words.now) }
{
    let mut methods = BTreeSet::new(alloc);
    for word in words {
        if let Some(id) = id_of(alloc, word)? {
            methods.insert(id)?;
        }
    }
    Ok(methods)
}

/// The identifier that a word spells, if it spells one that isn't reserved.
fn id_of(alloc: Global, word: &str) -> Result<Option<UnreservedId>, AllocError>
    ensures { IfOk result (λ found. MatchOption found (is_unreserved_identifier word.now ≡ false)
        (λ id. (id ≡ word.now) × (is_unreserved_identifier word.now ≡ true))) }
{
    let text = Text::from_str(alloc, word)?;
    match Id::new(text) {
        Some(id) => Ok(UnreservedId::unless_reserved(id).ok()),
        None => Ok(None),
    }
}
