//! What the parser has begun to read. Places are bytes here: a `Loc` is made only where a node is
//! closed.
use cedar_expressions::{Boxed, Items};
use cedar_grammar::reading::extent::Extent;
use cedar_syntax::cst::{Ident, Name, Ref, RefInit};
use cedar_syntax::node::Node;

/// An identifier, and its bytes.
#[derive(Drop)]
pub struct Word {
    pub ident: Ident,
    pub extent: Extent,
}

/// Identifiers with `::` between them: those before the last one, where the first begins, and the
/// last one.
#[derive(Drop)]
pub struct Path {
    pub before: Items<Node<Option<Ident>>>,
    pub start: usize,
    pub last: Word,
}

/// A path that is being read.
#[derive(Drop)]
pub enum PathState {
    Start,
    /// Behind an identifier.
    Have(Path),
    /// Behind `::`.
    Behind(Path),
}

/// An entity literal as a node, and its bytes.
#[derive(Drop)]
pub struct Entity {
    pub node: Boxed<Node<Option<Ref>>>,
    pub extent: Extent,
}

/// Where an entity literal's list in braces stands.
#[derive(Drop)]
pub enum InitPlace {
    /// An item or the closing brace comes next.
    Item,
    /// Behind the key of an item.
    Key(Word),
    /// Behind its `:`.
    Value(Word),
    /// Behind an item.
    Behind,
}

/// An entity literal whose brace is open: its path, where it begins, and the items that have been
/// read.
#[derive(Drop)]
pub struct OpenEntity {
    pub path: Boxed<Node<Option<Name>>>,
    pub start: usize,
    pub inits: Items<Node<Option<RefInit>>>,
}

/// Such a literal, and where its list stands.
#[derive(Drop)]
pub struct Inits {
    pub begun: OpenEntity,
    pub place: InitPlace,
}

/// A path or an entity literal that is being read.
#[derive(Drop)]
pub enum WordsState {
    Path(PathState),
    Inits(Inits),
    Entity(Entity),
}

/// A path, which may be one identifier alone, or an entity literal.
#[derive(Drop)]
pub enum Words {
    Path(Path),
    Entity(Entity),
}

/// One identifier that is being read.
#[derive(Drop)]
pub enum IdentState {
    Start,
    Have(Word),
}

/// What is done with a token of a path: an identifier begins it, `::` stands behind one, an
/// identifier behind `::`.
#[derive(Drop, Clone, Copy)]
pub enum PathAct {
    First,
    Colons,
    More,
}

/// What is done with a token in the braces of an entity literal.
#[derive(Drop, Clone, Copy)]
pub enum InitAct {
    Key,
    Colon,
    True,
    False,
    Number,
    String,
    Comma,
    /// `}`
    Close,
}

/// What is done with a token of a path or an entity literal.
#[derive(Drop, Clone, Copy)]
pub enum WordsAct {
    Path(PathAct),
    /// A string behind `::`.
    Eid,
    /// `{` behind `::`.
    Open,
    Init(InitAct),
}
