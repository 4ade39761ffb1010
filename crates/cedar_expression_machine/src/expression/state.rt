//! What the parser of expressions has begun to read. Places are extents here: a `Loc` is made only
//! where a node is closed.

use crate::words::state::{WordsAct, WordsState};
use cedar_expressions::{Boxed, Items};
use cedar_grammar::reading::class::{Closing, FollowClass, Sign, SlotToken};
use cedar_grammar::reading::extent::Extent;
use cedar_syntax::cst::{
    Add, AddOp, And, Expr, Member, Mult, MultOp, NegOp, RecInit, RelOp, Relation, Unary,
};
use cedar_syntax::node::Node;
use cedar_syntax::stack::Stack;

/// A tree that isn't a node yet, and the bytes of its tokens.
#[derive(Drop)]
pub struct Spanned<T> {
    pub tree: T,
    pub extent: Option<Extent>,
}

/// Operands of one level, and the bytes that they and the operators between them take.
#[derive(Drop)]
pub struct Chain<T, I> {
    pub initial: Node<Option<T>>,
    pub extended: Items<I>,
    pub extent: Option<Extent>,
}

/// A chain with the operator that goes it on.
#[derive(Drop)]
pub struct PendingChain<T, O> {
    pub chain: Chain<T, (O, Node<Option<T>>)>,
    pub op: O,
}

/// An operator, or what ends an expression, and its bytes.
#[derive(Drop, Clone, Copy)]
pub struct OperatorAt<O> {
    pub op: O,
    pub extent: Extent,
}

/// An `if` whose last part is begun.
#[derive(Drop)]
pub struct Branch {
    pub guard: Node<Option<Expr>>,
    pub yes: Node<Option<Expr>>,
    pub extent: Option<Extent>,
}

/// A left side and the word behind it, whose right side is begun. The bytes are those of all that
/// stands before the right side.
#[derive(Drop)]
pub enum PendingRelation {
    /// A chain of comparisons.
    Common(PendingChain<Add, RelOp>),
    Has(Spanned<Node<Option<Add>>>),
    Like(Spanned<Node<Option<Add>>>),
    Is(Spanned<Node<Option<Add>>>),
    /// Behind `in`.
    IsIn {
        target: Node<Option<Add>>,
        entity_type: Node<Option<Add>>,
        extent: Option<Extent>,
    },
}

/// What is pending before an operand, each level with the operator at its end. A level that is
/// begun has memory of its own, so that a state that moves is small.
#[derive(Drop)]
pub struct PendingOperators {
    pub branches: Stack<Branch>,
    pub or: Option<Boxed<Chain<And, Node<Option<And>>>>>,
    pub and: Option<Boxed<Chain<Relation, Node<Option<Relation>>>>>,
    pub relation: Option<Boxed<PendingRelation>>,
    pub add: Option<Boxed<PendingChain<Mult, AddOp>>>,
    pub mult: Option<Boxed<PendingChain<Unary, MultOp>>>,
}

/// The signs before an operand.
#[derive(Drop, Clone, Copy)]
pub struct Signs {
    pub op: Option<NegOp>,
    pub extent: Option<Extent>,
}

/// An operand: its signs, and its item with the accesses so far, as the tree will hold them.
#[derive(Drop)]
pub struct Operand {
    pub signs: Signs,
    pub member: Member,
    /// The bytes of the item and its accesses.
    pub extent: Option<Extent>,
    /// The word `if` right of `has`, with its accesses: nothing of a sum or a relation goes on
    /// behind it.
    pub is_if: bool,
}

/// Open parentheses around an expression.
#[derive(Drop)]
pub struct Paren {
    pub outer: PendingOperators,
    pub signs: Signs,
    pub opened: Extent,
}

/// An open bracket, and the elements before the one that is begun.
#[derive(Drop)]
pub struct Set {
    pub outer: PendingOperators,
    pub signs: Signs,
    pub opened: Extent,
    pub items: Items<Node<Option<Expr>>>,
}

/// An open parenthesis behind an operand, and the arguments before the one that is begun.
#[derive(Drop)]
pub struct Call {
    pub outer: PendingOperators,
    pub operand: Operand,
    pub opened: Extent,
    pub items: Items<Node<Option<Expr>>>,
}

/// An open bracket behind an operand.
#[derive(Drop)]
pub struct Index {
    pub outer: PendingOperators,
    pub operand: Operand,
    pub opened: Extent,
}

/// A key and its colon, and their bytes.
#[derive(Drop)]
pub struct Key {
    pub node: Node<Option<Expr>>,
    pub extent: Option<Extent>,
}

/// An open brace, the pairs before the one that is begun, and this one's key once its colon is
/// read.
#[derive(Drop)]
pub struct Record {
    pub outer: PendingOperators,
    pub signs: Signs,
    pub opened: Extent,
    pub items: Items<Node<Option<RecInit>>>,
    pub key: Option<Key>,
}

/// The word `if`.
#[derive(Drop)]
pub struct Guard {
    pub branches: Stack<Branch>,
    pub opened: Option<Extent>,
}

/// `if`, its guard and `then`.
#[derive(Drop)]
pub struct Then {
    pub branches: Stack<Branch>,
    pub guard: Node<Option<Expr>>,
    pub extent: Option<Extent>,
}

/// An open bracket, and what is begun outside of it. `if`, `then` and a record's colon are
/// brackets too.
#[derive(Drop)]
pub enum Frame {
    Paren(Paren),
    Set(Set),
    Call(Call),
    Index(Index),
    Record(Record),
    Guard(Guard),
    Then(Then),
}

/// Where an operand is wanted: this says what the word `if` alone is there, and what else may
/// stand there.
#[derive(Drop, Clone, Copy)]
pub enum OperandPlace {
    /// First in an expression: `if` begins a conditional.
    Expr,
    /// The same, and the list may end.
    Item,
    /// The same in a record: `if` before a colon is a key.
    Key,
    /// Right of `has`: `if` is a name.
    Has,
    /// Behind an operator or a sign: `if` is nothing.
    Operand,
    /// A primary alone: no sign stands before it, and `if` is nothing.
    Primary,
}

/// Where an operand is wanted, and the signs before it.
#[derive(Drop, Clone, Copy)]
pub struct OperandPrefix {
    pub place: OperandPlace,
    pub signs: Signs,
}

/// What comes next: an operand, or what follows one.
#[derive(Drop)]
pub enum OperandMode {
    Want {
        place: OperandPlace,
        signs: Signs,
    },
    /// Words are begun, which may go on.
    Word {
        place: OperandPlace,
        signs: Signs,
        words: WordsState,
    },
    /// Behind an operand, or behind the `.` that stands there.
    Have {
        operand: Operand,
        dot: Option<Extent>,
    },
}

/// The open brackets, the newest first, and what is begun inside of the newest.
#[derive(Drop)]
pub struct State {
    pub stack: Stack<Frame>,
    pub levels: PendingOperators,
    pub mode: OperandMode,
}

/// What the whole text is read as. Inside of brackets stand whole expressions.
#[derive(Drop, Clone, Copy)]
pub enum StartSymbol {
    Expr,
    Sum,
    Primary,
}

/// What one token alone is, among words.
#[derive(Drop, Clone, Copy)]
pub enum SingleWord {
    True,
    False,
    If,
    Name,
}

/// What may follow an operand.
#[derive(Drop, Clone, Copy)]
pub enum FollowSet {
    /// Nothing, behind a primary alone.
    Primary,
    /// Accesses, and the operators of products and sums.
    Sum,
    /// Accesses, and `&&` and `||`.
    If,
    Whole,
}

/// What is done with a token where an operand is wanted.
#[derive(Drop, Clone, Copy)]
pub enum StartAct {
    /// Words begin.
    Word,
    Number,
    String,
    Slot(SlotToken),
    Sign(Sign),
    /// `(`
    Paren,
    /// `[`
    Bracket,
    /// `{`
    Brace,
    /// The list ends in which an item may stand.
    Ends(Closing),
}

/// What is done with a token that is taken.
#[derive(Drop, Clone, Copy)]
pub enum Act {
    /// It begins an operand, or stands before one.
    Begin(StartAct),
    /// The words that are begun go on.
    Words(WordsAct),
    /// They have ended: they are the operand behind which it stands.
    Reduce(FollowClass),
    /// They are `if`: it begins the guard of a conditional.
    Guard(StartAct),
    /// They are `if` as a key, and it is the key's colon.
    Key,
    /// It is the identifier behind `.`.
    Field,
    /// It stands behind an operand.
    Follow(FollowClass),
}
