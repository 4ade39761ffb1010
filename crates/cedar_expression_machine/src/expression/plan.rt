//! What is done with a token, by its kind and the shape of the state alone: nothing is built.
ghost use Rattle.std.specs.Prelude.{◌≡◌, [], ◌∷◌, None};
ghost use Rattle.cedar_grammar.specs.machines.Machine.{option_image};
ghost use Rattle.cedar_expression_machine.specs.declared.expression.state.OperandPlace.TheVariants as places;
ghost use Rattle.cedar_expression_machine.specs.machines.ExpressionPlans.{start_follow_set, edge, follow_set_of, has_access, has_sum, has_relation, has_and, may_compare, may_side, may_end, stack_may_end, may_follow, may_sign, sign_may_stand, begin_plan, list_may_end, operand_plan, if_follows, behind_plan, reduce_plan, key_plan, if_plan, ended_words_plan, word_plan, shape_plan, ends, if_ends, words_can_end};
ghost use Rattle.cedar_expression_machine.specs.machines.ExpressionShapes.{relation_shape, frame_shape, stack_shape, op_sign, mode_shape};
ghost use Rattle.cedar_expression_machine.specs.machines.NamedShapes.{named_outline};
ghost use Rattle.cedar_expression_machine.specs.machines.WholeExpressions.{state_ends, state_shape};
ghost use Rattle.cedar_expression_machine.specs.machines.WordShapes.{words_shape};

use crate::expression::operand::begun_words;
use crate::expression::state::{
    Act, FollowSet, Frame, OperandMode, OperandPlace, OperandPrefix, PendingRelation, Record,
    StartAct, StartSymbol, State,
};
use crate::words::state::WordsState;
use cedar_expressions::Boxed;
use cedar_grammar::reading::class::{
    Closing, FollowClass, SideWord, Sign, StartClass, follow_class, start_class,
};
use cedar_grammar::reading::tokens::if_ident;
use cedar_lexer::token::TokenKind;
use cedar_syntax::cst::{NegOp, RelOp};

/// How far an operand of the whole goes on.
fn start_follow_set(symbol: StartSymbol) -> FollowSet
    ensures { result ≡ start_follow_set symbol }
{
    match symbol {
        StartSymbol::Expr => FollowSet::Whole,
        StartSymbol::Sum => FollowSet::Sum,
        StartSymbol::Primary => FollowSet::Primary,
    }
}

impl FollowSet {
    /// Whether an access may follow.
    fn has_access(self) -> bool
        ensures { result ≡ has_access self }
    {
        match self {
            FollowSet::Primary => false,
            FollowSet::Sum | FollowSet::If | FollowSet::Whole => true,
        }
    }

    /// Whether an operator of sums and products may follow.
    fn has_sum(self) -> bool
        ensures { result ≡ has_sum self }
    {
        match self {
            FollowSet::Primary | FollowSet::If => false,
            FollowSet::Sum | FollowSet::Whole => true,
        }
    }

    /// Whether a comparison or one of the words may follow.
    fn has_relation(self) -> bool
        ensures { result ≡ has_relation self }
    {
        match self {
            FollowSet::Whole => true,
            FollowSet::Primary | FollowSet::Sum | FollowSet::If => false,
        }
    }

    /// Whether `&&` or `||` may follow.
    fn has_and(self) -> bool
        ensures { result ≡ has_and self }
    {
        match self {
            FollowSet::Primary | FollowSet::Sum => false,
            FollowSet::If | FollowSet::Whole => true,
        }
    }
}

/// Whether a comparison may follow this left side.
fn may_compare(left: &Option<Boxed<PendingRelation>>, op: RelOp) -> bool
    ensures { result ≡ may_compare (relation_shape left.now) op }
{
    match left {
        None => true,
        Some(left) => match left.as_ref() {
            PendingRelation::Common(_) => true,
            PendingRelation::Is(_) => matches!(op, RelOp::In),
            PendingRelation::Has(_) | PendingRelation::Like(_) | PendingRelation::IsIn { .. } =>
                false,
        },
    }
}

/// Whether one of the words may follow this left side.
fn may_side(left: &Option<Boxed<PendingRelation>>) -> bool
    ensures { result ≡ may_side (relation_shape left.now) }
{
    matches!(left, None)
}

impl Frame {
    /// Whether this ends the expression in the bracket, or an item of its list.
    fn may_end(&self, closing: Closing) -> bool
        ensures { result ≡ may_end (frame_shape self.now) closing }
    {
        match self {
            Frame::Paren(_) => matches!(closing, Closing::Paren),
            Frame::Set(_) => matches!(closing, Closing::Comma | Closing::Bracket),
            Frame::Call(_) => matches!(closing, Closing::Comma | Closing::Paren),
            Frame::Index(_) => matches!(closing, Closing::Bracket),
            Frame::Record(record) => match &record.key {
                None => matches!(closing, Closing::Colon),
                Some(_) => matches!(closing, Closing::Comma | Closing::Brace),
            },
            Frame::Guard(_) => matches!(closing, Closing::Then),
            Frame::Then(_) => matches!(closing, Closing::Else),
        }
    }

    /// Whether this ends its list where an item may begin.
    fn may_end_list(&self, place: OperandPlace, closing: Closing) -> bool
        ensures { (st : _) → result ≡ list_may_end (frame_shape self.now ∷ st) place closing }
    {
        match (place, closing) {
            (OperandPlace::Item, Closing::Bracket) => matches!(self, Frame::Set(_)),
            (OperandPlace::Item, Closing::Paren) => matches!(self, Frame::Call(_)),
            (OperandPlace::Key, Closing::Brace) => {
                matches!(self, Frame::Record(Record { key: None, .. }))
            }
            _ => false,
        }
    }
}

/// Whether both signs are of one kind.
fn may_sign_behind(op: Option<NegOp>, sign: Sign) -> bool
    ensures { result ≡ may_sign (op_sign op) sign }
{
    match (op, sign) {
        (None, _) => true,
        (Some(NegOp::Bang(_) | NegOp::OverBang), Sign::Bang) => true,
        (Some(NegOp::Dash(_) | NegOp::OverDash), Sign::Dash) => true,
        (Some(NegOp::Bang(_) | NegOp::OverBang), Sign::Dash) => false,
        (Some(NegOp::Dash(_) | NegOp::OverDash), Sign::Bang) => false,
    }
}

/// Whether a sign may stand behind these.
fn may_sign(prefix: OperandPrefix, sign: Sign) -> bool
    ensures { result ≡ sign_may_stand prefix.place (op_sign prefix.signs.op) sign }
{
    match prefix.place {
        OperandPlace::Primary => false,
        OperandPlace::Expr
        | OperandPlace::Item
        | OperandPlace::Key
        | OperandPlace::Has
        | OperandPlace::Operand => { may_sign_behind(prefix.signs.op, sign) }
    }
}

/// What a token of this kind begins, where no sign stands before it and no list can end.
pub fn plan_begin(kind: TokenKind) -> Option<StartAct>
    ensures { result ≡ begin_plan kind }
{
    match start_class(kind) {
        StartClass::Word => Some(StartAct::Word),
        StartClass::Number => Some(StartAct::Number),
        StartClass::String => Some(StartAct::String),
        StartClass::Slot(slot) => Some(StartAct::Slot(slot)),
        StartClass::Sign(sign) => Some(StartAct::Sign(sign)),
        StartClass::Paren => Some(StartAct::Paren),
        StartClass::Bracket => Some(StartAct::Bracket),
        StartClass::Brace => Some(StartAct::Brace),
        StartClass::Ends(_) | StartClass::Other => None,
    }
}

/// This operator behind an operand, where it may stand.
fn if_follows(follows: bool, operator: FollowClass) -> Option<FollowClass>
    ensures { result ≡ if_follows follows operator }
{
    if follows { Some(operator) } else { None }
}

/// This, where an operand begins.
fn begin_with(begin: Option<StartAct>) -> Option<Act>
    ensures { result ≡ option_image (λ b. Act.Begin b) begin }
{
    match begin {
        Some(begin) => Some(Act::Begin(begin)),
        None => None,
    }
}

/// This, where the guard of a conditional begins.
fn guard_with(begin: Option<StartAct>) -> Option<Act>
    ensures { result ≡ option_image (λ b. Act.Guard b) begin }
{
    match begin {
        Some(begin) => Some(Act::Guard(begin)),
        None => None,
    }
}

/// This, behind words that have ended.
fn reduce_with(operator: Option<FollowClass>) -> Option<Act>
    ensures { result ≡ reduce_plan operator }
{
    match operator {
        Some(operator) => Some(Act::Reduce(operator)),
        None => None,
    }
}

/// What is done with a first token of this kind.
pub fn plan_first(kind: TokenKind) -> Option<Act>
    ensures { result ≡ option_image (λ b. Act.Begin b) (begin_plan kind) }
{
    begin_with(plan_begin(kind))
}

/// What is done with a first token of this kind, where a primary alone is wanted: no sign.
pub fn plan_first_unsigned(kind: TokenKind) -> Option<Act>
    ensures { result ≡ option_image (λ b. Act.Begin b) (operand_plan [] places.Primary None kind) }
{
    match start_class(kind) {
        StartClass::Sign(_) => None,
        _ => plan_first(kind),
    }
}

impl State {
    /// How far an operand goes on here.
    fn edge(&self, symbol: StartSymbol) -> FollowSet
        ensures { result ≡ edge symbol (stack_shape self.now.stack) }
    {
        match self.stack.top() {
            None => start_follow_set(symbol),
            Some(_) => FollowSet::Whole,
        }
    }

    /// How far this operand goes on.
    fn follow_set(&self, symbol: StartSymbol, is_if: bool) -> FollowSet
        ensures { result ≡ follow_set_of symbol (stack_shape self.now.stack) is_if }
    {
        match is_if {
            true => FollowSet::If,
            false => self.edge(symbol),
        }
    }

    /// Whether this ends an expression inside of the newest bracket.
    fn may_end(&self, closing: Closing) -> bool
        ensures { result ≡ stack_may_end (stack_shape self.now.stack) closing }
    {
        match self.stack.top() {
            None => false,
            Some(frame) => frame.may_end(closing),
        }
    }

    /// Whether this ends the list of the newest bracket, where an item may begin.
    fn may_end_list(&self, place: OperandPlace, closing: Closing) -> bool
        ensures { result ≡ list_may_end (stack_shape self.now.stack) place closing }
    {
        match self.stack.top() {
            None => false,
            Some(frame) => frame.may_end_list(place, closing),
        }
    }

    /// Whether a token of this class may follow an operand that goes on so far.
    #[inline(always)]
    fn may_follow(&self, follow_set: FollowSet, operator: FollowClass) -> bool
        ensures { result ≡ may_follow (stack_shape self.now.stack)
            (relation_shape self.now.levels.relation) follow_set operator }
    {
        match operator {
            FollowClass::Access(_) => follow_set.has_access(),
            FollowClass::Multiply(_) => follow_set.has_sum(),
            FollowClass::Sum(_) => follow_set.has_sum(),
            FollowClass::Compare(op) => {
                follow_set.has_relation() && may_compare(&self.levels.relation, op)
            }
            FollowClass::Side(_) => follow_set.has_relation() && may_side(&self.levels.relation),
            FollowClass::And => follow_set.has_and(),
            FollowClass::Or => follow_set.has_and(),
            FollowClass::Ends(closing) => self.may_end(closing),
            FollowClass::Other => false,
        }
    }

    /// What is done with a token of this kind behind an operand.
    #[inline(always)]
    fn plan_behind(&self, symbol: StartSymbol, is_if: bool, kind: TokenKind) -> Option<FollowClass>
        ensures { result ≡ behind_plan symbol (stack_shape self.now.stack)
            (relation_shape self.now.levels.relation) is_if kind }
    {
        let operator = follow_class(kind);
        let follows = self.may_follow(self.follow_set(symbol, is_if), operator);
        if_follows(follows, operator)
    }

    /// What is done with it where an operand is wanted.
    fn plan_operand(&self, prefix: OperandPrefix, kind: TokenKind) -> Option<StartAct>
        ensures { result ≡ operand_plan (stack_shape self.now.stack) prefix.place
            (op_sign prefix.signs.op) kind }
    {
        match start_class(kind) {
            StartClass::Sign(sign) => {
                if may_sign(prefix, sign) {
                    Some(StartAct::Sign(sign))
                } else {
                    None
                }
            }
            StartClass::Ends(closing) => {
                if self.may_end_list(prefix.place, closing) {
                    Some(StartAct::Ends(closing))
                } else {
                    None
                }
            }
            _ => plan_begin(kind),
        }
    }

    /// What is done with it behind `if` where a key is wanted.
    fn plan_key(&self, kind: TokenKind) -> Option<Act>
        ensures { result ≡ key_plan (stack_shape self.now.stack) kind }
    {
        match kind {
            TokenKind::Colon => match self.stack.top() {
                Some(Frame::Record(Record { key: None, .. })) => Some(Act::Key),
                _ => None,
            },
            _ => guard_with(plan_begin(kind)),
        }
    }

    /// What is done with it behind the word `if` alone.
    fn plan_if(&self, symbol: StartSymbol, place: OperandPlace, kind: TokenKind) -> Option<Act>
        ensures { result ≡ if_plan symbol (stack_shape self.now.stack)
            (relation_shape self.now.levels.relation) place kind }
    {
        match place {
            OperandPlace::Expr | OperandPlace::Item => guard_with(plan_begin(kind)),
            OperandPlace::Key => self.plan_key(kind),
            OperandPlace::Has => reduce_with(self.plan_behind(symbol, true, kind)),
            OperandPlace::Operand | OperandPlace::Primary => None,
        }
    }

    /// What is done with it behind words that have ended.
    fn plan_ended(
        &self,
        symbol: StartSymbol,
        place: OperandPlace,
        words: &WordsState,
        kind: TokenKind,
    ) -> Option<Act>
        ensures { result ≡ ended_words_plan symbol (stack_shape self.now.stack)
            (relation_shape self.now.levels.relation) place (option_image named_outline.is_if
            (named_outline.outline.finish (words_shape words.now))) kind }
    {
        match begun_words::ends(words) {
            Some(true) => self.plan_if(symbol, place, kind),
            Some(false) => reduce_with(self.plan_behind(symbol, false, kind)),
            None => None,
        }
    }

    /// What is done with it behind words that may go on.
    fn plan_words(
        &self,
        symbol: StartSymbol,
        place: OperandPlace,
        words: &WordsState,
        kind: TokenKind,
    ) -> Option<Act>
        ensures { result ≡ word_plan symbol named_outline (stack_shape self.now.stack)
            (relation_shape self.now.levels.relation) place (words_shape words.now) kind }
    {
        match words.plan_words(kind) {
            Some(act) => Some(Act::Words(act)),
            None => self.plan_ended(symbol, place, words, kind),
        }
    }

    /// What is done with a token of this kind, or nothing where no sentence has it next.
    pub fn plan(&self, symbol: StartSymbol, kind: TokenKind) -> Option<Act>
        ensures { result ≡ shape_plan symbol named_outline (state_shape self.now) kind }
    {
        match &self.mode {
            OperandMode::Want { place, signs } => {
                let (place, signs) = (*place, *signs);
                begin_with(self.plan_operand(OperandPrefix { place, signs }, kind))
            }
            OperandMode::Word { place, words, .. } => self.plan_words(symbol, *place, words, kind),
            OperandMode::Have { operand, dot: None } => {
                follow_with(self.plan_behind(symbol, operand.is_if, kind))
            }
            OperandMode::Have { .. } => if_ident(kind, Act::Field),
        }
    }

    /// Whether the tree can end here.
    pub fn ends(&self) -> bool
        ensures { result ≡ state_ends self.now }
    {
        match self.stack.top() {
            None => self.mode.ends(),
            Some(_) => false,
        }
    }
}

/// This, behind an operand.
fn follow_with(operator: Option<FollowClass>) -> Option<Act>
    ensures { result ≡ option_image (λ o. Act.Follow o) operator }
{
    match operator {
        Some(operator) => Some(Act::Follow(operator)),
        None => None,
    }
}

/// Whether words may end a tree: the word `if` alone is an operand right of `has`.
fn if_ends(place: OperandPlace, is_if: bool) -> bool
    ensures { result ≡ if_ends place is_if }
{
    match place {
        OperandPlace::Has => true,
        OperandPlace::Expr
        | OperandPlace::Item
        | OperandPlace::Key
        | OperandPlace::Operand
        | OperandPlace::Primary => !is_if,
    }
}

/// Whether words that are begun may end a tree.
fn words_end(place: OperandPlace, words: &WordsState) -> bool
    ensures { result ≡ words_can_end named_outline place
        (named_outline.outline.finish (words_shape words.now)) }
{
    match begun_words::ends(words) {
        None => false,
        Some(is_if) => if_ends(place, is_if),
    }
}

impl OperandMode {
    /// Whether the tree can end here, where no bracket is open.
    fn ends(&self) -> bool
        ensures { result ≡ ends named_outline [] (mode_shape words_shape self.now) }
    {
        match self {
            OperandMode::Want { .. } => false,
            OperandMode::Word { place, words, .. } => words_end(*place, words),
            OperandMode::Have { dot: None, .. } => true,
            OperandMode::Have { dot: Some(_), .. } => false,
        }
    }
}
