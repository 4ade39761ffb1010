//! Where a conversion leaves its answer, and what answers for the expressions nested in one.
//!
//! Four levels are converted where they stand (`Near`), which takes no list and no walk before it:
//! so is nearly all that people write. Of what nests deeper only that it does is told then, and the
//! whole is converted by lists (`convert`), where each answer waits for what it is nested in.
ghost use Rattle.std.specs.Prelude.{◌≡◌, [], ◌∷◌, OnOk};
ghost use Rattle.cedar_conversion.specs.machines.Taking.{Waits};

use crate::answer::failure::BoxedFailure;
use crate::answer::{Converted, placeholder, put, take};
use crate::levels;
use crate::styles::ExtStyles;
use cedar_expressions::ExprBuilderInfallibleBuild;
use cedar_syntax::cst::Expr;
use cedar_syntax::node::Node;
use cedar_syntax::stack::Stack;
use std::alloc::{AllocError, Global};

/// Where a conversion leaves its answer, and the answers that wait for what they are nested in, the
/// newest first.
#[derive(Drop)]
pub struct Answers<E> {
    pub answer: Converted<E>,
    pub nested: Stack<Converted<E>>,
    /// Whether something nests deeper than is converted where it stands.
    pub is_too_deep: bool,
}

impl<E> Answers<E> {
    /// No answer yet.
    pub(crate) fn new(alloc: Global) -> Answers<E>
        ensures { result.nested ≡ [] }
    {
        Answers {
            answer: placeholder(),
            nested: Stack::new(alloc),
            is_too_deep: false,
        }
    }
}

impl<E: Drop> Answers<E> {
    /// Lets the answer wait.
    pub(crate) fn keep(&mut self) -> Result<(), AllocError>
        ensures { OnOk result (self.new.nested ≡ self.old.answer ∷ self.old.nested) }
    {
        let answer = take(&mut self.answer);
        self.nested.push(answer)
    }
}

/// What answers for the expressions nested in one, from the first to the last.
pub(crate) trait Nests<B: ExprBuilderInfallibleBuild> {
    ghost use Rattle.std.specs.Prelude.{List, [], ◌∷◌};
    ghost use Rattle.cedar_syntax.specs.trees.Forms.{located, expr_form};
    ghost use Rattle.cedar_syntax.specs.trees.Located.{Located};
    ghost use Rattle.cedar_conversion.specs.outcome.Conversion.{outcome};
    ghost use Rattle.cedar_conversion.specs.outcome.Seen.{Gives};
    ghost use Rattle.cedar_conversion.specs.strict.Extensions.{Extensions};
    ghost use Rattle.cedar_conversion.specs.strict.Table.{table_of};
    ghost use Rattle.cedar_conversion.specs.machines.Taking.{ExprAnswer, Taking};
    ghost use Rattle.cedar_conversion.specs.machines.Views.{plain};

    // whether these expressions are answered for where these answers wait
    ghost waits: { Extensions → List (ExprAnswer B.Expr) → List Located → Type 0 };

    /// Leaves the answer of the next nested expression, which is `node`.
    fn answer(
        alloc: Global,
        answers: &mut Answers<B::Expr>,
        styles: &ExtStyles,
        node: &Node<Option<Expr>>,
    )
        ensures { Taking (waits (table_of styles.now)) answers.old.nested
            (located expr_form node.now ∷ []) answers.new.nested
            (Gives (plain B.meaning) answers.new.answer
            (outcome (table_of styles.now) (located expr_form node.now))) };
}

/// Each answer was made before, and is the newest that waits.
pub(crate) struct Waiting;

impl<B: ExprBuilderInfallibleBuild> Nests<B> for Waiting {
    ghost waits = { λ e answers ns. Waits B.meaning e answers ns };

    #[inline(never)]
    fn answer(
        alloc: Global,
        answers: &mut Answers<B::Expr>,
        styles: &ExtStyles,
        node: &Node<Option<Expr>>,
    ) {
        let _ = alloc;
        let _ = styles;
        let _ = node;
        match answers.nested.pop() {
            Some(given) => put(&mut answers.answer, given),
            None => put(&mut answers.answer, placeholder()),
        }
    }
}

/// A nested expression is converted where it stands, and those in it are answered for by `N`.
pub(crate) struct Within<N> {
    inner: N,
}

impl<B: ExprBuilderInfallibleBuild, N: Nests<B>> Nests<B> for Within<N> {
    ghost use Rattle.std.specs.Prelude.{List};
    ghost use Rattle.cedar_syntax.specs.trees.Located.{Located};

    ghost waits = { λ e answers ns. (ms : List Located) → N.waits e answers ms };

    #[inline(always)]
    fn answer(
        alloc: Global,
        answers: &mut Answers<B::Expr>,
        styles: &ExtStyles,
        node: &Node<Option<Expr>>,
    ) {
        levels::expression::<B, N>(alloc, answers, styles, node)
    }
}

/// What nests deeper than is converted where it stands: its answer is a want of memory.
pub(crate) struct TooDeep;

impl<B: ExprBuilderInfallibleBuild> Nests<B> for TooDeep {
    ghost waits = { λ e answers ns. Unit {0} };

    #[cold]
    #[inline(never)]
    fn answer(
        alloc: Global,
        answers: &mut Answers<B::Expr>,
        styles: &ExtStyles,
        node: &Node<Option<Expr>>,
    ) {
        let _ = alloc;
        let _ = styles;
        let _ = node;
        answers.is_too_deep = true;
        put(&mut answers.answer, Err(BoxedFailure::from(AllocError)))
    }
}

/// Four levels of nested expressions are converted where they stand.
pub(crate) type Near = Within<Within<Within<Within<TooDeep>>>>;
