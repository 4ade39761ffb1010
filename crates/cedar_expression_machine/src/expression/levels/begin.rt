//! What a state becomes where something begins.
ghost use Rattle.std.specs.Prelude.{◌≡◌, [], None, IfOk, OnOk};
ghost use Rattle.cedar_expression_machine.specs.declared.expression.state.OperandMode.TheVariants as mode;
ghost use Rattle.cedar_expression_machine.specs.machines.Closing.{fresh, no_signs, operand_of};
ghost use Rattle.cedar_expression_machine.specs.machines.ExpressionModes.{HasOperand, WantsOperand};
ghost use Rattle.cedar_expression_machine.specs.machines.ExpressionStates.{state, wants, has_primary};

use crate::expression::state::{
    Branch, Operand, OperandMode, OperandPlace, OperandPrefix, PendingOperators, Signs, Spanned,
    State,
};
use cedar_expressions::Items;
use cedar_grammar::never;
use cedar_grammar::reading::node_builder::NodeBuilder;
use cedar_grammar::reading::put::put;
use cedar_syntax::cst::{Member, Primary};
use cedar_syntax::node::Node;
use cedar_syntax::stack::Stack;
use std::alloc::{AllocError, Global};
use std::mem;

/// Nothing but these `if`s is begun.
pub fn fresh_levels(branches: Stack<Branch>) -> PendingOperators
    ensures { result ≡ fresh branches }
{
    PendingOperators {
        branches,
        or: None,
        and: None,
        relation: None,
        add: None,
        mult: None,
    }
}

/// No sign.
pub fn no_signs() -> Signs
    ensures { result ≡ no_signs }
{
    Signs {
        op: None,
        extent: None,
    }
}

/// An operand is wanted, and nothing stands before it.
pub fn want_at(place: OperandPlace) -> OperandMode
    ensures { result ≡ wants place }
{
    OperandMode::Want {
        place,
        signs: no_signs(),
    }
}

/// An operand that has no accesses yet.
#[inline(always)]
pub fn operand_of(
    builder: NodeBuilder<'_>,
    signs: Signs,
    item: Spanned<Primary>,
) -> Result<Operand, AllocError>
    ensures { IfOk result (λ operand. operand ≡ operand_of builder.entry.source.now signs item) }
{
    let extent = item.extent;
    Ok(Operand {
        signs,
        member: Member {
            item: item.into_node(builder)?,
            access: Items::new(builder.alloc),
        },
        extent,
        is_if: false,
    })
}

/// Behind this operand.
pub fn have(operand: Operand) -> OperandMode
    ensures { result ≡ mode.Have operand None }
{
    OperandMode::Have { operand, dot: None }
}

impl OperandMode {
    /// The operand that has ended is taken out, and behind what stands there one is wanted at this
    /// place.
    #[inline(always)]
    pub fn take_operand(&mut self, place: OperandPlace) -> Operand
        requires { HasOperand self.old }
        ensures operand { self.old ≡ mode.Have result None }
        ensures after { self.new ≡ wants place }
    {
        match mem::replace(self, want_at(place)) {
            OperandMode::Have { operand, dot: _ } => operand,
            OperandMode::Want { .. } | OperandMode::Word { .. } => never!(),
        }
    }
}

impl State {
    /// The same of the state.
    #[inline(always)]
    pub fn take_operand(&mut self, place: OperandPlace) -> Operand
        requires { HasOperand self.old.mode }
        ensures operand { self.old.mode ≡ mode.Have result None }
        ensures after { self.new ≡ state self.old.stack self.old.levels (wants place) }
    {
        self.mode.take_operand(place)
    }

    /// The operand that has ended, lent.
    #[inline(always)]
    pub fn operand(&self) -> &Operand
        requires { HasOperand self.now.mode }
        ensures { self.now.mode ≡ mode.Have result.now None }
    {
        match &self.mode {
            OperandMode::Have { operand, dot: _ } => operand,
            OperandMode::Want { .. } | OperandMode::Word { .. } => never!(),
        }
    }

    /// Where an operand is wanted, and the signs before it.
    #[inline(always)]
    pub fn prefix(&self) -> OperandPrefix
        requires { WantsOperand self.now.mode }
        ensures { self.now.mode ≡ mode.Want result.place result.signs }
    {
        match &self.mode {
            OperandMode::Want { place, signs } => OperandPrefix {
                place: *place,
                signs: *signs,
            },
            OperandMode::Word { .. } | OperandMode::Have { .. } => never!(),
        }
    }

    /// An operand is wanted at this place, where one already was.
    #[inline(always)]
    pub fn want_again(&mut self, next: OperandPlace)
        requires { WantsOperand self.old.mode }
        ensures { self.new ≡ state self.old.stack self.old.levels (wants next) }
    {
        match &mut self.mode {
            OperandMode::Want { place, signs } => {
                *place = next;
                *signs = no_signs();
            }
            OperandMode::Word { .. } | OperandMode::Have { .. } => never!(),
        }
    }

    /// What comes next becomes this. What stands there holds no memory: where an operand is wanted
    /// there is nothing, names and entities are taken out of their words before, and `true`,
    /// `false` and `if` hold none. So nothing is let go, and the compiler copies nothing out of
    /// the state to do so.
    #[inline(always)]
    pub fn set_mode(&mut self, next: OperandMode)
        ensures { self.new ≡ state self.old.stack self.old.levels next }
    {
        mem::forget(mem::replace(&mut self.mode, next));
    }

    /// The levels that are begun are taken out: nothing is begun inside of the bracket that opens.
    #[inline(always)]
    pub fn take_levels(&mut self, alloc: Global) -> PendingOperators
        ensures levels { result ≡ self.old.levels }
        ensures after { self.new ≡ state self.old.stack (fresh []) self.old.mode }
    {
        mem::replace(&mut self.levels, fresh_levels(Stack::new(alloc)))
    }

    /// The levels around a bracket that has ended. Of those inside none is begun any more, but the
    /// list of their `if`s may have memory.
    #[inline(always)]
    pub fn restore(&mut self, outer: PendingOperators)
        ensures { self.new ≡ state self.old.stack outer self.old.mode }
    {
        put(&mut self.levels, outer);
    }

    /// Behind an operand that has no accesses yet.
    #[inline(always)]
    pub fn have_primary(
        &mut self,
        builder: NodeBuilder<'_>,
        signs: Signs,
        item: Spanned<Primary>,
    ) -> Result<(), AllocError>
        ensures { OnOk result (self.new
            ≡ has_primary builder.entry.source.now self.old.stack self.old.levels signs item) }
    {
        let loc = builder.loc_at(item.extent)?;
        let operand = Operand {
            signs,
            extent: item.extent,
            member: Member {
                item: Node {
                    node: Some(item.tree),
                    loc,
                },
                access: Items::new(builder.alloc),
            },
            is_if: false,
        };
        self.set_mode(have(operand));
        Ok(())
    }
}
