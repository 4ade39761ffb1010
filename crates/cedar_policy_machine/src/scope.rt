//! An element of the scope: a variable, and possibly a type name, an entity type and a constraint.
ghost use Rattle.std.specs.Prelude.{◌≡◌, Some, None, IfOk, OnOk, IsTrue};
ghost use Rattle.cedar_syntax.specs.trees.Trees.{variable_def_of};
ghost use Rattle.cedar_policy_machine.specs.declared.scope.ElementPart.TheVariants as part;
ghost use Rattle.cedar_policy_machine.specs.machines.Scope.{readers_of, reader_plans, with_variable, element_with_part, compare_plan, narrow_plan, behind_part, sum_beginning, constraint_beginning, element_ends, element_finish, MayLeave};

use cedar_grammar::never;
use cedar_grammar::reading::driver::PushParser;
use cedar_grammar::reading::mark::as_relation;
use cedar_grammar::reading::node_builder::NodeBuilder;
use cedar_grammar::reading::put::{put, take_node};
use cedar_grammar::reading::token_read::TokenRead;
use cedar_grammar::reading::tokens::{ident_node, if_ident};
use cedar_lexer::token::{Token, TokenKind};
use cedar_syntax::cst::{Add, Expr, Ident, Name, RelOp, VariableDef};
use cedar_syntax::node::Node;
use std::alloc::{AllocError, Global};

/// The part of an element that is begun: a name `N`, a sum `S` or an expression `E`.
#[derive(Drop)]
pub enum ElementPart<N, S, E> {
    /// The variable is to come.
    Start,
    /// The variable is there, and no part is begun.
    Nothing,
    /// Behind `:`.
    TypeName(N),
    /// Behind `is`.
    EntityType(S),
    /// Behind an operator.
    Constraint(RelOp, E),
}

/// What has been read of an element, each where it stays, and the part that is begun.
#[derive(Drop)]
pub struct ElementState<N, S, E> {
    pub variable: Node<Option<Ident>>,
    pub unused_type_name: Option<Node<Option<Name>>>,
    pub entity_type: Option<Node<Option<Add>>>,
    pub part: ElementPart<N, S, E>,
}

/// What is done with a token of an element, whose parts do `N`, `S` and `E` with one.
#[derive(Drop, Clone, Copy)]
pub enum ElementAct<N, S, E> {
    /// The variable.
    Variable,
    /// `:`
    Colon,
    TypeName(N),
    /// `is`
    Is,
    EntityType(S),
    /// An operator.
    Compare(RelOp),
    Constraint(E),
}

/// What is done with an operator.
fn plan_compare<N: Drop, S: Drop, E: Drop>(kind: TokenKind) -> Option<ElementAct<N, S, E>>
    ensures { result ≡ compare_plan kind }
{
    match as_relation(kind) {
        Some(op) => Some(ElementAct::Compare(op)),
        None => None,
    }
}

/// What is done with `is`, or an operator.
fn plan_narrow<N: Drop, S: Drop, E: Drop>(kind: TokenKind) -> Option<ElementAct<N, S, E>>
    ensures { result ≡ narrow_plan kind }
{
    match kind {
        TokenKind::Is => Some(ElementAct::Is),
        _ => plan_compare(kind),
    }
}

impl<N, S, E> ElementState<N, S, E>
where
    N: PushParser<Node<Option<Name>>>,
    S: PushParser<Node<Option<Add>>>,
    E: PushParser<Node<Option<Expr>>>,
{
    /// The variable. Each part is turned to in a function of its own, so that what is done with
    /// other tokens clears no room for it.
    #[inline(never)]
    fn name(&mut self, variable: Node<Option<Ident>>)
        ensures { self.new ≡ with_variable self.old variable }
    {
        put(&mut self.variable, variable);
        put(&mut self.part, ElementPart::Nothing);
    }

    /// Begins a type name, behind the variable.
    #[inline(never)]
    fn begin_type_name(&mut self, alloc: Global)
        ensures { self.new ≡ element_with_part self.old (part.TypeName N.reader.start) }
    {
        put(&mut self.part, ElementPart::TypeName(N::start(alloc)));
    }

    /// A type name or an entity type that has ended is put where it stays.
    #[inline(never)]
    fn end_part(&mut self, builder: NodeBuilder<'_>) -> Result<(), AllocError>
        requires { MayLeave (reader_plans (readers_of N.reader S.reader E.reader))
            self.old.part }
        ensures slots { OnOk result ((part : _) → element_with_part self.new part
            ≡ behind_part builder.entry.source.now (readers_of N.reader S.reader E.reader) self.old
            self.old.part part) }
        ensures tree { OnOk result (element_finish (readers_of N.reader S.reader E.reader)
            builder.entry.source.now self.old ≡ Some (variable_def_of self.new.variable
            self.new.unused_type_name self.new.entity_type None)) }
    {
        match &mut self.part {
            ElementPart::TypeName(held) => {
                let name = held.finish(builder)?;
                put(&mut self.unused_type_name, Some(name));
            }
            ElementPart::EntityType(held) => {
                let sum = held.finish(builder)?;
                put(&mut self.entity_type, Some(sum));
            }
            ElementPart::Nothing => {}
            _ => never!(),
        }
        Ok(())
    }

    /// Begins a part behind one that may have ended.
    #[inline(never)]
    fn begin_sum(&mut self, builder: NodeBuilder<'_>) -> Result<(), AllocError>
        requires { MayLeave (reader_plans (readers_of N.reader S.reader E.reader))
            self.old.part }
        ensures { OnOk result (self.new ≡ sum_beginning builder.entry.source.now
            (readers_of N.reader S.reader E.reader) self.old) }
    {
        self.end_part(builder)?;
        put(
            &mut self.part,
            ElementPart::EntityType(S::start(builder.alloc)),
        );
        Ok(())
    }

    /// The same, of a constraint.
    #[inline(never)]
    fn begin_constraint(&mut self, builder: NodeBuilder<'_>, op: RelOp) -> Result<(), AllocError>
        requires { MayLeave (reader_plans (readers_of N.reader S.reader E.reader))
            self.old.part }
        ensures { OnOk result (self.new ≡ constraint_beginning builder.entry.source.now
            (readers_of N.reader S.reader E.reader) self.old op) }
    {
        self.end_part(builder)?;
        put(
            &mut self.part,
            ElementPart::Constraint(op, E::start(builder.alloc)),
        );
        Ok(())
    }

    /// What the constraint compares with, where one is begun, which has ended; another part ends.
    fn end_constraint(
        &mut self,
        builder: NodeBuilder<'_>,
    ) -> Result<Option<(RelOp, Node<Option<Expr>>)>, AllocError>
        requires { IsTrue (element_ends
            (reader_plans (readers_of N.reader S.reader E.reader)) self.old.part) }
        ensures { IfOk result (λ ineq. element_finish (readers_of N.reader S.reader E.reader)
            builder.entry.source.now self.old ≡ Some (variable_def_of self.new.variable
            self.new.unused_type_name self.new.entity_type ineq)) }
    {
        match &mut self.part {
            ElementPart::Constraint(op, held) => {
                let right = held.finish(builder)?;
                Ok(Some((*op, right)))
            }
            _ => {
                self.end_part(builder)?;
                Ok(None)
            }
        }
    }
}

impl<N, S, E> PushParser<VariableDef> for ElementState<N, S, E>
where
    N: PushParser<Node<Option<Name>>>,
    S: PushParser<Node<Option<Add>>>,
    E: PushParser<Node<Option<Expr>>>,
{
    ghost use Rattle.cedar_policy_machine.specs.machines.Scope.{readers_of, element_reader};

    type Act = ElementAct<N::Act, S::Act, E::Act>;

    ghost reader = { element_reader (readers_of N.reader S.reader E.reader) };

    fn start(_: Global) -> ElementState<N, S, E> {
        ElementState {
            variable: Node {
                node: None,
                loc: None,
            },
            unused_type_name: None,
            entity_type: None,
            part: ElementPart::Start,
        }
    }

    fn first(kind: TokenKind) -> Option<ElementAct<N::Act, S::Act, E::Act>> {
        if_ident(kind, ElementAct::Variable)
    }

    #[inline(always)]
    fn plan(&self, kind: TokenKind) -> Option<ElementAct<N::Act, S::Act, E::Act>> {
        match &self.part {
            ElementPart::Start => if_ident(kind, ElementAct::Variable),
            ElementPart::Nothing => match kind {
                TokenKind::Colon => Some(ElementAct::Colon),
                _ => plan_narrow(kind),
            },
            ElementPart::TypeName(held) => match held.plan(kind) {
                Some(act) => Some(ElementAct::TypeName(act)),
                None => { if held.ends() { plan_narrow(kind) } else { None } }
            },
            ElementPart::EntityType(held) => match held.plan(kind) {
                Some(act) => Some(ElementAct::EntityType(act)),
                None => {
                    if held.ends() {
                        plan_compare(kind)
                    } else {
                        None
                    }
                }
            },
            ElementPart::Constraint(_, held) => match held.plan(kind) {
                Some(act) => Some(ElementAct::Constraint(act)),
                None => None,
            },
        }
    }

    fn ends(&self) -> bool {
        match &self.part {
            ElementPart::Start => false,
            ElementPart::Nothing => true,
            ElementPart::TypeName(held) => held.ends(),
            ElementPart::EntityType(held) => held.ends(),
            ElementPart::Constraint(_, held) => held.ends(),
        }
    }

    fn act(
        &mut self,
        builder: NodeBuilder<'_>,
        act: ElementAct<N::Act, S::Act, E::Act>,
        token: &Token<'_>,
    ) -> Result<TokenRead, AllocError> {
        match act {
            ElementAct::Constraint(act) => match &mut self.part {
                ElementPart::Constraint(_, held) => held.act(builder, act, token),
                _ => never!(),
            },
            ElementAct::EntityType(act) => match &mut self.part {
                ElementPart::EntityType(held) => held.act(builder, act, token),
                _ => never!(),
            },
            ElementAct::TypeName(act) => match &mut self.part {
                ElementPart::TypeName(held) => held.act(builder, act, token),
                _ => never!(),
            },
            ElementAct::Variable => {
                self.name(ident_node(builder, token)?);
                Ok(TokenRead::Done)
            }
            ElementAct::Colon => {
                self.begin_type_name(builder.alloc);
                Ok(TokenRead::Done)
            }
            ElementAct::Is => {
                self.begin_sum(builder)?;
                Ok(TokenRead::Done)
            }
            ElementAct::Compare(op) => {
                self.begin_constraint(builder, op)?;
                Ok(TokenRead::Done)
            }
        }
    }

    fn finish(&mut self, builder: NodeBuilder<'_>) -> Result<VariableDef, AllocError> {
        let ineq = self.end_constraint(builder)?;
        Ok(VariableDef {
            variable: take_node(&mut self.variable),
            unused_type_name: self.unused_type_name.take(),
            entity_type: self.entity_type.take(),
            ineq,
        })
    }
}
