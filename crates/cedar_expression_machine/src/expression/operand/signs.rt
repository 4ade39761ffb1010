//! Signs before an operand.
ghost use Rattle.std.specs.Prelude.{◌≡◌, Some};
ghost use Rattle.cedar_expression_machine.specs.machines.ExpressionModes.{MaySign, mode_signs};
ghost use Rattle.cedar_expression_machine.specs.machines.Wanting.{sign_reading};

use crate::expression::state::{OperandMode, OperandPlace, State};
use cedar_grammar::never;
use cedar_grammar::reading::class::{Sign, add_sign};
use cedar_grammar::reading::extent::{Extent, join_extents};

impl State {
    /// One sign more.
    pub fn read_sign(&mut self, sign: Sign, extent: Extent)
        requires { MaySign self.old.mode sign }
        ensures { Some self.new ≡ sign_reading self.old.stack self.old.levels
            (mode_signs self.old.mode) sign extent }
    {
        match &mut self.mode {
            OperandMode::Want { place, signs } => {
                *place = OperandPlace::Operand;
                signs.op = add_sign(signs.op, sign);
                signs.extent = join_extents(signs.extent, Some(extent));
            }
            OperandMode::Word { .. } | OperandMode::Have { .. } => never!(),
        }
    }
}
