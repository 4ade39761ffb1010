//! What a policy does where it applies.
use cedar_expressions::TryClone;
use std::alloc::AllocError;
use std::fmt;

/// Whether a policy allows or forbids.
#[derive(Debug, Clone, Copy, PartialEq, Eq)]
pub enum Effect {
    Permit,
    Forbid,
}

impl TryClone for Effect {
    fn try_clone(&self) -> Result<Effect, AllocError> {
        Ok(*self)
    }
}

/// `permit` or `forbid`.
impl fmt::Display for Effect {
    ghost use Rattle.std.proofs.Common.{Some};
    ghost use Rattle.cedar_policy_store.specs.PolicyText.{effect_text};

    ghost output = { λ effect. Some (effect_text effect) };

    fn fmt<W: fmt::Write>(&self, f: &mut fmt::Formatter<W>) -> fmt::Result {
        f.write_str(match self {
            Effect::Permit => "permit",
            Effect::Forbid => "forbid",
        })
    }
}
