//! Recovery: how reading goes on behind a fault in a policy.
ghost use Rattle.std.specs.Prelude.{◌≡◌};
ghost use Rattle.cedar_grammar.specs.machines.Skipping.{skip, skip_answer};

use crate::reading::mark::Mark;
use std::alloc::Global;

/// How a fault is left: tokens are skipped, or the parse stops.
#[derive(Drop, Clone, Copy)]
pub enum RecoveryWay {
    /// The parse stops.
    Stop,
    /// To the first `;`.
    ToEnd,
    /// To the first `}` or `;`.
    ToBrace,
}

/// A form in which reading goes on behind a fault.
pub trait Recovering: Drop {
    ghost use Rattle.std.specs.Prelude.{◌≡◌};
    ghost use Rattle.cedar_grammar.specs.declared.reading.recovery.RecoveryWay.{RecoveryWay};

    // how a fault is left in a state
    ghost left: { Self → RecoveryWay };

    // the state with its condition's braces closed, and with its policy ended
    ghost closed: { Self → Self };

    ghost over: { Self → Self };

    /// How a fault is left.
    fn way(&self) -> RecoveryWay
        ensures { result ≡ left self.now };

    /// Behind a `}` that ends skipping.
    fn close(&mut self)
        ensures { self.new ≡ closed self.old };

    /// Behind a `;` that ends skipping.
    fn end(&mut self, alloc: Global)
        ensures { self.new ≡ over self.old };
}

/// What is done behind a token that is skipped.
#[derive(Drop, Clone, Copy)]
pub enum Skipping {
    /// More is skipped.
    On,
    /// Reading goes on.
    Over,
    /// The parse stops.
    Stop,
}

/// Skips a token, the refused one or one behind it.
pub fn skip<S: Recovering>(alloc: Global, state: &mut S, way: RecoveryWay, mark: Mark) -> Skipping
    ensures { skip_answer result state.new ≡ skip S.closed S.over way state.old mark }
{
    match way {
        RecoveryWay::Stop => Skipping::Stop,
        RecoveryWay::ToEnd => match mark {
            Mark::Semicolon => {
                state.end(alloc);
                Skipping::Over
            }
            _ => Skipping::On,
        },
        RecoveryWay::ToBrace => match mark {
            Mark::CloseBrace => {
                state.close();
                Skipping::Over
            }
            Mark::Semicolon => {
                state.end(alloc);
                Skipping::Over
            }
            _ => Skipping::On,
        },
    }
}
