//! What a machine answers to a token that it can take.

/// What a machine answers to a token that it can take.
#[derive(Drop, Clone, Copy)]
pub enum TokenRead {
    /// It is read: the state is the one behind it.
    Done,
    /// It is a number that 64 bits don't hold. Nothing is said of the state.
    TooLarge,
}
