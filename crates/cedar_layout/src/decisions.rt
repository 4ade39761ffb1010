//! What a layout decides for an item of a text.

/// An item is joined to the one before it, stands a space apart, or begins a line.
#[derive(Clone, Copy)]
pub enum Form {
    Joined,
    Apart,
    Broken,
}

/// A blank line before a line that begins is never written, kept, or always written.
#[derive(Clone, Copy)]
pub enum BlankRule {
    Never,
    Kept,
    Always,
}

/// What stands before an item.
#[derive(Clone, Copy)]
pub struct Decision {
    pub form: Form,
    /// how deep the line begins, where one does
    pub depth: usize,
    /// what becomes of a blank line before that line
    pub rule: BlankRule,
}
