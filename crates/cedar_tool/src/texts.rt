//! The texts of a run.

/// What was read under a name.
#[derive(Drop)]
pub struct Named<'a> {
    pub name: &'a str,
    pub bytes: &'a [u8],
}

/// A text under its name.
#[derive(Drop)]
pub struct Source<'a> {
    pub name: &'a str,
    pub text: &'a str,
}
