//! Texts that are handed out.
ghost use Rattle.std.specs.Prelude.{◌≡◌, string_bytes};
ghost use Rattle.cedar_answers.specs.Made.{optional_text};

/// The bytes of a text, which the host frees. An empty text has no block, so its own is let go.
pub(crate) fn handed_text(text: String) -> &'static [u8]
    ensures { result.now ≡ string_bytes text }
{
    if text.as_str().is_empty() {
        &[]
    } else {
        text.into_bytes().leak()
    }
}

/// The same, where there is a text.
pub(crate) fn handed_option(text: Option<String>) -> &'static [u8]
    ensures { result.now ≡ optional_text text }
{
    match text {
        Some(text) => handed_text(text),
        None => &[],
    }
}
