//! How many characters a text has.
ghost use Rattle.std.specs.Prelude.{◌≡◌, ◌≤◌};
ghost use Rattle.cedar_layout.specs.Columns as spec;

/// 1 where a character begins with this byte.
fn byte_width(byte: u8) -> usize
    ensures value { result ≡ spec.byte_width byte }
    ensures small { result ≤ 1 }
{
    if byte < 128 || byte >= 192 { 1 } else { 0 }
}

/// How many characters a text has.
pub(crate) fn width_of(text: &str) -> usize
    ensures { result ≡ spec.width_of text.now }
{
    let mut count = 0;
    for byte in text.as_bytes() {
        count += byte_width(*byte);
    }
    count
}
