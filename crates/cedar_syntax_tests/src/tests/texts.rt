//! Texts that stand in the value and texts that are shared: what is read, copied, and handed on.
use super::assertions::{copies, holds, holds_for, made, says_and_copies, shows};
use super::names::text;
use cedar_expressions::{OwnedText, Text, push_escaped};
use std::process::Abort;

/// None, a short one, the longest that stands in the value and the shortest that is shared, each
/// by characters of one byte and of two.
const TEXTS: [&str; 6] = [
    "",
    "a b",
    "abcdefghijklmnopqrstuv",
    "abcdefghijklmnopqrstuvw",
    "éééééééééée",
    "éééééééééééé",
];

/// A `String` of its own.
fn string(rt: &(impl Abort + AllocGlobal), bytes: &str) -> String {
    made(rt, String::from_str(rt.alloc(), bytes))
}

#[test]
fn texts_of_each_length_are_read_and_copied(rt: HostRuntime) {
    says_and_copies(&rt, Text::new(rt.alloc()), "");
    for bytes in &TEXTS {
        let read = text(&rt, bytes);
        holds(&rt, read.len() == bytes.len());
        holds(&rt, read.is_empty() == bytes.is_empty());
        shows(&rt, &made(&rt, read.share()), bytes);
        says_and_copies(&rt, read, bytes);
    }
}

#[test]
fn texts_of_each_length_are_compared(rt: HostRuntime) {
    for bytes in &TEXTS {
        let longer = made(&rt, format!(in rt.alloc(); "{bytes}c"));
        let longer = made(&rt, Text::from_string(longer));
        holds(&rt, text(&rt, bytes) < longer && text(&rt, bytes) != longer);
    }
}

#[test]
fn strings_become_texts_and_back(rt: HostRuntime) {
    for bytes in &TEXTS {
        let read = made(&rt, Text::from_string(string(&rt, bytes)));
        holds(&rt, read.as_str() == *bytes);
        holds(&rt, made(&rt, read.into_string()).as_str() == *bytes);
    }
}

#[test]
fn strings_are_owned_as_they_are(rt: HostRuntime) {
    for bytes in &TEXTS {
        let owned = OwnedText::from(string(&rt, bytes));
        shows(&rt, &owned, bytes);
        holds(
            &rt,
            owned.len() == bytes.len() && owned.is_empty() == bytes.is_empty(),
        );
        holds(&rt, owned.into_string().as_str() == *bytes);
    }
    copies(&rt, made(&rt, OwnedText::from_str(rt.alloc(), "a b")));
}

/// Texts, and the raw text of a string that means each.
const ESCAPED: [(&str, &str); 10] = [
    ("", ""),
    ("a é \u{1F600}", "a é \u{1F600}"),
    ("\"", "\\\""),
    ("\\", "\\\\"),
    ("'*", "'*"),
    ("\n\r\t\0", "\\n\\r\\t\\0"),
    ("\u{1}\u{7f}\u{9f}", "\\u{0001}\\u{007f}\\u{009f}"),
    ("\u{85}\u{2028}\u{2029}", "\\u{0085}\\u{2028}\\u{2029}"),
    ("\u{202e}\u{feff}\u{ad}", "\\u{202e}\\u{feff}\\u{00ad}"),
    ("\"); permit(", "\\\"); permit("),
];

#[test]
fn what_a_screen_acts_on_is_escaped(rt: HostRuntime) {
    for (text, raw) in &ESCAPED {
        let mut out = string(&rt, "<");
        made(&rt, push_escaped(&mut out, text));
        holds_for(&rt, out.as_str().strip_prefix('<') == Some(*raw), raw);
    }
}
