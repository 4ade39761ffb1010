//! The order in which a set's policies are listed.
ghost use Rattle.std.specs.Prelude.{◌≡◌, ◌≤◌, IsTrue, take, drop, length};
ghost use Rattle.std.specs.List.{list_all};
ghost use Rattle.std.specs.Char.{is_ascii_digit};
ghost use Rattle.std.specs.Ordering.{nat_cmp};
ghost use Rattle.cedar_policy_store.specs.IdOrder.{trailing_digits, stem, digits_value, id_order};
ghost use Rattle.cedar_policy_store.specs.Zeros.{significant};

use crate::PolicyID;
use std::cmp::Ordering;

/// How two names stand to one another: behind a common word by the number at the end, by value;
/// else as texts.
pub(crate) fn compare_ids(a: &PolicyID, b: &PolicyID) -> Ordering
    ensures { result ≡ id_order a.now b.now }
{
    let (a_word, a_digits) = split_number(a.as_str().as_bytes());
    let (b_word, b_digits) = split_number(b.as_str().as_bytes());
    match a_word.cmp(b_word) {
        Ordering::Less => Ordering::Less,
        Ordering::Equal => match compare_numbers(a_digits, b_digits) {
            Ordering::Less => Ordering::Less,
            Ordering::Equal => a.cmp(b),
            Ordering::Greater => Ordering::Greater,
        },
        Ordering::Greater => Ordering::Greater,
    }
}

/// The name without the digits at its end, and those.
#[tactic(auto, using(crate::proofs::Numbers::end_digits))]
fn split_number(text: &[u8]) -> (&[u8], &[u8])
    ensures before { result.0.now ≡ stem text.now }
    ensures behind { result.1.now ≡ trailing_digits text.now }
    ensures digits { IsTrue (list_all is_ascii_digit result.1.now) }
{
    text.split_at(word_length(text))
}

/// How many bytes stand before the digits at the end.
fn word_length(text: &[u8]) -> usize
    ensures within { result ≤ length text.now }
    ensures before { take result text.now ≡ stem text.now }
    ensures behind { drop result text.now ≡ trailing_digits text.now }
{
    let mut length = text.len();
    while length > 0 {
        if !text[length - 1].is_ascii_digit() {
            return length;
        }
        length -= 1;
    }
    0
}

/// How the numbers of two rows of digits stand to one another; that of no digits is 0.
fn compare_numbers(a: &[u8], b: &[u8]) -> Ordering
    requires digits_first { IsTrue (list_all is_ascii_digit a.now) }
    requires digits_second { IsTrue (list_all is_ascii_digit b.now) }
    ensures { result ≡ nat_cmp (digits_value a.now) (digits_value b.now) }
{
    let a = without_zeros(a);
    let b = without_zeros(b);
    match a.len().cmp(&b.len()) {
        Ordering::Less => Ordering::Less,
        Ordering::Equal => a.cmp(b),
        Ordering::Greater => Ordering::Greater,
    }
}

/// The digits behind the zeros at the beginning.
fn without_zeros(digits: &[u8]) -> &[u8]
    ensures { result.now ≡ significant digits.now }
{
    let mut at = 0;
    while at < digits.len() && digits[at] == b'0' {
        at += 1;
    }
    &digits[at..]
}
