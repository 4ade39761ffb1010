//! What a row of the table asks of a token's spelling.
ghost use Rattle.std.specs.Prelude.{◌≡◌};
ghost use Rattle.cedar_report.specs.Signs.{meets, is_one_of, first_byte, begins_word, is_value_end};

/// What is asked of one token.
#[derive(Clone, Copy)]
pub enum Sign {
    /// whatever, also no token
    Any,
    /// no token
    Nothing,
    /// this spelling
    Is(&'static str),
    /// one of these spellings
    OneOf(&'static [&'static str]),
    /// what begins so
    Starts(&'static str),
    /// what begins beyond ASCII
    Foreign,
    /// decimal digits
    Digits,
    /// a string
    Quoted,
    /// a word
    Word,
    /// a word, a string, a number, or the end of one in brackets
    Value,
}

impl Sign {
    /// Whether a token with this spelling is what is asked; the empty text is that of no token.
    pub fn fits(&self, word: &str) -> bool
        ensures { result ≡ meets self.now word.now }
    {
        match self {
            Sign::Any => true,
            Sign::Nothing => word.is_empty(),
            Sign::Is(wanted) => word == *wanted,
            Sign::OneOf(list) => is_one_of(word, list),
            Sign::Starts(front) => word.as_bytes().starts_with(front.as_bytes()),
            Sign::Foreign => first_byte(word) >= 128,
            Sign::Digits => first_byte(word).is_ascii_digit(),
            Sign::Quoted => first_byte(word) == b'"',
            Sign::Word => begins_word(word),
            Sign::Value => is_value_end(word),
        }
    }
}

/// Whether a word is one of these.
pub fn is_one_of(word: &str, list: &[&str]) -> bool
    ensures { result ≡ is_one_of list.now word.now }
{
    for wanted in list {
        if word == *wanted {
            return true;
        }
    }
    false
}

// The first byte of a word; 0 of the empty one.
fn first_byte(word: &str) -> u8
    ensures { result ≡ first_byte word.now }
{
    match word.as_bytes().first() {
        Some(byte) => *byte,
        None => 0,
    }
}

fn begins_word(word: &str) -> bool
    ensures { result ≡ begins_word word.now }
{
    let first = first_byte(word);
    first.is_ascii_alphabetic() || first == b'_'
}

fn is_value_end(word: &str) -> bool
    ensures { result ≡ is_value_end word.now }
{
    let first = first_byte(word);
    begins_word(word)
        || first.is_ascii_digit()
        || first == b'"'
        || first == b')'
        || first == b']'
        || first == b'}'
}
