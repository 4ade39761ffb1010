//! What a host is told, as it reads it. `cedar.h` declares the same structs.
ghost use Rattle.std.specs.Prelude.{◌≡◌};
ghost use Rattle.cedar_answers.specs.Answers.{TellsNothing};

/// The text means what was asked for.
pub(crate) const ACCEPTED: u32 = 0;
/// The text has faults.
pub(crate) const REFUSED: u32 = 1;
/// The text isn't UTF-8.
pub(crate) const NOT_UTF8: u32 = 2;
/// No memory was left; nothing is handed out.
pub(crate) const NO_MEMORY: u32 = 3;

/// A line and a column, both from 1: the column in characters, and in UTF-16 units. All are 0
/// where there is no place.
#[repr(C)]
#[derive(Clone, Copy)]
pub struct CedarPosition {
    pub line: usize,
    pub column: usize,
    pub utf16_column: usize,
}

/// A range of bytes of a text, and where it begins and ends.
#[repr(C)]
#[derive(Clone, Copy)]
pub struct CedarRange {
    pub start: usize,
    pub end: usize,
    pub from: CedarPosition,
    pub to: CedarPosition,
}

/// An annotation of a policy: `@key("value")`. Without a value that is empty.
#[repr(C)]
#[derive(Clone, Copy)]
pub struct CedarAnnotation {
    pub key: &'static [u8],
    pub value: &'static [u8],
}

/// An entity: its type, and its id as it stands for itself, escapes resolved.
#[repr(C)]
#[derive(Clone, Copy)]
pub struct CedarEntity {
    pub entity_type: &'static [u8],
    pub id: &'static [u8],
}

/// What a policy asks of the principal, the action or the resource. The operator is `All`, `==`,
/// `in` or `is`, as in Cedar's JSON policies; `is` may have a type and an entity to be in.
#[repr(C)]
#[derive(Clone, Copy)]
pub struct CedarScope {
    /// never freed
    pub operator: &'static [u8],
    /// that of `is`, else empty
    pub entity_type: &'static [u8],
    /// those of `==` and `in`; none where a slot stands there
    pub entities: &'static [CedarEntity],
    pub is_slot: bool,
}

/// A policy. They stand in the order of the text, a policy's annotations in that of their keys.
#[repr(C)]
#[derive(Clone, Copy)]
pub struct CedarPolicy {
    pub id: &'static [u8],
    pub printed: &'static [u8],
    pub annotations: &'static [CedarAnnotation],
    pub principal: CedarScope,
    pub action: CedarScope,
    pub resource: CedarScope,
    pub place: CedarRange,
    pub is_template: bool,
    pub is_forbid: bool,
}

/// Another place that belongs to a fault, and what it is.
#[repr(C)]
#[derive(Clone, Copy)]
pub struct CedarRelated {
    pub place: CedarRange,
    pub text: &'static [u8],
}

/// A fault. A label or a help that there isn't has no bytes.
#[repr(C)]
#[derive(Clone, Copy)]
pub struct CedarFault {
    /// never freed
    pub kind: &'static [u8],
    pub message: &'static [u8],
    /// what could have stood there
    pub label: &'static [u8],
    /// what to write instead
    pub help: &'static [u8],
    /// the names of the kinds of token that could have stood there; no name is freed
    pub expected: &'static [&'static [u8]],
    pub related: &'static [CedarRelated],
    /// where the parser saw it
    pub place: CedarRange,
    /// where its cause stands, as far as the help tells
    pub cause: CedarRange,
    pub has_place: bool,
    /// whether it may come of the fault before it
    pub follows: bool,
}

/// What a text is.
#[repr(C)]
#[derive(Clone, Copy)]
pub struct CedarAnswer {
    pub policies: &'static [CedarPolicy],
    pub faults: &'static [CedarFault],
    pub text: &'static [u8],
    pub status: u32,
}

/// An answer that holds nothing.
pub(crate) fn bare(status: u32) -> CedarAnswer
    ensures status { result.status ≡ status }
    ensures nothing { TellsNothing result }
{
    CedarAnswer {
        policies: &[],
        faults: &[],
        text: &[],
        status,
    }
}
