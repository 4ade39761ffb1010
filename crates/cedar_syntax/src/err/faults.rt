//! The faults of a text, and the answer of a call that can fail.
ghost use Rattle.std.specs.Prelude.{◌≡◌, [], ◌∷◌, ◌++◌, length, min, slice_get, alloc_error, IfOk, OnOk, OnErr};
ghost use Rattle.std.specs.Option.{option_copied};
ghost use Rattle.std.specs.Borrow.{sem};
ghost use Rattle.std.proofs.Common.{Some};
ghost use Rattle.cedar_syntax.specs.faults.NonEmpty.{remaining_items};

use crate::err::non_empty::Iter;
use crate::err::{NonEmpty, ToASTError, ToCSTError, non_empty};
use crate::loc::SourceSpan;
use cedar_expressions::TryClone;
use std::alloc::{AllocError, AllocFailed, Global};
use std::error::Error;
use std::fmt;

/// A fault of a text: it has no tree, or its tree has no value.
#[derive(Debug, Drop, PartialEq, Eq)]
pub enum ParseError {
    ToCST(ToCSTError),
    ToAST(ToASTError),
}

impl ParseError {
    ghost use Rattle.std.specs.Prelude.{string_bytes};
    ghost use Rattle.std.specs.Option.{option_map};
    ghost use Rattle.cedar_syntax.specs.messages.Help.{SaysLabel, fault_help};
    ghost use Rattle.cedar_syntax.specs.faults.ParseErrors.{span_of};

    /// The bytes at which the fault stands, or `None` where it has no place.
    pub fn primary_source_span(&self) -> Option<SourceSpan>
        ensures { result ≡ span_of self.now }
    {
        match self {
            ParseError::ToCST(fault) => fault.primary_source_span(),
            ParseError::ToAST(fault) => fault.span(),
        }
    }

    /// What could have stood where a parse stopped, in Cedar's own words for tokens, or `None`; of
    /// a tree's fault always `None`. Only want of memory refuses it.
    pub fn label(&self, alloc: Global) -> Result<Option<String>, AllocError>
        ensures { IfOk result (λ label.
            SaysLabel self.now (option_map (λ text. string_bytes text) label)) }
    {
        match self {
            ParseError::ToCST(fault) => fault.label(alloc),
            ParseError::ToAST(_) => Ok(None),
        }
    }

    /// A hint at what to change, or `None`. Only want of memory refuses it.
    pub fn help(&self, alloc: Global) -> Result<Option<String>, AllocError>
        ensures { IfOk result (λ help.
            option_map (λ text. string_bytes text) help ≡ fault_help self.now) }
    {
        match self {
            ParseError::ToCST(fault) => fault.help(alloc),
            ParseError::ToAST(fault) => fault.help(alloc),
        }
    }

    /// A copy that equals its source, places included.
    pub fn try_clone(&self) -> Result<ParseError, AllocError>
        ensures { IfOk result (λ copy. copy ≡ self.now) }
    {
        match self {
            ParseError::ToCST(fault) => Ok(ParseError::ToCST(fault.try_clone()?)),
            ParseError::ToAST(fault) => Ok(ParseError::ToAST(fault.try_clone()?)),
        }
    }
}

impl TryClone for ParseError {
    fn try_clone(&self) -> Result<ParseError, AllocError> {
        ParseError::try_clone(self)
    }
}

impl Clone for ParseError {
    ghost is_clone = { λ fault copy. copy ≡ fault };

    fn clone(&self) -> Result<ParseError, AllocError> {
        ParseError::try_clone(self)
    }
}

impl From<ToCSTError> for ParseError {
    ghost use Rattle.cedar_syntax.specs.declared.err.faults.ParseError.TheVariants.{ToCST};

    ghost from_gives = { λ fault error. error ≡ ToCST fault };

    fn from(fault: ToCSTError) -> ParseError {
        ParseError::ToCST(fault)
    }
}

impl From<ToASTError> for ParseError {
    ghost use Rattle.cedar_syntax.specs.declared.err.faults.ParseError.TheVariants.{ToAST};

    ghost from_gives = { λ fault error. error ≡ ToAST fault };

    fn from(fault: ToASTError) -> ParseError {
        ParseError::ToAST(fault)
    }
}

impl fmt::Display for ParseError {
    ghost use Rattle.cedar_syntax.specs.messages.Messages.{fault_message};

    ghost output = { λ fault. Some (fault_message fault) };

    fn fmt<W: fmt::Write>(&self, f: &mut fmt::Formatter<W>) -> fmt::Result {
        match self {
            ParseError::ToCST(fault) => write!(f, "{fault}"),
            ParseError::ToAST(fault) => write!(f, "{fault}"),
        }
    }
}

impl Error for ParseError {}

/// The faults of a text, in order: one or more.
#[derive(Debug, PartialEq, Eq)]
pub struct ParseErrors {
    pub faults: NonEmpty<ParseError>,
}

/// What holds faults drops them by one call.
impl Drop for ParseErrors {
    fn drop(self) {
        let ParseErrors { faults: _ } = self;
    }
}

impl ParseErrors {
    ghost use Rattle.cedar_syntax.specs.faults.ParseErrors.{faults_of, span_of};
    ghost use Rattle.cedar_syntax.specs.faults.Lending.{LendsFaults};

    /// One fault alone; it takes no memory.
    pub fn from_parse_error(alloc: Global, fault: ParseError) -> ParseErrors
        ensures { faults_of result ≡ fault ∷ [] }
    {
        ParseErrors {
            faults: NonEmpty::new(alloc, fault),
        }
    }

    /// One fault of a text alone; it takes no memory.
    pub fn from_cst(alloc: Global, fault: ToCSTError) -> ParseErrors
        ensures { faults_of result ≡ ParseError.ToCST fault ∷ [] }
    {
        ParseErrors::from_parse_error(alloc, ParseError::ToCST(fault))
    }

    /// One fault of a tree alone; it takes no memory.
    pub fn from_ast(alloc: Global, fault: ToASTError) -> ParseErrors
        ensures { faults_of result ≡ ParseError.ToAST fault ∷ [] }
    {
        ParseErrors::from_parse_error(alloc, ParseError::ToAST(fault))
    }

    /// The first fault.
    pub fn first(&self) -> &ParseError
        ensures { result.now ≡ self.now.faults.head }
    {
        self.faults.first()
    }

    /// How many faults there are, or `usize::MAX` where their count doesn't fit.
    pub fn len(&self) -> usize
        ensures { result ≡ min (length (faults_of self.now)) usize.MAX }
    {
        self.faults.len()
    }

    /// The fault at `index`, counted from 0, or `None` past the last.
    pub fn get(&self, index: usize) -> Option<&ParseError>
        ensures { option_copied result ≡ slice_get (faults_of self.now) index }
    {
        self.faults.get(index)
    }

    /// The faults in order, lent.
    pub fn iter(&self) -> Iter<'_, ParseError>
        ensures { remaining_items result ≡ faults_of self.now }
    {
        self.faults.iter()
    }

    /// The list inside.
    pub fn as_ref(&self) -> &NonEmpty<ParseError>
        ensures { result.now ≡ self.now.faults }
    {
        &self.faults
    }

    /// The list inside, moved out.
    pub fn into_non_empty(self) -> NonEmpty<ParseError>
        ensures { result ≡ self.faults }
    {
        let ParseErrors { faults } = self;
        faults
    }

    /// The list inside, lent to be written.
    pub fn as_mut(&mut self) -> &mut NonEmpty<ParseError>
        ensures* writes_back { sem 𝓛 (LendsFaults self.entry result) }
        ensures value { result.now ≡ self.old.faults }
    {
        &mut self.faults
    }

    /// Adds the faults of another list after those that are there. After want of memory this list
    /// is unchanged.
    pub fn extend(&mut self, more: ParseErrors) -> Result<(), AllocError>
        ensures ok { OnOk result (faults_of self.new ≡ faults_of self.old ++ faults_of more) }
        ensures err { OnErr result (self.new ≡ self.old) }
    {
        let ParseErrors { faults } = more;
        self.faults.append(faults)
    }

    /// The bytes at which the first fault stands, or `None` where it has no place.
    pub fn primary_source_span(&self) -> Option<SourceSpan>
        ensures { result ≡ span_of self.now.faults.head }
    {
        self.first().primary_source_span()
    }

    /// A copy that equals its source, places included.
    pub fn try_clone(&self) -> Result<ParseErrors, AllocError>
        ensures { IfOk result (λ copy. copy ≡ self.now) }
    {
        Ok(ParseErrors {
            faults: self.faults.try_clone()?,
        })
    }
}

impl TryClone for ParseErrors {
    fn try_clone(&self) -> Result<ParseErrors, AllocError> {
        ParseErrors::try_clone(self)
    }
}

impl Clone for ParseErrors {
    ghost is_clone = { λ faults copy. copy ≡ faults };

    fn clone(&self) -> Result<ParseErrors, AllocError> {
        ParseErrors::try_clone(self)
    }
}

/// The faults of a `ParseErrors` in order, moved out.
#[derive(Drop)]
pub struct IntoIter {
    faults: non_empty::IntoIter<ParseError>,
}

impl Iterator for IntoIter {
    ghost use Rattle.std.specs.Iterator.{YieldsFirst, item_count};
    ghost use Rattle.cedar_syntax.specs.faults.ParseErrors.{remaining_faults};

    type Item = ParseError;

    ghost next_gives = { YieldsFirst remaining_faults };

    ghost remaining = { item_count remaining_faults };

    fn next(&mut self) -> Option<ParseError> {
        self.faults.next()
    }
}

impl IntoIterator for ParseErrors {
    ghost use Rattle.cedar_syntax.specs.faults.ParseErrors.{faults_of, remaining_faults};

    type Item = ParseError;

    type IntoIter = IntoIter;

    ghost into_iter_gives = { λ errors items. remaining_faults items ≡ faults_of errors };

    fn into_iter(self) -> IntoIter {
        let ParseErrors { faults } = self;
        IntoIter {
            faults: faults.into_iter(),
        }
    }
}

impl<'a> IntoIterator for &'a ParseErrors {
    ghost use Rattle.cedar_syntax.specs.faults.ParseErrors.{faults_of};

    type Item = &'a ParseError;

    type IntoIter = Iter<'a, ParseError>;

    ghost into_iter_gives = { λ errors items. remaining_items items ≡ faults_of errors.now };

    fn into_iter(self) -> Iter<'a, ParseError> {
        self.iter()
    }
}

/// The first fault alone.
impl fmt::Display for ParseErrors {
    ghost use Rattle.cedar_syntax.specs.messages.Messages.{fault_message};

    ghost output = { λ errors. Some (fault_message errors.faults.head) };

    fn fmt<W: fmt::Write>(&self, f: &mut fmt::Formatter<W>) -> fmt::Result {
        write!(f, "{}", self.first())
    }
}

impl Error for ParseErrors {}

/// Why a call gives no answer: there was no memory, or these faults.
#[derive(Debug, Drop, PartialEq, Eq)]
pub enum Failure {
    Memory(AllocError),
    Errors(ParseErrors),
}

impl Failure {
    /// A copy that equals its source, places included.
    pub fn try_clone(&self) -> Result<Failure, AllocError>
        ensures { IfOk result (λ copy. copy ≡ self.now) }
    {
        match self {
            Failure::Memory(error) => Ok(Failure::Memory(*error)),
            Failure::Errors(faults) => Ok(Failure::Errors(faults.try_clone()?)),
        }
    }
}

impl TryClone for Failure {
    fn try_clone(&self) -> Result<Failure, AllocError> {
        Failure::try_clone(self)
    }
}

impl Clone for Failure {
    ghost is_clone = { λ failure copy. copy ≡ failure };

    fn clone(&self) -> Result<Failure, AllocError> {
        Failure::try_clone(self)
    }
}

impl From<AllocError> for Failure {
    ghost use Rattle.cedar_syntax.specs.declared.err.faults.Failure.TheVariants.{Memory};

    ghost from_gives = { λ _ failure. failure ≡ Memory alloc_error };

    fn from(_: AllocError) -> Failure {
        Failure::Memory(AllocError)
    }
}

impl<T: Drop> From<AllocFailed<T>> for Failure {
    ghost use Rattle.cedar_syntax.specs.declared.err.faults.Failure.TheVariants.{Memory};

    ghost from_gives = { λ _ failure. failure ≡ Memory alloc_error };

    fn from(_: AllocFailed<T>) -> Failure {
        Failure::Memory(AllocError)
    }
}

impl From<ParseErrors> for Failure {
    ghost use Rattle.cedar_syntax.specs.declared.err.faults.Failure.TheVariants.{Errors};

    ghost from_gives = { λ faults failure. failure ≡ Errors faults };

    fn from(faults: ParseErrors) -> Failure {
        Failure::Errors(faults)
    }
}

/// Want of memory, or the first fault's text.
impl fmt::Display for Failure {
    ghost use Rattle.cedar_syntax.specs.messages.Messages.{failure_message};

    ghost output = { λ failure. Some (failure_message failure) };

    fn fmt<W: fmt::Write>(&self, f: &mut fmt::Formatter<W>) -> fmt::Result {
        match self {
            Failure::Memory(_) => f.write_str("want of memory"),
            Failure::Errors(faults) => write!(f, "{faults}"),
        }
    }
}

impl Error for Failure {}
