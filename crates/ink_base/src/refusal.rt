//! Refusals: the rule that a source breaks, and where.
ghost use Rattle.std.specs.Prelude.{◌≡◌, IfOk, Some};
ghost use Rattle.ink_base.specs.Refusal.{rule_code, rule_text, is_before, refusal_text};

use crate::text::Text;
use std::alloc::{AllocError, Global};
use std::fmt;

/// A place in a source: one byte of it, and the line and the column of that byte.
///
/// Line and column count from 1, the column in bytes. `byte` counts from 0.
#[derive(Clone, Copy)]
pub struct Place {
    pub line: u32,
    pub column: u32,
    pub byte: u32,
}

impl Place {
    /// The first byte of a source.
    pub const START: Place = Place {
        line: 1,
        column: 1,
        byte: 0,
    };
}

/// The rules that a source can break.
///
/// Each has a code of two digits, which stands in its text behind an `E`.
#[derive(Clone, Copy)]
pub enum Rule {
    /// The source isn't UTF-8.
    NotUtf8,
    /// A byte begins no token, or a backslash no escape.
    BadToken,
    /// An integer is outside the signed 64 bits.
    IntTooWide,
    /// A text, or a `${` in one, isn't closed.
    UnendedText,
    /// No module begins with the tokens up to this one.
    Unexpected,
    /// An expression, a pattern or a written type is higher than the limit.
    TooDeep,
    /// The source has more bytes than the limit.
    SourceTooLong,
    /// Nothing of that name is in scope.
    UnknownName,
    /// A name is declared or given twice in one list, or is a built-in one.
    DuplicateName,
    /// An import names no built-in module, or nothing of it.
    UnknownImport,
    /// There is no `type async Main` with a `fn async main` by which a run can begin.
    NoMain,
    /// A type has the wrong number of arguments.
    TypeArity,
    /// A type argument can't be borrowed where it has to be, or `uni` stands where it may not.
    UniArgument,
    /// An impl lacks a method of its trait.
    MissingMethod,
    /// A method differs from its trait's, or its kind, its result or its impl isn't allowed there.
    WrongSignature,
    /// A type has a second impl of one trait.
    DuplicateImpl,
    /// A type argument lacks its bound, or that of a future or a promise isn't sendable.
    BoundUnmet,
    /// What goes to another process with a message or a construction isn't sendable.
    AsyncNotSendable,
    /// A value isn't assignable to what is expected.
    WrongType,
    /// A call has the wrong number of arguments.
    ArgumentCount,
    /// There is no such field or method, or more than one.
    UnknownMember,
    /// What is written can only be read.
    NotMutable,
    /// A type stays open.
    NeedsAnnotation,
    /// `break` or `next` stands outside every loop.
    JumpOutside,
    /// A value matches no arm without a guard. The detail is the least pattern that is missing.
    MissingArm,
    /// A pattern doesn't fit its type, or its names or alternatives don't fit each other.
    BadPattern,
    /// Some path reaches a use of a variable that was moved there.
    MovedUse,
    /// A `fn move` is called on a borrow or a field.
    MoveOutOfBorrow,
    /// A variable that a `recover` hides is used in it.
    HiddenInRecover,
    /// What can't be borrowed is borrowed, or used as a borrow.
    BorrowOfUni,
    /// What goes into a unique value isn't sendable.
    CrossingArgument,
    /// What comes out of a unique value isn't sendable.
    CrossingResult,
    /// A `recover` can't give such a result.
    RecoverResult,
    /// A jump leaves a `recover`.
    JumpOutOfRecover,
}

impl Rule {
    /// The number of its code.
    pub fn code(self) -> u8
        ensures { result ≡ rule_code self }
    {
        match self {
            Rule::NotUtf8 => 1,
            Rule::BadToken => 2,
            Rule::IntTooWide => 3,
            Rule::UnendedText => 4,
            Rule::Unexpected => 5,
            Rule::TooDeep => 6,
            Rule::SourceTooLong => 7,
            Rule::UnknownName => 10,
            Rule::DuplicateName => 11,
            Rule::UnknownImport => 12,
            Rule::NoMain => 13,
            Rule::TypeArity => 20,
            Rule::UniArgument => 21,
            Rule::MissingMethod => 22,
            Rule::WrongSignature => 23,
            Rule::DuplicateImpl => 24,
            Rule::BoundUnmet => 25,
            Rule::AsyncNotSendable => 26,
            Rule::WrongType => 30,
            Rule::ArgumentCount => 31,
            Rule::UnknownMember => 32,
            Rule::NotMutable => 33,
            Rule::NeedsAnnotation => 34,
            Rule::JumpOutside => 35,
            Rule::MissingArm => 36,
            Rule::BadPattern => 38,
            Rule::MovedUse => 40,
            Rule::MoveOutOfBorrow => 41,
            Rule::HiddenInRecover => 50,
            Rule::BorrowOfUni => 51,
            Rule::CrossingArgument => 52,
            Rule::CrossingResult => 53,
            Rule::RecoverResult => 54,
            Rule::JumpOutOfRecover => 55,
        }
    }
}

impl fmt::Display for Rule {
    ghost output = { λ rule. Some (rule_text rule) };

    fn fmt<W: fmt::Write>(&self, f: &mut fmt::Formatter<W>) -> fmt::Result {
        f.write_str(match self {
            Rule::NotUtf8 => "E01 NotUtf8",
            Rule::BadToken => "E02 BadToken",
            Rule::IntTooWide => "E03 IntTooWide",
            Rule::UnendedText => "E04 UnendedText",
            Rule::Unexpected => "E05 Unexpected",
            Rule::TooDeep => "E06 TooDeep",
            Rule::SourceTooLong => "E07 SourceTooLong",
            Rule::UnknownName => "E10 UnknownName",
            Rule::DuplicateName => "E11 DuplicateName",
            Rule::UnknownImport => "E12 UnknownImport",
            Rule::NoMain => "E13 NoMain",
            Rule::TypeArity => "E20 TypeArity",
            Rule::UniArgument => "E21 UniArgument",
            Rule::MissingMethod => "E22 MissingMethod",
            Rule::WrongSignature => "E23 WrongSignature",
            Rule::DuplicateImpl => "E24 DuplicateImpl",
            Rule::BoundUnmet => "E25 BoundUnmet",
            Rule::AsyncNotSendable => "E26 AsyncNotSendable",
            Rule::WrongType => "E30 WrongType",
            Rule::ArgumentCount => "E31 ArgumentCount",
            Rule::UnknownMember => "E32 UnknownMember",
            Rule::NotMutable => "E33 NotMutable",
            Rule::NeedsAnnotation => "E34 NeedsAnnotation",
            Rule::JumpOutside => "E35 JumpOutside",
            Rule::MissingArm => "E36 MissingArm",
            Rule::BadPattern => "E38 BadPattern",
            Rule::MovedUse => "E40 MovedUse",
            Rule::MoveOutOfBorrow => "E41 MoveOutOfBorrow",
            Rule::HiddenInRecover => "E50 HiddenInRecover",
            Rule::BorrowOfUni => "E51 BorrowOfUni",
            Rule::CrossingArgument => "E52 CrossingArgument",
            Rule::CrossingResult => "E53 CrossingResult",
            Rule::RecoverResult => "E54 RecoverResult",
            Rule::JumpOutOfRecover => "E55 JumpOutOfRecover",
        })
    }
}

/// Why a source is refused: the rule, its place, and for some rules a detail.
#[derive(Drop)]
pub struct Refusal {
    pub rule: Rule,
    pub place: Place,
    pub detail: Option<Text>,
}

impl Refusal {
    /// How the refusal is told: `E05 Unexpected at line 6, column 1`, and a detail behind a colon and a blank.
    pub fn text(&self, alloc: Global) -> Result<Text, AllocError>
        ensures { IfOk result (λ text. text ≡ refusal_text self.now) }
    {
        let Place { line, column, .. } = self.place;
        let mut told = format!(in alloc;
            "{} at line {line}, column {column}",
            self.rule
        )?.into_bytes();
        if let Some(detail) = &self.detail {
            told.extend_from_slice(b": ")?;
            told.extend_from_slice(detail.bytes())?;
        }
        Ok(Text::from_bytes(told))
    }

    /// Whether this is told rather than the other, where one phase finds both: it stands at a lesser byte, or at the
    /// same byte and its code is less.
    pub fn is_before(&self, other: &Refusal) -> bool
        ensures { result ≡ is_before self.now other.now }
    {
        let byte = self.place.byte;
        let other_byte = other.place.byte;
        byte < other_byte || (byte == other_byte && self.rule.code() < other.rule.code())
    }
}

/// Why a phase of judging a source gives nothing.
#[derive(Drop)]
pub enum JudgeFault {
    /// The source breaks a rule of the phase.
    Refused(Refusal),
    /// There was no memory. It says nothing of the source.
    OutOfMemory,
}

impl From<AllocError> for JudgeFault {
    ghost use Rattle.ink_base.specs.declared.refusal.JudgeFault.{JudgeFault};

    ghost from_gives = { λ _ fault. fault ≡ JudgeFault.OutOfMemory };

    fn from(_: AllocError) -> JudgeFault {
        JudgeFault::OutOfMemory
    }
}
