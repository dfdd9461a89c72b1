//! The words of the listing.
use ink_base::BorrowKind;
use ink_forms::{Choice, Mode, Operator, Prefix, TypeForm};

pub(crate) fn operator(operator: Operator) -> &'static [u8] {
    match operator {
        Operator::Add => b"+",
        Operator::Subtract => b"-",
        Operator::Multiply => b"*",
        Operator::Divide => b"/",
        Operator::Remainder => b"%",
        Operator::Equal => b"==",
        Operator::NotEqual => b"!=",
        Operator::Less => b"<",
        Operator::LessOrEqual => b"<=",
        Operator::Greater => b">",
        Operator::GreaterOrEqual => b">=",
        Operator::And => b"&",
        Operator::Or => b"|",
        Operator::ExclusiveOr => b"^",
        Operator::ShiftLeft => b"<<",
        Operator::ShiftRight => b">>",
    }
}

pub(crate) fn choice(choice: Choice) -> &'static [u8] {
    match choice {
        Choice::Match => b"match",
        Choice::If => b"if",
        Choice::While => b"while",
        Choice::And => b"and",
        Choice::Or => b"or",
        Choice::Try => b"try",
    }
}

pub(crate) fn borrow(kind: BorrowKind) -> &'static [u8] {
    match kind {
        BorrowKind::Ref => b"ref",
        BorrowKind::Mut => b"mut",
    }
}

pub(crate) fn prefix(prefix: Prefix) -> &'static [u8] {
    match prefix {
        Prefix::Ref => b"ref",
        Prefix::Mut => b"mut",
        Prefix::Uni => b"uni",
    }
}

pub(crate) fn mode(mode: Mode) -> Option<&'static [u8]> {
    match mode {
        Mode::Plain => None,
        Mode::Mut => Some(b"mut"),
        Mode::Move => Some(b"move"),
        Mode::Static => Some(b"static"),
    }
}

pub(crate) fn type_form(form: TypeForm) -> Option<&'static [u8]> {
    match form {
        TypeForm::Plain => None,
        TypeForm::Async => Some(b"async"),
        TypeForm::Enum => Some(b"enum"),
    }
}
