//! The rules with their codes, and refusals as they are told.

use ink_base::{Place, Refusal, Rule, Text};
use ink_sheet::Sheet;
use std::alloc::{AllocError, Global};

static RULES: [Rule; 34] = [
    Rule::NotUtf8,
    Rule::BadToken,
    Rule::IntTooWide,
    Rule::UnendedText,
    Rule::Unexpected,
    Rule::TooDeep,
    Rule::SourceTooLong,
    Rule::UnknownName,
    Rule::DuplicateName,
    Rule::UnknownImport,
    Rule::NoMain,
    Rule::TypeArity,
    Rule::UniArgument,
    Rule::MissingMethod,
    Rule::WrongSignature,
    Rule::DuplicateImpl,
    Rule::BoundUnmet,
    Rule::AsyncNotSendable,
    Rule::WrongType,
    Rule::ArgumentCount,
    Rule::UnknownMember,
    Rule::NotMutable,
    Rule::NeedsAnnotation,
    Rule::JumpOutside,
    Rule::MissingArm,
    Rule::BadPattern,
    Rule::MovedUse,
    Rule::MoveOutOfBorrow,
    Rule::HiddenInRecover,
    Rule::BorrowOfUni,
    Rule::CrossingArgument,
    Rule::CrossingResult,
    Rule::RecoverResult,
    Rule::JumpOutOfRecover,
];

/// The rules, and two refusals, without and with a detail.
pub fn tell(alloc: Global, sheet: &mut Sheet) -> Result<(), AllocError> {
    sheet.text("RULES AND REFUSALS\n");
    for rule in &RULES {
        sheet.plain(rule);
        sheet.text("\n");
    }
    refusal(alloc, sheet, Rule::MovedUse, None)?;
    let detail = Text::of(alloc, b"Some(_)")?;
    refusal(alloc, sheet, Rule::MissingArm, Some(detail))?;
    sheet.text("\n");
    Ok(())
}

/// Tells a refusal of that rule.
fn refusal(
    alloc: Global,
    sheet: &mut Sheet,
    rule: Rule,
    detail: Option<Text>,
) -> Result<(), AllocError> {
    let place = Place {
        line: 11,
        column: 21,
        byte: 200,
    };
    let refusal = Refusal {
        rule,
        place,
        detail,
    };
    let told = refusal.text(alloc)?;
    sheet.bytes(told.bytes(), "not UTF-8");
    sheet.text("\n");
    Ok(())
}
