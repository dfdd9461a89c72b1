//! The limits with their options, their numbers and the texts of their panics.

use ink_base::{BadLimit, Limit, Limits};
use ink_sheet::Sheet;

/// Each limit, the numbers at the ends of its range, and the first number that is out of range.
pub fn tell(sheet: &mut Sheet) {
    sheet.text("LIMITS\n");
    for limit in &Limit::ALL {
        named(sheet, *limit);
        range(sheet, *limit);
    }
    first_out(sheet);
    sheet.text("\n");
}

/// The limit's index, its option, its usual number and the text of its panic.
fn named(sheet: &mut Sheet, limit: Limit) {
    sheet.around("", limit.index() as u64, " ");
    sheet.text(limit.option());
    sheet.around(" ", Limits::defaults().get(limit), ", ");
    sheet.text(limit.panic_text().unwrap_or("no panic"));
    sheet.text("\n");
}

/// Which numbers the limit takes, of those at the ends of its range.
fn range(sheet: &mut Sheet, limit: Limit) {
    let greatest = limit.greatest();
    for number in &[0, 1, greatest, greatest.wrapping_add(1)] {
        sheet.numbered(" ", *number);
        sheet.numbered(": ", taken(limit, *number));
    }
    sheet.text("\n");
}

/// The number that the limit has once it was given this one, and 0 where it doesn't take it.
fn taken(limit: Limit, number: u64) -> u64 {
    match Limits::defaults().with(limit, number) {
        Ok(limits) => limits.get(limit),
        Err(BadLimit(_)) => 0,
    }
}

/// The first limit whose number is out of its range, where those of the texts and of the workers are.
fn first_out(sheet: &mut Sheet) {
    let numbers = [1, 1, 1, 1, 1, 1, 0, 1, 1, 1, 1, 1, 1, 65];
    match Limits::new(numbers) {
        Ok(_) => sheet.text("none is out\n"),
        Err(BadLimit(limit)) => {
            sheet.text("first out: ");
            sheet.text(limit.option());
            sheet.text("\n");
        }
    }
}
