//! Decimal numbers in a listing.
ghost use Rattle.std.specs.Prelude.{◌≡◌, ◌++◌, OnOk};
ghost use Rattle.ink_code.specs.Listing.{number_text, numbers_text};

use std::alloc::{AllocError, Global};

/// Writes numbers in decimal, each behind a space.
pub fn put_numbers(alloc: Global, out: &mut Vec<u8>, numbers: &[u32]) -> Result<(), AllocError>
    ensures { OnOk result (out.new.items ≡ out.old.items ++ numbers_text numbers.now) }
{
    for number in numbers {
        put_number(alloc, out, *number)?;
    }
    Ok(())
}

/// Writes a number in decimal, behind a space.
#[tactic(auto, unfolding(crate::specs::Listing::number_text))]
pub fn put_number(alloc: Global, out: &mut Vec<u8>, number: u32) -> Result<(), AllocError>
    ensures { OnOk result (out.new.items ≡ out.old.items ++ number_text number) }
{
    let text = format!(in alloc; " {number}")?;
    out.extend_from_slice(text.as_bytes())?;
    Ok(())
}
