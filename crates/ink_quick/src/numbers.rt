//! The rows of two Ints that give a value without a panic.
ghost use Rattle.std.specs.Prelude.{◌≡◌, ◌∷◌, [], ℤ, FitsSigned, IfSome};
ghost use Rattle.std.specs.Int.{w64};
ghost use Rattle.std.specs.Option.{SomeIff};
ghost use Rattle.ink_base.specs.declared.value.Value.TheVariants as value;
ghost use Rattle.ink_code.specs.Rows.{computes, int_or_overflow};
ghost use Rattle.ink_quick.specs.Makes.{RowDone, RowGives};

use ink_base::Value;
use ink_code::row_numbers as rows;

/// The Int of a number, where there is one.
#[tactic(auto, using(ink_rows::proofs::IntLemmas::fits_is_int))]
fn int_if(number: Option<i64>) -> Option<Value>
    ensures { (exact : ℤ) → SomeIff number (FitsSigned w64 exact) exact → IfSome result (λ given. int_or_overflow exact ≡ computes given) }
{
    match number {
        Some(number) => Some(Value::Int(number)),
        None => None,
    }
}

/// What a row gives of two Ints. `None` where it raises a panic, and for some rows always.
#[tactic(auto, unfolding(ink_code::specs::Prims::row_step, ink_code::specs::Prims::value_rows, ink_code::specs::Machine::after, ink_code::specs::IntRows::int_rows, ink_code::specs::IntRows::add_row, ink_code::specs::IntRows::subtract_row, ink_code::specs::IntRows::multiply_row, ink_code::specs::IntRows::equal_row, ink_code::specs::IntRows::unequal_row, ink_code::specs::IntRows::less_row, ink_code::specs::IntRows::at_most_row, ink_code::specs::IntRows::greater_row, ink_code::specs::IntRows::at_least_row, ink_code::specs::IntRows::bit_and_row, ink_code::specs::IntRows::bit_or_row, ink_code::specs::IntRows::bit_xor_row))]
fn row_of_ints(row: u32, a: i64, b: i64) -> Option<Value>
    ensures { IfSome result (λ given. RowGives row (value.Int a ∷ value.Int b ∷ []) given) }
{
    match row {
        rows::INT_ADD => int_if(a.checked_add(b)),
        rows::INT_SUBTRACT => int_if(a.checked_sub(b)),
        rows::INT_MULTIPLY => int_if(a.checked_mul(b)),
        rows::INT_EQUAL => Some(Value::Bool(a == b)),
        rows::INT_UNEQUAL => Some(Value::Bool(a != b)),
        rows::INT_LESS => Some(Value::Bool(a < b)),
        rows::INT_AT_MOST => Some(Value::Bool(a <= b)),
        rows::INT_GREATER => Some(Value::Bool(a > b)),
        rows::INT_AT_LEAST => Some(Value::Bool(a >= b)),
        rows::INT_BIT_AND => Some(Value::Int(a & b)),
        rows::INT_BIT_OR => Some(Value::Int(a | b)),
        rows::INT_BIT_XOR => Some(Value::Int(a ^ b)),
        _ => None,
    }
}

/// What a row gives of two values. `None` where they are no Ints, where it raises a panic, and for some rows always.
pub(crate) fn row_of(row: u32, one: &Value, other: &Value) -> Option<Value>
    ensures { IfSome result (λ given. RowDone row one.now other.now given) }
{
    match one {
        Value::Int(a) => match other {
            Value::Int(b) => row_of_ints(row, *a, *b),
            _ => None,
        },
        _ => None,
    }
}
