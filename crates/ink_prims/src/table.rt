//! The rows by number, and the number of a method by its name.
ghost use Rattle.std.specs.Prelude.{◌≡◌, ◌<◌, length, map, slice_get, IfSome, Some};
ghost use Rattle.ink_prims.specs.Row.{view_of};
ghost use Rattle.ink_prims.specs.Table.{number_in, number_of, row_count, table_rows};

use crate::row::Row;
use crate::rows::ROWS;
use ink_base::Kind;

/// The number of that type's method of that name. `None` exactly where it has none.
pub fn number_of(name: &[u8], kind: Kind) -> Option<u32>
    ensures { result ≡ number_of name.now kind }
{
    match index_in(&ROWS, name, kind) {
        Some(index) => Some(index as u32),
        None => None,
    }
}

/// The row of a number.
pub fn row_at(number: u32) -> Row
    requires { number < row_count }
    ensures { slice_get table_rows number ≡ Some (view_of result) }
{
    row_in(&ROWS, number)
}

/// The index of the first row that is that type's method of that name.
fn index_in(rows: &[Row], name: &[u8], kind: Kind) -> Option<usize>
    ensures found { result ≡ number_in rows.now name.now kind }
    ensures bound { IfSome result (λ index. index < length rows.now) }
{
    rows.iter().position(|row| row.is_of(name, kind))
}

/// The row of a number among these.
#[tactic(auto, using(crate::proofs::TableLemmas::slice_get_map))]
fn row_in(rows: &[Row], number: u32) -> Row
    requires { number < length rows.now }
    ensures { slice_get (map view_of rows.now) number ≡ Some (view_of result) }
{
    rows[number as usize]
}
