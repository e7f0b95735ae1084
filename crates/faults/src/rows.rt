// A fault list that holds n bits a fault in whole bytes, clock 0 in the highest bit of the first byte.
ghost use Rattle.std.specs.Prelude.{◌≡◌, length};
ghost use Rattle.faults.specs.Filling.{Follows};
ghost use Rattle.faults.specs.Rows.{RowKept, stride};

mod filling;
mod telling;

// The bytes of a row.
fn row_bytes(n: usize) -> usize
    ensures { result ≡ stride n }
{
    n.div_ceil(8)
}

// A fault for each class, and one row after another. Two slices: how many bytes a row has is known only when the list is filled.
// No view by `impl Model`: a refused `fill` leaves the memory as it was, and a view of the faults alone would not say so.
#[derive(Drop)]
pub struct RowList<'a> {
    n: usize,
    classes: &'a [u8],
    rows: &'a [u8],
    ghost follows: { Follows n (length classes.now) (RowKept n classes.now rows.now) },
}
