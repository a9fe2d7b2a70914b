// The rows of a sheet, and the numbers that the places of the type rows have.
ghost use Rattle.std.specs.Prelude.{◌≡◌, ◌+◌, ◌<◌, ◌≤◌, MatchOption};

pub use layout::row::{FieldRow, Kind, TypeRow};

// The number of the type row at place 0; those below it are of Unit and the basic codes.
const FIRST: u16 = 15;

// The place of the type row with the number `n`; Unit and the basic codes have none.
pub fn place_of(n: u16) -> Option<usize>
    ensures { MatchOption result (n < 15) (λ i. n ≡ 15 + i) }
{
    Some(usize::from(n.checked_sub(FIRST)?))
}

// The number of the type row at place `i`.
pub(crate) fn number_at(i: usize) -> u16
    requires { i ≤ 65520 }
    ensures { result ≡ 15 + i }
{
    FIRST + i as u16
}
