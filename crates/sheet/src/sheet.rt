// The sheet itself: what it always keeps, opening it, and its rows.
ghost use Rattle.std.specs.Prelude.{◌≡◌, ◌<◌, ◌≤◌, length, MatchOption};
ghost use Rattle.rows.specs.Found.{Located};
ghost use Rattle.layout.specs.Kept.{Kept};
ghost use Rattle.layout.specs.Called.{Opened};

use layout::row::{FieldRow, TypeRow};
use rows::RowList;

// How many rows of each kind are ever used.
const MOST_TYPES: usize = 65520;

const MOST_FIELDS: usize = 65535;

#[derive(Drop)]
pub struct Sheet<'a> {
    pub(crate) types: RowList<'a, TypeRow>,
    pub(crate) fields: RowList<'a, FieldRow>,
    ghost types_within: { types.count ≤ types.cap },
    ghost types_usable: { types.cap ≤ length types.rows.now },
    ghost types_most: { types.cap ≤ 65520 },
    ghost fields_within: { fields.count ≤ fields.cap },
    ghost fields_usable: { fields.cap ≤ length fields.rows.now },
    ghost fields_most: { fields.cap ≤ 65535 },
    ghost good: { ∥ Kept types.rows.now types.count fields.rows.now fields.count ∥₁ },
}

impl<'a> Sheet<'a> {
    // An empty sheet on the lent rows, which are all made blank.
    pub fn open(types: &'a mut [TypeRow], fields: &'a mut [FieldRow]) -> Sheet<'a>
        ensures { Opened (length types.old) (length fields.old) result.types result.fields }
    {
        Sheet {
            types: RowList::open(types, TypeRow::BLANK, MOST_TYPES),
            fields: RowList::open(fields, FieldRow::BLANK, MOST_FIELDS),
        }
    }

    // How many rows of each kind are in use.
    pub fn counts(&mut self) -> (usize, usize)
        ensures same { self.new ≡ self.old }
        ensures types { result.0 ≡ self.old.types.count }
        ensures fields { result.1 ≡ self.old.fields.count }
    {
        (self.types.len(), self.fields.len())
    }

    // The type row in use at place `i`, from 0.
    pub fn type_row(&mut self, i: usize) -> Option<TypeRow>
        ensures same { self.new ≡ self.old }
        ensures row { MatchOption result (self.old.types.count ≤ i) (λ x. Located self.old.types i x) }
    {
        self.types.row(i)
    }

    // The field row in use at place `i`, from 0.
    pub fn field_row(&mut self, i: usize) -> Option<FieldRow>
        ensures same { self.new ≡ self.old }
        ensures row { MatchOption result (self.old.fields.count ≤ i) (λ x. Located self.old.fields i x) }
    {
        self.fields.row(i)
    }
}
