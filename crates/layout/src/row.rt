// The rows of a sheet.
ghost use Rattle.std.specs.Prelude.{[], ◌∷◌};
ghost use Rattle.layout.specs.Kinds.{kind_number};

use grammar::figures::Figures;
use rows::Row;

// The kinds of container; a row that is not in use is blank.
#[derive(Clone, Copy, Drop, PartialEq, Eq, Debug)]
pub enum Kind {
    Blank,
    Array,
    Dict,
    Structure,
    Maybe,
}

// A container: its kind, the numbers of its parts and its figures. An array or a maybe has its child, a dictionary its
// key and value, a structure its first field row and its count of fields. A part that is not needed is 0. Rows are equal
// if their kinds and parts are, since the figures follow from these.
#[derive(Clone, Copy, Drop)]
#[derive_where(PartialEq, Eq)]
pub struct TypeRow {
    pub kind: Kind,
    pub first: u16,
    pub second: u16,
    #[derive_where(skip(EqHashOrd))]
    pub figures: Figures,
}

// The number of a field, the next field row or 0 at the end, and the count of fields from here on. Field rows are
// numbered from 1.
#[derive(Clone, Copy, Drop, PartialEq, Eq)]
pub struct FieldRow {
    pub field: u16,
    pub next: u16,
    pub count: u16,
}

impl TypeRow {
    pub const BLANK: TypeRow = TypeRow {
        kind: Kind::Blank,
        first: 0,
        second: 0,
        figures: Figures::NONE,
    };
}

impl FieldRow {
    pub const BLANK: FieldRow = FieldRow {
        field: 0,
        next: 0,
        count: 0,
    };
}

impl Row for TypeRow {
    ghost key = { λ r. kind_number r.kind ∷ r.first ∷ r.second ∷ [] };

    fn same(&self, other: &TypeRow) -> bool {
        self == other
    }
}

impl Row for FieldRow {
    ghost key = { λ r. r.field ∷ r.next ∷ r.count ∷ [] };

    fn same(&self, other: &FieldRow) -> bool {
        self == other
    }
}
