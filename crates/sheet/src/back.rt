// Going back after a refusal.
ghost use Rattle.layout.specs.Kept.{blank_type};
ghost use Rattle.layout.specs.Tails.{blank_field};
ghost use Rattle.layout.specs.Grown.{Cut};
ghost use Rattle.sheet.specs.Seen.{GrewFrom, UnchangedOn};

use crate::row::{FieldRow, TypeRow};
use crate::sheet::Sheet;
use rows::RowList;

// Puts the rows from these places on out of use.
fn cut(
    types: &mut RowList<TypeRow>,
    fields: &mut RowList<FieldRow>,
    types_to: usize,
    fields_to: usize,
)
    ensures types { Cut blank_type types_to types.old types.new }
    ensures fields { Cut blank_field fields_to fields.old fields.new }
{
    types.truncate(types_to, TypeRow::BLANK);
    fields.truncate(fields_to, FieldRow::BLANK);
}

impl<'a> Sheet<'a> {
    // Goes back to the rows that were in use at these counts.
    pub(crate) fn back(&mut self, types: usize, fields: usize)
        requires { (s : Sheet) × GrewFrom s types fields self.old }
        ensures { (s : Sheet) → GrewFrom s types fields self.old → UnchangedOn s self.new }
    {
        cut(&mut self.types, &mut self.fields, types, fields);
    }
}
