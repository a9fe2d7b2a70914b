// The types of a text, entered one after another with a maker, and what that does to the plain book.
#![tactic(auto)]

ghost use Rattle.building.specs.Building.{FieldsFirst};

pub mod entering;
pub mod maker;

// The function stands for the theorem in its contract.
pub fn fields_first()
    ensures { FieldsFirst }
{}
