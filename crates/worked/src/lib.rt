// Worked examples: the function stands for the theorem that the definitions give what the table says.
#![tactic(auto)]

ghost use Rattle.worked.specs.Table.{TableHolds};

pub fn table_holds()
    ensures { TableHolds }
{}
