// The laws of the grammar: each function stands for the theorem in its contract.
ghost use Rattle.grammar.specs.Laws.{PrefixFree, UniqueReading, ExactlyOneFault, BareStructure, ScanIsExact, ReadingIsExact};

pub fn prefix_free()
    ensures { PrefixFree }
{}

pub fn unique_reading()
    ensures { UniqueReading }
{}

pub fn one_fault()
    ensures { ExactlyOneFault }
{}

pub fn bare_structure()
    ensures { BareStructure }
{}

pub fn scan_is_exact()
    ensures { ScanIsExact }
{}

pub fn reading_is_exact()
    ensures { ReadingIsExact }
{}
