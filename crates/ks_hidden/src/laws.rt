//! Laws of the definitions: what the layers above rest on, and what a reader may check the definitions by.
//!
//! Each law is the contract of a call that does nothing.
ghost use Rattle.ks_hidden.specs.HeaderLinesLaws.{ClassesAreDefinedAlike, ConfIsExplained, EntriesExplainDefinitions, WrittenIsExplained, ConfLacksNone, WrittenLacksNone};
ghost use Rattle.ks_hidden.specs.HeaderLinesExamples.{DefinitionsOfClasses, LackingDefinitions, LinesOfNone, MacrosOfModules};

/// An entry explains the definition that confstamp writes of it and no other line, and a header that confstamp or conf writes of a
/// configuration has no foreign line.
pub fn explained_lines_are_definitions()
    ensures entries { EntriesExplainDefinitions }
    ensures classes { ClassesAreDefinedAlike }
    ensures written { WrittenIsExplained }
    ensures conf { ConfIsExplained }
{}

/// A header that confstamp or conf writes of a configuration lacks none of its definitions.
pub fn written_headers_lack_none()
    ensures written { WrittenLacksNone }
    ensures conf { ConfLacksNone }
{}

/// Which lines are explained and which definitions are lacking, by worked examples.
pub fn header_lines_are_worked()
    ensures definitions { DefinitionsOfClasses }
    ensures modules { MacrosOfModules }
    ensures lines { LinesOfNone }
    ensures lacking { LackingDefinitions }
{}
