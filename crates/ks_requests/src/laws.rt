//! Laws of the definitions, each the contract of a function that does nothing.
ghost use Rattle.ks_requests.specs.Laws.{CharactersTellApart, LinesAreObjects};
ghost use Rattle.ks_requests.specs.ScriptExamples.{Examples};
ghost use Rattle.ks_requests.specs.ScriptLaws.{LinesAreSpelled};

/// A reader of JSON finds in the line of an answer the object of it, in which other bytes are other characters.
pub fn json_lines_are_objects()
    ensures objects { LinesAreObjects }
    ensures apart { CharactersTellApart }
{}

/// A line of a script asks for what it spells, and for nothing else.
pub fn script_lines_are_spelled()
    ensures { LinesAreSpelled }
{}

/// The definitions answer small scripts as a reader expects.
pub fn script_examples()
    ensures { Examples }
{}
