//! Laws of the definitions: what the layers above rest on, and what a reader may check the definitions by.
//!
//! Each law is the contract of a call that does nothing.
ghost use Rattle.ks_output.specs.Examples.{DefinitionLines, EntryLines, FaultsFound, FilesOfConf, FilesOfSwitches, KindsOfWritten, LinesRead, MacrosRead, PairsOfWritten};
ghost use Rattle.ks_output.specs.HeaderLaws.{AlikeIsDefinedAlike, DefinitionsAreLines, DefinitionsAreOfEntries};
ghost use Rattle.ks_output.specs.BlocksLaws.{BlocksAreConfiguration, BlocksDefineAlike, EntriesAreLines};
ghost use Rattle.ks_output.specs.BlockExamples.{BlocksOfValues, PairsOfBlocks};
ghost use Rattle.ks_output.specs.WrittenLaws.{AcceptedIsConfiguration, ConfIsAccepted, HeadersDefineAlike, QuotedIsRaw};
ghost use Rattle.ks_output.specs.Laws.{GenerationFits, GenerationReadsBack, HasNoFault, IsAccepted, LastLineCounts, NumberAloneReadsBack, TextsAreOfEntries, TextsHaveNames, TextsReadBack, UntypedHasNoClass};

/// An auto.conf gives a name what the last line about it spells, one of the untyped form no class, and its generation
/// fits 64 bits.
pub fn last_lines_count()
    ensures texts { LastLineCounts }
    ensures untyped { UntypedHasNoClass }
    ensures generation { GenerationFits }
{}

/// An auto.conf that was written of a configuration reads back: its texts with their classes and its generation, and
/// it is accepted. So does one of a generation alone.
pub fn auto_texts_read_back()
    ensures texts { TextsReadBack }
    ensures generation { GenerationReadsBack }
    ensures fault { HasNoFault }
    ensures accepted { IsAccepted }
    ensures alone { NumberAloneReadsBack }
{}

/// What an auto.conf keeps of a configuration is the class and the text of each entry.
pub fn texts_are_of_entries()
    ensures texts { TextsAreOfEntries }
    ensures names { TextsHaveNames }
{}

/// A line is counted among the definitions of a name exactly if it is spelled as one.
pub fn definitions_are_lines()
    ensures { DefinitionsAreLines }
{}

/// The header defines each name by its entry and its companion's alone, in which bool and tristate count as one.
pub fn entries_are_defined()
    ensures entries { DefinitionsAreOfEntries }
    ensures alike { AlikeIsDefinedAlike }
{}

/// The formats as they stand on a disk, by worked examples.
pub fn examples_are_worked()
    ensures files { FilesOfSwitches }
    ensures entries { EntryLines }
    ensures definitions { DefinitionLines }
    ensures lines { LinesRead }
    ensures faults { FaultsFound }
    ensures macros { MacrosRead }
{}

/// What conf wrote, where it is accepted, means a configuration whose header defines each name as the one that was read.
pub fn written_is_defined_alike()
    ensures configuration { AcceptedIsConfiguration }
    ensures alike { HeadersDefineAlike }
{}

/// Each pair that conf can write is accepted, and gives each name its text and its class: of the title and the entries that
/// conf has, in any order, under either heading.
pub fn conf_is_accepted()
    ensures accepted { ConfIsAccepted }
    ensures quoted { QuotedIsRaw }
{}

/// What conf writes, by worked examples.
pub fn written_is_worked()
    ensures files { FilesOfConf }
    ensures kinds { KindsOfWritten }
    ensures pairs { PairsOfWritten }
{}

/// What BusyBox's conf wrote, where it is accepted, means a configuration. Each entry is a line of `.config`, and the header of it has of
/// each name what counts in the one that was read.
pub fn blocks_are_defined_alike()
    ensures configuration { BlocksAreConfiguration }
    ensures entries { EntriesAreLines }
    ensures alike { BlocksDefineAlike }
{}

/// What BusyBox's conf writes, by worked examples.
pub fn blocks_are_worked()
    ensures values { BlocksOfValues }
    ensures pairs { PairsOfBlocks }
{}
