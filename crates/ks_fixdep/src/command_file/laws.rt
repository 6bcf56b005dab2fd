//! Laws of command files: what is written is read, and what is read is what fits the layout.
ghost use Rattle.std.specs.Prelude.{◌≡◌, ◌++◌, ◌-◌, [], None, Ok, Err, codes, take, length};
ghost use Rattle.ks_fixdep.specs.CommandFile.{command_text};
ghost use Rattle.ks_fixdep.specs.CommandExamples.{example, example_front, example_lines};
ghost use Rattle.ks_fixdep.specs.CommandLaws.{FitsRead, ReadFits, ReadsBack, RefusedAtFirst, WrittenReads};
ghost use Rattle.ks_fixdep.specs.CommandReading.{reading};

/// The text of a command file reads as it, line by line and by the reader.
pub fn command_texts_read_back()
    ensures fits { WrittenReads }
    ensures back { ReadsBack }
{
    ks_symbols::decimals_read_back();
}

/// What the reader takes is exactly what fits the layout, and what it refuses it refuses at the first line that does not.
pub fn command_files_fit()
    ensures read { ReadFits }
    ensures fits { FitsRead }
    ensures refused { RefusedAtFirst }
{}

/// The worked command file: its text; a line of Kbuild's after it; a faulty generation line; a text that ends too early, one that
/// is cut just before the line feed of a fitting line, within a line and before an empty line; the empty text; a name that
/// would lead out of its directory.
pub fn command_examples()
    ensures text { command_text (record example { generation = None }) ≡ example_lines }
    ensures further { reading (example_lines ++ codes "#generation 1\n#SYMVER f 0x1\n") ≡ Ok example }
    ensures leading_zero { reading (example_lines ++ codes "#generation 01\n") ≡ Err 15 }
    ensures no_line_feed { reading (example_lines ++ codes "#generation 1") ≡ Err 15 }
    ensures ends_early { reading example_front ≡ Err 9 }
    ensures cut { reading (take (length example_front - 1) example_front) ≡ Err 9 }
    ensures cut_in_line { reading (take (length example_front - 2) example_front) ≡ Err 8 }
    ensures cut_at_empty { reading (codes "savedcmd_x.o := cc -c x.c\n") ≡ Err 2 }
    ensures empty { reading [] ≡ Err 1 }
    ensures directory_above { reading (example_front ++ codes "    $(wildcard include/config/../A) \\\n") ≡ Err 9 }
{}
