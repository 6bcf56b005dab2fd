//! Where a line of an auto.conf stands: what the lines before it leave to be known of it.
//!
//! The line of a class is refused only when the next line is read, so the position remembers it. A file is typed or not
//! once its mark or its first entry is read, and stays so.
ghost use Rattle.std.specs.Prelude.{◌≡◌, ◌<◌, option_map};
ghost use Rattle.ks_output.specs.AutoLines.{seen_remark};
ghost use Rattle.ks_output.specs.Positions.{seen_position, before_class, class_at, following, wants_entry, blamed};

use crate::auto_lines::Remark;
use ks_symbols::Class;

/// The position of a line.
#[derive(Clone, Copy)]
pub(crate) enum Position<'a> {
    /// Before the mark of the typed form and before the first entry.
    Front,
    /// After the first entry of a file of the untyped form.
    Untyped,
    /// After the mark of a file of the typed form.
    Typed,
    /// The same, right after the line that says the class of a name.
    Entry(&'a [u8], Class),
}

impl<'a> Position<'a> {
    /// The class of an entry that stands here.
    pub(crate) fn class(self) -> Option<Class>
        ensures { result ≡ class_at (seen_position self.entry) }
    {
        match self {
            Position::Front | Position::Untyped => None,
            Position::Typed => Some(Class::Switch),
            Position::Entry(_, class) => Some(class),
        }
    }

    /// The position after a line that stands here, or None where it is faulty or an entry has to stand here.
    pub(crate) fn following(self, remark: Remark<'a>) -> Option<Position<'a>>
        ensures { option_map seen_position result ≡ following (seen_position self.entry) (seen_remark remark.entry) }
    {
        match (self, remark) {
            (Position::Entry(wanted, _), Remark::Gives(name, _)) if wanted == name => {
                Some(Position::Typed)
            }
            (Position::Entry(_, _), _) | (_, Remark::Faulty) => None,
            (Position::Typed, Remark::Mistypes) => None,
            (Position::Typed, Remark::Types(name, class)) => Some(Position::Entry(name, class)),
            (Position::Front, Remark::Marks) => Some(Position::Typed),
            (Position::Front, Remark::Gives(_, _)) => Some(Position::Untyped),
            (position, _) => Some(position),
        }
    }

    /// Whether an entry has to stand here, so that a text must not end here.
    pub(crate) fn wants_entry(self) -> bool
        ensures { result ≡ wants_entry (seen_position self.entry) }
    {
        match self {
            Position::Entry(_, _) => true,
            _ => false,
        }
    }

    /// The position before the line of a class that stands right before it, if one does, or else itself.
    pub(crate) fn before_class(self) -> Position<'static>
        ensures { seen_position result ≡ before_class (seen_position self.entry) }
    {
        match self {
            Position::Front => Position::Front,
            Position::Untyped => Position::Untyped,
            Position::Typed | Position::Entry(_, _) => Position::Typed,
        }
    }

    /// The line to blame where a line of this number can't stand here: itself, or that of the class before it.
    pub(crate) fn blamed(self, number: u64) -> u64
        requires { 0 < number }
        ensures { result ≡ blamed (seen_position self.entry) number }
    {
        match self {
            Position::Entry(_, _) => number - 1,
            _ => number,
        }
    }
}
