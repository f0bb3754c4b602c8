//! The kinds of lines, and which kind may come after which.
ghost use Rattle.std.specs.Prelude.{◌≡◌};
ghost use Rattle.lab_copy_lines.specs.Kinds.{is_end_kind, kind_of, may_come_after};

use lab_copy_rows::Line;

/// The kind of a line.
#[derive(Clone, Copy, Debug, PartialEq, Eq)]
pub enum LineKind {
    /// The copy row.
    Copy,
    /// A record begins.
    Record,
    /// A version begins.
    Version,
    /// A row of a version.
    Entry,
    /// A signature.
    Signature,
    /// The end row.
    End,
}

impl LineKind {
    /// The kind of the line.
    pub fn of(line: &Line) -> LineKind
        ensures { result ≡ kind_of line.now }
    {
        match line {
            Line::Copy(_) => LineKind::Copy,
            Line::Record(_) => LineKind::Record,
            Line::Version(_) => LineKind::Version,
            Line::Entry(_) => LineKind::Entry,
            Line::Signature(_) => LineKind::Signature,
            Line::End(_) => LineKind::End,
        }
    }

    /// Whether a line of this kind may come after one of that kind.
    pub fn may_come_after(self, last: LineKind) -> bool
        ensures { result ≡ may_come_after last self }
    {
        match last {
            LineKind::Copy => matches!(self, LineKind::Record | LineKind::End),
            LineKind::Record => matches!(self, LineKind::Version),
            LineKind::Version | LineKind::Entry => !matches!(self, LineKind::Copy),
            LineKind::Signature => !matches!(self, LineKind::Copy | LineKind::Entry),
            LineKind::End => false,
        }
    }

    /// Whether nothing may come after a line of this kind.
    pub fn is_end(self) -> bool
        ensures { result ≡ is_end_kind self }
    {
        matches!(self, LineKind::End)
    }
}
