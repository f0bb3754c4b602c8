//! What the definitions state about copies.
ghost use Rattle.lab_copy_rows.specs.Copies.{IsYesOnSoundCopies};
ghost use Rattle.lab_copy_rows.specs.Lines.{RowsReadBack};

/// Law: the verdict on rows is yes exactly if they are the rows of a sound copy, and it has the
/// counts of that copy.
pub fn a_yes_means_sound()
    ensures { IsYesOnSoundCopies }
{}

/// Law: the row of a line stands for that line, if its types admit the parts of the line.
pub fn rows_read_back()
    ensures { RowsReadBack }
{}
