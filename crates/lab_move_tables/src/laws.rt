//! Files that stand for the tables of their rows, by the texts of their own tables.

ghost use Rattle.sqlite.specs.Effect.{Database};
ghost use Rattle.lab_move_tables.specs.Answering.{TakesAll};
ghost use Rattle.lab_move_tables.specs.OldRows.{IsOldFile, old_tables};
ghost use Rattle.lab_move_tables.specs.PeerFiles.{IsPeerFile};
ghost use Rattle.lab_move_tables.specs.Standing.{StandsBy};
ghost use Rattle.lab_move_tables.specs.declared.older.Older.{Older as AnyOlder};
ghost use Rattle.lab_move_tables.specs.declared.older.Older.TheVariants.{Two};

/// Law: a file whose tables are, text for text, those of an older schema as `Olders` has it, and which keeps its own rules,
/// stands for the tables of its rows.
pub fn an_exact_file_stands()
    ensures { (older : AnyOlder) (db : Database) → IsOldFile older db →
        StandsBy older db (old_tables older db.trees) }
{}

/// Law: a file whose tables are, text for text, those of an older schema takes each of the fifteen questions.
pub fn an_exact_file_takes_all()
    ensures { (older : AnyOlder) (db : Database) → IsOldFile older db → TakesAll older db }
{}

/// Law: a file whose tables are, text for text, those that another program wrote, without STRICT and with an empty text for no
/// reason, and which keeps its own rules, stands for the tables of its rows.
pub fn a_peer_file_stands()
    ensures { (db : Database) → IsPeerFile db →
        StandsBy Two db (old_tables Two db.trees) }
{}
