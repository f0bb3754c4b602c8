//! The action that a row of the trail logs, by its word.

ghost use Rattle.std.specs.Prelude.{◌≡◌, IfSome, IfNone, IsFalse};
ghost use Rattle.lab_store_tables.specs.Columns.{action_in};
ghost use Rattle.lab_store_read_trail.specs.Readable.{is_action};

use lab_records_kept::Action;

/// Returns the action with the word, or `None` if no action has this word.
pub(crate) fn action_by(word: &str) -> Option<Action>
    ensures value { IfSome result (λ action. action ≡ action_in word.now) }
    ensures none { IfNone result (IsFalse (is_action word.now)) }
{
    match word {
        "found" => Some(Action::Found),
        "open" => Some(Action::Open),
        "close" => Some(Action::Close),
        "refuse" => Some(Action::Refuse),
        "lock" => Some(Action::Lock),
        "password" => Some(Action::Password),
        "enrol" => Some(Action::Enrol),
        "issue" => Some(Action::Issue),
        "confirm" => Some(Action::Confirm),
        "roles" => Some(Action::Roles),
        "retire" => Some(Action::Retire),
        "unlock" => Some(Action::Unlock),
        "form" => Some(Action::Form),
        "record" => Some(Action::Record),
        "entry" => Some(Action::Entry),
        "amend" => Some(Action::Amend),
        "sign" => Some(Action::Sign),
        _ => None,
    }
}
