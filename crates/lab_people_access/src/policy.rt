//! The policy: who may do what.
ghost use Rattle.std.specs.Prelude.{◌≡◌, Some, None, OnOk, IfErr};
ghost use Rattle.lab_people_access.specs.Policy.{is_open_to, is_barred_by_due, rule_word, denial};

use crate::persons::Person;
use crate::refusals::PeopleRefusal;
use crate::roles::Roles;
use lab_forms_texts::Tick;

/// A rule of the policy. There is one for each thing that a person in a session may do.
#[derive(Clone, Copy, Debug, PartialEq, Eq)]
pub enum Rule {
    /// Close one's own session.
    CloseSession,
    /// Change one's own password.
    ChangePassword,
    /// Enrol a person.
    Enrol,
    /// List the persons.
    ReadPersons,
    /// Ask for a one-time word for another person.
    AskIssue,
    /// Confirm what another administrator asked for.
    ConfirmIssue,
    /// Set another person's roles.
    SetRoles,
    /// Retire another person.
    Retire,
    /// Unlock another person.
    Unlock,
    /// Make a form, or a form's next version.
    MakeForm,
    /// Read a form.
    ReadForm,
    /// Open a record.
    OpenRecord,
    /// Enter an observation.
    Enter,
    /// Amend a record.
    Amend,
    /// Sign as author.
    SignAuthorship,
    /// Sign as reviewer.
    SignReview,
    /// Reject a version.
    SignRejection,
    /// Read a record.
    ReadRecord,
    /// Read a version of a record.
    ReadVersion,
    /// List a range of records.
    ReadRecords,
    /// List a range of the trail.
    ReadTrail,
    /// Take an inspection copy.
    TakeCopy,
    /// Sign as approver.
    SignApproval,
}

impl Rule {
    /// Whether a person with these roles may do what the rule is for.
    pub fn is_open_to(self, roles: &Roles) -> bool
        ensures { result ≡ is_open_to self roles.now }
    {
        match self {
            Rule::CloseSession | Rule::ChangePassword => true,
            Rule::Enrol
            | Rule::AskIssue
            | Rule::ConfirmIssue
            | Rule::SetRoles
            | Rule::Retire
            | Rule::Unlock => roles.administrator,
            Rule::ReadPersons | Rule::ReadTrail => {
                roles.administrator || roles.manager || roles.inspector
            }
            Rule::MakeForm | Rule::SignApproval => roles.manager,
            Rule::ReadForm | Rule::ReadRecord | Rule::ReadVersion | Rule::ReadRecords => {
                roles.analyst || roles.reviewer || roles.manager || roles.inspector
            }
            Rule::OpenRecord | Rule::Enter | Rule::Amend | Rule::SignAuthorship => roles.analyst,
            Rule::SignReview => roles.reviewer,
            Rule::SignRejection => roles.reviewer || roles.manager,
            Rule::TakeCopy => roles.manager || roles.inspector,
        }
    }

    /// Whether the rule refuses until a due password is changed.
    pub fn is_barred_by_due(self) -> bool
        ensures { result ≡ is_barred_by_due self }
    {
        !matches!(self, Rule::CloseSession | Rule::ChangePassword)
    }

    /// The word with which a refusal names the rule.
    pub fn word(self) -> &'static str
        ensures { result.now ≡ rule_word self }
    {
        match self {
            Rule::CloseSession => "P1",
            Rule::ChangePassword => "P2",
            Rule::Enrol => "P3",
            Rule::ReadPersons => "P4",
            Rule::AskIssue => "P5",
            Rule::ConfirmIssue => "P6",
            Rule::SetRoles => "P7",
            Rule::Retire => "P8",
            Rule::Unlock => "P9",
            Rule::MakeForm => "P10",
            Rule::ReadForm => "P11",
            Rule::OpenRecord => "P12",
            Rule::Enter => "P13",
            Rule::Amend => "P14",
            Rule::SignAuthorship => "P15",
            Rule::SignReview => "P16",
            Rule::SignRejection => "P17",
            Rule::ReadRecord => "P18",
            Rule::ReadVersion => "P19",
            Rule::ReadRecords => "P20",
            Rule::ReadTrail => "P21",
            Rule::TakeCopy => "P22",
            Rule::SignApproval => "P23",
        }
    }
}

/// Lets a person do what a rule is for, or refuses. It takes no memory.
///
/// # Errors
/// `PasswordDue` if the person's password is due and the rule refuses until it is changed; else
/// `RoleWanted` if the person has none of the roles of the rule.
#[tactic(auto, unfolding(crate::specs::Policy::denial))]
pub fn allowed(person: &Person, rule: Rule, tick: &Tick) -> Result<(), PeopleRefusal>
    ensures permitted { OnOk result (denial person.now rule tick.now.moment ≡ None) }
    ensures refused { IfErr result (λ refusal.
        denial person.now rule tick.now.moment ≡ Some refusal) }
{
    if rule.is_barred_by_due() && person.password.is_due(tick.moment) {
        return Err(PeopleRefusal::PasswordDue);
    }
    if !rule.is_open_to(&person.roles) {
        return Err(PeopleRefusal::RoleWanted(rule));
    }
    Ok(())
}
