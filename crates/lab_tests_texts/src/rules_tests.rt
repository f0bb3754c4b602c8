//! Words of rules, and which of them wait for a due password: no reply shows them all.
use lab_people_access::Rule;

// Each rule's word, and whether a due password bars it.
static RULES: [(Rule, &str, bool); 23] = [
    (Rule::CloseSession, "P1", false),
    (Rule::ChangePassword, "P2", false),
    (Rule::Enrol, "P3", true),
    (Rule::ReadPersons, "P4", true),
    (Rule::AskIssue, "P5", true),
    (Rule::ConfirmIssue, "P6", true),
    (Rule::SetRoles, "P7", true),
    (Rule::Retire, "P8", true),
    (Rule::Unlock, "P9", true),
    (Rule::MakeForm, "P10", true),
    (Rule::ReadForm, "P11", true),
    (Rule::OpenRecord, "P12", true),
    (Rule::Enter, "P13", true),
    (Rule::Amend, "P14", true),
    (Rule::SignAuthorship, "P15", true),
    (Rule::SignReview, "P16", true),
    (Rule::SignRejection, "P17", true),
    (Rule::ReadRecord, "P18", true),
    (Rule::ReadVersion, "P19", true),
    (Rule::ReadRecords, "P20", true),
    (Rule::ReadTrail, "P21", true),
    (Rule::TakeCopy, "P22", true),
    (Rule::SignApproval, "P23", true),
];

#[test]
fn each_rule_has_its_word_and_its_bar(rt: HostRuntime) {
    for &(rule, word, is_barred) in &RULES {
        assert_eq!(rt; (rule.word(), rule.is_barred_by_due()), (word, is_barred));
    }
}
