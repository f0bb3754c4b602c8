//! Refusals, as JSON.
ghost use Rattle.std.specs.Prelude.{◌≡◌, [], IfOk};
ghost use Rattle.serde_json.specs.View.{view};
ghost use Rattle.lab_wire_replies.specs.Refusals.{refused_data, people_members, refusal_data};
ghost use Rattle.lab_records_rules.specs.Refusals.{refusal_entry};

use crate::members::{bytes, count, object_of, ordinal, text};
use lab_forms_texts::{OutOfMemory, RefusalKind};
use lab_people_access::PeopleRefusal;
use lab_records_rules::Refusal;
use serde_json::Value;
use std::alloc::Global;

/// Returns a refusal with only its word and its number. Fails only if memory runs out.
///
/// # Errors
/// Memory ran out.
pub fn entry_value(alloc: Global, number: u32, word: &str) -> Result<Value, OutOfMemory>
    ensures { IfOk result (λ value. view value
        ≡ refused_data (record { number = number; word = word.now }) []) }
{
    object_of(
        alloc,
        &[text("error", word), count("number", u64::from(number))],
    )
}

/// Returns a refusal, with its further members. Fails only if memory runs out.
///
/// # Errors
/// Memory ran out.
pub fn refusal_value(alloc: Global, refusal: &Refusal) -> Result<Value, OutOfMemory>
    ensures { IfOk result (λ value. view value ≡ refusal_data refusal.now) }
{
    let (number, word) = (refusal.number().unwrap_or(0), refusal.word());
    match refusal {
        Refusal::People(people) => people_value(alloc, number, word, people),
        Refusal::RecordExists(record) => {
            object_of(
                alloc,
                &[
                    text("error", word),
                    count("number", u64::from(number)),
                    ordinal("record", *record),
                ],
            )
        }
        Refusal::NotAltered(key) => object_of(
            alloc,
            &[
                text("error", word),
                count("number", u64::from(number)),
                text("key", key.as_str()),
            ],
        ),
        Refusal::StaleDigest(digest) => {
            object_of(
                alloc,
                &[
                    text("error", word),
                    count("number", u64::from(number)),
                    bytes("digest", digest.bytes()),
                ],
            )
        }
        _ => entry_value(alloc, number, word),
    }
}

fn people_value(
    alloc: Global,
    number: u32,
    word: &str,
    refusal: &PeopleRefusal,
) -> Result<Value, OutOfMemory>
    ensures { IfOk result (λ value. view value
        ≡ refused_data (record { number = number; word = word.now }) (people_members refusal.now)) }
{
    match refusal {
        PeopleRefusal::RoleWanted(rule) => {
            object_of(
                alloc,
                &[
                    text("error", word),
                    count("number", u64::from(number)),
                    text("rule", rule.word()),
                ],
            )
        }
        _ => entry_value(alloc, number, word),
    }
}
