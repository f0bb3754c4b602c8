//! What is needed of a laboratory, so that each part of it is needed once.
use lab_forms_texts::{Ordinal, Text, TextRule};
use lab_records_kept::{FormWanted, ListWanted, Need, RecordWanted};
use lab_seal_hashes::Token;
use lab_tests_rows::{TOKEN_OF_ANN, TOKEN_OF_DAN, words};
use std::process::Abort;

// The first words of the tokens of ann and of bob.
const ANN: u32 = 1016;

const BOB: u32 = 1024;

fn text<R: TextRule>(rt: &(impl Abort + AllocGlobal), text: &str) -> Text<R> {
    Text::parse(rt.alloc(), text).expect(rt, "a text that its rule admits")
}

fn number(rt: &impl Abort, number: u32) -> Ordinal {
    Ordinal::new(number).expect(rt, "a number from 1 on")
}

// A session, the last version of a form, a record by its number, and the persons.
fn of_ann<R: Abort + AllocGlobal>(rt: &R) -> Need {
    Need {
        token: Some(Token::from_words(&words(ANN)).digest()),
        person: Some(text(rt, "eve")),
        form: Some(FormWanted::Last {
            code: text(rt, "water"),
        }),
        filed: Some(RecordWanted::Numbered {
            number: number(rt, 2),
        }),
        list: Some(ListWanted::Persons),
    }
}

// Another session, a version of a form, a record by its sample, and the records.
fn of_bob<R: Abort + AllocGlobal>(rt: &R) -> Need {
    Need {
        token: Some(Token::from_words(&words(BOB)).digest()),
        person: Some(text(rt, "ann")),
        form: Some(FormWanted::Exact {
            code: text(rt, "water"),
            version: number(rt, 1),
        }),
        filed: Some(RecordWanted::About {
            form: text(rt, "water"),
            sample: text(rt, "S3"),
        }),
        list: Some(ListWanted::Records {
            from: number(rt, 1),
            to: number(rt, 9),
        }),
    }
}

// Nobody's session, and the trail.
fn of_nobody(rt: &impl Abort) -> Need {
    Need {
        token: None,
        person: None,
        form: None,
        filed: Some(RecordWanted::Numbered {
            number: number(rt, 3),
        }),
        list: Some(ListWanted::Trail {
            from: number(rt, 1),
            to: number(rt, 40),
        }),
    }
}

pub(crate) fn needs<R: Abort + AllocGlobal>(rt: &R) -> [Need; 3] {
    [of_ann(rt), of_bob(rt), of_nobody(rt)]
}

// Where record 1 has been entered: the session of dan, and record 1 by its number.
fn of_dan<R: Abort + AllocGlobal>(rt: &R) -> Need {
    Need {
        token: Some(Token::from_words(&words(TOKEN_OF_DAN)).digest()),
        person: Some(text(rt, "eve")),
        form: Some(FormWanted::Exact {
            code: text(rt, "water"),
            version: number(rt, 1),
        }),
        filed: Some(RecordWanted::Numbered {
            number: number(rt, 1),
        }),
        list: Some(ListWanted::Records {
            from: number(rt, 1),
            to: number(rt, 9),
        }),
    }
}

// A session that has rested for long, a record by its sample, and the persons.
fn of_who_rests<R: Abort + AllocGlobal>(rt: &R) -> Need {
    Need {
        token: Some(Token::from_words(&words(TOKEN_OF_ANN)).digest()),
        person: Some(text(rt, "fay")),
        form: Some(FormWanted::Last {
            code: text(rt, "water"),
        }),
        filed: Some(RecordWanted::About {
            form: text(rt, "water"),
            sample: text(rt, "S2"),
        }),
        list: Some(ListWanted::Persons),
    }
}

// The trail, and nobody's session.
fn of_the_trail(rt: &impl Abort) -> Need {
    Need {
        token: None,
        person: None,
        form: None,
        filed: None,
        list: Some(ListWanted::Trail {
            from: number(rt, 1),
            to: number(rt, 99),
        }),
    }
}

/// What is needed after each request of a story.
pub(crate) fn needs_of_story<R: Abort + AllocGlobal>(rt: &R) -> [Need; 3] {
    [of_dan(rt), of_who_rests(rt), of_the_trail(rt)]
}
