//! What only a test shows of forms: where there is memory, values are read and copies made.
use lab_forms::{Bound, Choices, Field, Form, Key, Kind, Name, Unit, Value};
use std::fmt::Debug;
use std::process::Abort;

fn bound(rt: &(impl Abort + AllocGlobal), text: &str) -> Bound {
    Bound::new(String::from_str(rt.alloc(), text).expect(rt, "memory"))
}

// A number in milligrams a litre, between two bounds.
fn number(rt: &(impl Abort + AllocGlobal)) -> Kind {
    Kind::Number {
        unit: Unit::parse(rt.alloc(), "mg/L").expect(rt, "a unit"),
        decimals: 6,
        min: Some(bound(rt, "-1.5")),
        max: Some(bound(rt, "+2.000001")),
    }
}

fn choices(rt: &(impl Abort + AllocGlobal)) -> Choices {
    let mut names = Vec::new(rt.alloc());
    for name in ["a", "é"] {
        let name = Name::parse(rt.alloc(), name).expect(rt, "a name");
        names.push(name).expect(rt, "memory");
    }
    Choices::new(names)
}

// The kind of the field of that place.
fn kind(rt: &(impl Abort + AllocGlobal), place: usize) -> Kind {
    match place {
        0 => number(rt),
        1 => Kind::Choice {
            choices: choices(rt),
        },
        2 => Kind::Text { size: 12 },
        3 => Kind::Date,
        _ => Kind::YesNo,
    }
}

fn field(rt: &(impl Abort + AllocGlobal), key: &str, kind: Kind) -> Field {
    Field {
        key: Key::parse(rt.alloc(), key).expect(rt, "a key"),
        label: Name::parse(rt.alloc(), "Label").expect(rt, "a name"),
        required: true,
        kind,
    }
}

static KEYS: [&str; 5] = ["lead", "colour", "note", "taken", "clear"];

// A form of a field of each kind.
fn form(rt: &(impl Abort + AllocGlobal)) -> Form {
    let mut fields = Vec::new(rt.alloc());
    for (place, key) in KEYS.iter().enumerate() {
        let field = field(rt, key, kind(rt, place));
        fields.push(field).expect(rt, "memory");
    }
    Form::make(fields, true).expect(rt, "a form")
}

// Keys, texts and units that make values.
static VALUES: [(&str, &str, &str); 13] = [
    ("lead", "-1.5", "mg/L"),
    ("lead", "-0", "mg/L"),
    ("lead", "+1.000000", "mg/L"),
    ("lead", "<0.05", "mg/L"),
    ("lead", ">2.000001", "mg/L"),
    ("colour", "a", ""),
    ("colour", "é", ""),
    ("note", "éééééé", ""),
    ("note", " two\nlines ", ""),
    ("taken", "0001-01-01", ""),
    ("taken", "2000-02-29", ""),
    ("clear", "yes", ""),
    ("clear", "no", ""),
];

// A copy is the same as what was copied.
fn assert_same<T: Debug + PartialEq>(rt: &impl Abort, copy: &T, copied: &T) {
    assert_eq!(rt; *copy, *copied);
}

// The value is printed so.
fn assert_printed(rt: &impl Abort, value: &Value, text: &str) {
    assert_eq!(rt; value.print(), text);
}

// The text is read as it is written, and so is a copy of the value.
fn assert_read(rt: &(impl Abort + AllocGlobal), form: &Form, key: &str, text: &str, unit: &str) {
    let key = Key::parse(rt.alloc(), key).expect(rt, "a key");
    let unit = Unit::parse(rt.alloc(), unit).expect(rt, "a unit");
    let value = form.read_value(rt.alloc(), &key, text, &unit);
    drop(key);
    drop(unit);
    let value = value.expect(rt, text);
    let copy = value.copy().expect(rt, "memory");
    assert_printed(rt, &value, text);
    assert_same(rt, &copy, &value);
    drop(copy);
    drop(value);
}

#[test]
fn values_of_each_kind_are_read(rt: HostRuntime) {
    let form = form(&rt);
    for &(key, text, unit) in &VALUES {
        assert_read(&rt, &form, key, text, unit);
    }
    drop(form);
}

fn assert_copied(rt: &impl Abort, field: &Field) {
    let copy = field.copy().expect(rt, "memory");
    let kind = field.kind.copy().expect(rt, "memory");
    assert_same(rt, &copy, field);
    assert_same(rt, &kind, &field.kind);
    drop(copy);
    drop(kind);
}

#[test]
fn copies_of_a_form_its_fields_and_their_kinds_are_equal(rt: HostRuntime) {
    let form = form(&rt);
    for field in form.fields() {
        assert_copied(&rt, field);
    }
    let copy = form.copy().expect(&rt, "memory");
    assert_same(&rt, &copy, &form);
    drop(copy);
    drop(form);
}

#[test]
fn copies_of_a_bound_and_of_choices_are_equal(rt: HostRuntime) {
    let bound = bound(&rt, "-1.50");
    let copy = bound.copy().expect(&rt, "memory");
    assert_same(&rt, &copy, &bound);
    drop(copy);
    drop(bound);
    let choices = choices(&rt);
    let copy = choices.copy().expect(&rt, "memory");
    assert_same(&rt, &copy, &choices);
    drop(copy);
    drop(choices);
}
