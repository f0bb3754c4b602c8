//! `Lists` as a keeper: what is founded and changed is there at the next load, and nothing else is.
use crate::kept::lists;
use crate::made::{changes, newborn, text, token};
use crate::told::slices_text;
use lab_records_keeper::{Keeper, PlacingFault};
use lab_records_kept::{
    Digest, FormWanted, LabCounts, ListWanted, Need, Ordinal, RecordWanted, Slice,
};
use lab_records_memory::Lists;
use std::process::Abort;

// The first newborn, as it is changed.
const CHANGED: &str = "lab|aqua|Aqua Lab|1200|4|\n\
    session|1|ann|1000|1150|closed|signed|\n\
    person|ann|Ann Roe|analyst |here|1|-|unset|no ask|\n\
    person|cid|Cid Lee|reviewer inspector |retired|4|-|unset|no ask|\n\
    person|dan|Dan Poe|manager |retired|0|-|unset|no ask|\n\
    person|eve|Eve Ng|administrator |here|5|450|unset|no ask|\n\
    trail|1|500|-|found|aqua|\n\
    trail|2|900|eve|enrol|cid reviewer inspector|\n";

// The laboratory of the code, with the session of a token and with a list.
fn loaded(
    rt: &(impl Abort + AllocGlobal),
    lists: &mut Lists,
    code: &str,
    token: Option<Digest>,
    list: ListWanted,
) -> Option<Slice> {
    let code = text(rt, code);
    let need = Need {
        token,
        person: None,
        form: None,
        filed: None,
        list: Some(list),
    };
    let slice = lists.load(&code, &need);
    drop(code);
    drop(need);
    slice.expect(rt, "memory")
}

fn assert_counts(rt: &impl Abort, counts: &LabCounts) {
    assert_eq!(rt; counts.persons, 4);
    assert_eq!(rt; counts.sessions, 1);
    assert_eq!(rt; counts.records, 0);
    assert_eq!(rt; counts.trail, 2);
}

// The laboratory has as many of each as are wanted; nothing is named.
fn assert_bare(rt: &impl Abort, slice: &Slice) {
    assert_counts(rt, &slice.counts);
    assert!(rt; slice.person.is_none());
    assert!(rt; slice.form.is_none());
    assert!(rt; slice.filed.is_none());
}

fn assert_told(rt: &(impl Abort + AllocGlobal), most: &Slice, rest: &Slice, wanted: &str) {
    let told = slices_text(rt, most, rest);
    assert_eq!(rt; told.as_str(), wanted);
    drop(told);
}

// With the session and its person, and all persons.
fn persons(rt: &(impl Abort + AllocGlobal), lists: &mut Lists) -> Slice {
    let list = ListWanted::Persons;
    let slice = loaded(rt, lists, "aqua", Some(token()), list).expect(rt, "a laboratory");
    assert_bare(rt, &slice);
    assert!(rt; slice.caller.is_some());
    assert!(rt; slice.trail.as_slice().is_empty());
    slice
}

// With the trail alone.
fn trail(rt: &(impl Abort + AllocGlobal), lists: &mut Lists) -> Slice {
    let list = ListWanted::Trail {
        from: Ordinal::FIRST,
        to: Ordinal::new(2).expect(rt, "an ordinal"),
    };
    let slice = loaded(rt, lists, "aqua", None, list).expect(rt, "a laboratory");
    assert_bare(rt, &slice);
    assert!(rt; slice.session.is_none());
    assert!(rt; slice.caller.is_none());
    assert!(rt; slice.persons.as_slice().is_empty());
    slice
}

fn assert_changed(rt: &(impl Abort + AllocGlobal), lists: &mut Lists) {
    let most = persons(rt, lists);
    let rest = trail(rt, lists);
    assert_told(rt, &most, &rest, CHANGED);
    drop(most);
    drop(rest);
}

fn assert_none(rt: &(impl Abort + AllocGlobal), lists: &mut Lists, code: &str) {
    let slice = loaded(rt, lists, code, None, ListWanted::Persons);
    assert!(rt; slice.is_none());
    drop(slice);
}

// The second newborn has the first one's code.
fn assert_founded_once(rt: &(impl Abort + AllocGlobal), lists: &mut Lists) {
    assert!(rt; lists.found(newborn(rt, "Aqua Lab")) == Ok(()));
    assert!(rt; lists.found(newborn(rt, "Terra Lab")) == Err(PlacingFault::LabExists));
}

fn assert_applied(rt: &(impl Abort + AllocGlobal), lists: &mut Lists) {
    let code = text(rt, "aqua");
    let done = lists.apply(&code, changes(rt));
    drop(code);
    assert!(rt; done == Ok(()));
}

// Of brick there is no laboratory.
#[test]
fn a_laboratory_is_founded_once_and_changed(rt: HostRuntime) {
    let mut lists = Lists::new(rt.alloc());
    assert_founded_once(&rt, &mut lists);
    assert_applied(&rt, &mut lists);
    assert_changed(&rt, &mut lists);
    assert_none(&rt, &mut lists, "brick");
    drop(lists);
}

// A person, the last version of a form and a record are named, and all records are listed.
fn need(rt: &(impl Abort + AllocGlobal)) -> Need {
    Need {
        token: None,
        person: Some(text(rt, "dan")),
        form: Some(FormWanted::Last {
            code: text(rt, "water"),
        }),
        filed: Some(RecordWanted::About {
            form: text(rt, "water"),
            sample: text(rt, "S1"),
        }),
        list: Some(ListWanted::Records {
            from: Ordinal::FIRST,
            to: Ordinal::new(2).expect(rt, "an ordinal"),
        }),
    }
}

fn assert_named(rt: &impl Abort, slice: &Slice) {
    assert!(rt; slice.person.is_some());
    assert!(rt; slice.form.is_some());
    assert!(rt; slice.filed.is_some());
    assert_eq!(rt; slice.records.as_slice().len(), 2);
}

#[test]
fn what_is_named_is_loaded(rt: HostRuntime) {
    let code = text(&rt, "aqua");
    let mut lists = lists(&rt, &code);
    let need = need(&rt);
    let slice = lists.load(&code, &need);
    drop(need);
    drop(code);
    drop(lists);
    let slice = slice.expect(&rt, "memory").expect(&rt, "a laboratory");
    assert_named(&rt, &slice);
    drop(slice);
}
