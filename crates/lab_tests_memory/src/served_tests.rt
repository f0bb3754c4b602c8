//! Two connections served, over a network in memory: the second client reads what came of what the
//! first one asked.
use crate::events::{FOUNDING, FOUNDING_FIRST, SERVED};
use crate::hosts::{Buffers, Counting, InMemory, Never, Standing};
use crate::streets::{Client, Ground, Street};
use lab_desk::{Desk, Keeper, LabCode, Tick};
use lab_forms_texts::Moment;
use lab_program_host::{Host, Outside, Streams, WriteFault, Writers};
use lab_program_serve::{LiveDesk, Opener, listen, serve};
use lab_records_memory::Lists;
use lab_tests_rows::{Exchange, moment, words};
use std::cell::{Cell, RefCell};
use std::net::Net;
use std::process::Abort;

// A desk with a laboratory that was founded at the first moment.
fn desk_with_aqua<R: Abort + AllocGlobal>(rt: &R) -> Desk<Lists> {
    let mut desk = Desk::new(rt.alloc(), Lists::new(rt.alloc()))
        .ok()
        .expect(rt, "a desk");
    let code = LabCode::parse(rt.alloc(), "aqua").expect(rt, "a code");
    let tick = Tick {
        moment: Moment::from_seconds(0).expect(rt, "a moment"),
        words: words(FOUNDING_FIRST),
    };
    let found = desk.found(&code, &tick, FOUNDING);
    drop(code);
    assert_eq!(rt; found, Ok(()));
    desk
}

fn client<R: Abort + AllocGlobal>(rt: &R, exchange: &Exchange) -> Client {
    Client {
        sends: exchange.request,
        gets: RefCell::new(Vec::new(rt.alloc())),
    }
}

fn assert_got(rt: &impl Abort, client: &Client, reply: &[u8]) {
    let gets = client.gets.try_borrow().ok().expect(rt, "what it got");
    assert_eq!(rt; gets.as_slice(), reply);
}

// Serves two connections. It has no clause, so that the test's proof doesn't carry what a server
// promises.
fn serve_two<M: Outside, S: Keeper + Drop, O: Opener<M::Volume, S> + Drop, W: Writers>(
    host: &mut Host<'_, M>,
    office: &mut LiveDesk<S, O>,
    listener: <M::Net as Net>::Listener,
    streams: &mut Streams<W>,
) -> Result<u8, WriteFault> {
    serve(host, office, listener, 2, streams)
}

// How two clients were served at port 7000: the status, what is printed, and what is told.
fn served<R: Abort + AllocGlobal>(
    rt: &R,
    street: &Street,
) -> (Result<u8, WriteFault>, Vec<u8>, Vec<u8>) {
    let ground = Ground { street };
    let mut host: Host<'_, InMemory<'_>> = Host {
        alloc: rt.alloc(),
        net: &ground,
        volume: (),
        clock: Standing {
            moment: moment().expect(rt, "a moment"),
        },
        chance: Counting {
            next: SERVED[0].first,
        },
        progress: (),
    };
    let listener = listen(&ground, 7000).ok().expect(rt, "a listener");
    let mut office = LiveDesk::new(rt.alloc(), Never, desk_with_aqua(rt))
        .ok()
        .expect(rt, "an office");
    let mut streams: Streams<Buffers> = Streams {
        output: Vec::new(rt.alloc()),
        errors: Vec::new(rt.alloc()),
    };
    let status = serve_two(&mut host, &mut office, listener, &mut streams);
    drop(host);
    drop(office);
    let Streams { output, errors } = streams;
    (status, output, errors)
}

#[test]
fn what_comes_of_one_client_the_next_one_reads(rt: HostRuntime) {
    let street = Street {
        clients: [client(&rt, &SERVED[0]), client(&rt, &SERVED[1])],
        came: Cell::new(0),
    };
    let (status, output, errors) = served(&rt, &street);
    assert_eq!(rt; status, Ok(0));
    assert_eq!(rt; output.as_slice(), b"listening 127.0.0.1:7000\n".as_slice());
    assert_eq!(rt; errors.as_slice(), b"".as_slice());
    assert_got(&rt, &street.clients[0], SERVED[0].reply);
    assert_got(&rt, &street.clients[1], SERVED[1].reply);
    drop(output);
    drop(errors);
    drop(street);
}
