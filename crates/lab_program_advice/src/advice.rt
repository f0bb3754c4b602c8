//! The advice for a person at a terminal, below the line that says why a task stopped.

use crate::flaw_rows::write_of_flaw;
use crate::spots::Spot;
use lab_program_host::{FoundFault, ServerFault};
use lab_program_opening::{FoundingFault, OpenFault, Trouble};
use lab_records_copy_out::CopyOutFault;
use lab_records_keeper::PlacingFault;
use lab_store_files::{FileFault, SCHEMA};
use std::fs::{self, File};
use std::io::{self, ErrorKind, IsTerminal, Write};
use std::net::{Ipv4Addr, SocketAddr, SocketAddrV4, TcpListener};

/// The number of the schema whose files are moved.
const MOVED: u64 = 2;

/// Writes what a person should check.
pub fn write_advice<W: Write>(
    rt: &HostRuntime,
    spot: Option<Spot>,
    errors: &mut W,
    trouble: Trouble<'_>,
) -> io::Result<()> {
    match trouble {
        Trouble::Opening(path, OpenFault::File(fault)) => write_of_file(rt, errors, path, fault),
        Trouble::Founding(path, FoundingFault::Founding(fault)) => {
            write_of_founding(rt, spot, errors, path, fault)
        }
        Trouble::Old(path, new, OpenFault::File(fault)) => {
            write_of_old(rt, errors, path, new, fault)
        }
        Trouble::New(path, OpenFault::File(fault)) => write_of_new(rt, errors, path, fault),
        Trouble::Moving(path, new, fault) => write_of_move(errors, path, new, fault),
        Trouble::Unsound(path, lab, new) => writeln!(
            errors,
            "{lab} in {path} isn't as labdesk wrote it: put a backup in its place, and remove {new} before the next try."
        ),
        Trouble::Opening(_, OpenFault::Drawing)
        | Trouble::Old(_, _, OpenFault::Drawing)
        | Trouble::New(_, OpenFault::Drawing)
        | Trouble::Founding(_, FoundingFault::Server(ServerFault::Read)) => writeln!(
            errors,
            "Standard input, the clock or the source of random words failed."
        ),
        Trouble::Copying(path, CopyOutFault::Storage) => write_of_storage(rt, errors, path),
        Trouble::Copying(path, CopyOutFault::NoSuchLab) => {
            writeln!(errors, "{path} has no laboratory of that code.")
        }
        Trouble::AtPort(port) => write_of_port(rt, errors, port),
        Trouble::OfCode(text) => writeln!(
            errors,
            "{text:?} isn't a laboratory's code: 1 to 12 letters a to z, digits and '-', the first a letter."
        ),
        Trouble::Flawed(word, row) => write_of_flaw(rt, errors, word, row),
        Trouble::FoundingAwaited | Trouble::CopyAwaited | Trouble::EventsAwaited => {
            write_of_waiting(rt, errors, trouble)
        }
        Trouble::Founding(..) | Trouble::Copying(..) => Ok(()),
    }
}

// Writes what the program waits for, if standard input is the terminal.
fn write_of_waiting<W: Write>(
    rt: &HostRuntime,
    errors: &mut W,
    trouble: Trouble<'_>,
) -> io::Result<()> {
    if !rt.stdin().is_terminal() {
        return Ok(());
    }
    match trouble {
        Trouble::CopyAwaited => writeln!(
            errors,
            "The copy is read from this terminal, to Ctrl-D; 'labdesk check < COPY' checks a file."
        ),
        Trouble::EventsAwaited => writeln!(
            errors,
            "Events are read from this terminal, to Ctrl-D; 'labdesk replay < EVENTS' takes them from a file."
        ),
        _ => writeln!(
            errors,
            "The founding's JSON is read from this terminal, to Ctrl-D; '< FOUNDING' takes it from a file, and 'labdesk-found' asks for it."
        ),
    }
}

// Writes the advice for a port that can't be listened at, by the result of another try.
fn write_of_port<W: Write>(rt: &HostRuntime, errors: &mut W, port: u16) -> io::Result<()> {
    let address = SocketAddr::V4(SocketAddrV4::new(Ipv4Addr::LOCALHOST, port));
    match TcpListener::bind(rt, address) {
        Err(error) if error.kind() == ErrorKind::PermissionDenied => writeln!(
            errors,
            "This user may not listen at port {port}: take one from 1024 on. --port 0 takes any free port."
        ),
        _ => writeln!(
            errors,
            "labdesk can't listen at port {port}; perhaps another program has it. --port 0 takes any free port."
        ),
    }
}

// Writes the advice for a file that wasn't opened.
fn write_of_file<W: Write>(
    rt: &HostRuntime,
    errors: &mut W,
    path: &str,
    fault: FileFault,
) -> io::Result<()> {
    match fault {
        FileFault::NotADeskFile => write_of_kind(rt, errors, path),
        FileFault::SchemaOld(MOVED) => writeln!(
            errors,
            "A labdesk of an older version made {path}: 'labdesk migrate' moves it into a new file."
        ),
        FileFault::SchemaOld(_) | FileFault::SchemaNew(_) => writeln!(
            errors,
            "A labdesk of another version made {path}: take that version."
        ),
        FileFault::Storage => write_of_storage(rt, errors, path),
        FileFault::NotEmpty | FileFault::Memory => Ok(()),
    }
}

// Writes the advice for an old file that wasn't opened.
fn write_of_old<W: Write>(
    rt: &HostRuntime,
    errors: &mut W,
    path: &str,
    new: &str,
    fault: FileFault,
) -> io::Result<()> {
    match fault {
        FileFault::NotADeskFile if fs::metadata(rt, path).is_err() => {
            writeln!(errors, "There is no file {path}.")
        }
        FileFault::SchemaNew(SCHEMA) => {
            writeln!(
                errors,
                "{path} needn't be moved: this labdesk serves it as it is."
            )
        }
        FileFault::Storage if File::open(rt, path).is_ok() => writeln!(
            errors,
            "{path} can't be copied beside {new}: check that no other program holds {path} (a running server), that the folder of {new} can be written, and that its disk isn't full."
        ),
        _ => write_of_file(rt, errors, path, fault),
    }
}

// Writes the advice for a new file that wasn't opened.
fn write_of_new<W: Write>(
    rt: &HostRuntime,
    errors: &mut W,
    path: &str,
    fault: FileFault,
) -> io::Result<()> {
    match fault {
        FileFault::NotEmpty => writeln!(
            errors,
            "{path} isn't empty: name a path where no file is; nothing was changed."
        ),
        _ => write_of_file(rt, errors, path, fault),
    }
}

// Writes the advice for a move that stopped.
fn write_of_move<W: Write>(
    errors: &mut W,
    path: &str,
    new: &str,
    fault: FileFault,
) -> io::Result<()> {
    match fault {
        FileFault::Storage => writeln!(
            errors,
            "{path} has a row that no laboratory has, or the disk of {new} is full or failed. Remove {new} before the next try."
        ),
        _ => writeln!(errors, "Remove {new} before the next try."),
    }
}

// Writes the advice for a founding that founded nothing.
fn write_of_founding<W: Write>(
    rt: &HostRuntime,
    spot: Option<Spot>,
    errors: &mut W,
    path: &str,
    fault: FoundFault,
) -> io::Result<()> {
    match fault {
        FoundFault::Body(_) if fault.word() == "bad_body" => {
            spot.map_or(Ok(()), |spot| spot.of_body().write(errors))
        }
        FoundFault::Body(_) | FoundFault::Birth(_) => {
            spot.map_or(Ok(()), |spot| spot.write(errors))
        }
        FoundFault::Placing(PlacingFault::LabExists) => writeln!(
            errors,
            "{path} has that laboratory already; nothing was changed."
        ),
        FoundFault::Placing(PlacingFault::Storage) => write_of_storage(rt, errors, path),
        FoundFault::Placing(PlacingFault::Memory) => Ok(()),
    }
}

// Writes the advice for a file that isn't one of laboratories, by what lies at the path.
fn write_of_kind<W: Write>(rt: &HostRuntime, errors: &mut W, path: &str) -> io::Result<()> {
    match fs::metadata(rt, path) {
        Ok(found) if !found.is_file() => writeln!(errors, "{path} isn't a regular file."),
        Ok(_) => writeln!(
            errors,
            "{path} holds no laboratories, or is damaged: look at the path, or put a backup in its place."
        ),
        Err(_) => writeln!(
            errors,
            "There is no file {path}; 'labdesk found' makes one."
        ),
    }
}

// Writes the advice for a file that the store refused, by whether it may be read.
fn write_of_storage<W: Write>(rt: &HostRuntime, errors: &mut W, path: &str) -> io::Result<()> {
    if fs::metadata(rt, path).is_err() {
        writeln!(
            errors,
            "{path} can't be made: check that its folder exists and can be written."
        )
    } else if File::open(rt, path).is_err() {
        writeln!(errors, "This user may not read {path}.")
    } else {
        writeln!(
            errors,
            "{path} can't be used: check that no other program holds it (a running server), that you may write it and its folder, and that the disk isn't full."
        )
    }
}
