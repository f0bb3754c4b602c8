//! The names that a caller needs of the other boxes, each by the door of its box, as in
//! `names_inside.rt`.

pub(crate) use lab_desk::{
    CopyOutFault, Desk, Event, FoundFault, KeeperFault, Lists, PlacingFault, RunFault, ServeFault,
    copy_out, founding_of, twin,
};
pub(crate) use lab_move::{MoveFault, finish, is_sound, make_tables, migrate, place_lab, schema2};
pub(crate) use lab_store::{
    CopyRow, FileFault, Newborn, Store, StoreFault, Unopened, copy_rows, create, found,
};
pub(crate) use lab_wire::{
    Answer, BodyFault, HeadFault, Received, RequestFault, RouteFault, Routes, WriteFault,
    command_of, read_request, reply_bytes, write_whole,
};
