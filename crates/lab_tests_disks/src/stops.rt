//! A task that is tried on a file while a disk of it is stopped, and what is left then.
use crate::files::{Outcome, Task, work};
use crate::images::{EACH, Image, Pair, Passed, Stopped, are_passing, crash, laid, written};
use std::alloc::Global;

// More calls of a disk than an opening and a task make.
const MOST: u64 = 4096;

/// What comes of a task.
#[derive(Clone, Copy)]
pub(crate) enum Comes<'a> {
    /// It is done.
    Filled,
    /// The store refuses it.
    Refused,
    /// It was done before.
    There,
    /// This reply.
    Reply(&'a [u8]),
}

/// What a file is once it is opened.
#[derive(Clone, Copy)]
pub(crate) enum Says<'a> {
    /// None of laboratories.
    NotOurs,
    /// One whose rows say what has this digest.
    Rows(&'a [u8; 64]),
}

/// A task, and what may come of it.
#[derive(Clone, Copy)]
pub(crate) struct Trial<'a> {
    /// The task.
    pub(crate) task: Task<'a>,
    /// What comes of it where it is done.
    pub(crate) done: Comes<'a>,
    /// What comes of it where the store refuses.
    pub(crate) refused: Comes<'a>,
    /// What comes of it where it was done before; none where it isn't tried again.
    pub(crate) again: Option<Comes<'a>>,
    /// What the file is before it.
    pub(crate) before: Says<'a>,
    /// What the file is after it.
    pub(crate) after: Says<'a>,
}

/// How many runs ended so, of which in each one call more is passed on than in that before it.
#[derive(Clone, Copy, Debug, PartialEq, Eq)]
pub(crate) struct Ends {
    /// The file wasn't opened.
    pub(crate) unopened: u32,
    /// The store refused.
    pub(crate) refused: u32,
    /// The task was done.
    pub(crate) done: u32,
}

// How a run ended.
#[derive(Clone, Copy)]
enum End {
    Unopened,
    Refused,
    Done,
}

impl Ends {
    fn none() -> Ends {
        Ends {
            unopened: 0,
            refused: 0,
            done: 0,
        }
    }

    fn count(&mut self, end: End) {
        let count = match end {
            End::Unopened => &mut self.unopened,
            End::Refused => &mut self.refused,
            End::Done => &mut self.done,
        };
        *count = count.saturating_add(1);
    }
}

// Whether this came of a task.
fn is_come(outcome: &Outcome, wanted: Comes<'_>) -> bool {
    match (outcome, wanted) {
        (Outcome::Filled, Comes::Filled)
        | (Outcome::Refused, Comes::Refused)
        | (Outcome::There, Comes::There) => true,
        (Outcome::Replied(reply), Comes::Reply(wanted)) => reply.as_slice() == wanted,
        _ => false,
    }
}

// How a run ended of which this came; none where it may not.
fn end_of(outcome: &Outcome, trial: &Trial<'_>) -> Option<End> {
    if let Outcome::Unopened = outcome {
        return Some(End::Unopened);
    }
    if is_come(outcome, trial.done) {
        return Some(End::Done);
    }
    if is_come(outcome, trial.refused) {
        return Some(End::Refused);
    }
    None
}

/// What lies there once the task was done with the file; none where it couldn't be.
pub(crate) fn written_by(alloc: Global, image: &Image, task: Task<'_>) -> Option<Image> {
    let mut outcome = Outcome::Unopened;
    let disks = laid(alloc, image, EACH)?;
    let left = work(alloc, disks, task, &mut outcome)?;
    match outcome {
        Outcome::Filled | Outcome::Told(_) | Outcome::Replied(_) => written(alloc, &left),
        Outcome::Unopened | Outcome::NotOurs | Outcome::Refused => None,
        Outcome::There | Outcome::Failed => None,
    }
}

/// What comes of telling what the tables of the file say.
pub(crate) fn told_by(alloc: Global, image: &Image) -> Outcome {
    let mut outcome = Outcome::Failed;
    let Some(disks) = laid(alloc, image, EACH) else {
        return outcome;
    };
    if work(alloc, disks, Task::Tell, &mut outcome).is_none() {
        return Outcome::Failed;
    }
    outcome
}

// Whether a file that is told is this one.
fn is_said(told: &Outcome, wanted: Says<'_>) -> bool {
    match (told, wanted) {
        (Outcome::NotOurs, Says::NotOurs) => true,
        (Outcome::Told(said), Says::Rows(rows)) => said == rows,
        _ => false,
    }
}

// Whether a task was done, by the file that is left.
#[derive(Clone, Copy, PartialEq, Eq)]
enum Side {
    Before,
    After,
}

// On which side of the task a file that is told lies; none where it is neither.
fn side_of(told: &Outcome, trial: &Trial<'_>) -> Option<Side> {
    if is_said(told, trial.after) {
        return Some(Side::After);
    }
    if is_said(told, trial.before) {
        return Some(Side::Before);
    }
    None
}

// Whether the file may lie there after a run that ended so.
fn may_lie(side: Side, end: End) -> bool {
    match (side, end) {
        (Side::Before, End::Unopened | End::Refused) => true,
        (Side::After, End::Refused | End::Done) => true,
        (Side::Before, End::Done) | (Side::After, End::Unopened) => false,
    }
}

// On which side of the task lies what is left on the disks; none where it is neither, or may not
// lie there after a run that ended so. What lay there before is before it.
fn side_left(
    alloc: Global,
    image: &Image,
    left: &Image,
    end: End,
    trial: &Trial<'_>,
) -> Option<Side> {
    let side = if left.is(image) {
        Side::Before
    } else {
        side_of(&told_by(alloc, left), trial)?
    };
    if may_lie(side, end) { Some(side) } else { None }
}

// Whether what lies on the disks after a run that ended so may lie there.
fn is_left_well(alloc: Global, image: &Image, pair: &Pair, end: End, trial: &Trial<'_>) -> bool {
    match written(alloc, pair) {
        Some(left) => side_left(alloc, image, &left, end, trial).is_some(),
        None => false,
    }
}

// Whether the task, tried again over what is left with no disk stopped, is done, or was done
// before; none where there was no memory.
fn is_done_at_last(alloc: Global, left: &Image, side: Side, trial: &Trial<'_>) -> Option<bool> {
    let Some(there) = trial.again else {
        return Some(true);
    };
    let mut outcome = Outcome::Failed;
    let disks = laid(alloc, left, EACH)?;
    let pair = work(alloc, disks, trial.task, &mut outcome)?;
    let made = written(alloc, &pair)?;
    let is_come = match side {
        Side::Before => is_come(&outcome, trial.done),
        Side::After => is_come(&outcome, there),
    };
    Some(is_come && is_said(&told_by(alloc, &made), trial.after))
}

// Whether what the machine leaves where it stops may lie there after a run that ended so, and the
// task tried again goes on from it; none where there was no memory.
fn goes_on(alloc: Global, image: &Image, pair: &Pair, end: End, trial: &Trial<'_>) -> Option<bool> {
    let left = written(alloc, pair)?;
    let side = side_left(alloc, image, &left, end, trial)?;
    is_done_at_last(alloc, &left, side, trial)
}

// How a run ended, and whether it left some calls of both disks.
#[derive(Clone, Copy)]
struct Ended {
    end: End,
    is_passing: bool,
}

// How a run ends of whose disks so many calls are passed on; none where it ends otherwise than it
// may, or leaves what may not lie there, whether the machine stops too or not.
fn run(alloc: Global, image: &Image, passed: Passed, trial: &Trial<'_>) -> Option<Ended> {
    let mut outcome = Outcome::Unopened;
    let disks = laid(alloc, image, passed)?;
    let mut left = work(alloc, disks, trial.task, &mut outcome)?;
    let end = end_of(&outcome, trial)?;
    let is_passing = are_passing(&mut left);
    let is_well = is_left_well(alloc, image, &left, end, trial);
    crash(&mut left);
    if is_well && goes_on(alloc, image, &left, end, trial)? {
        Some(Ended { end, is_passing })
    } else {
        None
    }
}

/// How the runs end of whose log, or of whose file, each call is stopped in turn, while the file is
/// opened and the task is tried: in the first no call is passed on, and in the last all, of which
/// there is none left.
///
/// # Errors
/// The number of calls that were passed on in a run that ended otherwise than it may, or left what may not lie
/// there, or from which the task tried again doesn't go on.
pub(crate) fn stop_each(
    alloc: Global,
    image: &Image,
    stopped: Stopped,
    trial: &Trial<'_>,
) -> Result<Ends, u64> {
    let mut ends = Ends::none();
    for calls in 0..MOST {
        match run(alloc, image, stopped.after(calls), trial) {
            None => return Err(calls),
            Some(ended) if ended.is_passing => return Ok(ends),
            Some(ended) => ends.count(ended.end),
        }
    }
    Err(MOST)
}
