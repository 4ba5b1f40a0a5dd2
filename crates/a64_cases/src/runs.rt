//! The runs of a case.

use crate::case::{Case, Cut, Runs};
use crate::judging::judge;
use crate::problem::{Problem, same_bytes, same_number};
use crate::trial::{Outcome, Streams, try_run};
use crate::wanted::Wanted;
use std::alloc::Global;

/// The longest report that is written in one piece.
const PIECE: usize = 65_536;

/// The most bytes that a sink is given room for without need.
const MOST_ROOM: usize = 1 << 27;

/// What keeps a run from being done: reads and writes that fail, counted from 1, and the room of the sink.
#[derive(Clone, Copy)]
struct Limits<'a> {
    reads: &'a [u64],
    writes: &'a [u64],
    room: usize,
}

/// Room for any report of a file.
fn room_for(case: &Case<'_>) -> usize {
    let room = case.file.len().saturating_mul(16).saturating_add(PIECE);
    case.room.unwrap_or(room.min(MOST_ROOM))
}

/// How the streams of a case behave.
fn streams_of<'a>(case: &'a Case<'_>, limits: Limits<'a>) -> Streams<'a> {
    Streams {
        pieces: case.pieces.max(1),
        failing_reads: limits.reads,
        failing_writes: limits.writes,
        failing_lines: &case.failing_lines,
        room: limits.room,
    }
}

/// How a run over a front of the file of a case went, which is to give what is wanted.
fn run_front(
    alloc: Global,
    case: &Case<'_>,
    file: &[u8],
    limits: Limits<'_>,
    wanted: &Wanted<'_>,
) -> Result<Outcome, Problem> {
    let streams = streams_of(case, limits);
    let outcome = try_run(alloc, &case.command, file, &streams)?;
    judge(alloc, &outcome, wanted, &streams)?;
    Ok(outcome)
}

/// How a run over the file of a case went, which is to give what is wanted.
fn run_whole(
    alloc: Global,
    case: &Case<'_>,
    limits: Limits<'_>,
    wanted: &Wanted<'_>,
) -> Result<Outcome, Problem> {
    run_front(alloc, case, &case.file, limits, wanted)
}

/// How the run of a case went that has one.
fn run_once(alloc: Global, case: &Case<'_>) -> Result<Outcome, Problem> {
    let limits = Limits {
        reads: &case.failing_reads,
        writes: &case.failing_writes,
        room: room_for(case),
    };
    run_whole(alloc, case, limits, &case.wanted())
}

/// Two runs, which write the same.
fn run_twice(alloc: Global, case: &Case<'_>) -> Result<(), Problem> {
    let first = run_once(alloc, case)?;
    let second = run_once(alloc, case)?;
    let (wanted, came) = (first.sink.bytes(), second.sink.bytes());
    same_bytes(alloc, "the second report", wanted, came)
}

/// A run of which this read fails, if there is such a one.
fn run_failing_read(
    alloc: Global,
    case: &Case<'_>,
    call: u64,
    wanted: &Wanted<'_>,
) -> Result<(), Problem> {
    let limits = Limits {
        reads: &[call],
        writes: &[],
        room: room_for(case),
    };
    run_whole(alloc, case, limits, wanted)?;
    Ok(())
}

/// Lets each read fail in turn: those that give bytes, and the one that finds the end.
fn run_each_read(alloc: Global, case: &Case<'_>) -> Result<(), Problem> {
    let pieces = case.pieces.clamp(1, PIECE);
    let calls = (case.file.len().div_ceil(pieces) as u64).saturating_add(1);
    for call in 1..=calls {
        run_failing_read(alloc, case, call, &Wanted::refused("read fault"))?;
    }
    run_failing_read(alloc, case, calls.saturating_add(1), &case.wanted())
}

/// The report of a case, which has to be given and to be written in one piece.
fn report_of<'a>(case: &'a Case<'_>) -> Result<&'a [u8], Problem> {
    match &case.report {
        Some(report) if report.len() <= PIECE => Ok(report.as_slice()),
        _ => Err(Problem::Unreadable("a report that is not given, or long")),
    }
}

/// A run of which the write behind so many others fails, if there is such a one.
fn run_failing_write(
    alloc: Global,
    case: &Case<'_>,
    done: usize,
    wanted: &Wanted<'_>,
) -> Result<(), Problem> {
    let limits = Limits {
        reads: &[],
        writes: &[(done as u64).saturating_add(1)],
        room: room_for(case),
    };
    run_whole(alloc, case, limits, wanted)?;
    Ok(())
}

/// Lets each write fail in turn.
fn run_each_write(alloc: Global, case: &Case<'_>) -> Result<(), Problem> {
    let report = report_of(case)?;
    let pieces = case.pieces.max(1);
    let calls = report.len().div_ceil(pieces);
    for done in 0..calls {
        let taken = &report[..done.saturating_mul(pieces).min(report.len())];
        run_failing_write(alloc, case, done, &Wanted::cut_off(taken, case.lists()))?;
    }
    run_failing_write(alloc, case, calls, &case.wanted())
}

/// A run over a front of the file, with so much room in the sink.
fn run_in_room(
    alloc: Global,
    case: &Case<'_>,
    file: &[u8],
    room: usize,
    wanted: &Wanted<'_>,
) -> Result<(), Problem> {
    let limits = Limits {
        reads: &[],
        writes: &[],
        room,
    };
    run_front(alloc, case, file, limits, wanted)?;
    Ok(())
}

/// Gives the sink each room that is too small for the report, and room enough.
fn run_each_room(alloc: Global, case: &Case<'_>) -> Result<(), Problem> {
    let report = report_of(case)?;
    for room in 0..report.len() {
        let wanted = Wanted::cut_off(&report[..room], case.lists());
        run_in_room(alloc, case, &case.file, room, &wanted)?;
    }
    run_in_room(alloc, case, &case.file, report.len(), &case.wanted())
}

/// Runs a case over the fronts of its file that have a length from a range.
fn run_cut(alloc: Global, case: &Case<'_>, cut: &Cut<'_>) -> Result<(), Problem> {
    let wanted = match cut.fault {
        Some(fault) => Wanted::refused(fault),
        None => Wanted::of_words(&cut.words),
    };
    for length in cut.first..=cut.last {
        let Some(front) = case.file.get(..length) else {
            return Err(Problem::Unreadable("a length that the file has not"));
        };
        run_in_room(alloc, case, front, room_for(case), &wanted)?;
    }
    Ok(())
}

/// Runs a case over each front of its file. Each length has to stand in one range.
fn run_each_front(alloc: Global, case: &Case<'_>) -> Result<(), Problem> {
    let mut next = Some(0);
    for cut in &case.cuts {
        if Some(cut.first) != next || cut.last < cut.first {
            return Err(Problem::Unreadable("lengths that are not all there"));
        }
        run_cut(alloc, case, cut)?;
        next = cut.last.checked_add(1);
    }
    if next != case.file.len().checked_add(1) {
        return Err(Problem::Unreadable("lengths that are not all there"));
    }
    Ok(())
}

/// A run in which a write fails: what was written then is a front of the whole report, with so many bytes.
fn run_holding(alloc: Global, case: &Case<'_>, least: usize, most: usize) -> Result<(), Problem> {
    let room = room_for(case);
    let sure = Limits {
        reads: &[],
        writes: &[],
        room,
    };
    let limits = Limits {
        reads: &case.failing_reads,
        writes: &case.failing_writes,
        room,
    };
    let done = Wanted {
        lists: case.lists(),
        ..Wanted::done()
    };
    let whole = run_whole(alloc, case, sure, &done)?;
    let streams = streams_of(case, limits);
    let outcome = try_run(alloc, &case.command, &case.file, &streams)?;
    let report = whole.sink.bytes();
    let taken = outcome.sink.bytes().len();
    let wanted = Wanted {
        report: Some(&report[..taken.min(report.len())]),
        ..case.wanted()
    };
    judge(alloc, &outcome, &wanted, &streams)?;
    let within = least <= taken && taken <= most;
    same_number(
        alloc,
        "whether so many bytes are held",
        1,
        u64::from(within),
    )
}

/// Runs a case, and says where what comes is not what is wanted.
pub fn run_case(alloc: Global, case: &Case<'_>) -> Result<(), Problem> {
    match case.runs {
        Runs::Once => run_once(alloc, case).map(|_| ()),
        Runs::Twice => run_twice(alloc, case),
        Runs::EachReadFails => run_each_read(alloc, case),
        Runs::EachWriteFails => run_each_write(alloc, case),
        Runs::EachRoomFails => run_each_room(alloc, case),
        Runs::EachFront => run_each_front(alloc, case),
        Runs::Holding { least, most } => run_holding(alloc, case, least, most),
    }
}
