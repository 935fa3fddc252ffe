//! LIST BACKUP, LIST COPY and LIST ARCHIVELOG ALL
ghost use Rattle.std.specs.{Prelude.{◌≡◌, ◌++◌, ◌∷◌, [], All, IfOk, List, OnOk, Some, map}, List.{flat_map}};
ghost use Rattle.rm_evidence.specs.Gathered.{Lists};
ghost use Rattle.rm_machine.specs.{Effect.{told}, Lists.{IsListOutcome, IsListed, listed, lines_in, part_line}, Sound.{IsSound}};
ghost use Rattle.rm_catalog.specs.declared.record.Record.TheVariants.{Log as OfLog, Piece as OfPiece};
ghost use Rattle.rm_report.specs.{Reply.{IsPlain}, declared.line.Line.{Line as LineOf}};

use rm_base::{Class, NoMemory, Seq};
use rm_catalog::{Catalog, LogEntry, PieceEntry, Record, SetEntry, SetPart};
use rm_evidence::by_id;
use rm_machine::State;
use rm_machine::recorded::records_of;
use rm_machine::replies::{copied, packing_by, shape_by};
use rm_report::{Line, Packing};
use rm_verify::found::add;
use rm_verify::is_of;
use std::alloc::Global;

// The line of a log.
fn log_line(log: &LogEntry) -> Line
    ensures { lines_in (OfLog log.now) ≡ Some (log.now.id, result ∷ []) }
{
    Line::LogIs {
        id: log.id,
        thread: log.thread,
        sequence: log.sequence,
        first: log.first,
        next: log.next,
        inc: log.inc,
        status: log.status,
        keep: log.keep,
    }
}

// The line of a piece.
fn piece_line(alloc: Global, piece: &PieceEntry) -> Result<Line, NoMemory>
    ensures { IfOk result (λ line. lines_in (OfPiece piece.now) ≡ Some (piece.now.id, line ∷ [])) }
{
    Ok(Line::PieceIs {
        packing: packing_by(piece.copy),
        id: piece.id,
        file: piece.file,
        shape: shape_by(piece.kind, piece.from),
        checkpoint: piece.checkpoint,
        high: piece.high,
        status: piece.status,
        tag: copied(alloc, &piece.tag)?,
        keep: piece.keep,
    })
}

// The line of what a set has of one datafile.
fn part_line(alloc: Global, set: &SetEntry, part: &SetPart) -> Result<Line, NoMemory>
    ensures { IfOk result (λ line. line ≡ part_line set.now part.now) }
{
    Ok(Line::PieceIs {
        packing: Packing::Set,
        id: set.id,
        file: part.file,
        shape: shape_by(part.kind, part.from),
        checkpoint: set.checkpoint,
        high: part.high,
        status: set.status,
        tag: copied(alloc, &set.tag)?,
        keep: set.keep,
    })
}

// The lines of a set, one for each part.
fn set_lines(alloc: Global, set: &SetEntry) -> Result<Seq<Line>, NoMemory>
    ensures { IfOk result (λ lines. lines ≡ map (part_line set.now) set.now.parts) }
{
    let mut lines = Seq::new(alloc);
    for part in set.parts.as_slice() {
        lines.push(part_line(alloc, set, part)?)?;
    }
    Ok(lines)
}

// A list of one line.
fn alone(alloc: Global, line: Line) -> Result<Seq<Line>, NoMemory>
    ensures { IfOk result (λ lines. lines ≡ line ∷ []) }
{
    let mut lines = Seq::new(alloc);
    lines.push(line)?;
    Ok(lines)
}

// The id and the lines of a record of a log, a piece or a set. None of another record.
fn lines_in(alloc: Global, row: &Record) -> Result<Option<(u32, Seq<Line>)>, NoMemory>
    ensures { IfOk result (λ o. o ≡ lines_in row.now) }
{
    match row {
        Record::Log(log) => Ok(Some((log.id, alone(alloc, log_line(log))?))),
        Record::Piece(piece) => Ok(Some((piece.id, alone(alloc, piece_line(alloc, piece)?)?))),
        Record::Set(set) => Ok(Some((set.id, set_lines(alloc, set)?))),
        _ => Ok(None),
    }
}

// Those of a record of the class.
fn listed(alloc: Global, class: Class, row: &Record) -> Result<Option<(u32, Seq<Line>)>, NoMemory>
    ensures { IfOk result (λ o. o ≡ listed class row.now) }
{
    if is_of(class, row) {
        lines_in(alloc, row)
    } else {
        Ok(None)
    }
}

// The lines of each record of the class, with its id, ascending by id.
fn all_listed(
    alloc: Global,
    catalog: &Catalog,
    class: Class,
) -> Result<Seq<(u32, Seq<Line>)>, NoMemory>
    ensures { IfOk result (λ all. Lists (List LineOf) [] (IsListed catalog.now class) all) }
{
    let mut list = Seq::new(alloc);
    let records = catalog.records();
    for row in records {
        let found = listed(alloc, class, row)?;
        add(&mut list, found)?;
    }
    Ok(by_id(list))
}

// Adds these lines.
fn push_lines(lines: &mut Seq<Line>, more: Seq<Line>) -> Result<(), NoMemory>
    ensures { OnOk result (lines.new ≡ lines.old ++ more) }
{
    for line in more.into_vec() {
        lines.push(line)?;
    }
    Ok(())
}

// The lines, without their ids.
fn lines_of(alloc: Global, list: Seq<(u32, Seq<Line>)>) -> Result<Seq<Line>, NoMemory>
    ensures { IfOk result (λ lines. lines ≡ flat_map (λ x. x.1) list) }
{
    let mut lines = Seq::new(alloc);
    for (_, more) in list.into_vec() {
        push_lines(&mut lines, more)?;
    }
    Ok(lines)
}

/// LIST BACKUP, LIST COPY and LIST ARCHIVELOG ALL: the lines of each record of the class, ascending by id, whatever its
/// status. A set has a line for each part, in the order of the datafiles. A backup is a piece that is no image copy, a
/// set, or a backup of a log. Nothing changes. An error is want of memory.
pub fn list(alloc: Global, state: &State, class: Class) -> Result<Seq<Line>, NoMemory>
    requires sound { IsSound state.now }
    ensures lists { IfOk result (λ lines. IsListOutcome state.now class (told lines)) }
    ensures dates { IfOk result (All IsPlain) }
{
    let records = records_of(alloc, state)?;
    let all = all_listed(alloc, &records, class)?;
    lines_of(alloc, all)
}
