//! A changed copy, its record, its object and its lines.
ghost use Rattle.std.specs.Prelude.{◌≡◌, ◌≤◌, ◌∷◌, ◌++◌, [], IfOk, IfSome, None, OnOk, map, true};
ghost use Rattle.rm_machine.specs.RecoverCopy.{after_copies, after_copy, copies_gone, copies_lines, copies_put, is_kept, renewed_entry, renewed_line, renewed_lines, renewed_name, renewed_object, renewed_refusal};
ghost use Rattle.rm_machine.specs.{Sound.{IsSound}, State.{ledger}};
ghost use Rattle.rm_evidence.specs.{Names.{piece_name}, Objects.{piece_entry}};
ghost use Rattle.rm_piece.specs.{Spelling.{spelling}, Valid.{IsPiece}};
ghost use Rattle.rm_report.specs.declared.line.Line.TheVariants.{StartsAbove};
ghost use Rattle.rm_catalog_typed.specs.{Changes.{EditsFollow, with_new_piece, without_piece}, Fitting.{FitsNewPiece}};
ghost use Rattle.rm_step_copies.specs.Fit.{AreFit, CanPut};
ghost use Rattle.sha2.specs.Sha256.{sha256};

use rm_backup::Renewed;
use rm_base::sealed::Encoded;
use rm_base::{FileNo, NoMemory, Scn, Seq, Status, Text};
use rm_catalog::{Edit, PieceEntry};
use rm_commit::Object;
use rm_evidence::piece_name;
use rm_machine::{Handed, State};
use rm_piece::{Piece, encode_piece_with_digest};
use rm_report::Line;
use std::alloc::Global;

// Whether the record of the id is kept.
fn is_kept(state: &State, id: u32) -> bool
    ensures { result ≡ is_kept state.now id }
{
    match state.catalog.piece(id) {
        Some(piece) => piece.keep,
        None => false,
    }
}

// The record of an image copy under the next id, whose object has these bytes and this digest.
fn copy_entry(
    alloc: Global,
    state: &State,
    keep: bool,
    tag: &str,
    last: &Piece,
    encoded: &Encoded,
) -> Result<PieceEntry, NoMemory>
    requires valid { IsPiece last.now }
    requires bytes { encoded.now.bytes ≡ spelling last.now }
    requires digest { encoded.now.digest ≡ sha256 (spelling last.now) }
    ensures { IfOk result (λ entry. entry ≡ piece_entry true keep tag.now (ledger state.now).base.moment (ledger state.now).base.next_id last.now) }
{
    let base = state.catalog.base();
    Ok(PieceEntry {
        id: base.next_id,
        copy: true,
        kind: last.kind,
        inc: last.inc,
        file: last.file,
        from: last.from,
        checkpoint: last.checkpoint,
        high: last.high,
        rows: last.rows.len() as u32,
        size: encoded.bytes.len() as u64,
        sha: encoded.digest,
        status: Status::Available,
        keep,
        tag: Text::from_string(String::from_str(alloc, tag)?),
        moment: base.moment,
    })
}

// Puts a changed copy under the next id, in place of the record of this id, whose object goes. Without memory nothing
// is said of the state, the edits and what is handed out.
fn put_copy(
    alloc: Global,
    state: &mut State,
    edits: &mut Vec<Edit>,
    handed: &mut Handed,
    tag: &str,
    id: u32,
    last: &Piece,
) -> Result<(), NoMemory>
    requires some { 1 ≤ id }
    requires valid { IsPiece last.now }
    requires fits { FitsNewPiece (without_piece state.old.catalog id) (renewed_entry state.old tag.now id last.now) }
    ensures after { OnOk result (state.new ≡ record state.old { catalog = with_new_piece (without_piece state.old.catalog id) (renewed_entry state.old tag.now id last.now) }) }
    ensures edits { OnOk result (EditsFollow edits.old.items edits.new.items state.old.catalog state.new.catalog) }
    ensures lines { handed.new.lines ≡ handed.old.lines }
    ensures objects { OnOk result (handed.new.objects ≡ handed.old.objects ++ record { name = piece_name true (ledger state.old).base.next_id; bytes = spelling last.now } ∷ []) }
    ensures removes { OnOk result (handed.new.removes ≡ handed.old.removes ++ piece_name true id ∷ []) }
{
    let encoded = encode_piece_with_digest(alloc, last)?;
    let entry = copy_entry(alloc, state, is_kept(state, id), tag, last, &encoded)?;
    let object = Object {
        name: piece_name(alloc, true, entry.id)?,
        bytes: encoded.bytes,
    };
    handed.objects.push(object)?;
    handed.removes.push(piece_name(alloc, true, id)?)?;
    state.catalog.drop_piece(edits, id)?;
    state.catalog.add_piece(alloc, edits, entry)
}

// The line of a copy: it is brought up to its checkpoint under the next id, or it stays.
fn renewed_line(state: &State, copy: &(FileNo, Renewed)) -> Line
    ensures { result ≡ renewed_line state.now copy.now }
{
    let (file, renewed) = copy;
    match &renewed.merged {
        Some(_) => Line::Merged {
            id: state.catalog.base().next_id,
            file: *file,
            checkpoint: renewed.checkpoint,
        },
        None => Line::Stays {
            id: renewed.id,
            file: *file,
            checkpoint: renewed.checkpoint,
        },
    }
}

// Adds a line for each level 1 that starts above the checkpoint.
fn push_above(lines: &mut Seq<Line>, checkpoint: Scn, above: &[(u32, Scn)]) -> Result<(), NoMemory>
    ensures { OnOk result (lines.new ≡ lines.old ++ map (λ y. StartsAbove y.0 y.1 checkpoint) above.now) }
{
    for (id, from) in above {
        lines.push(Line::StartsAbove {
            id: *id,
            from: *from,
            checkpoint,
        })?;
    }
    Ok(())
}

// Adds the lines of a copy.
fn push_lines(
    lines: &mut Seq<Line>,
    state: &State,
    copy: &(FileNo, Renewed),
) -> Result<(), NoMemory>
    ensures { OnOk result (lines.new ≡ lines.old ++ renewed_lines state.now copy.now) }
{
    lines.push(renewed_line(state, copy))?;
    push_above(lines, copy.1.checkpoint, copy.1.above.as_slice())
}

// Renews one copy: its lines are added, and where it changed it is put. Without memory nothing is said of the state,
// the edits and what is handed out.
fn renew(
    alloc: Global,
    state: &mut State,
    edits: &mut Vec<Edit>,
    handed: &mut Handed,
    tag: &str,
    copy: &(FileNo, Renewed),
) -> Result<(), NoMemory>
    requires { IfSome copy.now.1.merged (CanPut state.old tag.now copy.now.1.id) }
    ensures after { OnOk result (state.new ≡ after_copy state.old tag.now copy.now) }
    ensures edits { OnOk result (EditsFollow edits.old.items edits.new.items state.old.catalog state.new.catalog) }
    ensures lines { OnOk result (handed.new.lines ≡ handed.old.lines ++ renewed_lines state.old copy.now) }
    ensures objects { OnOk result (handed.new.objects ≡ handed.old.objects ++ renewed_object state.old copy.now) }
    ensures removes { OnOk result (handed.new.removes ≡ handed.old.removes ++ renewed_name copy.now) }
{
    push_lines(&mut handed.lines, state, copy)?;
    match &copy.1.merged {
        Some(last) => put_copy(alloc, state, edits, handed, tag, copy.1.id, last),
        None => Ok(()),
    }
}

/// Renews these copies, one after another. Without memory nothing is said of the state, the edits and what is handed
/// out.
pub(crate) fn renew_all(
    alloc: Global,
    state: &mut State,
    edits: &mut Vec<Edit>,
    handed: &mut Handed,
    tag: &str,
    copies: &[(FileNo, Renewed)],
) -> Result<(), NoMemory>
    requires sound { IsSound state.old }
    requires fit { AreFit state.old tag.now copies.now }
    requires accepted { renewed_refusal state.old copies.now ≡ None }
    ensures after { OnOk result (state.new ≡ after_copies state.old tag.now copies.now) }
    ensures sound { OnOk result (IsSound state.new) }
    ensures edits { OnOk result (EditsFollow edits.old.items edits.new.items state.old.catalog state.new.catalog) }
    ensures lines { OnOk result (handed.new.lines ≡ handed.old.lines ++ copies_lines state.old tag.now copies.now) }
    ensures objects { OnOk result (handed.new.objects ≡ handed.old.objects ++ copies_put state.old tag.now copies.now) }
    ensures removes { OnOk result (handed.new.removes ≡ handed.old.removes ++ copies_gone copies.now) }
{
    for copy in copies {
        renew(alloc, state, edits, handed, tag, copy)?;
    }
    Ok(())
}
