//! A standby of datafiles that stand at one address.
ghost use Rattle.std.specs.Prelude.{◌≡◌, ◌<◌, ◌≤◌, List, IfOk, All, length};
ghost use Rattle.rm_base.specs.{Numbers.{last_scn}, declared.block.Change.{Change}};
ghost use Rattle.rm_history.specs.{History.{IsHistory}, declared.world.World.{World}};
ghost use Rattle.rm_piece.specs.Sets.{IsSet};
ghost use Rattle.rm_standby.specs.{Image.{creation_in, imaged, imaged_member, AreStates, CanImage}, Standby.{HoldsStates}};

use rm_base::{FileNo, IncNo, Kind, NoMemory, Scn, Seq};
use rm_blocks::DataFile;
use rm_history::Datafile;
use rm_piece::{Piece, Set, SetFile, high_of, risen_rows};
use std::alloc::Global;

// A full member of a datafile that was created there.
fn imaged_member(
    alloc: Global,
    dbid: u32,
    creation: Scn,
    file: &DataFile,
) -> Result<SetFile, NoMemory>
    requires blocks { length file.now.rows ≤ 65536 }
    requires creation { creation < last_scn }
    requires versions { All (λ r. r.version < last_scn) file.now.rows }
    ensures { IfOk result (λ m. m ≡ imaged_member dbid creation file.now) }
{
    let rows = risen_rows(alloc, file.rows(), creation)?;
    let piece = Piece {
        kind: Kind::Full,
        dbid,
        inc: file.inc(),
        file: file.file(),
        blocks: rows.len() as u32,
        from: 0,
        checkpoint: file.checkpoint(),
        high: high_of(file.checkpoint(), rows.as_slice()),
        rows,
    };
    Ok(SetFile { creation, piece })
}

// The SCN at which the datafile of this number was created; 0 for one that is not there.
fn creation_in(datafiles: &[Datafile], file: FileNo) -> Scn
    ensures { result ≡ creation_in datafiles.now file }
{
    let Some(index) = file.checked_sub(1) else {
        return 0;
    };
    match datafiles.get(index as usize) {
        Some(datafile) => datafile.creation,
        None => 0,
    }
}

/// The standby of these datafiles, with every block of each, where the database has these datafiles 1, 2, 3
/// and so on. An error is want of memory.
pub fn image(
    alloc: Global,
    datafiles: &[Datafile],
    files: &[DataFile],
    dbid: u32,
    inc: IncNo,
    checkpoint: Scn,
) -> Result<Set, NoMemory>
    requires { (w : World) × (w.files ≡ datafiles.now) × CanImage w dbid inc checkpoint files.now }
    ensures imaged { IfOk result (λ s. (w : World) → w.files ≡ datafiles.now → s ≡ imaged w dbid inc checkpoint files.now) }
    ensures valid { IfOk result (λ s. IsSet s) }
    // Of the states of every datafile at the address it is a standby that holds them.
    ensures holds { IfOk result (λ s. (w : World) (h : List Change) → w.files ≡ datafiles.now → IsHistory w h → CanImage w dbid inc checkpoint files.now → AreStates w h inc checkpoint files.now → HoldsStates w h s) }
{
    let mut members = Vec::with_capacity(alloc, files.len())?;
    for file in files {
        let creation = creation_in(datafiles, file.file());
        members.push(imaged_member(alloc, dbid, creation, file)?)?;
    }
    Ok(Set {
        dbid,
        inc,
        checkpoint,
        members: Seq::from_vec(members),
    })
}
