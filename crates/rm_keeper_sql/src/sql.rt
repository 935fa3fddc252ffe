//! The four texts, and what is asked of a connection.
ghost use Rattle.std.specs.Prelude.{◌≡◌, ◌<◌, ◌^◌, [], ◌∷◌, pos, false, IsTrue, IfOk, OnOk, OnErr};
ghost use Rattle.sqlite_value.specs.declared.value.Value.TheVariants.{Int, Blob};
ghost use Rattle.sqlite.specs.{State.{HasCleanDisk, Shown}, Held.{state}};
ghost use Rattle.rm_catalog.specs.Keys.{key_of};
ghost use Rattle.rm_catalog_bytes.specs.{Spelling.{body_of}, Fits.{Fits}};
ghost use Rattle.rm_keeper_sql.specs.{Texts.{create_text, select_text, upsert_text, delete_text}, Tables.{IsOurs}};
ghost use Rattle.rm_keeper_sql.specs.{Table.{row_of, Takes, Reads, Lists}, Applies.{Ran, Makes, MakesAll, Readies, Keeps, Goes}};
ghost use Rattle.rm_keeper_sql.specs.Loads.{columns, AreRows, Selects};

use crate::fault::Fault;
use crate::ours::is_new;
use rm_base::{FormatFault, Seq};
use rm_catalog::{Edit, Key, Record};
use rm_catalog_bytes::{decode_record, encode_record};
use sqlite::{Alter, Connection, Error, ErrorCode, Row, Transaction, params};
use std::alloc::Global;

// Makes the table.
const CREATE: &str =
    "CREATE TABLE IF NOT EXISTS record (number INTEGER NOT NULL, kind INTEGER NOT NULL, id INTEGER NOT NULL, body BLOB NOT NULL, PRIMARY KEY (number, kind, id)) STRICT";

// Puts the bytes of a record under its key.
const UPSERT: &str =
    "INSERT INTO record (number, kind, id, body) VALUES (?1, ?2, ?3, ?4) ON CONFLICT (number, kind, id) DO UPDATE SET body = excluded.body";

// Takes away what stands under a key.
const DELETE: &str = "DELETE FROM record WHERE number = ?1 AND kind = ?2 AND id = ?3";

// The rows of one number.
const SELECT: &str = "SELECT kind, id, body FROM record WHERE number = ?1 ORDER BY kind, id";

// What any file answers.
const PROBE: &str = "SELECT 1";

// A transaction of its owner's is open.
const BUSY: Fault = Fault::Sqlite(Error::SqliteFailure(ErrorCode::TransactionState));

fn create<S: Alter>(tx: &mut Transaction<'_, S>) -> Result<(), Fault>
    ensures same_reference { tx.new.conn.ghost_name ≡ tx.old.conn.ghost_name }
    ensures keeps { Keeps S.Store tx.old.conn.now tx.new.conn.now }
    ensures ran { OnOk result (Goes S.Store (Ran S.Store create_text [] tx.old.conn.now tx.new.conn.now) tx.old.conn.now tx.new.conn.now) }
{
    match tx.execute(CREATE, &[]) {
        Ok(_) => Ok(()),
        Err(error) => Err(Fault::Sqlite(error)),
    }
}

fn upsert<S: Alter>(
    tx: &mut Transaction<'_, S>,
    number: u32,
    key: Key,
    body: &[u8],
) -> Result<(), Fault>
    ensures same_reference { tx.new.conn.ghost_name ≡ tx.old.conn.ghost_name }
    ensures keeps { Keeps S.Store tx.old.conn.now tx.new.conn.now }
    ensures ran { OnOk result
        (Goes S.Store (Ran S.Store upsert_text (Int (pos number) ∷ Int (pos key.kind) ∷ Int (pos key.id) ∷ Blob body.now ∷ []) tx.old.conn.now tx.new.conn.now)
        tx.old.conn.now tx.new.conn.now) }
    ensures typed { key.id < 2 ^ 32 }
{
    match tx.execute(UPSERT, params![number, u32::from(key.kind), key.id, body]) {
        Ok(_) => Ok(()),
        Err(error) => Err(Fault::Sqlite(error)),
    }
}

fn delete<S: Alter>(tx: &mut Transaction<'_, S>, number: u32, key: Key) -> Result<(), Fault>
    ensures same_reference { tx.new.conn.ghost_name ≡ tx.old.conn.ghost_name }
    ensures keeps { Keeps S.Store tx.old.conn.now tx.new.conn.now }
    ensures ran { OnOk result
        (Goes S.Store (Ran S.Store delete_text (Int (pos number) ∷ Int (pos key.kind) ∷ Int (pos key.id) ∷ []) tx.old.conn.now tx.new.conn.now)
        tx.old.conn.now tx.new.conn.now) }
    ensures typed { key.id < 2 ^ 32 }
{
    match tx.execute(DELETE, params![number, u32::from(key.kind), key.id]) {
        Ok(_) => Ok(()),
        Err(error) => Err(Fault::Sqlite(error)),
    }
}

fn select<S: Alter>(tx: &mut Transaction<'_, S>, number: u32) -> Result<Vec<Row>, Fault>
    ensures same_reference { tx.new.conn.ghost_name ≡ tx.old.conn.ghost_name }
    ensures keeps { Keeps S.Store tx.old.conn.now tx.new.conn.now }
    ensures shown { HasCleanDisk (state S.Store tx.new.conn.now)
        → IfOk result (λ rows. Shown select_text (Int (pos number) ∷ []) (state S.Store tx.old.conn.now) (state S.Store tx.new.conn.now) rows.items) }
{
    match tx.query_all(SELECT, params![number]) {
        Ok(rows) => Ok(rows),
        Err(error) => Err(Fault::Sqlite(error)),
    }
}

fn fields_of(row: &Row) -> Result<(u32, u32, Vec<u8>), Error>
    ensures { IfOk result (λ f. columns row.now ≡ Int (pos f.0) ∷ Int (pos f.1) ∷ Blob f.2.items ∷ []) }
{
    Ok((row.get(0)?, row.get(1)?, row.get(2)?))
}

// The record of a kind, an id and bytes.
fn spelled(alloc: Global, kind: u32, id: u32, body: &[u8]) -> Result<Record, Fault>
    ensures kind { IfOk result (λ r. (key_of r).kind ≡ kind) }
    ensures id { IfOk result (λ r. (key_of r).id ≡ id) }
    ensures body { IfOk result (λ r. body_of r ≡ body.now) }
    ensures fits { IfOk result Fits }
{
    let Ok(kind) = u8::try_from(kind) else {
        return Err(Fault::NoRecord);
    };
    match decode_record(alloc, Key { kind, id }, body) {
        Ok(found) => Ok(found),
        Err(FormatFault::Bad) => Err(Fault::NoRecord),
        Err(FormatFault::NoMemory) => Err(Fault::NoMemory),
    }
}

// The record of a row.
fn record_of(alloc: Global, row: &Row) -> Result<Record, Fault>
    ensures row { IfOk result (λ r. columns row.now ≡ row_of r) }
    ensures fits { IfOk result Fits }
{
    match fields_of(row) {
        Ok((kind, id, body)) => spelled(alloc, kind, id, &body),
        Err(error) => Err(Fault::Sqlite(error)),
    }
}

fn records_of(alloc: Global, rows: &[Row]) -> Result<Seq<Record>, Fault>
    ensures { IfOk result (λ rs. AreRows rs rows.now) }
{
    let mut records = Seq::new(alloc);
    for row in rows {
        records.push(record_of(alloc, row)?)?;
    }
    Ok(records)
}

fn make<S: Alter>(
    tx: &mut Transaction<'_, S>,
    alloc: Global,
    number: u32,
    edit: &Edit,
) -> Result<(), Fault>
    ensures same_reference { tx.new.conn.ghost_name ≡ tx.old.conn.ghost_name }
    ensures keeps { Keeps S.Store tx.old.conn.now tx.new.conn.now }
    ensures made { OnOk result (Goes S.Store (Makes S.Store number edit.now tx.old.conn.now tx.new.conn.now) tx.old.conn.now tx.new.conn.now) }
{
    match edit {
        Edit::Put(row) => {
            let body = encode_record(alloc, row)?;
            upsert(tx, number, row.key(), body.as_slice())
        }
        Edit::Drop(key) => delete(tx, number, *key),
    }
}

fn make_all<S: Alter>(
    tx: &mut Transaction<'_, S>,
    alloc: Global,
    number: u32,
    edits: &[Edit],
) -> Result<(), Fault>
    ensures same_reference { tx.new.conn.ghost_name ≡ tx.old.conn.ghost_name }
    ensures keeps { Keeps S.Store tx.old.conn.now tx.new.conn.now }
    ensures made { OnOk result (Goes S.Store (MakesAll S.Store number edits.now tx.old.conn.now tx.new.conn.now) tx.old.conn.now tx.new.conn.now) }
{
    for edit in edits {
        make(tx, alloc, number, edit)?;
    }
    Ok(())
}

// Makes the table in a file that is new.
fn ready<S: Alter>(tx: &mut Transaction<'_, S>, is_new: bool) -> Result<(), Fault>
    ensures same_reference { tx.new.conn.ghost_name ≡ tx.old.conn.ghost_name }
    ensures keeps { Keeps S.Store tx.old.conn.now tx.new.conn.now }
    ensures ran { OnOk result (Goes S.Store (Readies S.Store is_new tx.old.conn.now tx.new.conn.now) tx.old.conn.now tx.new.conn.now) }
{
    if is_new { create(tx) } else { Ok(()) }
}

/// Makes the edits of one number in one transaction, and the table before them in a file that is new. A call
/// that fails leaves the database as it was.
pub(crate) fn apply_to<S: Alter>(
    conn: &mut Connection<S>,
    alloc: Global,
    number: u32,
    edits: &[Edit],
) -> Result<(), Fault>
    ensures ours { OnOk result (IsOurs (state S.Store conn.old).now.schema) }
    ensures takes { HasCleanDisk (state S.Store conn.new)
        → OnOk result (Takes number edits.now (state S.Store conn.old).committed (state S.Store conn.new).committed) }
    ensures none { HasCleanDisk (state S.Store conn.new) → IsTrue (state S.Store conn.new).is_open
        → OnErr result ((state S.Store conn.new).committed ≡ (state S.Store conn.old).committed) }
    ensures shuts { HasCleanDisk (state S.Store conn.new) → IsTrue (state S.Store conn.new).is_open → IsTrue (state S.Store conn.old).is_open }
{
    if !conn.is_autocommit() {
        return Err(BUSY);
    }
    let fresh = is_new(conn)?;
    let mut tx = conn.transaction();
    ready(&mut tx, fresh)?;
    make_all(&mut tx, alloc, number, edits)?;
    match tx.commit() {
        Ok(()) => Ok(()),
        Err(cause) => Err(Fault::Sqlite(cause)),
    }
}

// Fails where the connection is shut.
fn probe<S: Alter>(conn: &mut Connection<S>) -> Result<(), Fault>
    ensures open { HasCleanDisk (state S.Store conn.new) → OnOk result (IsTrue (state S.Store conn.old).is_open) }
    ensures kept { HasCleanDisk (state S.Store conn.new) → IsTrue (state S.Store conn.new).is_open
        → (state S.Store conn.new).committed ≡ (state S.Store conn.old).committed }
    ensures shuts { HasCleanDisk (state S.Store conn.new) → IsTrue (state S.Store conn.new).is_open → IsTrue (state S.Store conn.old).is_open }
{
    match conn.prepare(PROBE) {
        Ok(_) => Ok(()),
        Err(error) => Err(Fault::Sqlite(error)),
    }
}

// The rows of a number. The transaction is rolled back.
fn rows_in<S: Alter>(conn: &mut Connection<S>, number: u32) -> Result<Vec<Row>, Fault>
    requires { (state S.Store conn.old).in_transaction ≡ false }
    ensures rows { HasCleanDisk (state S.Store conn.new) → IfOk result (λ rows. Selects S.Store number rows.items conn.old) }
    ensures kept { HasCleanDisk (state S.Store conn.new) → IsTrue (state S.Store conn.new).is_open
        → (state S.Store conn.new).committed ≡ (state S.Store conn.old).committed }
    ensures shuts { HasCleanDisk (state S.Store conn.new) → IsTrue (state S.Store conn.new).is_open → IsTrue (state S.Store conn.old).is_open }
{
    let mut tx = conn.transaction();
    let rows = select(&mut tx, number)?;
    tx.rollback();
    Ok(rows)
}

/// The records of the rows of one number. Nothing is written, and a file that is new has none.
pub(crate) fn load_from<S: Alter>(
    conn: &mut Connection<S>,
    alloc: Global,
    number: u32,
) -> Result<Seq<Record>, Fault>
    ensures ours { IfOk result (λ _. IsOurs (state S.Store conn.old).now.schema) }
    ensures reads { HasCleanDisk (state S.Store conn.new)
        → IfOk result (λ rs. IsTrue (state S.Store conn.old).is_open × Reads number rs (state S.Store conn.old).committed) }
    ensures rows { HasCleanDisk (state S.Store conn.new) → IfOk result (λ rs. Lists number rs (state S.Store conn.old).committed) }
    ensures kept { HasCleanDisk (state S.Store conn.new) → IsTrue (state S.Store conn.new).is_open
        → (state S.Store conn.new).committed ≡ (state S.Store conn.old).committed }
    ensures shuts { HasCleanDisk (state S.Store conn.new) → IsTrue (state S.Store conn.new).is_open → IsTrue (state S.Store conn.old).is_open }
{
    if !conn.is_autocommit() {
        return Err(BUSY);
    }
    let fresh = is_new(conn)?;
    if fresh {
        probe(conn)?;
        return Ok(Seq::new(alloc));
    }
    let rows = rows_in(conn, number)?;
    records_of(alloc, &rows)
}
