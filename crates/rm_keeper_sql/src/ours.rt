//! Whose file it is.
ghost use Rattle.std.specs.Prelude.{◌≡◌, ◌↔◌, IsTrue, IfOk, OnOk, map};
ghost use Rattle.sqlite.specs.Held.{state};
ghost use Rattle.rm_keeper_sql.specs.Tables.{no_schema, column_names, IsRecord, HasRecord, IsOurs};

use crate::fault::Fault;
use sqlite::{Alter, Connection};
use sqlite_schema::schema::{Column, Schema, Table};

fn is_named(column: &Column, name: &str) -> bool
    ensures { IsTrue result ↔ (column.now.name ≡ name.now) }
{
    column.name.as_slice() == name.as_bytes()
}

fn are_columns(columns: &[Column]) -> bool
    ensures { IsTrue result ↔ (map (λ c. c.name) columns.now ≡ column_names) }
{
    match columns {
        [number, kind, id, body] => is_named(number, "number")
            && is_named(kind, "kind")
            && is_named(id, "id")
            && is_named(body, "body"),
        _ => false,
    }
}

fn is_record(table: &Table) -> bool
    ensures { IsTrue result ↔ IsRecord table.now }
{
    table.name.as_slice() == b"record".as_slice() && are_columns(table.columns.as_slice())
}

fn has_record(tables: &[Table]) -> bool
    ensures { IsTrue result → HasRecord tables.now }
{
    for table in tables {
        if is_record(table) {
            return true;
        }
    }
    false
}

fn is_empty(schema: &Schema) -> bool
    ensures { IsTrue result ↔ (schema.now ≡ no_schema) }
{
    schema.tables.is_empty() && schema.indexes.is_empty() && schema.views.is_empty()
}

/// Whether nothing is in the file yet. It fails where something is, and not the table.
pub(crate) fn is_new<S: Alter>(conn: &Connection<S>) -> Result<bool, Fault>
    ensures is { IfOk result (λ fresh. IsTrue fresh ↔ ((state S.Store conn.now).now.schema ≡ no_schema)) }
    ensures ours { OnOk result (IsOurs (state S.Store conn.now).now.schema) }
{
    let schema = conn.schema();
    if is_empty(schema) {
        return Ok(true);
    }
    if !has_record(schema.tables.as_slice()) {
        return Err(Fault::NotOurs);
    }
    Ok(false)
}
