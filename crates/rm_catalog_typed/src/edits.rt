//! Edits, added where there is room.
ghost use Rattle.std.specs.{Prelude.{◌≡◌, ◌≤◌, ◌<◌, ◌+◌, [], ◌∷◌, ◌++◌, length, map}, Vec.{vec_len, vec_capacity}};
ghost use Rattle.rm_catalog.specs.declared.record.Edit.TheVariants.{Put};
ghost use Rattle.rm_catalog.specs.declared.record.Record.TheVariants as kind;
ghost use Rattle.rm_catalog_typed.specs.Changes.{part_drop};

use rm_catalog::{Edit, Key, PartEntry, Record};

// Adds an edit, for which there is room.
pub(crate) fn push(edits: &mut Vec<Edit>, edit: Edit)
    requires { vec_len edits.old < vec_capacity edits.old }
    ensures items { edits.new.items ≡ edits.old.items ++ edit ∷ [] }
    ensures len { vec_len edits.new ≡ vec_len edits.old + 1 }
    ensures capacity { vec_capacity edits.old ≤ vec_capacity edits.new }
{
    if edits.push(edit).is_err() {
        unreachable!()
    }
}

// Adds two edits, for which there is room.
#[tactic(auto, using(crate::proofs::Changed::both_more))]
pub(crate) fn push_both(edits: &mut Vec<Edit>, first: Edit, second: Edit)
    requires { vec_len edits.old + 1 < vec_capacity edits.old }
    ensures { edits.new.items ≡ edits.old.items ++ first ∷ second ∷ [] }
{
    push(edits, first);
    push(edits, second);
}

// Puts the parts of a saved site, for which there is room.
pub(crate) fn put_parts(edits: &mut Vec<Edit>, parts: &[PartEntry])
    requires { vec_len edits.old + length parts.now ≤ vec_capacity edits.old }
    ensures items { edits.new.items ≡ edits.old.items ++ map (λ p. Put (kind.Part p)) parts.now }
    ensures len { vec_len edits.new ≡ vec_len edits.old + length parts.now }
    ensures capacity { vec_capacity edits.old ≤ vec_capacity edits.new }
{
    for part in parts {
        push(edits, Edit::Put(Record::Part(*part)));
    }
}

// Drops the parts of a saved site. There is room for the edits.
pub(crate) fn drop_parts(edits: &mut Vec<Edit>, parts: &[PartEntry])
    requires { vec_len edits.old + length parts.now ≤ vec_capacity edits.old }
    ensures items { edits.new.items ≡ edits.old.items ++ map part_drop parts.now }
    ensures len { vec_len edits.new ≡ vec_len edits.old + length parts.now }
    ensures capacity { vec_capacity edits.old ≤ vec_capacity edits.new }
{
    for part in parts {
        push(
            edits,
            Edit::Drop(Key {
                kind: 7,
                id: part.id,
            }),
        );
    }
}
