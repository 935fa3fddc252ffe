//! A change as a whole, and stopped at each of its calls: which stop it is, and what is left.
use rm_base::{Failing, MemStore, NoMemory, Seq, Store, StoreFail, StoreFailing, Text};
use rm_catalog::{Edit, Keeper, KeeperFail, Key, MarkEntry, MemKeeper, Record};
use rm_commit::{Commit, Object, Stop, carry_out};
use rm_test_harness::{Fault, Told, differs, numbers};
use std::alloc::Global;

// A mark of this number.
fn mark(id: u32) -> Record {
    Record::Mark(MarkEntry {
        id,
        moment: 10,
        inc: 1,
        scn: 1,
    })
}

// The call of this number fails.
fn failing(alloc: Global, number: u64) -> Result<Failing, NoMemory> {
    Ok(Failing::new(vec![in alloc; number]?))
}

// A store of two objects, of whose later puts and removes those with these numbers fail.
fn store(alloc: Global, put: u64, remove: u64) -> Result<MemStore, Fault> {
    let failing = StoreFailing {
        gets: Failing::new(Vec::new(alloc)),
        puts: failing(alloc, put.saturating_add(2))?,
        removes: failing(alloc, remove)?,
        names: Failing::new(Vec::new(alloc)),
    };
    let mut store = MemStore::new(alloc, failing);
    let puts = [store.put("copy_1", b"xy"), store.put("log_2", b"old")];
    if puts == [Ok(()), Ok(())] {
        Ok(store)
    } else {
        differs(alloc, "no store of two objects")
    }
}

// A keeper of marks 1 and 2, of which the apply of this number fails.
fn keeper(alloc: Global, apply: u64) -> Result<MemKeeper, NoMemory> {
    let mut records = Seq::new(alloc);
    records.push(mark(1))?;
    records.push(mark(2))?;
    MemKeeper::new(
        records,
        Failing::new(Vec::new(alloc)),
        failing(alloc, apply)?,
    )
}

fn text(alloc: Global, text: &str) -> Result<Text, NoMemory> {
    Ok(Text::from_string(String::from_str(alloc, text)?))
}

fn object(alloc: Global, name: &str, bytes: &[u8]) -> Result<Object, NoMemory> {
    Ok(Object {
        name: text(alloc, name)?,
        bytes: Seq::from_vec(Vec::from_slice(alloc, bytes)?),
    })
}

// The objects of the change, two of one name.
const OBJECTS: [(&str, &[u8]); 3] = [("log_2", b"abcd"), ("log_3", b"efgh"), ("log_2", b"ijkl")];

fn objects(alloc: Global) -> Result<Seq<Object>, NoMemory> {
    let mut objects = Seq::new(alloc);
    for (name, bytes) in OBJECTS {
        objects.push(object(alloc, name, bytes)?)?;
    }
    Ok(objects)
}

// Two names, of which one has nothing.
fn removes(alloc: Global) -> Result<Seq<Text>, NoMemory> {
    let mut removes = Seq::new(alloc);
    for name in ["copy_1", "copy_2"] {
        removes.push(text(alloc, name)?)?;
    }
    Ok(removes)
}

// The objects, mark 3 in place of mark 1, and the names.
fn change(alloc: Global) -> Result<Commit, NoMemory> {
    let edits = [Edit::Put(mark(3)), Edit::Drop(Key { kind: 6, id: 1 })];
    Ok(Commit {
        objects: objects(alloc)?,
        edits: Seq::from_vec(Vec::from_array(alloc, edits)?),
        removes: removes(alloc)?,
    })
}

// Writes each name with its bytes.
fn write_objects<D: Store>(out: &mut String, store: &mut D) -> Result<(), StoreFail> {
    let names = store.names()?;
    for name in names.as_slice() {
        let Some(bytes) = store.get(name.as_str())? else {
            continue;
        };
        let text = str::from_utf8(bytes.as_slice()).unwrap_or("?");
        write!(out, "{}={text} ", name.as_str())?;
    }
    Ok(())
}

// Writes the number of each mark.
fn write_marks<C: Keeper>(out: &mut String, keeper: &mut C) -> Result<(), KeeperFail> {
    let records = keeper.load()?;
    for record in records.as_slice() {
        if write!(out, "{}", record.key().id).is_err() {
            return Err(KeeperFail::NoMemory);
        }
    }
    Ok(())
}

fn word(answer: Result<(), Stop>) -> &'static str {
    match answer {
        Ok(()) => "done ",
        Err(Stop::StoreFault) => "store ",
        Err(Stop::KeeperFault) => "keeper ",
        Err(Stop::NoMemory) => "memory ",
    }
}

// What the change answers, and what is left of it, where the put, the apply and the remove of these numbers fail.
fn outcome(alloc: Global, numbers: &[u64]) -> Result<String, Fault> {
    let [put, apply, remove] = numbers else {
        return differs(alloc, "not three numbers");
    };
    let mut store = store(alloc, *put, *remove)?;
    let mut keeper = keeper(alloc, *apply)?;
    let result = carry_out(&mut store, &mut keeper, &change(alloc)?);
    let mut out = String::from_str(alloc, word(result))?;
    let objects = write_objects(&mut out, &mut store);
    if objects.is_ok() && write_marks(&mut out, &mut keeper).is_ok() {
        Ok(out)
    } else {
        differs(alloc, "what is left is not told")
    }
}

/// Changes, each by the numbers of the put, the apply and the remove that fail.
#[derive(Drop)]
pub struct Changes;

impl Told for Changes {
    fn told(&mut self, alloc: Global, asked: &str) -> Result<String, Fault> {
        outcome(alloc, &numbers::<u64>(alloc, asked)?)
    }
}
