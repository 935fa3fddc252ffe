//! A row, read line by line.
use crate::calls::{Calls, call_of};
use crate::digits::{bytes_in, record_of};
use crate::site::{Site, Stores};
use crate::trial::{MOST, ROOM, Trial, Wanted, object};
use rm_base::{MemStore, Store, Text};
use rm_catalog::{Edit, Key};
use rm_shelf::{MemShelf, Shelf};
use rm_test_harness::{Fault, differs};
use std::alloc::Global;
use std::sync::Wait;
use std::thread::Threads;

/// What the lines of a row have said so far.
#[derive(Drop)]
pub struct Row {
    alloc: Global,
    script: String,
    written: String,
    words: Vec<Text>,
    clock: Vec<u64>,
    failing: Calls,
    room: usize,
    most: usize,
    site: Option<Site>,
    goes_on: bool,
    store: String,
    number: u32,
    // What the next run is, where it is no session.
    into: Option<Into>,
}

/// A run that is no session: a duplicate, or one of a standby, and the store into which it goes.
#[derive(Drop)]
struct Into {
    name: String,
    is_standby: bool,
}

impl Row {
    /// Nothing was said yet.
    pub fn new(alloc: Global) -> Result<Row, Fault> {
        let mut row = Row {
            alloc,
            script: String::new(alloc),
            written: String::new(alloc),
            words: Vec::new(alloc),
            clock: Vec::new(alloc),
            failing: Calls::new(alloc),
            room: ROOM,
            most: MOST,
            site: None,
            goes_on: false,
            store: String::from_str(alloc, "a")?,
            number: 0,
            into: None,
        };
        row.add_words(&["--store", "DIR", "--catalog", "FILE"])?;
        Ok(row)
    }

    /// The next line of the file. A run that it asks for is made.
    pub fn read<R: Threads + Wait + Sync>(&mut self, rt: &R, line: &str) -> Result<(), Fault> {
        if let Some(text) = line.strip_prefix("> ") {
            writeln!(self.script, "{text}")?;
        } else if let Some(words) = line.strip_prefix("-- ") {
            let words: Vec<&str> = words.split(' ').collect(self.alloc)?;
            return self.obey(rt, &words);
        } else if !line.is_empty() && !line.starts_with("#") {
            writeln!(self.written, "{line}")?;
        }
        Ok(())
    }

    // A line with `--`.
    fn obey<R: Threads + Wait + Sync>(&mut self, rt: &R, words: &[&str]) -> Result<(), Fault> {
        match words {
            ["status", status] => {
                let len = self.written.len();
                self.run(rt, status, len)
            }
            ["status", status, "lines", count] => {
                let len = self.len_of_lines(count)?;
                self.run(rt, status, len)
            }
            ["status", status, "bytes", count] => {
                let len = self.size(count)?;
                self.run(rt, status, len)
            }
            ["object", name, len, head] => {
                let len = self.size(len)?;
                self.look(name, len, head)
            }
            ["fail", name, numbers @ ..] => self.fail(name, numbers),
            ["room", room] => self.set_room(room),
            ["most", most] => self.set_most(most),
            ["clock", answers @ ..] => self.set_clock(answers),
            ["words", words @ ..] => self.set_words(words),
            ["channels", count] => self.add_words(&["--channels", count]),
            ["record", kind, id, fields @ ..] => self.put_record(kind, id, fields),
            ["drop", kind, id] => self.drop_record(kind, id),
            ["put", name, digits @ ..] => self.put_object(name, digits),
            ["session"] => self.go_on(),
            ["store", name] => self.set_store(name),
            ["database", number] => self.set_number(number),
            ["duplicate", into, words @ ..] => self.go_into(into, false, words),
            ["standby", into, words @ ..] => self.go_into(into, true, words),
            _ => differs(self.alloc, "not a line of a row"),
        }
    }

    // Another script begins, over what the last run left.
    fn go_on(&mut self) -> Result<(), Fault> {
        self.script.clear();
        self.written.clear();
        self.goes_on = true;
        Ok(())
    }

    // The next run goes into the store of this name, with these words.
    fn go_into(&mut self, name: &str, is_standby: bool, words: &[&str]) -> Result<(), Fault> {
        let name = String::from_str(self.alloc, name)?;
        self.into = Some(Into { name, is_standby });
        self.set_words(words)
    }

    // The store of the next lines.
    fn set_store(&mut self, name: &str) -> Result<(), Fault> {
        self.store = String::from_str(self.alloc, name)?;
        Ok(())
    }

    fn set_number(&mut self, number: &str) -> Result<(), Fault> {
        match u32::try_from(self.number(number)?) {
            Ok(number) => {
                self.number = number;
                Ok(())
            }
            Err(_) => differs(self.alloc, "not a number of a database"),
        }
    }

    fn number(&self, text: &str) -> Result<u64, Fault> {
        match text.parse::<u64>() {
            Ok(number) => Ok(number),
            Err(_) => differs(self.alloc, "not a number"),
        }
    }

    fn size(&self, text: &str) -> Result<usize, Fault> {
        Ok(self.number(text)? as usize)
    }

    fn add_words(&mut self, words: &[&str]) -> Result<(), Fault> {
        for word in words {
            let word = String::from_str(self.alloc, word)?;
            self.words.push(Text::from_string(word))?;
        }
        Ok(())
    }

    fn set_words(&mut self, words: &[&str]) -> Result<(), Fault> {
        self.words.clear();
        self.add_words(words)
    }

    fn fail(&mut self, name: &str, numbers: &[&str]) -> Result<(), Fault> {
        let Some(call) = call_of(name) else {
            return differs(self.alloc, "not a call");
        };
        for number in numbers {
            let number = self.number(number)?;
            self.failing.add(call, number)?;
        }
        Ok(())
    }

    fn set_room(&mut self, room: &str) -> Result<(), Fault> {
        self.room = self.size(room)?;
        Ok(())
    }

    fn set_most(&mut self, most: &str) -> Result<(), Fault> {
        self.most = self.size(most)?;
        Ok(())
    }

    fn set_clock(&mut self, answers: &[&str]) -> Result<(), Fault> {
        self.clock.clear();
        for answer in answers {
            let answer = self.number(answer)?;
            self.clock.push(answer)?;
        }
        Ok(())
    }

    // The bytes of the first so many lines of what is written.
    fn len_of_lines(&self, count: &str) -> Result<usize, Fault> {
        let mut len = 0usize;
        for line in self.written.as_str().lines().take(self.size(count)?) {
            len = len.saturating_add(line.len()).saturating_add(1);
        }
        Ok(len)
    }

    // A run gives this status and writes the first `len` bytes of what is written.
    fn run<R: Threads + Wait + Sync>(
        &mut self,
        rt: &R,
        status: &str,
        len: usize,
    ) -> Result<(), Fault> {
        let status = self.number(status)?;
        let site = match self.site.take() {
            Some(site) if self.goes_on => site,
            _ => Site::new(self.alloc, &self.failing)?,
        };
        self.site = Some(self.left_by(rt, site, status, len)?);
        self.failing = Calls::new(self.alloc);
        self.room = ROOM;
        self.most = MOST;
        self.into = None;
        Ok(())
    }

    // The run that the lines have told of.
    fn trial(&self) -> Trial<'_> {
        Trial {
            alloc: self.alloc,
            words: &self.words,
            script: self.script.as_bytes(),
            clock: &self.clock,
            failing: &self.failing,
            room: self.room,
            most: self.most,
        }
    }

    // What the run leaves of the site, where it gives what is wanted.
    fn left_by<R: Threads + Wait + Sync>(
        &self,
        rt: &R,
        site: Site,
        status: u64,
        len: usize,
    ) -> Result<Site, Fault> {
        let wanted = Wanted {
            status,
            text: self.written.as_str(),
            len,
        };
        let Site { mut stores, shelf } = site;
        let mut store = stores.take(self.store.as_str(), &self.failing)?;
        let shelf = self.shelf_left(rt, &mut stores, &mut store, shelf, &wanted)?;
        stores.put_back(self.store.as_str(), store)?;
        Ok(Site { stores, shelf })
    }

    // What it leaves of the shelf, over this store of the site.
    fn shelf_left<R: Threads + Wait + Sync>(
        &self,
        rt: &R,
        stores: &mut Stores,
        store: &mut MemStore,
        shelf: MemShelf,
        wanted: &Wanted<'_>,
    ) -> Result<MemShelf, Fault> {
        let trial = self.trial();
        let Some(into) = &self.into else {
            return trial.gives(rt, store, shelf, self.number, wanted);
        };
        let name = into.name.as_str();
        let mut to = stores.take(name, &self.failing)?;
        let shelf = if into.is_standby {
            trial.stands(rt, store, &mut to, shelf, self.number, wanted)?
        } else {
            trial.duplicates(rt, store, &mut to, shelf, wanted)?
        };
        stores.put_back(name, to)?;
        Ok(shelf)
    }

    // The last run left an object of this name of `len` bytes, which begin so.
    fn look(&mut self, name: &str, len: usize, head: &str) -> Result<(), Fault> {
        let alloc = self.alloc;
        match self
            .site
            .as_mut()
            .and_then(|site| site.stores.get(self.store.as_str()))
        {
            Some(store) => object(alloc, store, name, len, head),
            None => differs(alloc, "no run before"),
        }
    }

    // The key of a record.
    fn key(&self, kind: &str, id: &str) -> Result<Key, Fault> {
        let kind = u8::try_from(self.number(kind)?);
        let id = u32::try_from(self.number(id)?);
        match (kind, id) {
            (Ok(kind), Ok(id)) => Ok(Key { kind, id }),
            _ => differs(self.alloc, "not a key"),
        }
    }

    // The keeper has this record.
    fn put_record(&mut self, kind: &str, id: &str, fields: &[&str]) -> Result<(), Fault> {
        let key = self.key(kind, id)?;
        match record_of(self.alloc, key, fields)? {
            Some(record) => self.apply(Edit::Put(record)),
            None => differs(self.alloc, "not a record"),
        }
    }

    // The keeper has no record of this key.
    fn drop_record(&mut self, kind: &str, id: &str) -> Result<(), Fault> {
        let key = self.key(kind, id)?;
        self.apply(Edit::Drop(key))
    }

    // The store that the last run left has this object.
    fn put_object(&mut self, name: &str, digits: &[&str]) -> Result<(), Fault> {
        let Some(bytes) = bytes_in(self.alloc, digits)? else {
            return differs(self.alloc, "not digits");
        };
        let alloc = self.alloc;
        let Some(store) = self
            .site
            .as_mut()
            .and_then(|site| site.stores.get(self.store.as_str()))
        else {
            return differs(alloc, "no run before");
        };
        match store.put(name, &bytes) {
            Ok(()) => Ok(()),
            Err(_) => differs(alloc, "the store failed"),
        }
    }

    // The keeper that the last run left has one edit more.
    fn apply(&mut self, edit: Edit) -> Result<(), Fault> {
        let Some(site) = &mut self.site else {
            return differs(self.alloc, "no run before");
        };
        match site.shelf.apply_to(self.number, &[edit]) {
            Ok(()) => Ok(()),
            Err(_) => differs(self.alloc, "the shelf failed"),
        }
    }
}
