//! A store in memory, whose calls fail as its maker says, and a clock whose answers its maker gives.
ghost use Rattle.std.specs.Prelude.{◌≡◌, ◌+◌, ◌≤◌, ◌↔◌, length};

use crate::count::Count;
use crate::memory::Failing;
use crate::seq::Seq;
use crate::store::{Clock, Store, StoreFail};
use crate::text::Text;
use std::alloc::{AllocError, Global};
use std::collections::BTreeMap;

/// The calls that are to fail, of each function of a store.
#[derive(Drop)]
pub struct StoreFailing {
    pub gets: Failing,
    pub puts: Failing,
    pub removes: Failing,
    pub names: Failing,
}

/// Bytes under names, in memory.
#[derive(Drop)]
pub struct MemStore {
    alloc: Global,
    objects: BTreeMap<String, Seq<u8>>,
    failing: StoreFailing,
}

impl MemStore {
    ghost use Rattle.std.specs.Prelude.{List, ℕ, Some, None, OnOk, OnErr, IfErr};
    ghost use Rattle.rm_base.specs.{Store.{SameBut}, MemStore.{held_by, failing_of}};
    ghost use Rattle.rm_base.specs.declared.store.StoreFail.TheVariants.{NoMemory as WithoutMemory};

    /// A store that holds nothing.
    pub fn new(alloc: Global, failing: StoreFailing) -> Self
        ensures held { (name : List ℕ) → held_by result name ≡ None }
        ensures failing { failing_of result ≡ failing }
    {
        MemStore {
            alloc,
            objects: BTreeMap::new(alloc),
            failing,
        }
    }

    // Puts the bytes under the name. Without memory nothing changes.
    fn hold(&mut self, name: &str, bytes: &[u8]) -> Result<(), StoreFail>
        ensures stands { OnOk result (held_by self.new name.now ≡ Some bytes.now) }
        ensures others { SameBut name.now (held_by self.old) (held_by self.new) }
        ensures no_memory { OnErr result (held_by self.new ≡ held_by self.old) }
        ensures err { IfErr result (λ e. e ≡ WithoutMemory) }
        ensures failing { failing_of self.new ≡ failing_of self.old }
    {
        let name = String::from_str(self.alloc, name)?;
        let bytes = Seq::from_vec(Vec::from_slice(self.alloc, bytes)?);
        self.objects.insert(name, bytes)?;
        Ok(())
    }
}

impl Store for MemStore {
    ghost use Rattle.std.specs.Prelude.{Some, None, IfOk, IfSome, OnOk, OnErr, IsErrOf};
    ghost use Rattle.rm_base.specs.{Outside.{Rose}, Failing.{FailsNext}, Store.{Both, HasNow, SameBut, Ascends, AreTheNames}};
    ghost use Rattle.rm_base.specs.MemStore.{held_by, failing_of, faults_of_all, half, IsAfterCall};
    ghost use Rattle.rm_base.specs.declared.store.StoreFail.TheVariants.{Failed, NoMemory as WithoutMemory};

    ghost held = { λ m. Some (held_by m) };

    ghost faults = { λ m. faults_of_all (failing_of m) };

    fn get(&mut self, name: &str) -> Result<Option<Seq<u8>>, StoreFail>
        ensures found { IfOk result (λ bytes. IfSome (Some (held_by self.old)) (λ h. h name.now ≡ bytes)) }
        ensures same { Some (held_by self.new) ≡ Some (held_by self.old) }

        ensures failed { IsErrOf result Failed → Rose (faults_of_all (failing_of self.old)) (faults_of_all (failing_of self.new)) }
        ensures never_falls { faults_of_all (failing_of self.old) ≤ faults_of_all (failing_of self.new) }

        // Which call fails.
        ensures fails { IsErrOf result Failed ↔ FailsNext (failing_of self.old).gets }
        ensures calls { IsAfterCall (failing_of self.old).gets (failing_of self.new).gets }
        ensures other_calls { failing_of self.new ≡ record (failing_of self.old) { gets = (failing_of self.new).gets } }
    {
        if self.failing.gets.fails() {
            return Err(StoreFail::Failed);
        }
        match self.objects.get(name) {
            None => Ok(None),
            Some(bytes) => {
                let copy = Vec::from_slice(self.alloc, bytes.as_slice())?;
                Ok(Some(Seq::from_vec(copy)))
            }
        }
    }

    fn put(&mut self, name: &str, bytes: &[u8]) -> Result<(), StoreFail>
        ensures stands { OnOk result (Both (HasNow name.now (Some bytes.now)) (Some (held_by self.old)) (Some (held_by self.new))) }
        ensures others { Both (SameBut name.now) (Some (held_by self.old)) (Some (held_by self.new)) }

        ensures failed { IsErrOf result Failed → Rose (faults_of_all (failing_of self.old)) (faults_of_all (failing_of self.new)) }
        ensures never_falls { faults_of_all (failing_of self.old) ≤ faults_of_all (failing_of self.new) }

        // Which call fails, where there is memory, and what it leaves.
        ensures fails { IsErrOf result Failed → FailsNext (failing_of self.old).puts }
        ensures succeeds { OnOk result (FailsNext (failing_of self.old).puts → ⊥) }
        ensures half { IsErrOf result Failed → held_by self.new name.now ≡ Some (half bytes.now) }
        ensures no_memory { IsErrOf result WithoutMemory → held_by self.new ≡ held_by self.old }
        ensures calls { IsAfterCall (failing_of self.old).puts (failing_of self.new).puts }
        ensures other_calls { failing_of self.new ≡ record (failing_of self.old) { puts = (failing_of self.new).puts } }
    {
        if self.failing.puts.fails() {
            self.hold(name, &bytes[..bytes.len() / 2])?;
            return Err(StoreFail::Failed);
        }
        self.hold(name, bytes)
    }

    fn remove(&mut self, name: &str) -> Result<(), StoreFail>
        ensures gone { OnOk result (Both (HasNow name.now None) (Some (held_by self.old)) (Some (held_by self.new))) }
        ensures others { Both (SameBut name.now) (Some (held_by self.old)) (Some (held_by self.new)) }

        ensures failed { IsErrOf result Failed → Rose (faults_of_all (failing_of self.old)) (faults_of_all (failing_of self.new)) }
        ensures never_falls { faults_of_all (failing_of self.old) ≤ faults_of_all (failing_of self.new) }

        // Which call fails; it changes nothing.
        ensures fails { IsErrOf result Failed ↔ FailsNext (failing_of self.old).removes }
        ensures unchanged { OnErr result (held_by self.new ≡ held_by self.old) }
        ensures no_memory { IsErrOf result WithoutMemory → ⊥ }
        ensures calls { IsAfterCall (failing_of self.old).removes (failing_of self.new).removes }
        ensures other_calls { failing_of self.new ≡ record (failing_of self.old) { removes = (failing_of self.new).removes } }
    {
        if self.failing.removes.fails() {
            return Err(StoreFail::Failed);
        }
        let _ = self.objects.remove(name);
        Ok(())
    }

    fn names(&mut self) -> Result<Seq<Text>, StoreFail>
        ensures ascending { IfOk result (λ names. Ascends names) }
        ensures exact { IfOk result (λ names. IfSome (Some (held_by self.old)) (AreTheNames names)) }
        ensures same { Some (held_by self.new) ≡ Some (held_by self.old) }

        ensures failed { IsErrOf result Failed → Rose (faults_of_all (failing_of self.old)) (faults_of_all (failing_of self.new)) }
        ensures never_falls { faults_of_all (failing_of self.old) ≤ faults_of_all (failing_of self.new) }

        // Which call fails.
        ensures fails { IsErrOf result Failed ↔ FailsNext (failing_of self.old).names }
        ensures calls { IsAfterCall (failing_of self.old).names (failing_of self.new).names }
        ensures other_calls { failing_of self.new ≡ record (failing_of self.old) { names = (failing_of self.new).names } }
    {
        if self.failing.names.fails() {
            return Err(StoreFail::Failed);
        }
        let mut names = Vec::new(self.alloc);
        for name in self.objects.keys() {
            names.push(Text::from_string(name.clone()?))?;
        }
        Ok(Seq::from_vec(names))
    }
}

/// A clock that gives the answers of a list in turn, and repeats the last. With an empty list it
/// answers 0.
#[derive(Drop)]
pub struct MemClock {
    answers: Vec<u64>,
    at: usize,
    asked: Count,
    ghost within: { at ≤ length answers.items },
}

impl MemClock {
    ghost use Rattle.rm_base.specs.MemStore.{answer_at, coming_of};

    /// A clock with these answers.
    pub fn new(answers: Vec<u64>) -> Self
        ensures { coming_of result ≡ answer_at answers.items }
    {
        MemClock {
            answers,
            at: 0,
            asked: Count::none(),
        }
    }
}

impl Clock for MemClock {
    ghost use Rattle.std.specs.Prelude.{Some, IfSome};
    ghost use Rattle.rm_base.specs.{Store.{Both, IsLater}, MemStore.{coming_of}};

    ghost answers = { λ m. Some (coming_of m) };

    ghost asked = { λ m. m.asked.times };

    fn now(&mut self) -> u64
        ensures next { IfSome (Some (coming_of self.old)) (λ coming. result ≡ coming 0) }
        ensures later { Both IsLater (Some (coming_of self.old)) (Some (coming_of self.new)) }
        ensures count { self.new.asked.times ≡ self.old.asked.times + 1 }
    {
        self.asked.rise();
        let answer = self.answers.get(self.at).copied().unwrap_or(0);
        if self.at + 1 < self.answers.len() {
            self.at += 1;
        }
        answer
    }
}
