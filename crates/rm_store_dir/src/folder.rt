//! How an object gets its name: written beside it, and then renamed.
ghost use Rattle.std.specs.Prelude.{◌≡◌, ◌≢◌, ◌≤◌, ◌∷◌, [], false, true, Some, None, length, IfOk, IfSome, IsErr, OnOk, OnErr};
ghost use Rattle.rm_base.specs.{Store.{Held, Both, HasNow, SameBut, Ascends, AreTheNames}, Numbers.{most_bytes}};
ghost use Rattle.rm_store_dir.specs.DirStore.{objects_of};
ghost use Rattle.rm_store_dir.specs.Folder.{SameButBoth, IsWhole, IsMoved, MayHave, KeepsBut, MayMove, IsDurable, MaySettle};

use rm_base::{Seq, Text};
use std::io::{self, ErrorKind};

/// Files under names. A machine that stops keeps what the last `sync` saw of the names, and the bytes
/// of each file that was written.
pub trait Folder {
    ghost use Rattle.std.specs.Prelude.{ℕ, Bool, List, Option};
    ghost use Rattle.rm_store_dir.specs.Folder.{Kept};

    /// The bytes under each name, where the folder tells it.
    ghost files: { Self → Option Held };

    /// The names under which something stands that is no file of at most 268,435,456 bytes.
    ghost blocked: { Self → List ℕ → Bool };

    /// All that each name may have where the machine stops now.
    ghost keeps: { Self → Kept };

    /// The bytes of the file of this name; None where no file of at most 268,435,456 bytes stands there.
    fn read(&self, name: &str) -> io::Result<Option<Seq<u8>>>
        ensures { IfOk result (λ found. IfSome (files self.now) (λ h. h name.now ≡ found)) };

    /// Whether something stands under the name that is no file of at most 268,435,456 bytes.
    fn is_blocked(&self, name: &str) -> io::Result<bool>
        ensures { IfOk result (λ found. IfSome (files self.now) (λ _. blocked self.now name.now ≡ found)) };

    /// The names of the files that are objects, ascending by their bytes.
    fn names(&self) -> io::Result<Seq<Text>>
        ensures ascending { IfOk result (λ names. Ascends names) }
        ensures exact { IfOk result (λ names. IfSome (files self.now) (λ h. AreTheNames names (objects_of h))) };

    /// Writes a file under a name where nothing stands, and makes its bytes durable. A call that fails may
    /// leave any bytes there.
    fn write_new(&mut self, name: &str, bytes: &[u8]) -> io::Result<()>
        requires { length bytes.now ≤ most_bytes }
        ensures stands { OnOk result (Both (HasNow name.now (Some bytes.now)) (files self.old) (files self.new)) }
        ensures others { Both (SameBut name.now) (files self.old) (files self.new) }
        ensures blocked { blocked self.new ≡ blocked self.old }
        ensures keeps { KeepsBut name.now (keeps self.old) (keeps self.new) };

    /// Gives a file another name, in place of the file that stood there: wholly or not at all. The machine may
    /// stop before that is durable.
    fn rename(&mut self, from: &str, to: &str) -> io::Result<()>
        requires { IfSome (files self.now) (λ _. blocked self.now to.now ≡ false) }
        ensures moved { OnOk result (Both (IsMoved from.now to.now) (files self.old) (files self.new)) }
        ensures err { OnErr result (files self.new ≡ files self.old) }
        ensures blocked { blocked self.new ≡ blocked self.old }
        ensures keeps { IfSome (files self.old) (λ h. MayMove to.now from.now (h from.now) (keeps self.old) (keeps self.new)) };

    /// Takes away the file under the name. That no file stands there is no error, and what is no file stays.
    fn remove(&mut self, name: &str) -> io::Result<()>
        ensures gone { OnOk result (Both (HasNow name.now None) (files self.old) (files self.new)) }
        ensures others { Both (SameBut name.now) (files self.old) (files self.new) }
        ensures blocked { blocked self.new ≡ blocked self.old }
        ensures may { MayHave name.now None (keeps self.old) (keeps self.new) }
        ensures keeps { KeepsBut name.now (keeps self.old) (keeps self.new) };

    /// Makes the names durable.
    fn sync(&mut self) -> io::Result<()>
        ensures same { files self.new ≡ files self.old }
        ensures blocked { blocked self.new ≡ blocked self.old }
        ensures durable { OnOk result (IfSome (files self.new) (λ h. IsDurable h (keeps self.new))) }
        ensures keeps { IfSome (files self.old) (λ h. MaySettle h (keeps self.old) (keeps self.new)) };
}

fn write_and_rename<F: Folder>(
    folder: &mut F,
    name: &str,
    beside: &str,
    bytes: &[u8],
) -> io::Result<()>
    requires apart { beside.now ≢ name.now }
    requires length { length bytes.now ≤ most_bytes }
    requires free { IfSome (F.files folder.now) (λ _. F.blocked folder.now name.now ≡ false) }
    ensures stands { OnOk result (Both (HasNow name.now (Some bytes.now)) (F.files folder.old) (F.files folder.new)) }
    ensures err { OnErr result (Both (SameBut beside.now) (F.files folder.old) (F.files folder.new)) }
    ensures others { Both (SameButBoth name.now beside.now) (F.files folder.old) (F.files folder.new) }
    ensures blocked { F.blocked folder.new ≡ F.blocked folder.old }
    ensures keeps { IfSome (F.files folder.old) (λ _. MayHave name.now (Some bytes.now) (F.keeps folder.old) (F.keeps folder.new)) }
{
    folder.write_new(beside, bytes)?;
    folder.rename(beside, name)
}

/// Puts the bytes under the name, and makes that durable. They are written beside it first, so that the
/// name has what it had or all of them, at each moment and wherever the machine stops. Where it fails, what
/// stands beside goes. Where something stands under the name that is no file of an object it fails, and
/// replaces nothing.
pub fn put_whole<F: Folder>(
    folder: &mut F,
    name: &str,
    beside: &str,
    bytes: &[u8],
) -> io::Result<()>
    requires apart { beside.now ≢ name.now }
    requires length { length bytes.now ≤ most_bytes }
    ensures stands { OnOk result (Both (HasNow name.now (Some bytes.now)) (F.files folder.old) (F.files folder.new)) }
    ensures whole { Both (IsWhole name.now bytes.now) (F.files folder.old) (F.files folder.new) }
    ensures others { Both (SameButBoth name.now beside.now) (F.files folder.old) (F.files folder.new) }

    // What is no file of an object stays.
    ensures blocked { F.blocked folder.new ≡ F.blocked folder.old }
    ensures refused { IfSome (F.files folder.old) (λ _. F.blocked folder.old name.now ≡ true → IsErr result) }

    // What the machine keeps where it stops.
    ensures durable { OnOk result (IfSome (F.files folder.new) (λ _. F.keeps folder.new name.now ≡ Some bytes.now ∷ [])) }
    ensures keeps { IfSome (F.files folder.old) (λ _. MayHave name.now (Some bytes.now) (F.keeps folder.old) (F.keeps folder.new)) }
{
    if folder.is_blocked(name)? {
        return Err(io::Error::new(
            ErrorKind::AlreadyExists,
            "what stands there is no object's file",
        ));
    }
    folder.remove(beside)?;
    match write_and_rename(folder, name, beside, bytes) {
        Ok(()) => folder.sync(),
        Err(error) => {
            // The first error is told.
            let _ = folder.remove(beside);
            Err(error)
        }
    }
}

/// Takes away the file under the name, and makes that durable.
pub fn remove_whole<F: Folder>(folder: &mut F, name: &str) -> io::Result<()>
    ensures gone { OnOk result (Both (HasNow name.now None) (F.files folder.old) (F.files folder.new)) }
    ensures others { Both (SameBut name.now) (F.files folder.old) (F.files folder.new) }
    ensures blocked { F.blocked folder.new ≡ F.blocked folder.old }
    ensures durable { OnOk result (IfSome (F.files folder.new) (λ _. F.keeps folder.new name.now ≡ None ∷ [])) }
    ensures keeps { IfSome (F.files folder.old) (λ _. MayHave name.now None (F.keeps folder.old) (F.keeps folder.new)) }
{
    folder.remove(name)?;
    folder.sync()
}
