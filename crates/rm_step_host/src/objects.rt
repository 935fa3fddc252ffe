//! HOST REMOVE 'name', HOST DAMAGE 'name' AT n, HOST CUT 'name' TO n and HOST RENAME 'name' TO 'name'
ghost use Rattle.std.specs.Prelude.{◌≡◌, ◌≤◌, ◌<◌, ◌∷◌, [], All, IfErr, IfOk, IsErrOf, length, take};
ghost use Rattle.rm_base.specs.{Outside.{Rose}, declared.refusal.Unknown.TheVariants.{Byte, Object as NoObject}};
ghost use Rattle.rm_base.specs.declared.refusal.Refusal.TheVariants as refusal;
ghost use Rattle.rm_commit.specs.declared.commit.Stop.TheVariants.{KeeperFault, StoreFault};
ghost use Rattle.rm_lang_statement.specs.declared.command.Command.TheVariants.{Cut, Damage, Remove, Rename};
ghost use Rattle.rm_machine.specs.{Mishaps.{damaged}, Hands.{Hands, Refuses}};
ghost use Rattle.rm_report.specs.Reply.{HasDate, IsPlain};

use rm_base::{NoMemory, Refusal, Seq, Store, Text, Unknown};
use rm_commit::{Object, Stop};
use rm_machine::handed::of_line;
use rm_machine::replies::copied;
use rm_machine::{Handed, State};
use rm_report::Line;
use std::alloc::Global;

// No object has the name.
fn no_object(alloc: Global, name: &Text) -> Result<Refusal, NoMemory>
    ensures { IfOk result (λ r. r ≡ refusal.Rm12 (NoObject name.now)) }
{
    Ok(Refusal::Rm12(Unknown::Object(copied(alloc, name)?)))
}

// The object has no byte at the position.
fn no_byte(alloc: Global, at: u64, name: &Text) -> Result<Refusal, NoMemory>
    ensures { IfOk result (λ r. r ≡ refusal.Rm12 (Byte at name.now)) }
{
    let name = copied(alloc, name)?;
    Ok(Refusal::Rm12(Unknown::Byte { at, name }))
}

// One line, and the bytes that come to stand under the name.
fn put(alloc: Global, line: Line, name: &Text, bytes: Seq<u8>) -> Result<Handed, NoMemory>
    ensures lines { IfOk result (λ x. x.lines ≡ line ∷ []) }
    ensures objects { IfOk result (λ x. x.objects ≡ record { name = name.now; bytes = bytes } ∷ []) }
    ensures removes { IfOk result (λ x. x.removes ≡ []) }
{
    let name = copied(alloc, name)?;
    let mut handed = of_line(alloc, line)?;
    handed.objects.push(Object { name, bytes })?;
    Ok(handed)
}

/// HOST REMOVE: the object goes. Where there is none it is refused (RM-12). An error is a stop: a fault of the store,
/// which is counted, or want of memory.
pub fn remove<D: Store>(
    alloc: Global,
    state: &State,
    store: &mut D,
    name: &Text,
) -> Result<Result<Handed, Refusal>, Stop>
    ensures hands { IfOk result (λ x. IfOk x (λ handed. Hands (D.held store.old) state.now (Remove name.now) handed state.now)) }
    ensures refuses { IfOk result (λ x. IfErr x (λ refusal. Refuses (D.held store.old) state.now (Remove name.now) refusal)) }
    ensures dates { IfOk result (λ x. IfOk x (λ handed. All IsPlain handed.lines)) }
    ensures date { IfOk result (λ x. IfErr x HasDate) }
    ensures same { D.held store.new ≡ D.held store.old }
    ensures store { IsErrOf result StoreFault → Rose (D.faults store.old) (D.faults store.new) }
    ensures keeper { ¬ IsErrOf result KeeperFault }
    ensures never_falls { D.faults store.old ≤ D.faults store.new }
{
    if store.get(name.as_str())?.is_none() {
        return Ok(Err(no_object(alloc, name)?));
    }
    let mut handed = of_line(alloc, Line::Removed)?;
    handed.removes.push(copied(alloc, name)?)?;
    Ok(Ok(handed))
}

// The bytes, of which that at the position is its exclusive or with 255: 255 less it.
fn damaged(bytes: Seq<u8>, at: usize) -> Seq<u8>
    requires { at < length bytes }
    ensures { result ≡ damaged bytes at }
{
    let mut bytes = bytes.into_vec();
    bytes[at] = 255 - bytes[at];
    Seq::from_vec(bytes)
}

/// HOST DAMAGE: the byte at the position becomes its exclusive or with 255. It is refused where there is no object, or
/// no byte at the position (RM-12). An error is a stop, as for REMOVE.
pub fn damage<D: Store>(
    alloc: Global,
    state: &State,
    store: &mut D,
    name: &Text,
    at: u64,
) -> Result<Result<Handed, Refusal>, Stop>
    ensures hands { IfOk result (λ x. IfOk x (λ handed. Hands (D.held store.old) state.now (Damage name.now at) handed state.now)) }
    ensures refuses { IfOk result (λ x. IfErr x (λ refusal. Refuses (D.held store.old) state.now (Damage name.now at) refusal)) }
    ensures dates { IfOk result (λ x. IfOk x (λ handed. All IsPlain handed.lines)) }
    ensures date { IfOk result (λ x. IfErr x HasDate) }
    ensures same { D.held store.new ≡ D.held store.old }
    ensures store { IsErrOf result StoreFault → Rose (D.faults store.old) (D.faults store.new) }
    ensures keeper { ¬ IsErrOf result KeeperFault }
    ensures never_falls { D.faults store.old ≤ D.faults store.new }
{
    let Some(bytes) = store.get(name.as_str())? else {
        return Ok(Err(no_object(alloc, name)?));
    };
    if at >= bytes.len() as u64 {
        return Ok(Err(no_byte(alloc, at, name)?));
    }
    let bytes = damaged(bytes, at as usize);
    Ok(Ok(put(alloc, Line::Damaged, name, bytes)?))
}

// The first bytes.
fn first(bytes: Seq<u8>, count: usize) -> Seq<u8>
    requires { count ≤ length bytes }
    ensures { result ≡ take count bytes }
{
    let mut bytes = bytes.into_vec();
    bytes.truncate(count);
    Seq::from_vec(bytes)
}

/// HOST CUT: the first bytes of the object stay. It is refused where there is no object, or where it has no more bytes
/// than that (RM-12). An error is a stop, as for REMOVE.
pub fn cut<D: Store>(
    alloc: Global,
    state: &State,
    store: &mut D,
    name: &Text,
    to: u64,
) -> Result<Result<Handed, Refusal>, Stop>
    ensures hands { IfOk result (λ x. IfOk x (λ handed. Hands (D.held store.old) state.now (Cut name.now to) handed state.now)) }
    ensures refuses { IfOk result (λ x. IfErr x (λ refusal. Refuses (D.held store.old) state.now (Cut name.now to) refusal)) }
    ensures dates { IfOk result (λ x. IfOk x (λ handed. All IsPlain handed.lines)) }
    ensures date { IfOk result (λ x. IfErr x HasDate) }
    ensures same { D.held store.new ≡ D.held store.old }
    ensures store { IsErrOf result StoreFault → Rose (D.faults store.old) (D.faults store.new) }
    ensures keeper { ¬ IsErrOf result KeeperFault }
    ensures never_falls { D.faults store.old ≤ D.faults store.new }
{
    let Some(bytes) = store.get(name.as_str())? else {
        return Ok(Err(no_object(alloc, name)?));
    };
    if to >= bytes.len() as u64 {
        return Ok(Err(no_byte(alloc, to, name)?));
    }
    let bytes = first(bytes, to as usize);
    Ok(Ok(put(alloc, Line::Cut, name, bytes)?))
}

/// HOST RENAME: what stands under the old name comes to stand under the new one, unless that is one of the saved site, whose objects
/// then go. It is refused where there is no object (RM-12), or where the new name is taken (RM-13). An error is a stop, as for REMOVE.
pub fn rename<D: Store>(
    alloc: Global,
    state: &State,
    store: &mut D,
    old: &Text,
    new_name: &Text,
) -> Result<Result<Handed, Refusal>, Stop>
    ensures hands { IfOk result (λ x. IfOk x (λ handed. Hands (D.held store.old) state.now (Rename old.now new_name.now) handed state.now)) }
    ensures refuses { IfOk result (λ x. IfErr x (λ refusal. Refuses (D.held store.old) state.now (Rename old.now new_name.now) refusal)) }
    ensures dates { IfOk result (λ x. IfOk x (λ handed. All IsPlain handed.lines)) }
    ensures date { IfOk result (λ x. IfErr x HasDate) }
    ensures same { D.held store.new ≡ D.held store.old }
    ensures store { IsErrOf result StoreFault → Rose (D.faults store.old) (D.faults store.new) }
    ensures keeper { ¬ IsErrOf result KeeperFault }
    ensures never_falls { D.faults store.old ≤ D.faults store.new }
{
    let Some(bytes) = store.get(old.as_str())? else {
        return Ok(Err(no_object(alloc, old)?));
    };
    if store.get(new_name.as_str())?.is_some() {
        let name = copied(alloc, new_name)?;
        return Ok(Err(Refusal::Rm13 { name }));
    }
    let mut handed = put(alloc, Line::Renamed, new_name, bytes)?;
    handed.removes.push(copied(alloc, old)?)?;
    Ok(Ok(handed))
}
