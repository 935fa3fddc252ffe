//! The steps of a site.
ghost use Rattle.std.specs.Prelude.{◌≡◌, ◌≤◌, ◌++◌, ◌||◌, true, false, None, Some, IfOk, IfSome, IsTrue, OnOk, OnErr, IsErrOf, map};
ghost use Rattle.rm_base.specs.Outside.{Rose};
ghost use Rattle.rm_commit.specs.declared.commit.Stop.TheVariants.{StoreFault, KeeperFault};
ghost use Rattle.rm_lang_statement.specs.IsCommand.{is_command};
ghost use Rattle.rm_report.specs.Reply.{HasDates, IsFlagged};
ghost use Rattle.rm_evidence.specs.Names.{site_name};
ghost use Rattle.rm_machine.specs.{Built.{is_built}, Laws.{only_tells}, Marks.{lacks_ids}, Saved.{saved_names}, Sound.{IsSound}};
ghost use Rattle.rm_machine.specs.Step.{IsStatement};
ghost use Rattle.rm_machine_laws.specs.{Moments.{IsMomentIn, moment_of}, Refused.{AnsweredBy, refusal_in}, Saves.{applies}};
ghost use Rattle.rm_machine_laws.specs.{Steps.{DeletesSafely, IsStepAt, Steps}, Stopped.{Stops, IsStopAt}};
ghost use Rattle.rm_site.specs.{ComesOut.{ComesOut}, Untouched.{AreSame, IsUntouched, is_quiet}};

use crate::create::{first_records, lines_of, new_database, refusal_without};
use crate::moment::moment_of;
use crate::site::Site;
use crate::statement::come_to;
use rm_base::{Moment, NoMemory, Seq, Store, Text};
use rm_catalog::{Keeper, PartEntry};
use rm_catalog_typed::Saved;
use rm_channel::Gate;
use rm_commit::{Commit, Stop, carry_out};
use rm_evidence::site_name;
use rm_lang_statement::Command;
use rm_machine::{Answer, Handed, State, only_tells};
use rm_report::{Reply, refusal_reply, reply_of};
use std::alloc::Global;
use std::mem;
use std::sync::Wait;
use std::thread::Threads;

// Adds the names of the objects of these parts.
fn add_names(alloc: Global, names: &mut Seq<Text>, parts: &[PartEntry]) -> Result<(), NoMemory>
    ensures { OnOk result (names.new ≡ names.old ++ map (λ p. site_name p.id) parts.now) }
{
    for part in parts {
        names.push(site_name(alloc, part.id)?)?;
    }
    Ok(())
}

// The names of objects that go: these, and those of a saved site.
#[tactic(auto, using(rm_machine_laws::proofs::Answering::no_more_names))]
fn and_saved(alloc: Global, names: Seq<Text>, saved: &Option<Saved>) -> Result<Seq<Text>, NoMemory>
    ensures { IfOk result (λ all. all ≡ names ++ saved_names saved.now) }
{
    let mut names = names;
    if let Some(site) = saved {
        add_names(alloc, &mut names, site.parts())?;
    }
    Ok(names)
}

// Whether the session has applied a list of edits: it had, or one was applied for this statement, which was not refused and
// does more than tell.
fn has_applied(before: bool, command: &Command, reply: &Reply) -> bool
    ensures { result ≡ (before || applies command.now reply.now) }
{
    before || (!reply.refused && !only_tells(command))
}

// The answer to a statement where there is no database: CREATE DATABASE makes one.
#[tactic(auto, using(rm_machine_laws::proofs::Answering::untouched, crate::proofs::Quiet::still_same))]
fn answer_without<D: Store, C: Keeper>(
    alloc: Global,
    store: &mut D,
    keeper: &mut C,
    command: &Command,
    moment: Moment,
) -> Result<(Option<State>, Reply), Stop>
    requires command { IsStatement command.now }
    requires moment { IsMomentIn None moment }
    ensures sound { IfOk result (λ x. IfSome x.0 IsSound) }
    ensures step { IfOk result (λ x. IsStepAt (D.held store.old) (C.kept keeper.old) None command.now moment x.1 (D.held store.new) (C.kept keeper.new) x.0) }
    ensures comes { IfOk result (λ x. ComesOut (D.held store.old) (C.kept keeper.old) None command.now moment x.1 (D.held store.new) (C.kept keeper.new) x.0) }
    ensures answered { IfOk result (λ x. AnsweredBy (refusal_in None command.now moment) command.now x.1 None x.0) }
    ensures quiet { IfOk result (λ x. is_quiet command.now x.1 ≡ true → IsUntouched (D.held store.old) (C.kept keeper.old) None (D.held store.new) (C.kept keeper.new) x.0) }
    ensures dates { IfOk result (λ x. HasDates x.1) }
    ensures flagged { IfOk result (λ x. IsFlagged x.1) }
    ensures stopped { OnErr result (IsStopAt (D.held store.old) (C.kept keeper.old) None command.now moment (D.held store.new) (C.kept keeper.new)) }
    ensures untouched { OnErr result (only_tells command.now ≡ true → AreSame (D.held store.old) (C.kept keeper.old) (D.held store.new) (C.kept keeper.new)) }
    ensures store { IsErrOf result StoreFault → Rose (D.faults store.old) (D.faults store.new) }
    ensures keeper { IsErrOf result KeeperFault → Rose (C.faults keeper.old) (C.faults keeper.new) }
    ensures none_falls { (D.faults store.old ≤ D.faults store.new) × (C.faults keeper.old ≤ C.faults keeper.new) }
{
    if let Some(refusal) = refusal_without(command) {
        return Ok((None, refusal_reply(alloc, refusal)?));
    }
    let Command::CreateDatabase { dbid, threads, scn } = command else {
        unreachable!()
    };
    let state = new_database(alloc, *dbid, *threads, *scn, moment)?;
    let change = first_records(alloc, *dbid, *threads, *scn, moment)?;
    let lines = lines_of(alloc, *dbid, *scn)?;
    carry_out(store, keeper, &change)?;
    Ok((Some(state), reply_of(lines)))
}

// The answer to a statement where there is a database. After a stop nothing is said of the state.
#[tactic(auto, using(rm_machine_laws::proofs::Answering::untouched, crate::proofs::Quiet::still_same))]
fn answer_in<R: Threads + Wait + Sync, G: Gate, D: Store, C: Keeper>(
    rt: &R,
    alloc: Global,
    gate: &G,
    channels: Option<u32>,
    state: &mut State,
    store: &mut D,
    keeper: &mut C,
    command: &Command,
    moment: Moment,
) -> Result<Reply, Stop>
    requires channels { IfSome channels (λ n. (1 ≤ n) × (n ≤ 16)) }
    requires command { IsStatement command.now }
    requires built { IsTrue (is_built command.now) }
    requires sound { IsSound state.old }
    requires moment { IsMomentIn (Some state.old) moment }
    ensures sound { OnOk result (IsSound state.new) }
    ensures step { IfOk result (λ reply. IsStepAt (D.held store.old) (C.kept keeper.old) (Some state.old) command.now moment reply (D.held store.new) (C.kept keeper.new) (Some state.new)) }
    ensures comes { IfOk result (λ reply. ComesOut (D.held store.old) (C.kept keeper.old) (Some state.old) command.now moment reply (D.held store.new) (C.kept keeper.new) (Some state.new)) }
    ensures answered { IfOk result (λ reply. AnsweredBy (refusal_in (Some state.old) command.now moment) command.now reply (Some state.old) (Some state.new)) }
    ensures quiet { IfOk result (λ reply. is_quiet command.now reply ≡ true → IsUntouched (D.held store.old) (C.kept keeper.old) (Some state.old) (D.held store.new) (C.kept keeper.new) (Some state.new)) }
    ensures ids { IfOk result (λ reply. applies command.now reply ≡ true → lacks_ids state.old 0 ≡ false) }
    ensures dates { IfOk result HasDates }
    ensures flagged { IfOk result IsFlagged }
    ensures stopped { OnErr result (IsStopAt (D.held store.old) (C.kept keeper.old) (Some state.old) command.now moment (D.held store.new) (C.kept keeper.new)) }
    ensures untouched { OnErr result (only_tells command.now ≡ true → AreSame (D.held store.old) (C.kept keeper.old) (D.held store.new) (C.kept keeper.new)) }
    ensures store { IsErrOf result StoreFault → Rose (D.faults store.old) (D.faults store.new) }
    ensures keeper { IsErrOf result KeeperFault → Rose (C.faults keeper.old) (C.faults keeper.new) }
    ensures none_falls { (D.faults store.old ≤ D.faults store.new) × (C.faults keeper.old ≤ C.faults keeper.new) }
{
    let mut edits = Vec::new(alloc);
    let earlier = state.catalog.begin(&mut edits, moment)?;
    match come_to(rt, alloc, gate, channels, state, store, &mut edits, command)? {
        Answer::Refused(refusal) => {
            state.catalog.revert(earlier);
            Ok(refusal_reply(alloc, refusal)?)
        }
        Answer::Told(lines) => {
            state.catalog.revert(earlier);
            Ok(reply_of(lines))
        }
        Answer::Done(handed) => {
            let Handed {
                lines,
                objects,
                removes,
            } = handed;
            let change = Commit {
                objects,
                edits: Seq::from_vec(edits),
                removes: and_saved(alloc, removes, &earlier.saved)?,
            };
            carry_out(store, keeper, &change)?;
            Ok(reply_of(lines))
        }
    }
}

// The answer to a statement, and the database after it.
fn answer<R: Threads + Wait + Sync, G: Gate, D: Store, C: Keeper>(
    rt: &R,
    alloc: Global,
    gate: &G,
    channels: Option<u32>,
    state: Option<State>,
    store: &mut D,
    keeper: &mut C,
    command: &Command,
    moment: Moment,
) -> Result<(Option<State>, Reply), Stop>
    requires channels { IfSome channels (λ n. (1 ≤ n) × (n ≤ 16)) }
    requires command { IsStatement command.now }
    requires built { IsTrue (is_built command.now) }
    requires sound { IfSome state IsSound }
    requires moment { IsMomentIn state moment }
    ensures sound { IfOk result (λ x. IfSome x.0 IsSound) }
    ensures step { IfOk result (λ x. IsStepAt (D.held store.old) (C.kept keeper.old) state command.now moment x.1 (D.held store.new) (C.kept keeper.new) x.0) }
    ensures comes { IfOk result (λ x. ComesOut (D.held store.old) (C.kept keeper.old) state command.now moment x.1 (D.held store.new) (C.kept keeper.new) x.0) }
    ensures answered { IfOk result (λ x. AnsweredBy (refusal_in state command.now moment) command.now x.1 state x.0) }
    ensures quiet { IfOk result (λ x. is_quiet command.now x.1 ≡ true → IsUntouched (D.held store.old) (C.kept keeper.old) state (D.held store.new) (C.kept keeper.new) x.0) }
    ensures ids { IfOk result (λ x. applies command.now x.1 ≡ true → IfSome state (λ s. lacks_ids s 0 ≡ false)) }
    ensures dates { IfOk result (λ x. HasDates x.1) }
    ensures flagged { IfOk result (λ x. IsFlagged x.1) }
    ensures stopped { OnErr result (IsStopAt (D.held store.old) (C.kept keeper.old) state command.now moment (D.held store.new) (C.kept keeper.new)) }
    ensures untouched { OnErr result (only_tells command.now ≡ true → AreSame (D.held store.old) (C.kept keeper.old) (D.held store.new) (C.kept keeper.new)) }
    ensures store { IsErrOf result StoreFault → Rose (D.faults store.old) (D.faults store.new) }
    ensures keeper { IsErrOf result KeeperFault → Rose (C.faults keeper.old) (C.faults keeper.new) }
    ensures none_falls { (D.faults store.old ≤ D.faults store.new) × (C.faults keeper.old ≤ C.faults keeper.new) }
{
    match state {
        None => answer_without(alloc, store, keeper, command, moment),
        Some(state) => {
            let mut state = state;
            let reply = answer_in(
                rt, alloc, gate, channels, &mut state, store, keeper, command, moment,
            )?;
            Ok((Some(state), reply))
        }
    }
}

impl Site {
    /// One step of the machine: the reply to a statement, where the clock answered `clock`. A refusal is a
    /// reply too, and changes nothing. A refusal that the state decides is answered exactly where the state
    /// decides so, whatever the store and the keeper hold. Whatever these hold, they and the site stay as they are where the
    /// statement is refused or only tells, and nothing is done where too few ids are left for a save. And whatever they tell,
    /// a statement that goes by the state alone has the reply, and leaves the database, that the state says.
    ///
    /// What reads or makes objects goes by `channels` channels, or by as many as are configured where none are asked for.
    /// Those of a BACKUP and its writers call the gate.
    ///
    /// Each line of the reply has a text, and the reply counts as refused exactly where one of them is a refusal.
    ///
    /// Under a policy with a window DELETE OBSOLETE keeps each target of the window: what was told of a block there is told still, and
    /// a target that could be recovered can be.
    ///
    /// BLOCKRECOVER mends exactly the damaged blocks that it asks for, while its writers run: from its turn on each is what the
    /// history tells of it.
    ///
    /// New objects are put first, then all records are edited at once, then objects go that no record names; with the first
    /// list of a session those of its saved site.
    /// An error is a stop, after which the site is spent and has no database any more: a fault of the store
    /// or the keeper, which that object counted, or want of memory.
    ///
    /// A stop leaves the records before the statement or those after it, whole, and each object that one of
    /// them names, as a database at rest, which the next session wakes. Other objects may hold anything. A stop of a statement
    /// that only tells leaves the store and the keeper as they were, whatever they hold.
    pub fn step<R: Threads + Wait + Sync, G: Gate, D: Store, C: Keeper>(
        &mut self,
        rt: &R,
        gate: &G,
        channels: Option<u32>,
        store: &mut D,
        keeper: &mut C,
        command: &Command,
        clock: Moment,
    ) -> Result<Reply, Stop>
        requires channels { IfSome channels (λ n. (1 ≤ n) × (n ≤ 16)) }
        requires live { self.old.live ≡ true }
        requires command { IsTrue (is_command command.now) }
        requires built { IsTrue (is_built command.now) }
        ensures step { IfOk result (λ reply. Steps (D.held store.old) (C.kept keeper.old) self.old command.now clock reply (D.held store.new) (C.kept keeper.new) self.new) }
        ensures comes { IfOk result (λ reply. ComesOut (D.held store.old) (C.kept keeper.old) self.old.state command.now (moment_of self.old.state clock) reply (D.held store.new) (C.kept keeper.new) self.new.state) }
        ensures safe { IfOk result (λ reply. DeletesSafely (D.held store.old) (C.kept keeper.old) self.old command.now clock reply (D.held store.new) self.new) }
        ensures answered { IfOk result (λ reply. AnsweredBy (refusal_in self.old.state command.now (moment_of self.old.state clock)) command.now reply self.old self.new) }
        ensures quiet { IfOk result (λ reply. is_quiet command.now reply ≡ true → IsUntouched (D.held store.old) (C.kept keeper.old) self.old (D.held store.new) (C.kept keeper.new) self.new) }
        ensures ids { IfOk result (λ reply. applies command.now reply ≡ true → IfSome self.old.state (λ s. lacks_ids s 0 ≡ false)) }
        ensures dates { IfOk result HasDates }
        ensures flagged { IfOk result IsFlagged }
        ensures stopped { OnErr result (Stops (D.held store.old) (C.kept keeper.old) self.old command.now clock (D.held store.new) (C.kept keeper.new)) }
        ensures untouched { OnErr result (only_tells command.now ≡ true → AreSame (D.held store.old) (C.kept keeper.old) (D.held store.new) (C.kept keeper.new)) }
        ensures live { OnOk result (self.new.live ≡ true) }
        ensures applied { IfOk result (λ reply. self.new.applied ≡ (self.old.applied || applies command.now reply)) }
        ensures spent { OnErr result (self.new ≡ record { state = None; live = false; applied = self.old.applied }) }
        ensures store { IsErrOf result StoreFault → Rose (D.faults store.old) (D.faults store.new) }
        ensures keeper { IsErrOf result KeeperFault → Rose (C.faults keeper.old) (C.faults keeper.new) }
        ensures none_falls { (D.faults store.old ≤ D.faults store.new) × (C.faults keeper.old ≤ C.faults keeper.new) }
    {
        self.live = false;
        let state = mem::replace(&mut self.state, None);
        let moment = moment_of(&state, clock);
        let (state, reply) = answer(
            rt, self.alloc, gate, channels, state, store, keeper, command, moment,
        )?;
        self.state = state;
        self.applied = has_applied(self.applied, command, &reply);
        self.live = true;
        Ok(reply)
    }
}
