//! BLOCKRECOVER (CORRUPTION LIST | DATAFILE f BLOCK b {, b}*) [DURING { {write ;}* }]
ghost use Rattle.std.specs.Prelude.{◌≡◌, ◌≤◌, All, IfErr, IfOk, IsErrOf, None, OnOk};
ghost use Rattle.rm_base.specs.Outside.{Rose};
ghost use Rattle.rm_catalog_typed.specs.Changes.{EditsFollow};
ghost use Rattle.rm_channel.specs.Jobs.{lists};
ghost use Rattle.rm_lang_statement.specs.declared.command.Command.TheVariants.{BlockRecover};
ghost use Rattle.rm_machine.specs.{Asked.{writers_in}, BlockRecover.{repair_begun}, BlockRecoverRefusal.{repair_refusal}, Events.{opening}};
ghost use Rattle.rm_machine.specs.{Hands.{Hands, Refuses}, Sound.{IsSound}, State.{now_of}, Step.{IsStatement}};
ghost use Rattle.rm_repair.specs.Mended.{HasBlock, IsOlder};
ghost use Rattle.rm_report.specs.Reply.{HasDate, IsPlain};
ghost use Rattle.rm_step_repair.specs.Gone.{HasRepaired};

use crate::blocks::{blocks_mended, take_off};
use crate::lines::push_mends;
use crate::running::run_live;
use crate::telling::tell_blocks;
use rm_base::{NoMemory, Refusal, Scn, Store};
use rm_catalog::Edit;
use rm_evidence::EvidenceFault;
use rm_lang_statement::RepairForm;
use rm_machine::handed::of_lines;
use rm_machine::marks::add_marks_for;
use rm_machine::replies::skipped_lines;
use rm_machine::writers::{tell_writes, writers_in};
use rm_machine::{Handed, State};
use rm_repair::MendJob;
use std::alloc::Global;
use std::sync::Wait;
use std::thread::Threads;

// Puts each job's row in place while the writes of the DURING are made, behind the mark that comes before them. It gives the SCNs that
// they took, thread by thread.
fn run<R: Threads + Wait + Sync>(
    rt: &R,
    alloc: Global,
    state: &mut State,
    edits: &mut Vec<Edit>,
    form: &RepairForm,
    jobs: &[MendJob],
) -> Result<Vec<Vec<Scn>>, NoMemory>
    requires sound { IsSound state.old }
    requires accepted { repair_refusal state.old form.now ≡ None }
    requires there { All (HasBlock (opening state.old).files) jobs.now }
    requires older { All (IsOlder (now_of state.old)) jobs.now }
    ensures ran { IfOk result (λ scns. HasRepaired (repair_begun state.old form.now) jobs.now (writers_in state.old form.now.during) state.new (lists scns.items)) }
    ensures edits { OnOk result (EditsFollow edits.old.items edits.new.items state.old.catalog state.new.catalog) }
{
    let writers = writers_in(alloc, state, &form.during)?;
    add_marks_for(state, edits, &form.during)?;
    run_live(rt, alloc, state, edits, jobs, writers.as_slice())
}

/// BLOCKRECOVER, which the state alone does not refuse: what is at hand, where a datafile with a damaged block counts as lost, is
/// gathered once, the store is only read, and each damaged block that is asked for gets the row that it tells at `now`, while each write
/// of the DURING is made, those of a thread in their order; how the turns interleave is free. The blocks are no longer damaged. A line
/// tells each record whose object is missing or damaged, one each block with its version, and one the SCN of each write. Where a block is
/// not told it is refused with the gap of the first one (RM-08), and nothing changed. An error is a fault of the store, which is counted,
/// or want of memory; then nothing is said of the state and the edits.
pub fn block_recover<R: Threads + Wait + Sync, D: Store>(
    rt: &R,
    alloc: Global,
    state: &mut State,
    store: &mut D,
    edits: &mut Vec<Edit>,
    form: &RepairForm,
) -> Result<Result<Handed, Refusal>, EvidenceFault>
    requires sound { IsSound state.old }
    requires statement { IsStatement (BlockRecover form.now) }
    requires accepted { repair_refusal state.old form.now ≡ None }
    ensures hands { IfOk result (λ x. IfOk x (λ handed. Hands (D.held store.old) state.old (BlockRecover form.now) handed state.new)) }
    ensures refuses { IfOk result (λ x. IfErr x (λ refusal. Refuses (D.held store.old) state.old (BlockRecover form.now) refusal)) }
    ensures edits { OnOk result (EditsFollow edits.old.items edits.new.items state.old.catalog state.new.catalog) }
    ensures sound { OnOk result (IsSound state.new) }
    ensures refused { IfOk result (λ x. IfErr x (λ _. state.new ≡ state.old)) }
    ensures dates { IfOk result (λ x. IfOk x (λ handed. All IsPlain handed.lines)) }
    ensures date { IfOk result (λ x. IfErr x HasDate) }
    ensures same { D.held store.new ≡ D.held store.old }
    ensures failed { IsErrOf result EvidenceFault.StoreFault → Rose (D.faults store.old) (D.faults store.new) }
    ensures never_falls { D.faults store.old ≤ D.faults store.new }
{
    let blocks = blocks_mended(alloc, state, form)?;
    let told = match tell_blocks(rt, alloc, state, store, blocks.as_slice())? {
        Ok(told) => told,
        Err(refusal) => return Ok(Err(refusal)),
    };
    let jobs = told.jobs.as_slice();
    let mut lines = skipped_lines(alloc, told.skipped.as_slice())?;
    push_mends(&mut lines, jobs)?;
    let scns = run(rt, alloc, state, edits, form, jobs)?;
    take_off(alloc, state, form);
    tell_writes(&mut lines, scns.as_slice())?;
    Ok(Ok(of_lines(alloc, lines)))
}
