//! What the statements come to that tell: of the state alone, and VALIDATE ALL, which looks at the objects of records.
ghost use Rattle.std.specs.Prelude.{◌≡◌, Option, None, All, IfOk, IfSome, ◌≤◌, IsErrOf};
ghost use Rattle.rm_base.specs.{Store.{Held}, Outside.{Rose}};
ghost use Rattle.rm_machine.specs.{Comes.{IsAnswer}, Hands.{Tells}, Nature.{nature_of}, Sound.{IsSound}, Step.{refusal_of}};
ghost use Rattle.rm_machine.specs.declared.nature.Nature.TheVariants.{TellsState};
ghost use Rattle.rm_report.specs.Reply.{IsPlain};
ghost use Rattle.rm_commit.specs.declared.commit.Stop.TheVariants.{StoreFault, KeeperFault};
ghost use Rattle.rm_lang_statement.specs.declared.command.Command.TheVariants.{ValidateAll};

use crate::corruption::list_corruption;
use crate::dumping::dump;
use crate::incarnations::list_incarnation;
use crate::listing::list;
use crate::schema::report_schema;
use crate::settings::show_all;
use crate::validating::validate_all;
use rm_base::{Class, NoMemory, Seq, Store};
use rm_commit::Stop;
use rm_lang_statement::Command;
use rm_machine::{Answer, State, channel_count, stop_of};
use rm_report::Line;
use std::alloc::Global;
use std::thread::Threads;

// The lines of a statement that tells of the state alone.
fn lines_of(alloc: Global, state: &State, command: &Command) -> Result<Seq<Line>, NoMemory>
    requires nature { nature_of command.now ≡ TellsState }
    requires sound { IsSound state.now }
    requires accepted { refusal_of state.now command.now ≡ None }
    ensures tells { IfOk result (λ lines. (held : Option Held) → Tells held state.now command.now lines) }
    ensures dates { IfOk result (All IsPlain) }
{
    match command {
        Command::Dump { file, block } => dump(alloc, state, *file, *block),
        Command::ListIncarnation => list_incarnation(alloc, state),
        Command::ListBackup => list(alloc, state, Class::Backup),
        Command::ListCopy => list(alloc, state, Class::Copy),
        Command::ListArchived => list(alloc, state, Class::Archived),
        Command::ListCorruption => list_corruption(alloc, state),
        Command::ReportSchema => report_schema(alloc, state),
        Command::ShowAll => show_all(alloc, state),
        _ => unreachable!(),
    }
}

/// What a statement comes to that tells of the state alone, and that the state does not refuse. An error is want of
/// memory.
#[tactic(auto, using(crate::proofs::Telling::state_tells))]
pub fn tell(alloc: Global, state: &State, command: &Command) -> Result<Answer, NoMemory>
    requires nature { nature_of command.now ≡ TellsState }
    requires sound { IsSound state.now }
    requires accepted { refusal_of state.now command.now ≡ None }
    ensures answer { IfOk result (λ a. (held : Option Held) → IsAnswer held state.now command.now a state.now) }
{
    Ok(Answer::Told(lines_of(alloc, state, command)?))
}

/// What VALIDATE ALL comes to: it tells. It goes by so many channels, 1 to 16, or else by as many as are configured. An
/// error is a stop.
pub fn validate<R: Threads + Sync, D: Store>(
    rt: &R,
    alloc: Global,
    channels: Option<u32>,
    state: &State,
    store: &mut D,
) -> Result<Answer, Stop>
    requires channels { IfSome channels (λ n. (1 ≤ n) × (n ≤ 16)) }
    requires sound { IsSound state.now }
    ensures answer { IfOk result (λ a. IsAnswer (D.held store.old) state.now ValidateAll a state.now) }
    ensures held { D.held store.new ≡ D.held store.old }
    ensures store { IsErrOf result StoreFault → Rose (D.faults store.old) (D.faults store.new) }
    ensures keeper { ¬ IsErrOf result KeeperFault }
    ensures never_falls { D.faults store.old ≤ D.faults store.new }
{
    let channels = channel_count(state, channels);
    match validate_all(rt, alloc, channels, state, store) {
        Ok(lines) => Ok(Answer::Told(lines)),
        Err(fault) => Err(stop_of(fault)),
    }
}
