//! A RUN over a site.
ghost use Rattle.std.specs.Prelude.{◌≡◌, ◌≤◌, ◌++◌, ◌||◌, [], ◌∷◌, true, false, IfOk, IfSome, IsTrue, OnOk, OnErr, IsErrOf};
ghost use Rattle.std.specs.List.{list_all};
ghost use Rattle.rm_base.specs.Outside.{Rose};
ghost use Rattle.rm_commit.specs.declared.commit.Stop.TheVariants.{StoreFault, KeeperFault};
ghost use Rattle.rm_lang_statement.specs.IsCommand.{is_inner};
ghost use Rattle.rm_report.specs.Reply.{HasDates, IsFlagged, said};
ghost use Rattle.rm_tool_opening.specs.Untouched.{AreSame, IsUntouched};
ghost use Rattle.rm_tool.specs.{Block.{AreSet, after_inner, channel_reply, channels_of, inner_applies, set_reply}, Built.{is_built_inner}};
ghost use Rattle.rm_tool.specs.{Comes.{InnerComes, at_hand}, Quiet.{only_tells_inner}};
ghost use Rattle.rm_tool.specs.Serving.{InnerSteps, InnerStops, RunComes, RunSteps, RunStops};

use crate::untils::with_until;
use rm_base::{Limit, Moment, NoMemory, Refusal, Seq, Store};
use rm_catalog::Keeper;
use rm_channel::Gate;
use rm_commit::Stop;
use rm_lang::{Inner, Until};
use rm_report::{Line, Reply, refusal_reply, reply_of};
use rm_tool_opening::Site;
use std::alloc::Global;
use std::sync::Wait;
use std::thread::Threads;

/// What a RUN has set so far.
#[derive(Drop)]
pub struct Settings {
    /// Of the later statements that take an until and have none.
    pub until: Option<Until>,
    /// How many were allocated.
    pub channels: u64,
}

// The reply of one line.
fn line_reply(alloc: Global, line: Line) -> Result<Reply, NoMemory>
    ensures { IfOk result (λ reply. reply ≡ said (line ∷ [])) }
{
    let mut lines = Seq::new(alloc);
    lines.push(line)?;
    Ok(reply_of(lines))
}

// The reply to SET UNTIL.
fn set_reply(alloc: Global, site: &Site) -> Result<Reply, NoMemory>
    ensures { IfOk result (λ reply. reply ≡ set_reply site.now.state) }
{
    if site.has_database() {
        line_reply(alloc, Line::UntilSet)
    } else {
        refusal_reply(alloc, Refusal::Rm02)
    }
}

// The reply to ALLOCATE CHANNEL, where the RUN has so many channels.
fn channel_reply(alloc: Global, site: &Site, channels: u64) -> Result<Reply, NoMemory>
    ensures { IfOk result (λ reply. reply ≡ channel_reply site.now.state channels) }
{
    if !site.has_database() {
        refusal_reply(alloc, Refusal::Rm02)
    } else if channels < 16 {
        line_reply(alloc, Line::ChannelAllocated)
    } else {
        refusal_reply(alloc, Refusal::Rm11(Limit::Channels))
    }
}

// How many channels are asked for: as many as the RUN has allocated, if it has any, or else those of the words.
fn channels_of(allocated: u64, words: Option<u32>) -> Option<u32>
    requires few { allocated ≤ 16 }
    requires words { IfSome words (λ n. (1 ≤ n) × (n ≤ 16)) }
    ensures range { IfSome result (λ n. (1 ≤ n) × (n ≤ 16)) }
    ensures value { result ≡ channels_of allocated words }
{
    if allocated > 0 {
        Some(allocated as u32)
    } else {
        words
    }
}

// Adds the lines of a reply.
fn add_lines(lines: &mut Seq<Line>, more: Seq<Line>) -> Result<(), NoMemory>
    ensures { OnOk result (lines.new ≡ lines.old ++ more) }
{
    for line in more.into_vec() {
        lines.push(line)?;
    }
    Ok(())
}

// One statement of a RUN. What it sets holds for those behind it, if it is not refused.
fn serve_inner<R: Threads + Wait + Sync, G: Gate, D: Store, C: Keeper>(
    rt: &R,
    alloc: Global,
    gate: &G,
    channels: Option<u32>,
    site: &mut Site,
    store: &mut D,
    keeper: &mut C,
    settings: &mut Settings,
    inner: Inner,
    clock: Moment,
) -> Result<Reply, Stop>
    requires channels { IfSome channels (λ n. (1 ≤ n) × (n ≤ 16)) }
    requires live { site.old.live ≡ true }
    requires inner { IsTrue (is_inner inner) }
    requires built { IsTrue (is_built_inner inner) }
    requires set { AreSet settings.old }
    ensures live { OnOk result (site.new.live ≡ true) }
    ensures set { OnOk result (AreSet settings.new) }
    ensures steps { IfOk result (λ reply. InnerSteps (D.held store.old) (C.kept keeper.old) site.old settings.old inner clock reply (D.held store.new) (C.kept keeper.new) site.new) }
    ensures comes { IfOk result (λ reply. InnerComes settings.old (at_hand (D.held store.old) (C.kept keeper.old) site.old) inner clock reply (at_hand (D.held store.new) (C.kept keeper.new) site.new)) }
    ensures applied { IfOk result (λ reply. site.new.applied ≡ (site.old.applied || inner_applies settings.old inner reply)) }
    ensures quiet { IfOk result (λ _. only_tells_inner inner ≡ true → IsUntouched (D.held store.old) (C.kept keeper.old) site.old (D.held store.new) (C.kept keeper.new) site.new) }
    ensures after { IfOk result (λ reply. reply.refused ≡ false → settings.new ≡ after_inner settings.old inner) }
    ensures untouched { OnErr result (only_tells_inner inner ≡ true → AreSame (D.held store.old) (C.kept keeper.old) (D.held store.new) (C.kept keeper.new)) }
    ensures stopped { OnErr result (InnerStops (D.held store.old) (C.kept keeper.old) site.old settings.old inner clock (D.held store.new) (C.kept keeper.new)) }
    ensures dates { IfOk result HasDates }
    ensures flagged { IfOk result IsFlagged }
    ensures store { IsErrOf result StoreFault → Rose (D.faults store.old) (D.faults store.new) }
    ensures keeper { IsErrOf result KeeperFault → Rose (C.faults keeper.old) (C.faults keeper.new) }
    ensures none_falls { (D.faults store.old ≤ D.faults store.new) × (C.faults keeper.old ≤ C.faults keeper.new) }
{
    match inner {
        Inner::Plain(command) => {
            let command = with_until(alloc, &settings.until, command)?;
            let channels = channels_of(settings.channels, channels);
            site.step(rt, gate, channels, store, keeper, &command, clock)
        }
        Inner::SetUntil(until) => {
            settings.until = Some(until);
            Ok(set_reply(alloc, site)?)
        }
        Inner::AllocateChannel => {
            let reply = channel_reply(alloc, site, settings.channels)?;
            if !reply.refused {
                settings.channels += 1;
            }
            Ok(reply)
        }
    }
}

/// The statements of a RUN, in order, up to the first that is refused; all of them where the clock answered `clock`.
///
/// The reply has the lines of all, and is a refusal if the last is. An error is a stop at one of them, as of [`Site::step`]:
/// those before it are done, and no reply is there.
pub fn serve_block<R: Threads + Wait + Sync, G: Gate, D: Store, C: Keeper>(
    rt: &R,
    alloc: Global,
    gate: &G,
    channels: Option<u32>,
    site: &mut Site,
    store: &mut D,
    keeper: &mut C,
    block: Seq<Inner>,
    clock: Moment,
) -> Result<Reply, Stop>
    requires channels { IfSome channels (λ n. (1 ≤ n) × (n ≤ 16)) }
    requires live { site.old.live ≡ true }
    requires inner { IsTrue (list_all is_inner block) }
    requires built { IsTrue (list_all is_built_inner block) }
    ensures live { OnOk result (site.new.live ≡ true) }
    ensures steps { IfOk result (λ reply. RunSteps (D.held store.old) (C.kept keeper.old) site.old block clock reply (D.held store.new) (C.kept keeper.new) site.new) }
    ensures comes { IfOk result (λ reply. RunComes (D.held store.old) (C.kept keeper.old) site.old block clock reply (D.held store.new) (C.kept keeper.new) site.new) }
    ensures quiet { IfOk result (λ _. list_all only_tells_inner block ≡ true → IsUntouched (D.held store.old) (C.kept keeper.old) site.old (D.held store.new) (C.kept keeper.new) site.new) }
    ensures untouched { OnErr result (list_all only_tells_inner block ≡ true → AreSame (D.held store.old) (C.kept keeper.old) (D.held store.new) (C.kept keeper.new)) }
    ensures stopped { OnErr result (RunStops (D.held store.old) (C.kept keeper.old) site.old block clock (D.held store.new) (C.kept keeper.new)) }
    ensures dates { IfOk result HasDates }
    ensures flagged { IfOk result IsFlagged }
    ensures store { IsErrOf result StoreFault → Rose (D.faults store.old) (D.faults store.new) }
    ensures keeper { IsErrOf result KeeperFault → Rose (C.faults keeper.old) (C.faults keeper.new) }
    ensures none_falls { (D.faults store.old ≤ D.faults store.new) × (C.faults keeper.old ≤ C.faults keeper.new) }
{
    let mut settings = Settings {
        until: None,
        channels: 0,
    };
    let mut lines = Seq::new(alloc);
    for inner in block.into_vec() {
        let reply = serve_inner(
            rt,
            alloc,
            gate,
            channels,
            site,
            store,
            keeper,
            &mut settings,
            inner,
            clock,
        )?;
        add_lines(&mut lines, reply.lines)?;
        if reply.refused {
            return Ok(Reply {
                lines,
                refused: true,
            });
        }
    }
    Ok(reply_of(lines))
}
