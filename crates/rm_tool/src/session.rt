//! A run over the statements of a script.
ghost use Rattle.std.specs.Prelude.{◌≡◌, ◌≤◌, true, false, None, Some, IfOk, OnOk, OnErr, IsErrOf, IfSome};
ghost use Rattle.rm_base.specs.Outside.{Rose};
ghost use Rattle.rm_commit.specs.declared.commit.Stop.TheVariants.{StoreFault, KeeperFault};
ghost use Rattle.rm_report.specs.Reply.{HasDates, IsFlagged};
ghost use Rattle.rm_tool.specs.Run.{watch};
ghost use Rattle.rm_tool.specs.Serving.{IsServed, IsCutShort, FromEach, Serves, Shows, Closes, EndsAtStatement, EndsInLine, EndsInOutput, EndsInReplies, EndsMidway};

use crate::block::serve_block;
use crate::built::built_statement;
use crate::drill::{Nowhere, Summary, write_line};
use crate::early::Halt;
use crate::tally::Tally;
use rm_base::{Clock, Refusal, Seq, Sink, Store};
use rm_catalog::Keeper;
use rm_channel::Gate;
use rm_commit::Stop;
use rm_lang::Statement;
use rm_lang_token::Token;
use rm_report::{Reply, bytes_of, refusal_reply};
use rm_tool_ends::write_all;
use rm_tool_opening::Site;
use std::alloc::Global;
use std::sync::Wait;
use std::thread::Threads;

// One statement: a step of the machine at the clock's next answer, or those of a RUN, or the refusal of one that is not
// of the grammar or not built, for which the clock is not asked.
fn serve<R: Threads + Wait + Sync, G: Gate, D: Store, C: Keeper, T: Clock>(
    rt: &R,
    alloc: Global,
    gate: &G,
    channels: Option<u32>,
    site: &mut Site,
    store: &mut D,
    keeper: &mut C,
    clock: &mut T,
    line: u32,
    tokens: &[Token],
) -> Result<Reply, Stop>
    requires channels { IfSome channels (λ n. (1 ≤ n) × (n ≤ 16)) }
    requires live { site.old.live ≡ true }
    ensures live { OnOk result (site.new.live ≡ true) }
    ensures served { IfOk result (λ reply. IsServed (D.held store.old) (C.kept keeper.old) site.old (watch (T.answers clock.old) (T.asked clock.old)) (line, tokens.now) reply (D.held store.new) (C.kept keeper.new) site.new (watch (T.answers clock.new) (T.asked clock.new))) }
    ensures cut { OnErr result (IsCutShort (D.held store.old) (C.kept keeper.old) site.old (watch (T.answers clock.old) (T.asked clock.old)) (line, tokens.now) (D.held store.new) (C.kept keeper.new) (watch (T.answers clock.new) (T.asked clock.new))) }
    ensures dates { IfOk result HasDates }
    ensures flagged { IfOk result IsFlagged }
    ensures store { IsErrOf result StoreFault → Rose (D.faults store.old) (D.faults store.new) }
    ensures keeper { IsErrOf result KeeperFault → Rose (C.faults keeper.old) (C.faults keeper.new) }
    ensures none_falls { (D.faults store.old ≤ D.faults store.new) × (C.faults keeper.old ≤ C.faults keeper.new) }
{
    let Some(statement) = built_statement(alloc, tokens)? else {
        return Ok(refusal_reply(alloc, Refusal::Rm01 { line })?);
    };
    let answer = clock.now();
    match statement {
        Statement::Plain(command) => {
            site.step(rt, gate, channels, store, keeper, &command, answer)
        }
        Statement::Run(block) => serve_block(
            rt, alloc, gate, channels, site, store, keeper, block, answer,
        ),
    }
}

// All statements over a live site, each reply written before the next statement. Answers the tally of the replies.
//
// An error ends the session: the sink failed, the site was stopped by its store or its keeper, or
// memory was wanting.
fn serve_all<R: Threads + Wait + Sync, G: Gate, K: Sink, D: Store, C: Keeper, T: Clock>(
    rt: &R,
    alloc: Global,
    gate: &G,
    channels: Option<u32>,
    sink: &mut K,
    site: &mut Site,
    store: &mut D,
    keeper: &mut C,
    clock: &mut T,
    statements: &[(u32, Seq<Token>)],
) -> Result<Tally, Halt>
    requires channels { IfSome channels (λ n. (1 ≤ n) × (n ≤ 16)) }
    requires live { site.old.live ≡ true }
    ensures live { OnOk result (site.new.live ≡ true) }
    ensures ok { IfOk result (λ tally. Serves (watch (T.answers clock.old) (T.asked clock.old)) (watch (T.answers clock.new) (T.asked clock.new)) (K.contents sink.old) (K.contents sink.new) (D.held store.old) (C.kept keeper.old) site.old (D.held store.new) (C.kept keeper.new) site.new tally statements.now) }

    // What was written where it ended early, and what the store and the keeper hold.
    ensures sink { IsErrOf result Halt.Sink → EndsInReplies (FromEach (D.held store.old) (C.kept keeper.old) site.old) site.old.state (watch (T.answers clock.old) (T.asked clock.old)) (watch (T.answers clock.new) (T.asked clock.new)) (K.contents sink.old) (K.contents sink.new) (D.held store.old) (C.kept keeper.old) (D.held store.new) (C.kept keeper.new) statements.now }
    ensures store { IsErrOf result Halt.Store → EndsAtStatement (FromEach (D.held store.old) (C.kept keeper.old) site.old) site.old.state None (watch (T.answers clock.old) (T.asked clock.old)) (watch (T.answers clock.new) (T.asked clock.new)) (K.contents sink.old) (K.contents sink.new) (D.held store.old) (C.kept keeper.old) (D.held store.new) (C.kept keeper.new) statements.now }
    ensures keeper { IsErrOf result Halt.Keeper → EndsAtStatement (FromEach (D.held store.old) (C.kept keeper.old) site.old) site.old.state None (watch (T.answers clock.old) (T.asked clock.old)) (watch (T.answers clock.new) (T.asked clock.new)) (K.contents sink.old) (K.contents sink.new) (D.held store.old) (C.kept keeper.old) (D.held store.new) (C.kept keeper.new) statements.now }
    ensures memory { IsErrOf result Halt.NoMemory → EndsAtStatement (FromEach (D.held store.old) (C.kept keeper.old) site.old) site.old.state None (watch (T.answers clock.old) (T.asked clock.old)) (watch (T.answers clock.new) (T.asked clock.new)) (K.contents sink.old) (K.contents sink.new) (D.held store.old) (C.kept keeper.old) (D.held store.new) (C.kept keeper.new) statements.now }

    // Whose count rose.
    ensures sink_failed { IsErrOf result Halt.Sink → Rose (K.faults sink.old) (K.faults sink.new) }
    ensures store_failed { IsErrOf result Halt.Store → Rose (D.faults store.old) (D.faults store.new) }
    ensures keeper_failed { IsErrOf result Halt.Keeper → Rose (C.faults keeper.old) (C.faults keeper.new) }
    ensures none_falls { (K.faults sink.old ≤ K.faults sink.new) × (D.faults store.old ≤ D.faults store.new) × (C.faults keeper.old ≤ C.faults keeper.new) }
{
    let mut tally = Tally::new();
    for (line, tokens) in statements {
        let reply = serve(
            rt,
            alloc,
            gate,
            channels,
            site,
            store,
            keeper,
            clock,
            *line,
            tokens.as_slice(),
        )?;
        let bytes = bytes_of(alloc, &reply)?;
        write_all(sink, bytes.as_slice())?;
        tally = tally.after(&reply);
    }
    Ok(tally)
}

// All statements of a drill, of whose replies nothing is written, and then its line. Answers whether a statement was refused.
fn serve_drill<R: Threads + Wait + Sync, G: Gate, K: Sink, D: Store, C: Keeper, T: Clock>(
    rt: &R,
    alloc: Global,
    gate: &G,
    channels: Option<u32>,
    number: u64,
    sink: &mut K,
    site: &mut Site,
    store: &mut D,
    keeper: &mut C,
    clock: &mut T,
    statements: &[(u32, Seq<Token>)],
) -> Result<bool, Halt>
    requires channels { IfSome channels (λ n. (1 ≤ n) × (n ≤ 16)) }
    requires live { site.old.live ≡ true }
    ensures live { OnOk result (site.new.live ≡ true) }
    ensures ok { IfOk result (λ refused. Shows (Some number) (watch (T.answers clock.old) (T.asked clock.old)) (watch (T.answers clock.new) (T.asked clock.new)) (K.contents sink.old) (K.contents sink.new) (D.held store.old) (C.kept keeper.old) site.old (D.held store.new) (C.kept keeper.new) site.new refused statements.now) }

    // What was written where it ended early, and what the store and the keeper hold.
    ensures sink { IsErrOf result Halt.Sink → EndsInLine (FromEach (D.held store.old) (C.kept keeper.old) site.old) site.old.state number (watch (T.answers clock.old) (T.asked clock.old)) (watch (T.answers clock.new) (T.asked clock.new)) (K.contents sink.old) (K.contents sink.new) (D.held store.old) (C.kept keeper.old) (D.held store.new) (C.kept keeper.new) statements.now }
    ensures store { IsErrOf result Halt.Store → EndsAtStatement (FromEach (D.held store.old) (C.kept keeper.old) site.old) site.old.state (Some number) (watch (T.answers clock.old) (T.asked clock.old)) (watch (T.answers clock.new) (T.asked clock.new)) (K.contents sink.old) (K.contents sink.new) (D.held store.old) (C.kept keeper.old) (D.held store.new) (C.kept keeper.new) statements.now }
    ensures keeper { IsErrOf result Halt.Keeper → EndsAtStatement (FromEach (D.held store.old) (C.kept keeper.old) site.old) site.old.state (Some number) (watch (T.answers clock.old) (T.asked clock.old)) (watch (T.answers clock.new) (T.asked clock.new)) (K.contents sink.old) (K.contents sink.new) (D.held store.old) (C.kept keeper.old) (D.held store.new) (C.kept keeper.new) statements.now }
    ensures memory { IsErrOf result Halt.NoMemory → EndsAtStatement (FromEach (D.held store.old) (C.kept keeper.old) site.old) site.old.state (Some number) (watch (T.answers clock.old) (T.asked clock.old)) (watch (T.answers clock.new) (T.asked clock.new)) (K.contents sink.old) (K.contents sink.new) (D.held store.old) (C.kept keeper.old) (D.held store.new) (C.kept keeper.new) statements.now }

    // Whose count rose.
    ensures sink_failed { IsErrOf result Halt.Sink → Rose (K.faults sink.old) (K.faults sink.new) }
    ensures store_failed { IsErrOf result Halt.Store → Rose (D.faults store.old) (D.faults store.new) }
    ensures keeper_failed { IsErrOf result Halt.Keeper → Rose (C.faults keeper.old) (C.faults keeper.new) }
    ensures none_falls { (K.faults sink.old ≤ K.faults sink.new) × (D.faults store.old ≤ D.faults store.new) × (C.faults keeper.old ≤ C.faults keeper.new) }
{
    let tally = serve_all(
        rt,
        alloc,
        gate,
        channels,
        &mut Nowhere,
        site,
        store,
        keeper,
        clock,
        statements,
    )?;
    let summary = Summary {
        number,
        statements: statements.len() as u64,
        tally,
        next_scn: site.next_scn(),
        objects: site.objects(),
    };
    write_line(sink, summary)?;
    Ok(tally.has_refused())
}

// All statements, and what the session writes of them: each reply, or of a drill its line. Answers whether a statement was refused.
fn serve_shown<R: Threads + Wait + Sync, G: Gate, K: Sink, D: Store, C: Keeper, T: Clock>(
    rt: &R,
    alloc: Global,
    gate: &G,
    channels: Option<u32>,
    drill: Option<u64>,
    sink: &mut K,
    site: &mut Site,
    store: &mut D,
    keeper: &mut C,
    clock: &mut T,
    statements: &[(u32, Seq<Token>)],
) -> Result<bool, Halt>
    requires channels { IfSome channels (λ n. (1 ≤ n) × (n ≤ 16)) }
    requires live { site.old.live ≡ true }
    ensures live { OnOk result (site.new.live ≡ true) }
    ensures ok { IfOk result (λ refused. Shows drill (watch (T.answers clock.old) (T.asked clock.old)) (watch (T.answers clock.new) (T.asked clock.new)) (K.contents sink.old) (K.contents sink.new) (D.held store.old) (C.kept keeper.old) site.old (D.held store.new) (C.kept keeper.new) site.new refused statements.now) }

    // What was written where it ended early, and what the store and the keeper hold.
    ensures sink { IsErrOf result Halt.Sink → EndsInOutput (FromEach (D.held store.old) (C.kept keeper.old) site.old) site.old.state drill (watch (T.answers clock.old) (T.asked clock.old)) (watch (T.answers clock.new) (T.asked clock.new)) (K.contents sink.old) (K.contents sink.new) (D.held store.old) (C.kept keeper.old) (D.held store.new) (C.kept keeper.new) statements.now }
    ensures store { IsErrOf result Halt.Store → EndsAtStatement (FromEach (D.held store.old) (C.kept keeper.old) site.old) site.old.state drill (watch (T.answers clock.old) (T.asked clock.old)) (watch (T.answers clock.new) (T.asked clock.new)) (K.contents sink.old) (K.contents sink.new) (D.held store.old) (C.kept keeper.old) (D.held store.new) (C.kept keeper.new) statements.now }
    ensures keeper { IsErrOf result Halt.Keeper → EndsAtStatement (FromEach (D.held store.old) (C.kept keeper.old) site.old) site.old.state drill (watch (T.answers clock.old) (T.asked clock.old)) (watch (T.answers clock.new) (T.asked clock.new)) (K.contents sink.old) (K.contents sink.new) (D.held store.old) (C.kept keeper.old) (D.held store.new) (C.kept keeper.new) statements.now }
    ensures memory { IsErrOf result Halt.NoMemory → EndsAtStatement (FromEach (D.held store.old) (C.kept keeper.old) site.old) site.old.state drill (watch (T.answers clock.old) (T.asked clock.old)) (watch (T.answers clock.new) (T.asked clock.new)) (K.contents sink.old) (K.contents sink.new) (D.held store.old) (C.kept keeper.old) (D.held store.new) (C.kept keeper.new) statements.now }

    // Whose count rose.
    ensures sink_failed { IsErrOf result Halt.Sink → Rose (K.faults sink.old) (K.faults sink.new) }
    ensures store_failed { IsErrOf result Halt.Store → Rose (D.faults store.old) (D.faults store.new) }
    ensures keeper_failed { IsErrOf result Halt.Keeper → Rose (C.faults keeper.old) (C.faults keeper.new) }
    ensures none_falls { (K.faults sink.old ≤ K.faults sink.new) × (D.faults store.old ≤ D.faults store.new) × (C.faults keeper.old ≤ C.faults keeper.new) }
{
    if let Some(number) = drill {
        return serve_drill(
            rt, alloc, gate, channels, number, sink, site, store, keeper, clock, statements,
        );
    }
    let tally = serve_all(
        rt, alloc, gate, channels, sink, site, store, keeper, clock, statements,
    )?;
    Ok(tally.has_refused())
}

/// A session over a site that was just opened: all statements, each reply written before the next statement, or of a drill
/// its line behind all of them, and then the site is saved. Answers whether a statement was refused.
///
/// An error ends the session: the sink failed, the site was stopped by its store or its keeper, or memory was wanting.
pub fn serve_session<R: Threads + Wait + Sync, G: Gate, K: Sink, D: Store, C: Keeper, T: Clock>(
    rt: &R,
    alloc: Global,
    gate: &G,
    channels: Option<u32>,
    drill: Option<u64>,
    sink: &mut K,
    site: Site,
    store: &mut D,
    keeper: &mut C,
    clock: &mut T,
    statements: &[(u32, Seq<Token>)],
) -> Result<bool, Halt>
    requires channels { IfSome channels (λ n. (1 ≤ n) × (n ≤ 16)) }
    requires live { site.live ≡ true }
    requires fresh { site.applied ≡ false }
    ensures ok { IfOk result (λ refused. Closes (FromEach (D.held store.old) (C.kept keeper.old) site) site.state drill (watch (T.answers clock.old) (T.asked clock.old)) (watch (T.answers clock.new) (T.asked clock.new)) (K.contents sink.old) (K.contents sink.new) (D.held store.old) (C.kept keeper.old) (D.held store.new) (C.kept keeper.new) refused statements.now) }

    // What was written where it ended early, and what the store and the keeper hold.
    ensures sink { IsErrOf result Halt.Sink → EndsInOutput (FromEach (D.held store.old) (C.kept keeper.old) site) site.state drill (watch (T.answers clock.old) (T.asked clock.old)) (watch (T.answers clock.new) (T.asked clock.new)) (K.contents sink.old) (K.contents sink.new) (D.held store.old) (C.kept keeper.old) (D.held store.new) (C.kept keeper.new) statements.now }
    ensures store { IsErrOf result Halt.Store → EndsMidway (FromEach (D.held store.old) (C.kept keeper.old) site) site.state drill (watch (T.answers clock.old) (T.asked clock.old)) (watch (T.answers clock.new) (T.asked clock.new)) (K.contents sink.old) (K.contents sink.new) (D.held store.old) (C.kept keeper.old) (D.held store.new) (C.kept keeper.new) statements.now }
    ensures keeper { IsErrOf result Halt.Keeper → EndsMidway (FromEach (D.held store.old) (C.kept keeper.old) site) site.state drill (watch (T.answers clock.old) (T.asked clock.old)) (watch (T.answers clock.new) (T.asked clock.new)) (K.contents sink.old) (K.contents sink.new) (D.held store.old) (C.kept keeper.old) (D.held store.new) (C.kept keeper.new) statements.now }
    ensures memory { IsErrOf result Halt.NoMemory → EndsMidway (FromEach (D.held store.old) (C.kept keeper.old) site) site.state drill (watch (T.answers clock.old) (T.asked clock.old)) (watch (T.answers clock.new) (T.asked clock.new)) (K.contents sink.old) (K.contents sink.new) (D.held store.old) (C.kept keeper.old) (D.held store.new) (C.kept keeper.new) statements.now }

    // Whose count rose.
    ensures sink_failed { IsErrOf result Halt.Sink → Rose (K.faults sink.old) (K.faults sink.new) }
    ensures store_failed { IsErrOf result Halt.Store → Rose (D.faults store.old) (D.faults store.new) }
    ensures keeper_failed { IsErrOf result Halt.Keeper → Rose (C.faults keeper.old) (C.faults keeper.new) }
    ensures none_falls { (K.faults sink.old ≤ K.faults sink.new) × (D.faults store.old ≤ D.faults store.new) × (C.faults keeper.old ≤ C.faults keeper.new) }
{
    let mut site = site;
    let refused = serve_shown(
        rt, alloc, gate, channels, drill, sink, &mut site, store, keeper, clock, statements,
    )?;
    site.save(store, keeper)?;
    Ok(refused)
}
