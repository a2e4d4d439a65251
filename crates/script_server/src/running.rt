//! The clients of a script over one memo that they share, whose missing keys they claim.

ghost use Rattle.std.specs.Prelude.{◌≡◌, ◌↔◌, ◌<◌, ◌≤◌, ℕ, max, [], All, length, map, vec_capacity, IfOk, IsOk};
ghost use Rattle.csg_tree.specs.HalfSpaceTrees.{Tree};
ghost use Rattle.csg_tree.specs.TreeKeys.{name_of};
ghost use Rattle.memo_core.specs.Views.{headers_in};
ghost use Rattle.subtree_memo.specs.Shares.{IsBlankLedger, opened_shares, offers_of, parts_each};
ghost use Rattle.script_reader.specs.Limits.{AreClientsWithin};
ghost use Rattle.script_service.specs.Serving.{PrintsWeights};
ghost use Rattle.script_server.specs.Books.{IsAskedBy, IsRunOf, weights_of};
ghost use Rattle.script_server.specs.Clients.{MayAskFor, ExportsFor};

use crate::exporter::{Client, ClientExporter, export_source};
use crate::meaning::some_meaning;
use crate::under_way::{UnderWay, Workers};
use csg_tree::TreeKey;
use flight_memo::{Claims, Flight, FlightBlanks, FlightBooks, FlightLedgers, FlightShare};
use memo_core::{MemoCore, Namer};
use memo_shares::owned;
use parallel_eval::{Builds, Gate, OpenGate, ShaNamer, SolidFit};
use plane_predicate::Unit;
use reply_text::{Replies, Reply};
use run_words::Settings;
use script_reader::Script;
use std::alloc::Global;
use std::marker::Brand;
use std::sync::Wait;
use std::sync::ledger::Ledger;
use std::thread::Threads;
use subtree_memo::{AskPolicy, Blanks, Memo, MemoLedger, Tally};
use text_place::NoMemory;

/// What came of a script: the replies to the commands of each client, in the clients' order, and the memo at the end with
/// its tally and its claims.
#[derive(Drop)]
pub struct RunResult<N: Namer<TreeKey>> {
    pub replies: Vec<Replies>,
    pub tally: Tally,
    pub core: MemoCore<SolidFit, N>,
    pub claims: Claims<SolidFit>,
}

// What the entries of each of the first n callers of a memo weigh.
fn weights(
    alloc: Global,
    core: &MemoCore<SolidFit, ShaNamer>,
    callers: u32,
) -> Result<Vec<u64>, NoMemory>
    ensures weights { IfOk result (λ v. v.items ≡ weights_of callers
        (headers_in core.now.entries)) }
    ensures many { IfOk result (λ v. length v.items ≡ callers) }
{
    let mut weights = Vec::new(alloc);
    for caller in 0..callers {
        weights.push(owned(core, caller))?;
    }
    Ok(weights)
}

/// What the entries of each of the first n callers of a memo weigh, where the settings have it printed. Where they don't,
/// no memory is asked for.
pub fn printed_weights(
    alloc: Global,
    settings: Settings,
    core: &MemoCore<SolidFit, ShaNamer>,
    callers: u32,
) -> Result<Vec<u64>, NoMemory>
    ensures weights { IfOk result (λ v. PrintsWeights settings
        → v.items ≡ weights_of callers (headers_in core.now.entries)) }
    ensures spares { (PrintsWeights settings → ⊥) → IsOk result }
{
    let Settings::Run { tally, share, .. } = settings else {
        return Ok(Vec::new(alloc));
    };
    if tally && share > 0 {
        return weights(alloc, core, callers);
    }
    Ok(Vec::new(alloc))
}

// The exporters of callers with these fresh shares, in the order of their numbers, in room that is given for them. All
// export so.
fn exporters_of<B: FlightBooks, F: Copy + Drop>(
    workers: Workers,
    shares: Vec<FlightShare<B>>,
    export: F,
    room: Vec<ClientExporter<Client<B>, F>>,
) -> Vec<ClientExporter<Client<B>, F>>
    requires fresh { All (λ s. (s.share.parts ≡ parts_each) × (offers_of s.share ≡ 0))
        shares.items }
    requires order { map (λ s. s.share) shares.items ≡ opened_shares (length shares.items) }
    requires empty { room.items ≡ [] }
    requires room { length shares.items ≤ vec_capacity room }
    ensures shares { map (λ e. e.client.share) result.items ≡ map (λ s. s.share) shares.items }
    ensures alike { All (λ e. (e.client.asked ≡ 0) × (e.export ≡ export)) result.items }
{
    let mut exporters = room;
    for share in shares {
        exporters.push_reserved(ClientExporter {
            client: Client::new(share, workers),
            export,
        });
    }
    exporters
}

// The shares of exporters, in room that is given for them.
fn shares_of<B: FlightBooks, F: Drop>(
    exporters: Vec<ClientExporter<Client<B>, F>>,
    room: Vec<FlightShare<B>>,
) -> Vec<FlightShare<B>>
    requires empty { room.items ≡ [] }
    requires room { length exporters.items ≤ vec_capacity room }
    ensures shares { map (λ s. s.share) result.items ≡ map (λ e. e.client.share) exporters.items }
    ensures whole { All (λ s. (s.share.parts ≡ parts_each) × (offers_of s.share ≤ s.share.misses))
        result.items }
{
    let mut shares = room;
    for exporter in exporters {
        let ClientExporter { client, .. } = exporter;
        shares.push_reserved(client.into_share());
    }
    shares
}

// Runs the clients over a memo whose ledgers no caller has named.
fn run_over<
    'run,
    N: Namer<TreeKey> + Send + Sync,
    H: MemoLedger + AskPolicy<TreeKey> + Send + Sync,
    M: Ledger + Send + Sync,
    K: Ledger + Send + Sync,
    E: Ledger + Send + Sync,
    S: Ledger + Send + Sync,
    T: Ledger + Send + Sync,
    G: Gate + Sync,
    R: Threads + Wait + Sync,
>(
    rt: &'run R,
    alloc: Global,
    core: MemoCore<SolidFit, N>,
    blanks: Blanks,
    claims: FlightBlanks,
    gate: &'run G,
    workers: Workers,
    unit: Unit,
    script: &Script,
) -> Result<RunResult<N>, NoMemory>
    requires within { AreClientsWithin script.now.clients }
    requires callers { (blanks.callers ≡ max (length script.now.clients) 1)
        × (claims.callers ≡ blanks.callers) }
    requires empty { core.journal ≡ [] }
    requires limits { (core.budget ≡ H.budget) × (core.share ≡ H.share)
        × (blanks.callers ≡ H.callers) }
    requires ledgers { IsBlankLedger H.name H.parts blanks.hits × IsBlankLedger M.name M.parts blanks.misses
        × IsBlankLedger K.name K.parts blanks.kept × IsBlankLedger E.name E.parts blanks.heavy }
    requires claims { IsBlankLedger S.name S.parts claims.begun × IsBlankLedger T.name T.parts claims.held }
    requires policy { (caller : ℕ) (key : Tree) →
        H.may_ask caller key ↔ IsAskedBy unit script.now.clients caller key }
    ensures { IfOk result (λ ran. IsRunOf unit script.now.clients core.budget core.share N.name_of
        ran.replies.items ran.tally ran.core ran.claims) }
{
    // Called for its law; does nothing when it runs: each source has a number of joins. So an export counts where no
    // memory was left for its tree, too.
    some_meaning();
    // All room is taken before the memo opens, and nothing can fail between the claims' opening and their closing: so no way
    // out of this function drops an open memo, whose many types it would prove the drop of.
    let callers = blanks.callers as usize;
    let waiting = Vec::with_capacity(alloc, callers)?;
    let room = Vec::with_capacity(alloc, callers)?;
    let (memo, shares) = Memo::<SolidFit, N, FlightLedgers<H, M, K, E, S, T>>::open(
        alloc, core, blanks,
    )?;
    let (flight, shares) = Flight::open(alloc, SolidFit, memo, shares, claims)?;
    let builds = Builds {
        rt,
        alloc,
        flight: &flight,
        gate,
    };
    let under_way = UnderWay::none();
    let (lent, beside) = (&builds, &under_way);
    let export = |client: &mut Client<
        FlightLedgers<H, M, K, E, S, T>,
    >, unit: Unit, source: &[u8],| -> Result<Reply, NoMemory>
        requires { (length source.now ≤ 4198400) × (client.now.asked < 8192)
            × MayAskFor unit (H.may_ask client.now.share.caller) source.now }
        ensures { ExportsFor unit source.now result client.entry.now client.exit.now }
    { export_source(lent, beside, client, unit, source) };
    let mut exporters = exporters_of(workers, shares, export, waiting);
    let served = script_run::run_script(rt, alloc, &mut exporters, unit, script);
    let shares = shares_of(exporters, room);
    let (tally, core, claims) = flight.close(shares);
    let replies = served?;
    Ok(RunResult {
        replies,
        tally,
        core,
        claims,
    })
}

/// Runs the clients of a script over one memo of this budget and share with these names. An export has the given number of
/// builders at most: those that are under way share them, and each has one at least. Each build of each client enters the gate
/// first, with the client's number from 0; where it is refused, the export is answered as if memory ran out. Where the whole
/// has no memory to begin with, nothing is answered.
pub fn run_named<N: Namer<TreeKey> + Send + Sync, G: Gate + Sync, R: Threads + Wait + Sync>(
    rt: &R,
    alloc: Global,
    script: &Script,
    workers: u64,
    memo: u64,
    share: u64,
    unit: Unit,
    gate: &G,
    namer: N,
) -> Result<RunResult<N>, NoMemory>
    requires within { AreClientsWithin script.now.clients }
    requires workers { (1 ≤ workers) × (workers ≤ 64) }
    ensures { IfOk result (λ ran. IsRunOf unit script.now.clients memo share N.name_of
        ran.replies.items ran.tally ran.core ran.claims) }
{
    // A memo has at least one caller.
    let callers = script.clients.items().len().max(1) as u32;
    let core = MemoCore::new(alloc, SolidFit, namer, memo, share)?;
    let blanks = Blanks::new(callers);
    let claims = FlightBlanks::beside(&blanks);
    let workers = Workers { count: workers };
    run_over::<N, Brand, Brand, Brand, Brand, Brand, Brand, G, R>(
        rt, alloc, core, blanks, claims, gate, workers, unit, script,
    )
}

/// The same with names by digest.
pub fn run_gated<G: Gate + Sync, R: Threads + Wait + Sync>(
    rt: &R,
    alloc: Global,
    script: &Script,
    workers: u64,
    memo: u64,
    share: u64,
    unit: Unit,
    gate: &G,
) -> Result<RunResult<ShaNamer>, NoMemory>
    requires within { AreClientsWithin script.now.clients }
    requires workers { (1 ≤ workers) × (workers ≤ 64) }
    ensures { IfOk result (λ ran. IsRunOf unit script.now.clients memo share name_of
        ran.replies.items ran.tally ran.core ran.claims) }
{
    run_named(
        rt, alloc, script, workers, memo, share, unit, gate, ShaNamer,
    )
}

/// The same with names by digest and a gate that is open.
pub fn run_script<R: Threads + Wait + Sync>(
    rt: &R,
    alloc: Global,
    script: &Script,
    workers: u64,
    memo: u64,
    share: u64,
    unit: Unit,
) -> Result<RunResult<ShaNamer>, NoMemory>
    requires within { AreClientsWithin script.now.clients }
    requires workers { (1 ≤ workers) × (workers ≤ 64) }
    ensures { IfOk result (λ ran. IsRunOf unit script.now.clients memo share name_of
        ran.replies.items ran.tally ran.core ran.claims) }
{
    run_named(
        rt, alloc, script, workers, memo, share, unit, &OpenGate, ShaNamer,
    )
}
