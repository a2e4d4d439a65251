//! Runs of clients.

ghost use Rattle.std.specs.Prelude.{replicate};
ghost use Rattle.script_reader.specs.Limits.{AreClientsWithin};

use crate::gating::{Gating, Rule};
use crate::setting::Setting;
use crate::told::{Ended, put_ended};
use case_lines::{CaseStop, put, put_runs};
use csg_tree::TreeKey;
use flight_memo::LogItem;
use memo_core::{NAME_BYTES, Name, Namer};
use parallel_eval::ShaNamer;
use plain_text::NoMemory;
use plane_predicate::Unit;
use script_reader::{Script, ScriptFault, read_script};
use script_server::run_named;
use std::alloc::Global;
use std::sync::Wait;
use std::thread::Threads;

// Names all trees alike.
#[derive(Drop)]
struct Alike;

impl Namer<TreeKey> for Alike {
    ghost name_of = { λ key. replicate 32 0 };

    fn name(&self, _key: &TreeKey) -> Name {
        [0; NAME_BYTES]
    }
}

// Adds the commands of a client with this letter, who puts a source and then exports so often.
fn put_client(out: &mut Vec<u8>, letter: u8, source: &[u8], exports: u32) -> Result<(), NoMemory> {
    out.push(letter)?;
    put(out, b" put 1")?;
    put(out, source)?;
    put(out, b"\n")?;
    for _ in 0..exports {
        out.push(letter)?;
        put(out, b" export\n")?;
    }
    Ok(())
}

// The script of clients with the letters from a on, who have these sources in turn.
fn script_of(alloc: Global, setting: Setting, sources: &[&[u8]]) -> Result<Vec<u8>, NoMemory> {
    let mut script = Vec::new(alloc);
    for (client, source) in (0..setting.clients).zip(sources.iter().cycle()) {
        put_client(
            &mut script,
            b'a'.saturating_add(client),
            source,
            setting.exports,
        )?;
    }
    Ok(script)
}

// How many claims began and how many ended by a log.
fn counts_of<K>(log: &[LogItem<K>]) -> (u64, u64) {
    let mut counts = (0u64, 0u64);
    for item in log {
        match item {
            LogItem::Begun { .. } => counts.0 = counts.0.saturating_add(1),
            LogItem::Ended { .. } => counts.1 = counts.1.saturating_add(1),
        }
    }
    counts
}

// Runs a script with these names.
fn run_by<N: Namer<TreeKey> + Send + Sync, R: Threads + Wait + Sync>(
    rt: &R,
    alloc: Global,
    script: &Script,
    setting: Setting,
    gate: &Gating,
    namer: N,
) -> Result<Ended, NoMemory>
    requires { AreClientsWithin script.now.clients }
{
    let ran = run_named(
        rt,
        alloc,
        script,
        setting.workers.clamp(1, 64),
        setting.memo,
        setting.share,
        Unit::Whole,
        gate,
        namer,
    )?;
    let mut weight = 0u64;
    for client in 0..u32::from(setting.clients) {
        weight = weight.saturating_add(ran.core.weight_of(client));
    }
    let (begun, ended) = counts_of(ran.claims.log());
    Ok(Ended {
        weight,
        begun,
        ended,
        tally: ran.tally,
        replies: ran.replies,
    })
}

// Runs clients with these sources.
fn run<R: Threads + Wait + Sync>(
    rt: &R,
    alloc: Global,
    setting: Setting,
    gate: &Gating,
    sources: &[&[u8]],
) -> Result<Ended, CaseStop> {
    let script = match read_script(alloc, &script_of(alloc, setting, sources)?) {
        Ok(script) => script,
        Err(ScriptFault::NoMemory) => return Err(CaseStop::NoMemory),
        Err(_) => return Err(CaseStop::Unread),
    };
    let ended = if setting.are_alike {
        run_by(rt, alloc, &script, setting, gate, Alike)
    } else {
        run_by(rt, alloc, &script, setting, gate, ShaNamer)
    };
    Ok(ended?)
}

// The report on one run.
fn put_run<R: Threads + Wait + Sync>(
    rt: &R,
    alloc: Global,
    out: &mut Vec<u8>,
    setting: Setting,
    sources: &[&[u8]],
    plain: &Ended,
) -> Result<(), CaseStop> {
    let gate = Gating::new(setting.rule);
    let ended = run(rt, alloc, setting, &gate, sources)?;
    if let Rule::Meeting(count) = setting.rule {
        let have_met = gate.have_met(rt, count);
        put(out, if have_met { b"met; " } else { b"not met; " })?;
    }
    put_ended(alloc, out, setting, &ended, plain)
}

/// The report on each run of clients: one answer, where it is the same each time.
pub fn put_clients<R: Threads + Wait + Sync>(
    rt: &R,
    alloc: Global,
    out: &mut Vec<u8>,
    setting: Setting,
    sources: &[&[u8]],
) -> Result<(), CaseStop> {
    let alone = setting.plain();
    let plain = run(rt, alloc, alone, &Gating::new(alone.rule), sources)?;
    put_runs(
        alloc,
        out,
        setting.times,
        |told: &mut Vec<u8>| -> Result<(), CaseStop> {
            put_run(rt, alloc, told, setting, sources, &plain)
        },
    )
}
