//! Two clients that share a memo, step by step.

ghost use Rattle.std.specs.Prelude.{◌≡◌, ◌*◌, length, true, nat_lt, if◌then◌else◌};
ghost use Rattle.std.specs.Arc.{arc_value};

use crate::journals::put_items;
use crate::limits::Limits;
use crate::pieces::{LastDigits, Piece, Pieces};
use case_lines::{CaseStop, Phrase, found, put, put_number};
use plain_text::NoMemory;
use share_core::{Act, Event, Stepped, Work, World, run};
use std::alloc::Global;
use std::sync::Arc;

// The key of the one node that each client has.
const KEY: u32 = 1;

// Two clients of one command, which has one node; both nodes have one key. A node's piece weighs five times its key, which
// is the reply too.
#[derive(Drop)]
struct Pair {
    key: Arc<u32>,
}

impl Work<Pieces> for Pair {
    type Reply = u64;

    ghost tasks = { λ w. record {
      commands = λ client. if nat_lt client 2 then 1 else 0;
      nodes = λ client command. 1;
      key = λ client command node. arc_value w.key;
      ready = λ client command node have. true;
      reply = λ client command. arc_value w.key * 5;
    } };

    fn commands(&self, client: u32) -> u32 {
        if client < 2 { 1 } else { 0 }
    }

    fn nodes(&self, _client: u32, _command: u32) -> u32 {
        1
    }

    fn key(&self, _client: u32, _command: u32, _node: u32) -> &Arc<u32> {
        &self.key
    }

    fn ready(&self, _client: u32, _command: u32, _node: u32, _have: &[Option<Arc<Piece>>]) -> bool {
        true
    }

    fn build(
        &self,
        alloc: Global,
        _client: u32,
        _command: u32,
        _node: u32,
        _have: &[Option<Arc<Piece>>],
    ) -> Result<(Arc<Piece>, u64), NoMemory> {
        let weight = u64::from(*self.key) * 5;
        Ok((Arc::new(alloc, Piece { weight })?, weight))
    }

    fn reply(
        &self,
        _alloc: Global,
        _client: u32,
        _command: u32,
        _have: &[Option<Arc<Piece>>],
    ) -> Result<u64, NoMemory> {
        Ok(u64::from(*self.key) * 5)
    }

    ghost stays_ready = { λ w client command node have more m r. r };
}

#[derive(Clone, Copy)]
enum Word {
    Command,
    Probe,
    Build,
    Fill,
    Reply,
}

const WORDS: [(&[u8], Word); 5] = [
    (b"command", Word::Command),
    (b"probe", Word::Probe),
    (b"build", Word::Build),
    (b"fill", Word::Fill),
    (b"reply", Word::Reply),
];

// The step that a phrase says.
fn event_of(phrase: &Phrase) -> Result<Event, CaseStop> {
    let word = found(&WORDS, &phrase.word).ok_or(CaseStop::Unread)?;
    let node = phrase.small_number(1);
    Ok(Event {
        client: phrase.small_number(0),
        act: match word {
            Word::Command => Act::Command,
            Word::Probe => Act::Probe(node),
            Word::Build => Act::Build(node),
            Word::Fill => Act::Fill(node),
            Word::Reply => Act::Reply,
        },
    })
}

// Takes steps, and tells of each whether it was taken.
fn put_steps(
    alloc: Global,
    out: &mut Vec<u8>,
    world: &mut World<Pieces, LastDigits, Pair>,
    events: &[Event],
) -> Result<(), NoMemory>
    requires { length world.old.1.parts ≡ 2 }
    ensures { length world.new.1.parts ≡ 2 }
{
    for event in events {
        let told: &[u8] = match world.step(alloc, *event)? {
            Stepped::Taken => b"taken; ",
            Stepped::NotReady => b"not ready; ",
        };
        put(out, told)?;
    }
    Ok(())
}

// The replies of a client.
fn put_replies(alloc: Global, out: &mut Vec<u8>, replies: &[u64]) -> Result<(), NoMemory> {
    put(out, b"replies")?;
    for reply in replies {
        put(out, b" ")?;
        put_number(alloc, out, i128::from(*reply))?;
    }
    put(out, b"; ")
}

// The replies of both clients, and the journal.
fn put_world(
    alloc: Global,
    out: &mut Vec<u8>,
    world: &World<Pieces, LastDigits, Pair>,
) -> Result<(), NoMemory>
    requires { length world.now.1.parts ≡ 2 }
{
    put_replies(alloc, out, world.replies(0))?;
    put_replies(alloc, out, world.replies(1))?;
    put_items(alloc, out, world.journal())
}

// What steps leave, taken one by one on a world that is lent, and of each whether it was taken.
fn put_stepped(
    alloc: Global,
    out: &mut Vec<u8>,
    left: &mut Vec<u8>,
    world: &mut World<Pieces, LastDigits, Pair>,
    events: &[Event],
) -> Result<(), NoMemory>
    requires { length world.old.1.parts ≡ 2 }
{
    put_steps(alloc, out, world, events)?;
    put_world(alloc, left, world)
}

// The same on a new world.
fn put_one_by_one(
    alloc: Global,
    out: &mut Vec<u8>,
    left: &mut Vec<u8>,
    limits: Limits,
    events: &[Event],
) -> Result<(), NoMemory> {
    let work = Pair {
        key: Arc::new(alloc, KEY)?,
    };
    let mut world = World::new(
        alloc,
        Pieces,
        LastDigits,
        work,
        2,
        limits.budget,
        limits.share,
    )?;
    put_stepped(alloc, out, left, &mut world, events)
}

// What steps leave, taken as one run.
fn put_run(
    alloc: Global,
    left: &mut Vec<u8>,
    limits: Limits,
    events: &[Event],
) -> Result<(), NoMemory> {
    let work = Pair {
        key: Arc::new(alloc, KEY)?,
    };
    let world = run(
        alloc,
        Pieces,
        LastDigits,
        work,
        2,
        limits.budget,
        limits.share,
        events,
    )?;
    put_world(alloc, left, &world)
}

/// What becomes of the steps that phrases say.
pub fn put_clients(
    alloc: Global,
    out: &mut Vec<u8>,
    limits: Limits,
    phrases: &[Phrase],
) -> Result<(), CaseStop> {
    let mut events = Vec::new(alloc);
    for phrase in phrases {
        events.push(event_of(phrase)?)?;
    }
    let mut left = Vec::new(alloc);
    put_one_by_one(alloc, out, &mut left, limits, &events)?;
    let mut at_once = Vec::new(alloc);
    put_run(alloc, &mut at_once, limits, &events)?;
    put(out, &left)?;
    if left == at_once {
        put(out, b"; the same in one run")?;
    } else {
        put(out, b"; in one run ")?;
        put(out, &at_once)?;
    }
    Ok(())
}
