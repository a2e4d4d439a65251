//! Two callers that share a memo, and claim the keys that they miss.

ghost use Rattle.std.specs.Prelude.{◌≡◌, ℕ, ◌+◌, ◌*◌, ◌<◌, ◌≤◌, []};
ghost use Rattle.subtree_memo.specs.Shares.{IsBlankLedger};

use crate::acts::{Act, Answer, acts_of};
use crate::limits::Limits;
use crate::meeting::Meeting;
use crate::pieces::{LastDigits, Piece, Pieces};
use crate::told::{RunEnd, put_ended};
use case_lines::{CaseStop, Phrase, found, put_runs};
use flight_memo::{Claim, Claimed, Flight, FlightBlanks, FlightBooks, FlightLedgers, FlightShare};
use memo_core::MemoCore;
use plain_text::NoMemory;
use std::alloc::Global;
use std::marker::Brand;
use std::sync::ledger::Ledger;
use std::sync::{Arc, Wait};
use std::thread;
use std::thread::Threads;
use subtree_memo::{AskPolicy, Blanks, Memo, MemoLedger};

// What a caller was answered, and the first piece that it brought, if it did.
#[derive(Drop)]
struct Notes {
    answers: Vec<Answer>,
    first: Option<Arc<Piece>>,
}

impl Notes {
    // A new piece.
    fn bring(&mut self, alloc: Global, weight: u64) -> Result<Arc<Piece>, NoMemory> {
        let piece = Arc::new(alloc, Piece { weight })?;
        if self.first.is_none() {
            self.first = Some(Arc::try_clone(&piece)?);
        }
        Ok(piece)
    }

    // How many hold on to the first piece.
    fn holders(&self) -> usize {
        match &self.first {
            Some(piece) => Arc::strong_count(piece),
            None => 0,
        }
    }
}

// Finishes a claim by a piece, or gives it back where there is none.
fn end_claim<B: FlightBooks + AskPolicy<u32>, R: Wait>(
    rt: &R,
    alloc: Global,
    flight: &Flight<Pieces, LastDigits, B>,
    share: &mut FlightShare<B>,
    claim: Claim<u32, B>,
    piece: Option<Arc<Piece>>,
) -> Answer
    requires caller { claim.share.caller ≡ share.old.share.caller }
    requires policy { (caller key : ℕ) → B.may_ask caller key }
    ensures parts { share.new.share.parts ≡ share.old.share.parts + claim.share.parts }
    ensures caller { share.new.share.caller ≡ share.old.share.caller }
{
    match piece {
        Some(piece) => {
            let weight = piece.weight;
            Answer::Finished(flight.finish(rt, alloc, share, claim, piece, weight))
        }
        None => {
            flight.give_back(rt, share, claim);
            Answer::GivenBack
        }
    }
}

// Asks for a key, and ends its claim behind a meeting of the given number.
fn ask<B: FlightBooks + AskPolicy<u32>, R: Wait>(
    rt: &R,
    alloc: Global,
    flight: &Flight<Pieces, LastDigits, B>,
    share: &mut FlightShare<B>,
    key: &Arc<u32>,
    piece: Option<Arc<Piece>>,
    meeting: (&Meeting, u64),
) -> Answer
    requires some { 0 < share.old.share.parts }
    requires policy { (caller key : ℕ) → B.may_ask caller key }
    ensures parts { share.new.share.parts ≡ share.old.share.parts }
    ensures caller { share.new.share.caller ≡ share.old.share.caller }
{
    match flight.claim(rt, alloc, share, key) {
        Ok(Claimed::Value(found)) => Answer::Value(found.weight),
        Ok(Claimed::Mine(claim)) => {
            let have_met = meeting.0.meet(meeting.1);
            let ended = end_claim(rt, alloc, flight, share, claim, piece);
            if have_met { ended } else { Answer::MetInVain }
        }
        Err(NoMemory) => Answer::NoMemory,
    }
}

// The same by a part of the share, which is split off and absorbed.
fn ask_by_part<B: FlightBooks + AskPolicy<u32>, R: Wait>(
    rt: &R,
    alloc: Global,
    flight: &Flight<Pieces, LastDigits, B>,
    share: &mut FlightShare<B>,
    key: &Arc<u32>,
    piece: Option<Arc<Piece>>,
    meeting: (&Meeting, u64),
) -> Answer
    requires some { 2 ≤ share.old.share.parts }
    requires policy { (caller key : ℕ) → B.may_ask caller key }
    ensures { share.new.share.parts ≡ share.old.share.parts }
{
    let mut part = share.split();
    let answer = ask(rt, alloc, flight, &mut part, key, piece, meeting);
    share.absorb(part);
    answer
}

// Does one act.
fn do_act<B: FlightBooks + AskPolicy<u32>, R: Wait>(
    rt: &R,
    alloc: Global,
    flight: &Flight<Pieces, LastDigits, B>,
    share: &mut FlightShare<B>,
    notes: &mut Notes,
    meeting: &Meeting,
    act: Act,
) -> Result<Answer, NoMemory>
    requires some { 2 ≤ share.old.share.parts }
    requires policy { (caller key : ℕ) → B.may_ask caller key }
    ensures { share.new.share.parts ≡ share.old.share.parts }
{
    match act {
        Act::Claim {
            key,
            weight,
            meeting: count,
        } => {
            let key = Arc::new(alloc, key)?;
            let piece = match weight {
                Some(weight) => Some(notes.bring(alloc, weight)?),
                None => None,
            };
            Ok(ask_by_part(rt, alloc, flight, share, &key, piece, (meeting, count)))
        }
        Act::Meet(count) => Ok(if meeting.meet(count) {
            Answer::Met
        } else {
            Answer::MetInVain
        }),
        Act::Holders => Ok(Answer::Holders(notes.holders())),
    }
}

// Does all acts of a caller.
fn do_acts<B: FlightBooks + AskPolicy<u32>, R: Wait>(
    rt: &R,
    alloc: Global,
    flight: &Flight<Pieces, LastDigits, B>,
    mut share: FlightShare<B>,
    meeting: &Meeting,
    acts: &[Act],
) -> (Vec<Answer>, FlightShare<B>)
    requires some { 2 ≤ share.share.parts }
    requires policy { (caller key : ℕ) → B.may_ask caller key }
    ensures { result.1.share.parts ≡ share.share.parts }
{
    let mut notes = Notes {
        answers: Vec::new(alloc),
        first: None,
    };
    for act in acts {
        let answer = do_act(rt, alloc, flight, &mut share, &mut notes, meeting, *act);
        let _noted = notes.answers.push(answer.unwrap_or(Answer::NoMemory));
    }
    let Notes { answers, .. } = notes;
    (answers, share)
}

// Two callers do their acts at the same time.
fn run<
    H: MemoLedger + AskPolicy<u32> + Send + Sync,
    M: Ledger + Send + Sync,
    K: Ledger + Send + Sync,
    E: Ledger + Send + Sync,
    Begins: Ledger + Send + Sync,
    Holds: Ledger + Send + Sync,
    R: Threads + Wait + Sync,
>(
    rt: &R,
    alloc: Global,
    core: MemoCore<Pieces, LastDigits>,
    blanks: Blanks,
    claims: FlightBlanks,
    acts: (&[Act], &[Act]),
) -> Result<RunEnd, NoMemory>
    requires empty { core.journal ≡ [] }
    requires limits { (core.budget ≡ H.budget) × (core.share ≡ H.share)
        × (blanks.callers ≡ H.callers) }
    requires callers { (blanks.callers ≡ 2) × (claims.callers ≡ 2) }
    requires memo { IsBlankLedger H.name H.parts blanks.hits × IsBlankLedger M.name M.parts blanks.misses
        × IsBlankLedger K.name K.parts blanks.kept × IsBlankLedger E.name E.parts blanks.heavy }
    requires claims { IsBlankLedger Begins.name Begins.parts claims.begun
        × IsBlankLedger Holds.name Holds.parts claims.held }
    requires policy { (caller key : ℕ) → H.may_ask caller key }
{
    // Nothing can fail between the claims' opening and their closing, so that no way out drops an open memo.
    let (memo, shares) = Memo::<Pieces, LastDigits, FlightLedgers<H, M, K, E, Begins, Holds>>::open(
        alloc, core, blanks,
    )?;
    let (flight, mut shares) = Flight::open(alloc, Pieces, memo, shares, claims)?;
    let second = shares.pop().unwrap();
    let first = shares.pop().unwrap();
    let meeting = Meeting::new();
    let (shared, met) = (&flight, &meeting);
    let (firsts, seconds) = acts;
    let ((first_told, first), (second_told, second)) = thread::join(
        rt,
        move || -> (
            Vec<Answer>,
            FlightShare<FlightLedgers<H, M, K, E, Begins, Holds>>,
        )
            requires { (2 ≤ first.share.parts) × ((caller key : ℕ) → H.may_ask caller key) }
            ensures { result.1.share.parts ≡ first.share.parts }
        { do_acts(rt, alloc, shared, first, met, firsts) },
        move || -> (
            Vec<Answer>,
            FlightShare<FlightLedgers<H, M, K, E, Begins, Holds>>,
        )
            requires { (2 ≤ second.share.parts) × ((caller key : ℕ) → H.may_ask caller key) }
            ensures { result.1.share.parts ≡ second.share.parts }
        { do_acts(rt, alloc, shared, second, met, seconds) },
    );
    shares.push_reserved(first);
    shares.push_reserved(second);
    let (tally, core, claims) = flight.close(shares);
    Ok(RunEnd {
        first: first_told,
        second: second_told,
        tally,
        weight: core.weight(),
        items: core.journal().len(),
        claims,
    })
}

// The same, for a caller that has no ledgers.
fn two_callers<R: Threads + Wait + Sync>(
    rt: &R,
    alloc: Global,
    limits: Limits,
    acts: (&[Act], &[Act]),
) -> Result<RunEnd, NoMemory> {
    let core = MemoCore::new(alloc, Pieces, LastDigits, limits.budget, limits.share)?;
    let blanks = Blanks::new(2);
    let claims = FlightBlanks::beside(&blanks);
    run::<Brand, Brand, Brand, Brand, Brand, Brand, R>(rt, alloc, core, blanks, claims, acts)
}

// How often callers are run, and the report on them.
#[derive(Clone, Copy)]
struct Setting {
    times: u32,
    is_told: bool,
    has_log: bool,
}

#[derive(Clone, Copy)]
enum Word {
    Times,
    Told,
    Log,
}

const WORDS: [(&[u8], Word); 3] = [
    (b"times", Word::Times),
    (b"told", Word::Told),
    (b"log", Word::Log),
];

// What phrases set.
fn setting_of(phrases: &[Phrase]) -> Result<Setting, CaseStop> {
    let mut setting = Setting {
        times: 1,
        is_told: false,
        has_log: false,
    };
    for phrase in phrases {
        match found(&WORDS, &phrase.word).ok_or(CaseStop::Unread)? {
            Word::Times => setting.times = phrase.small_number(0),
            Word::Told => setting.is_told = true,
            Word::Log => setting.has_log = true,
        }
    }
    Ok(setting)
}

// The report on one run.
fn put_run<R: Threads + Wait + Sync>(
    rt: &R,
    alloc: Global,
    out: &mut Vec<u8>,
    limits: Limits,
    setting: Setting,
    acts: (&[Act], &[Act]),
) -> Result<(), CaseStop> {
    let ended = two_callers(rt, alloc, limits, acts)?;
    Ok(put_ended(alloc, out, &ended, setting.is_told, setting.has_log)?)
}

/// The report on each run of two callers: one answer, where it is the same each time.
pub fn put_callers<R: Threads + Wait + Sync>(
    rt: &R,
    alloc: Global,
    out: &mut Vec<u8>,
    limits: Limits,
    phrases: &[Phrase],
    lists: &[&[u8]],
) -> Result<(), CaseStop> {
    let setting = setting_of(phrases)?;
    let firsts = acts_of(alloc, lists.first())?;
    let seconds = acts_of(alloc, lists.get(1))?;
    let acts = (firsts.as_slice(), seconds.as_slice());
    put_runs(
        alloc,
        out,
        setting.times,
        |told: &mut Vec<u8>| -> Result<(), CaseStop> {
            put_run(rt, alloc, told, limits, setting, acts)
        },
    )
}
