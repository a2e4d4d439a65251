//! The lines of one client, and its edits.

ghost use Rattle.std.specs.Prelude.{◌≡◌, ◌↔◌, ◌≤◌, ◌++◌, take, drop, length, Some, None, IsTrue, IfOk, IfErr};
ghost use Rattle.script_reader.specs.declared.script.Command.TheVariants.{Put, Set, Cut, Show, Export};
ghost use Rattle.edit_session.specs.Sessions.{start_state, source_of, refusal, state_after_accepted};
ghost use Rattle.script_reader.specs.Limits.{IsText, HasText};
ghost use Rattle.edit_session.specs.Limits.{IsWithinSessionLimits};
ghost use Rattle.edit_session.specs.Asking.{Edits, RefusesCommand, Accepts};

use crate::fault::{Asked, SessionFault};
use plain_text::{Bytes, NoMemory};
use script_reader::Command;
use std::alloc::Global;
use std::marker::Model;

// The most lines of a source.
const LINES: usize = 4096;

// The most shows, and the most exports.
const REPLIES: u32 = 16;

/// The lines of a client's source, and how many shows and exports were booked. A line has at most
/// 1,024 bytes and no newline, and there are at most 4,096 lines, 16 shows and 16 exports.
#[derive(Drop)]
pub struct Session {
    lines: Vec<Bytes>,
    shows: u32,
    exports: u32,
}

impl Model for Session {
    ghost use Rattle.edit_session.specs.Sessions.{State};
    ghost use Rattle.edit_session.specs.Limits.{IsWithinSessionLimits};

    ghost Value = { State };

    ghost view = { λ s. record { lines = s.lines.items; shows = s.shows; exports = s.exports } };

    ghost invariant = { λ s.
        IsWithinSessionLimits (record {
          lines = s.lines.items;
          shows = s.shows;
          exports = s.exports;
        }) };
}

impl Session {
    /// A session with no lines.
    pub fn new(alloc: Global) -> Session
        ensures { result ≡ start_state }
    {
        Session {
            lines: Vec::new(alloc),
            shows: 0,
            exports: 0,
        }
    }

    /// The lines in order.
    pub fn lines(&self) -> &[Bytes]
        ensures lines { result.now ≡ self.now.lines }
        ensures within { IsWithinSessionLimits self.now }
    {
        &self.lines
    }

    /// The lines, each followed by a newline: at most 4,096 lines with at most 1,025 bytes each.
    pub fn source(&self, alloc: Global) -> Result<Vec<u8>, NoMemory>
        ensures lines { IfOk result (λ source. source.items ≡ source_of self.now) }
        ensures short { IfOk result (λ source. length source.items ≤ 4198400) }
    {
        let mut source = Vec::new(alloc);
        for line in &self.lines {
            source.extend_from_slice(line.items())?;
            source.push(b'\n')?;
        }
        Ok(source)
    }

    /// Makes the text a new line with this number, and answers the number of lines. An error changes
    /// nothing.
    pub fn put(&mut self, alloc: Global, line: u32, text: &[u8]) -> Result<u32, SessionFault>
        requires { IsText text.now }
        ensures done { IfOk result (λ count. Edits self.old (Put line text.now) self.new count) }
        ensures refused { IfErr result (λ why. RefusesCommand self.old
            (Put line text.now) self.new why) }
    {
        let at = line as usize;
        if at < 1 || at > self.lines.len() + 1 {
            return Err(SessionFault::NoSuchLine);
        }
        if self.lines.len() == LINES {
            return Err(SessionFault::TooManyLines);
        }
        self.lines.insert(at - 1, Bytes::copy_of(alloc, text)?)?;
        Ok(self.lines.len() as u32)
    }

    /// Replaces the line with this number by the text, and answers the number of lines. An error
    /// changes nothing.
    pub fn set(&mut self, alloc: Global, line: u32, text: &[u8]) -> Result<u32, SessionFault>
        requires { IsText text.now }
        ensures done { IfOk result (λ count. Edits self.old (Set line text.now) self.new count) }
        ensures refused { IfErr result (λ why. RefusesCommand self.old
            (Set line text.now) self.new why) }
    {
        let at = line as usize;
        if at < 1 || at > self.lines.len() {
            return Err(SessionFault::NoSuchLine);
        }
        self.lines[at - 1] = Bytes::copy_of(alloc, text)?;
        Ok(self.lines.len() as u32)
    }

    /// Removes the lines from one number up to another, and answers the number of lines. An error
    /// changes nothing. Takes no memory.
    pub fn cut(&mut self, from: u32, upto: u32) -> Result<u32, SessionFault>
        ensures done { IfOk result (λ count. Edits self.old (Cut from upto) self.new count) }
        ensures refused { IfErr result (λ why. RefusesCommand self.old
            (Cut from upto) self.new why) }
    {
        let first = from as usize;
        let last = upto as usize;
        if first < 1 || first > last || last > self.lines.len() {
            return Err(SessionFault::NoSuchLine);
        }
        remove_range(&mut self.lines, first - 1, last);
        Ok(self.lines.len() as u32)
    }

    /// Does an edit, and says what else a command asks. An error changes nothing, and nothing is
    /// booked.
    pub fn command(&mut self, alloc: Global, command: &Command) -> Result<Asked, SessionFault>
        requires { HasText command.now }
        ensures done { IfOk result (λ asked. Accepts self.old command.now self.new asked) }
        ensures refused { IfErr result (λ why. RefusesCommand self.old command.now self.new why) }
    {
        match command {
            Command::Put { line, text } => Ok(Asked::Lines(self.put(alloc, *line, text.items())?)),
            Command::Set { line, text } => Ok(Asked::Lines(self.set(alloc, *line, text.items())?)),
            Command::Cut { from, upto } => Ok(Asked::Lines(self.cut(*from, *upto)?)),
            Command::Show if self.may_show() => Ok(Asked::Show),
            Command::Show => Err(SessionFault::TooManyShows),
            Command::Export if self.may_export() => Ok(Asked::Export),
            Command::Export => Err(SessionFault::TooManyExports),
            Command::Bad => Err(SessionFault::BadCommand),
        }
    }

    /// Whether fewer than 16 shows were booked.
    pub fn may_show(&self) -> bool
        ensures { IsTrue result ↔ (refusal self.now Show ≡ None) }
    {
        self.shows != REPLIES
    }

    /// Whether fewer than 16 exports were booked.
    pub fn may_export(&self) -> bool
        ensures { IsTrue result ↔ (refusal self.now Export ≡ None) }
    {
        self.exports != REPLIES
    }

    /// Counts a show that was answered with a text.
    pub fn book_show(&mut self)
        requires { refusal self.old Show ≡ None }
        ensures { self.new ≡ state_after_accepted self.old Show }
    {
        self.shows += 1;
    }

    /// Counts an export that was answered.
    pub fn book_export(&mut self)
        requires { refusal self.old Export ≡ None }
        ensures { self.new ≡ state_after_accepted self.old Export }
    {
        self.exports += 1;
    }
}

// Removes the lines from an index up to another.
fn remove_range(lines: &mut Vec<Bytes>, from: usize, upto: usize)
    requires low { from ≤ upto }
    requires high { upto ≤ length lines.old.items }
    ensures { lines.new.items ≡ take from lines.old.items ++ drop upto lines.old.items }
{
    drop(lines.drain(from..upto));
}
