//! What the phrases of a case set.

use crate::gating::Rule;
use case_lines::{CaseStop, Phrase, found, phrases_of};
use std::alloc::Global;

/// How clients are run, and the report on them.
#[derive(Clone, Copy)]
pub struct Setting {
    pub clients: u8,
    pub exports: u32,
    pub workers: u64,
    pub memo: u64,
    pub share: u64,
    pub times: u32,
    pub rule: Rule,
    pub are_alike: bool,
    pub is_counted: bool,
    pub is_sized: bool,
    pub has_tally: bool,
}

// One client with one export.
const PLAIN: Setting = Setting {
    clients: 1,
    exports: 1,
    workers: 1,
    memo: 500_000,
    share: 0,
    times: 1,
    rule: Rule::All,
    are_alike: false,
    is_counted: false,
    is_sized: false,
    has_tally: false,
};

#[derive(Clone, Copy)]
enum Word {
    Clients,
    Exports,
    Workers,
    Memo,
    Share,
    Times,
    Pass,
    Refuse,
    Only,
    Meet,
    Alike,
    Counted,
    Sized,
    Tally,
}

const WORDS: [(&[u8], Word); 14] = [
    (b"clients", Word::Clients),
    (b"exports", Word::Exports),
    (b"workers", Word::Workers),
    (b"memo", Word::Memo),
    (b"share", Word::Share),
    (b"times", Word::Times),
    (b"pass", Word::Pass),
    (b"refuse", Word::Refuse),
    (b"only", Word::Only),
    (b"meet", Word::Meet),
    (b"alike", Word::Alike),
    (b"counted", Word::Counted),
    (b"sized", Word::Sized),
    (b"tally", Word::Tally),
];

impl Setting {
    /// The same clients with the same exports, by one builder each, and no memo.
    pub fn plain(self) -> Setting {
        Setting {
            clients: self.clients,
            exports: self.exports,
            memo: 0,
            ..PLAIN
        }
    }

    // The same, where a word sets the numbers of a phrase.
    fn with(self, word: Word, phrase: &Phrase) -> Setting {
        match word {
            Word::Clients => Setting {
                clients: phrase.number(0).min(16) as u8,
                ..self
            },
            Word::Exports => Setting {
                exports: phrase.small_number(0),
                ..self
            },
            Word::Workers => Setting {
                workers: phrase.number(0).clamp(1, 64),
                ..self
            },
            Word::Memo => Setting {
                memo: phrase.number(0),
                ..self
            },
            Word::Share => Setting {
                share: phrase.number(0),
                ..self
            },
            Word::Times => Setting {
                times: phrase.small_number(0),
                ..self
            },
            Word::Pass => self.by(Rule::First(phrase.number(0))),
            Word::Refuse => self.by(Rule::Later(phrase.number(0))),
            Word::Only => self.by(Rule::Only {
                client: phrase.small_number(0),
                node: phrase.small_number(1),
            }),
            Word::Meet => self.by(Rule::Meeting(phrase.number(0))),
            Word::Alike => Setting {
                are_alike: true,
                ..self
            },
            Word::Counted => Setting {
                is_counted: true,
                ..self
            },
            Word::Sized => Setting {
                is_sized: true,
                ..self
            },
            Word::Tally => Setting {
                has_tally: true,
                ..self
            },
        }
    }

    fn by(self, rule: Rule) -> Setting {
        Setting { rule, ..self }
    }
}

/// What phrases set.
pub fn setting_of(alloc: Global, text: &[u8]) -> Result<Setting, CaseStop> {
    let mut setting = PLAIN;
    for phrase in &phrases_of(alloc, text)? {
        let word = found(&WORDS, &phrase.word).ok_or(CaseStop::Unread)?;
        setting = setting.with(word, phrase);
    }
    Ok(setting)
}
