//! Questions about numbers.

use crate::faces::{put_edges, put_joined};
use crate::numbers::{put_meeting, put_point_side, put_sides, put_signs, put_through};
use case_lines::{CaseStop, Phrase, found};
use std::alloc::Global;

#[derive(Clone, Copy)]
enum Question {
    Through,
    Meet,
    Side,
    Signs,
    Point,
    Join,
    Edges,
}

const QUESTIONS: [(&[u8], Question); 7] = [
    (b"through", Question::Through),
    (b"meet", Question::Meet),
    (b"side", Question::Side),
    (b"signs", Question::Signs),
    (b"point", Question::Point),
    (b"join", Question::Join),
    (b"edges", Question::Edges),
];

/// The answer of a question about numbers.
pub fn put_about(alloc: Global, out: &mut Vec<u8>, phrase: &Phrase) -> Result<(), CaseStop> {
    let numbers = phrase.numbers.as_slice();
    match found(&QUESTIONS, &phrase.word).ok_or(CaseStop::Unread)? {
        Question::Through => put_through(alloc, out, numbers),
        Question::Meet => put_meeting(alloc, out, numbers),
        Question::Side => put_sides(alloc, out, numbers),
        Question::Signs => put_signs(alloc, out, numbers),
        Question::Point => put_point_side(out, numbers),
        Question::Join => put_joined(alloc, out, numbers),
        Question::Edges => put_edges(alloc, out, numbers),
    }
}
