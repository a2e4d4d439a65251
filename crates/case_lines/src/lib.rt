//! What the programs that answer cases share: how a case is read, worked and printed.
//!
//! Standard input has a case on each line. An empty line and a line that begins with `#` are not cases. Standard output repeats
//! each line, and has the answer to a case below it, behind four spaces. `rt ci` compares the output with the file `stdout`,
//! which was written by hand; `stdin` is that file without its answers.
//!
//! In a case, `` `N TEXT` `` stands for N copies of TEXT, and `` `N` `` for the byte N: 10 is a newline. A comma and a space
//! separate phrases, and a stroke `|` separates the parts of a case.
#![tactic(auto)]

mod answers;
mod interpreter;
mod laying;
mod lines;
mod phrase;
mod repeat;
mod runs;
mod stop;
mod text;
mod told;
mod walls;

pub use answers::{answer_cases, put_next};
pub use interpreter::{Interpreter, follow_all};
pub use laying::{Laying, lay, laying_of};
pub use phrase::{Phrase, found, parts_of, phrases_of};
pub use repeat::unfolded;
pub use runs::put_runs;
pub use stop::CaseStop;
pub use text::{cut, put, put_number, put_numbers, put_separated, put_tally, put_tuple};
pub use told::{put_plane, put_planes, put_stroked, unit_of};
pub use walls::{Walls, box_walls, high, low, slab_walls, through};
