//! Laws of replies.

ghost use Rattle.std.specs.Prelude.{◌≡◌, ◌++◌, ℕ, List};
ghost use Rattle.plane_predicate.specs.declared.unit.Unit.{Unit as LengthUnit};
ghost use Rattle.script_reader.specs.declared.script.Command.{Command};
ghost use Rattle.script_reader.specs.declared.script.ClientScript.{ClientScript};
ghost use Rattle.edit_session.specs.Sessions.{State};
ghost use Rattle.reply_text.specs.declared.reply.Reply.{Reply};
ghost use Rattle.reply_text.specs.Texts.{output};
ghost use Rattle.reply_text.specs.Answers.{Fits, AllFit, SameWants, IsExport};

use crate::exporting::Exporting;

/// For one script, replies that fit its clients' commands and print the same bytes are equal, whatever
/// follows, and so is what follows: no first line of a defined reply is that of memory that ran out.
pub fn one_output<E: Exporting>()
    requires { (unit : LengthUnit) → IsExport (E.exports unit) }
    ensures { (unit : LengthUnit) (clients : List ClientScript) (rs qs : List (List Reply))
        (x y : List ℕ) →
        AllFit (E.exports unit) clients rs → AllFit (E.exports unit) clients qs →
        output clients rs ++ x ≡ output clients qs ++ y → (rs ≡ qs) × (x ≡ y) }
{}

/// A client's own commands define its replies: only the places at which memory ran out are open.
pub fn own_replies<E: Exporting>()
    requires { (unit : LengthUnit) → IsExport (E.exports unit) }
    ensures { (unit : LengthUnit) (s : State) (cs : List Command) (rs qs : List Reply) →
        Fits (E.exports unit) s cs rs → Fits (E.exports unit) s cs qs → SameWants rs qs → rs ≡ qs }
{}
