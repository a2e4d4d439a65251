//! Laws of what an export means (`specs/Meaning`): its words leave nothing open. They are proved, and do nothing when they
//! run.

ghost use Rattle.std.specs.Prelude.{◌≡◌, ◌↔◌, ◌⊎◌, ℕ, List, length};
ghost use Rattle.text_place.specs.declared.fault.Fault.{Fault};
ghost use Rattle.plane_predicate.specs.declared.unit.Unit.{Unit as LengthUnit};
ghost use Rattle.script_reader.specs.declared.script.Command.{Command};
ghost use Rattle.script_reader.specs.declared.script.ClientScript.{ClientScript};
ghost use Rattle.script_reader.specs.declared.script.Script.{Script};
ghost use Rattle.run_words.specs.declared.settings.Settings.{Settings};
ghost use Rattle.subtree_memo.specs.declared.tally.Tally.{Tally};
ghost use Rattle.csg_tree.specs.HalfSpaceTrees.{Tree};
ghost use Rattle.off_text.specs.Bounding.{IsBoundary};
ghost use Rattle.edit_session.specs.Sessions.{State};
ghost use Rattle.reply_text.specs.declared.reply.Reply.{Reply};
ghost use Rattle.reply_text.specs.declared.reply.Reply.TheVariants as reply;
ghost use Rattle.reply_text.specs.Texts.{output};
ghost use Rattle.reply_text.specs.Answers.{Fits, AllFit, SameWants};
ghost use Rattle.tree_export.specs.Exports.{PassesNoLimit};
ghost use Rattle.script_server.specs.Meaning.Sources.{Means, HasSourceFault};
ghost use Rattle.script_service.specs.Units.{unit_of};
ghost use Rattle.script_service.specs.Serving.{IsRun, printed_text};
ghost use Rattle.script_server.specs.Meaning.Exports.{AnswersSource, AnswersMeaning, AnswersExport};
ghost use Rattle.script_server.specs.Meaning.Exports.{IsWatertightBoundary};
ghost use Rattle.script_server.specs.Serving.{TellsAlike};

use reply_text::Exporting;
use scad_grammar::{no_program_has_a_fault, one_fault_each, one_program_each, program_or_fault};
use scad_lexer::{one_outcome, some_outcome};
use scad_meaning::programs_mean_proper_trees;
use script_service::one_ending;
use source_laws::programs_keep_within_reach;
use tree_export::{one_export, some_export, texts_pass_no_limit};
use watertight::texts_keep_within_reach;

// The exports of this server, of which the laws of replies are asked.
struct ServerExports;

impl Exporting for ServerExports {
    ghost use Rattle.script_server.specs.Meaning.Exports.{AnswersExport};

    ghost exports = { AnswersExport };
}

/// In each unit a source means at most one tree, or has at most one first fault, and not both.
pub fn one_meaning()
    ensures trees { (unit : LengthUnit) (source : List ℕ) (f g : Tree) → Means unit source f
        → Means unit source g → f ≡ g }
    ensures faults { (unit : LengthUnit) (source : List ℕ) (f g : Fault) →
        HasSourceFault unit source f
        → HasSourceFault unit source g → f ≡ g }
    ensures either { (unit : LengthUnit) (source : List ℕ) (f : Tree) (fault : Fault)
        → Means unit source f → HasSourceFault unit source fault → ⊥ }
{
    // Each call is for its law, and does nothing when it runs.
    one_outcome();
    one_program_each();
    no_program_has_a_fault();
    one_fault_each();
    scad_meaning::one_meaning();
}

/// In each unit a source means a tree, or has a first fault.
pub fn some_meaning()
    ensures { (unit : LengthUnit) (source : List ℕ)
        → ((tree : Tree) × Means unit source tree)
        ⊎ ((fault : Fault) × HasSourceFault unit source fault) }
{
    // Each call is for its law, and does nothing when it runs.
    some_outcome();
    program_or_fault();
    scad_meaning::some_meaning();
}

/// An export is answered by a solid exactly where its source means a tree that passes no limit.
pub fn solids_pass_no_limit()
    ensures { (unit : LengthUnit) (source : List ℕ) (r : Reply) → AnswersSource unit source r →
        ((bytes : List ℕ) × (r ≡ reply.Solid bytes))
        ↔ ((f : Tree) × Means unit source f × PassesNoLimit unit f) }
{
    // Each call is for its law, and does nothing when it runs.
    one_meaning();
    texts_pass_no_limit();
}

/// A source has at most one reply to its export.
pub fn one_reply()
    ensures { (unit : LengthUnit) (source : List ℕ) (r q : Reply) → AnswersSource unit source r
        → AnswersSource unit source q → r ≡ q }
{
    // Each call is for its law, and does nothing when it runs.
    one_meaning();
    one_export();
}

/// Each text that bounds the tree which a source means is watertight, with no vertex beyond 4,095 grid steps along an axis.
pub fn texts_of_sources_are_watertight()
    ensures { (unit : LengthUnit) (source : List ℕ) (tree : Tree) (bytes : List ℕ) →
        Means unit source tree → IsBoundary unit bytes tree → IsWatertightBoundary unit bytes tree }
{
    // Each call is for its law, and does nothing when it runs.
    programs_mean_proper_trees();
    programs_keep_within_reach();
    texts_keep_within_reach();
}

/// Each source has a reply to its export.
pub fn some_reply()
    ensures { (unit : LengthUnit) (source : List ℕ) → (r : Reply) × AnswersExport unit source r }
{
    // Each call is for its law, and does nothing when it runs.
    some_meaning();
    programs_mean_proper_trees();
    texts_of_sources_are_watertight();
    some_export();
}

/// The rule alone suffices: the reply that it chooses says what the source means. So a text that it chooses is the watertight
/// boundary of the tree.
pub fn the_rule_gives_the_meaning()
    ensures { (unit : LengthUnit) (source : List ℕ) (r : Reply) →
        AnswersSource unit source r → AnswersMeaning unit source r }
{
    // Each call brings a law alone.
    one_reply();
    some_reply();
}

/// A client's own commands define its replies: only the places at which memory ran out are open.
pub fn own_replies()
    ensures { (unit : LengthUnit) (s : State) (cs : List Command) (rs qs : List Reply) →
        Fits (AnswersExport unit) s cs rs → Fits (AnswersExport unit) s cs qs → SameWants rs qs →
        rs ≡ qs }
{
    // Each call is for its law, and does nothing when it runs.
    one_reply();
    reply_text::own_replies::<ServerExports>();
}

/// For one script, replies that its clients' own commands define and that print the same bytes are equal. The whole output
/// tells also a printed tally, and then with a share above 0 what each client's entries weigh.
pub fn one_output()
    ensures replies { (unit : LengthUnit) (script : Script) (rs qs : List (List Reply)) →
        AllFit (AnswersExport unit) script.clients rs →
        AllFit (AnswersExport unit) script.clients qs →
        output script.clients rs ≡ output script.clients qs → rs ≡ qs }
    ensures whole { (settings : Settings) (clients : List ClientScript) (rs qs : List (List Reply))
        (s t : Tally) (v w : List ℕ) → IsRun settings →
        AllFit (AnswersExport (unit_of settings)) clients rs →
        AllFit (AnswersExport (unit_of settings)) clients qs →
        length v ≡ length clients → length w ≡ length clients →
        printed_text settings clients rs s v ≡ printed_text settings clients qs t w
        → (rs ≡ qs) × TellsAlike settings s t v w }
{
    // Each call is for its law, and does nothing when it runs.
    one_reply();
    reply_text::one_output::<ServerExports>();
    one_ending();
}
