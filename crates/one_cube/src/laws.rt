//! The law of one cube. It is proved, and does nothing when it runs.

ghost use Rattle.plane_predicate.specs.declared.unit.Unit.TheVariants.{Whole};
ghost use Rattle.reply_text.specs.declared.reply.Reply.TheVariants as reply;
ghost use Rattle.tree_export.specs.Worked.{worked_box, worked_box_text};
ghost use Rattle.script_server.specs.Meaning.Sources.{Means};
ghost use Rattle.script_server.specs.Meaning.Exports.{AnswersExport};
ghost use Rattle.one_cube.specs.Worked.{worked_source};

use script_server::the_rule_gives_the_meaning;
use tree_export::a_box_has_its_text;

/// A worked theorem: in whole units the source `cube([1,2,3]);` means the box from (0, 0, 0) to (1, 2, 3), and its export is
/// answered by the text of this box.
pub fn one_cube_from_source_to_text()
    ensures means { Means Whole worked_source worked_box }
    ensures answered { AnswersExport Whole worked_source (reply.Solid worked_box_text) }
{
    // Each call brings a law alone.
    a_box_has_its_text();
    the_rule_gives_the_meaning();
}
