//! What exports a source.

ghost use Rattle.std.specs.Prelude.{ℕ, ◌≢◌, ◌<◌, ◌≤◌, List, length, IfOk};
ghost use Rattle.plane_predicate.specs.declared.unit.Unit.{Unit as LengthUnit};
ghost use Rattle.reply_text.specs.declared.reply.Reply.{Reply};
ghost use Rattle.reply_text.specs.declared.reply.Reply.TheVariants as replies;
ghost use Rattle.script_run.specs.Moves.{GoesOn, reply_or_want};

use plain_text::NoMemory;
use plane_predicate::Unit;
use reply_text::{Exporting, Reply};
use std::alloc::Global;

/// Exports sources.
pub trait Exporter: Exporting {
    // A count of its exports: each raises it by at most 1.
    ghost asked: { Self → ℕ };

    // What it needs to export a source in a unit, and keeps.
    ghost can_export: { LengthUnit → List ℕ → Self → Type 0 };

    // What an export of a source in a unit that is answered so makes of it, also where memory ran out.
    ghost moves: { LengthUnit → List ℕ → Reply → Self → Self → Type 0 };

    /// The reply to an export of a source whose lengths are in a unit, which is never that of memory that ran out. The source
    /// has at most 4,198,400 bytes: no session has a longer one. An exporter is asked at most 8,192 times, for one client.
    fn export(&mut self, alloc: Global, unit: Unit, source: &[u8]) -> Result<Reply, NoMemory>
        requires short { length source.now ≤ 4198400 }
        requires few { asked self.old < 8192 }
        requires can_export { can_export unit source.now self.old }
        ensures reply { IfOk result (Self.exports unit source.now) }
        ensures has_memory { IfOk result (λ reply. reply ≢ replies.NoMem) }
        ensures moved { moves unit source.now (reply_or_want result) self.old self.new }
        ensures goes_on { GoesOn asked (can_export unit) self.old self.new };
}
