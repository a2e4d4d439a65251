//! Which replies exports may have.

ghost use Rattle.std.specs.Prelude.{ℕ, List};
ghost use Rattle.plane_predicate.specs.declared.unit.Unit.{Unit as LengthUnit};
ghost use Rattle.reply_text.specs.declared.reply.Reply.{Reply};

/// Has a relation of sources and the replies to their exports.
pub trait Exporting {
    // Which replies an export of a source whose lengths are in a unit may have.
    ghost exports: { LengthUnit → List ℕ → Reply → Type 0 };
}
