//! The limits of depth and of turns, and the calls that count them.

ghost use Rattle.std.specs.Prelude.{◌≡◌, ◌+◌, ◌<◌, IfErr, OnOk};
ghost use Rattle.text_place.specs.declared.fault.FaultKind.TheVariants.{TooDeep, TooManyTurns};
ghost use Rattle.scad_definitions.specs.ArgumentsView.{IsFaultAt};
ghost use Rattle.scad_func.specs.Limits.{most_calls, most_turns};
ghost use Rattle.scad_func.specs.Evaluations.{KeepsEvaluation, OneCallDeeper, OneEvaluationDeeper};
ghost use Rattle.scad_func.specs.Transitions.{BeginsCall, BeginsCountedCall, BeginsEvaluation, GoesBack};

use crate::evaluation::Evaluation;
use text_place::{FaultKind, Place, Stop};

/// The most calls in one another.
pub(crate) const CALLS: u32 = 64;

/// The most evaluations in one another.
pub(crate) const EVALUATIONS: u32 = 512;

/// The most turns of one run.
pub(crate) const TURNS: u64 = 100_000;

impl Evaluation<'_, '_> {
    /// One turn more. TooManyTurns at its place where it is the 100,001st.
    pub fn turn(&mut self, place: Place) -> Result<(), Stop>
        ensures counted { OnOk result ((self.old.turns < most_turns)
            × (self.new.turns ≡ self.old.turns + 1)) }
        ensures refused { IfErr result (λ stop. (self.old.turns ≡ most_turns)
            × IsFaultAt stop TooManyTurns place) }
        ensures kept { KeepsEvaluation self.old self.new }
    {
        if self.turns == TURNS {
            return Err(FaultKind::TooManyTurns.at(place));
        }
        self.turns += 1;
        Ok(())
    }

    // Whether one call more is within the limit.
    fn may_call(&self, place: Place) -> Result<(), Stop>
        ensures within { OnOk result (self.now.calls < most_calls) }
        ensures refused { IfErr result (λ stop. (self.now.calls ≡ most_calls)
            × IsFaultAt stop TooDeep place) }
    {
        if self.calls == CALLS {
            return Err(FaultKind::TooDeep.at(place));
        }
        Ok(())
    }

    /// One call deeper. TooDeep at its place where it is the 65th in one another.
    pub fn begin_call(&mut self, place: Place) -> Result<(), Stop>
        ensures { BeginsCall self.old self.new result place }
    {
        self.may_call(place)?;
        self.calls += 1;
        Ok(())
    }

    /// One call deeper, and one turn more. TooDeep at its place where it is the 65th in one another, and else TooManyTurns
    /// where the turn is the 100,001st.
    pub fn begin_counted_call(&mut self, place: Place) -> Result<(), Stop>
        ensures { BeginsCountedCall self.old self.new result place }
    {
        self.may_call(place)?;
        self.turn(place)?;
        self.calls += 1;
        Ok(())
    }

    /// One call back, to where the call began.
    pub fn end_call(&mut self)
        requires { 0 < self.old.calls }
        ensures { GoesBack (λ first. OneCallDeeper first self.old) self.old self.new }
    {
        self.calls -= 1;
    }

    /// One evaluation deeper. TooDeep at its place where it is the 513th in one another.
    pub fn begin_evaluation(&mut self, place: Place) -> Result<(), Stop>
        ensures { BeginsEvaluation self.old self.new result place }
    {
        if self.depth == EVALUATIONS {
            return Err(FaultKind::TooDeep.at(place));
        }
        self.depth += 1;
        Ok(())
    }

    /// One evaluation back, to where the evaluation began.
    pub fn end_evaluation(&mut self)
        requires { 0 < self.old.depth }
        ensures { GoesBack (λ first. OneEvaluationDeeper first self.old) self.old self.new }
    {
        self.depth -= 1;
    }
}
