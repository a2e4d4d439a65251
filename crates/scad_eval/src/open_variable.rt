//! The variables of a loop that have values.

ghost use Rattle.std.specs.Prelude.{◌≡◌, ◌<◌, [], ◌∷◌, ◌++◌, OnOk};
ghost use Rattle.scad_value.specs.BoundedView.{bounded_val};
ghost use Rattle.scad_eval.specs.Variables.{OpensVariable, EntersVariable, EndsStep};

use scad_ast::Binder;
use scad_func::{Evaluation, evaluate};
use scad_instance_rules::{Items, MemberResults, no_members, with_members};
use scad_value::BoundedValue;
use text_place::{FaultKind, NoMemory, Place, Stop};

/// A variable of a loop, whose values were evaluated, and the variables behind it.
#[derive(Drop)]
pub struct OpenVariable<'b> {
    pub binder: &'b Binder,
    pub rest: &'b [Binder],
    /// The values that are left.
    pub items: Items,
    /// What its steps gave so far.
    pub members: MemberResults,
    /// The scope in which its values were evaluated.
    pub outside: u32,
}

/// What comes next in a loop: the steps of a variable that are left, or what is behind all that was given.
#[derive(Drop)]
pub enum Inside<'b> {
    Variable(OpenVariable<'b>),
    Members(MemberResults),
}

impl<'b> OpenVariable<'b> {
    /// A variable with all its values, which are evaluated here. TypeMismatch at the loop where they are no list and no
    /// range.
    pub(crate) fn of(
        evaluation: &mut Evaluation<'_, '_>,
        place: Place,
        binder: &'b Binder,
        rest: &'b [Binder],
    ) -> Result<OpenVariable<'b>, Stop>
        ensures { OpensVariable evaluation.old evaluation.new place binder.now rest.now result }
    {
        let value = evaluate(evaluation, &binder.values)?;
        match Items::of(value) {
            Some(items) => Ok(OpenVariable {
                binder,
                rest,
                items,
                members: no_members(evaluation.alloc),
                outside: evaluation.scope,
            }),
            None => Err(FaultKind::TypeMismatch.at(place)),
        }
    }

    /// Enters a new scope in which the variable has a value.
    pub(crate) fn enter(
        &self,
        evaluation: &mut Evaluation<'_, '_>,
        value: BoundedValue,
    ) -> Result<(), NoMemory>
        ensures { EntersVariable evaluation.old evaluation.new result self.now.binder.now.name
            (bounded_val value) }
    {
        evaluation.enter_empty()?;
        evaluation.bind(self.binder.name.items(), value)
    }

    /// Waits behind the variables outside it.
    pub(crate) fn wait(self, outer: &mut Vec<OpenVariable<'b>>) -> Result<(), NoMemory>
        ensures { OnOk result (outer.new.items ≡ outer.old.items ++ (self.entry ∷ [])) }
    {
        outer.push(self)?;
        Ok(())
    }

    /// The variable behind a step, whose scope is left, with what it gave. Where that is nothing, the step counts one
    /// turn.
    pub(crate) fn with_step(
        self,
        evaluation: &mut Evaluation<'_, '_>,
        place: Place,
        members: MemberResults,
    ) -> Result<OpenVariable<'b>, Stop>
        requires { self.outside < evaluation.old.scope }
        ensures { EndsStep evaluation.old evaluation.new place self.entry members result }
    {
        let OpenVariable {
            binder,
            rest,
            items,
            members: before,
            outside,
        } = self;
        evaluation.leave(outside);
        if members.designs.is_empty() {
            evaluation.turn(place)?;
        }
        Ok(OpenVariable {
            binder,
            rest,
            items,
            members: with_members(before, Ok(members))?,
            outside,
        })
    }
}
