//! Values of variables and special names, and operators whose right side is a variable.

ghost use Rattle.std.specs.Prelude.{◌≡◌, ℕ, IfOk, IfErr, MatchResult, Some, None, codes};
ghost use Rattle.scad_value.specs.Values.{NumberVal};
ghost use Rattle.scad_value.specs.Operators.{binary_of, index_of};
ghost use Rattle.scad_value.specs.BoundedView.{bounded_val};
ghost use Rattle.scad_scope.specs.Names.{variable_in, find_in};
ghost use Rattle.scad_scope.specs.Table.{bindings_of, IsMissing, IsVariable};
ghost use Rattle.scad_value.specs.Answers.{member_of};
ghost use Rattle.scad_value.specs.AnswerView.{MeetsAnswerAt};
ghost use Rattle.text_place.specs.declared.fault.FaultKind.TheVariants.{UnknownName, NotInProfile};
ghost use Rattle.scad_definitions.specs.ArgumentsView.{IsFaultAt};
ghost use Rattle.scad_func.specs.Meaning.{or_zero, or_fault, outcome_of_answer, Gives};
ghost use Rattle.scad_func.specs.View.{MeetsOutcome, indexed_val, HasIndexedValue};
ghost use Rattle.scad_func.specs.Evaluations.{numbered_env_here};

// A value is lent where something can still fail, as in the operators of `scad_value`.

use crate::evaluation::Evaluation;
use scad_ast::Link;
use scad_value::{BoundedValue, Value, answer_placed, binary, index, member_of};
use text_place::{CompactBytes, Fault, FaultKind, Place, Stop};

/// What is indexed: a variable, which is lent where it stands, or a value that an expression gave.
#[derive(Drop)]
pub(crate) enum Indexed<'a> {
    /// The name of a variable.
    Variable(&'a [u8]),
    /// A value.
    Value(BoundedValue),
}

impl Evaluation<'_, '_> {
    /// The value of an operator whose right side is a variable, which is lent where it stands. UnknownName at the
    /// variable's place where there is none; the operator's own faults stand at the operator.
    #[inline(never)]
    pub(crate) fn binary_with_variable(
        &self,
        left: BoundedValue,
        part: &Link,
        name: &CompactBytes,
        at: Place,
    ) -> Result<BoundedValue, Stop>
        ensures { (turns : ℕ)
            → MeetsOutcome bounded_val result turns
            (or_fault (variable_in (numbered_env_here self.now) name.now) UnknownName at
            (λ w. outcome_of_answer (binary_of part.now.op
            (bounded_val left) w) part.now.place turns)) }
    {
        self.binary_with_lent(&left, part, name, at)
    }

    fn binary_with_lent(
        &self,
        left: &BoundedValue,
        part: &Link,
        name: &CompactBytes,
        at: Place,
    ) -> Result<BoundedValue, Stop>
        ensures { (turns : ℕ)
            → MeetsOutcome bounded_val result turns
            (or_fault (variable_in (numbered_env_here self.now) name.now) UnknownName at
            (λ w. outcome_of_answer (binary_of part.now.op (bounded_val left.now) w) part.now.place
            turns)) }
    {
        match self.variable(name.items(), at) {
            Ok(right) => answer_placed(binary(self.alloc, part.op, &left.value, right), part.place),
            Err(fault) => Err(Stop::Fault(fault)),
        }
    }

    /// A copy of a variable's value. UnknownName at its place where there is none.
    #[inline(never)]
    pub(crate) fn variable_of(&self, name: &[u8], place: Place) -> Result<BoundedValue, Stop>
        ensures { (turns : ℕ) → MeetsOutcome bounded_val result turns
            (or_fault (variable_in (numbered_env_here self.now) name.now) UnknownName place
            (Gives turns)) }
    {
        match self.variable(name, place) {
            Ok(value) => Ok(BoundedValue {
                value: value.copy(self.alloc)?,
            }),
            Err(fault) => Err(Stop::Fault(fault)),
        }
    }

    /// A copy of a special name's value. UnknownName at its place where there is none.
    #[inline(never)]
    pub(crate) fn special_of(&self, name: &[u8], place: Place) -> Result<BoundedValue, Stop>
        ensures { (turns : ℕ) → MeetsOutcome bounded_val result turns
            (or_fault (find_in (bindings_of self.now.scopes.now) name.now) UnknownName place
            (Gives turns)) }
    {
        match self.scopes.special(name, place) {
            Ok(value) => Ok(BoundedValue {
                value: value.copy(self.alloc)?,
            }),
            Err(fault) => Err(Stop::Fault(fault)),
        }
    }

    /// The number of children, which is 0 where there are none.
    #[inline(never)]
    pub(crate) fn child_count(&self, place: Place) -> Result<BoundedValue, Stop>
        ensures { (turns : ℕ)
            → MeetsOutcome bounded_val result turns
            (Gives turns (or_zero (variable_in (numbered_env_here self.now) (codes "$children")))) }
    {
        match self.variable(b"$children", place) {
            Ok(value) => Ok(BoundedValue {
                value: value.copy(self.alloc)?,
            }),
            Err(_) => Ok(BoundedValue {
                value: Value::Number(0),
            }),
        }
    }

    /// What is indexed, as a variable. UnknownName at its place where there is none.
    #[inline(never)]
    pub(crate) fn variable_there<'a>(
        &self,
        name: &'a [u8],
        place: Place,
    ) -> Result<Indexed<'a>, Stop>
        ensures found { IfOk result (λ of. variable_in (numbered_env_here self.now) name.now
            ≡ Some (indexed_val (numbered_env_here self.now) of)) }
        ensures there { IfOk result (λ of. HasIndexedValue (numbered_env_here self.now) of) }
        ensures missing { IfErr result (λ stop.
            (variable_in (numbered_env_here self.now) name.now ≡ None)
            × IsFaultAt stop UnknownName place) }
    {
        match self.variable(name, place) {
            Ok(_) => Ok(Indexed::Variable(name)),
            Err(fault) => Err(Stop::Fault(fault)),
        }
    }

    /// An item of what is indexed, with its faults at a place.
    #[inline(never)]
    pub(crate) fn item_of(
        &self,
        of: Indexed<'_>,
        at: BoundedValue,
        place: Place,
    ) -> Result<BoundedValue, Stop>
        requires there { HasIndexedValue (numbered_env_here self.now) of }
        ensures { MeetsAnswerAt result (index_of (indexed_val (numbered_env_here self.now) of.entry)
            (bounded_val at)) place }
    {
        self.item_at(&of, &at, place)
    }

    fn item_at(
        &self,
        of: &Indexed<'_>,
        at: &BoundedValue,
        place: Place,
    ) -> Result<BoundedValue, Stop>
        requires there { HasIndexedValue (numbered_env_here self.now) of.now }
        ensures { MeetsAnswerAt result (index_of (indexed_val (numbered_env_here self.now) of.now)
            (bounded_val at.now)) place }
    {
        match of {
            Indexed::Variable(name) => match self.variable(name, place) {
                Ok(value) => answer_placed(index(self.alloc, value, &at.value), place),
                Err(fault) => Err(Stop::Fault(fault)),
            },
            Indexed::Value(given) => answer_placed(
                index(self.alloc, &given.value, &at.value),
                place,
            ),
        }
    }

    /// A member of what is indexed. NotInProfile at its name where no member has it.
    #[inline(never)]
    pub(crate) fn member_item(
        &self,
        of: Indexed<'_>,
        name: &CompactBytes,
        name_place: Place,
        place: Place,
    ) -> Result<BoundedValue, Stop>
        requires there { HasIndexedValue (numbered_env_here self.now) of }
        ensures { (turns : ℕ)
            → MeetsOutcome bounded_val result turns
            (or_fault (member_of name.now) NotInProfile name_place
            (λ n. outcome_of_answer (index_of (indexed_val (numbered_env_here self.now) of.entry)
            (NumberVal n)) place turns)) }
    {
        match member_of(name.items()) {
            Some(n) => {
                let at = BoundedValue {
                    value: Value::Number(n),
                };
                self.item_of(of, at, place)
            }
            None => Err(FaultKind::NotInProfile.at(name_place)),
        }
    }

    // The value of a variable, lent.
    fn variable(&self, name: &[u8], place: Place) -> Result<&Value, Fault>
        ensures { MatchResult result (λ v.
            IsVariable (variable_in (numbered_env_here self.now) name.now) v.now)
            (IsMissing UnknownName place (variable_in (numbered_env_here self.now) name.now)) }
    {
        self.scopes.variable(self.scope, name, place)
    }
}
