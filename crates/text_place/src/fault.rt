//! Faults of a source: what is wrong, and where.

ghost use Rattle.std.specs.Prelude.{◌≡◌};
ghost use Rattle.text_place.specs.Words.{word_of};

use plain_text::{NoMemory, Place};

/// What can be wrong with a source.
#[derive(Clone, Copy, Debug, PartialEq, Eq)]
pub enum FaultKind {
    /// A byte at which no token begins, or which may not stand where it stands.
    BadCharacter,
    /// A comment that is not closed.
    OpenComment,
    /// A text that is not closed on its line.
    OpenText,
    /// A number that is not whole.
    NotWhole,
    /// A number past 2^53 - 1 in size.
    TooLarge,
    /// A value of another type than the one that is wanted.
    TypeMismatch,
    /// A division by 0.
    ZeroDivisor,
    /// A side or a height below 1.
    BadSize,
    /// A centred shape whose corners would lie between whole numbers.
    NotOnGrid,
    /// A coordinate past its limit.
    OutOfRange,
    /// Too few points or faces.
    FewPoints,
    /// A face that names a point that is not there.
    BadPoint,
    /// A face whose points lie on one line or on no one plane.
    NotFlat,
    /// A shape that is not convex.
    NotConvex,
    /// Faces that do not close a body.
    NotClosed,
    /// A token with which no program goes on.
    Expected,
    /// Constructs that are more than 64 deep in one another.
    Nested,
    /// A variable that has no value yet.
    UnknownName,
    /// A function that is not defined.
    UnknownFunction,
    /// A module that is not defined.
    UnknownModule,
    /// An argument that is surplus, unknown, given twice or missing.
    BadArgument,
    /// Calls or evaluations that are too deep in one another.
    TooDeep,
    /// More turns of loops and calls than one export may take.
    TooManyTurns,
    /// A range whose end comes before its start.
    RangeOrder,
    /// An assertion that does not hold.
    AssertFailed,
    /// A form of OpenSCAD that this profile leaves out.
    NotInProfile,
    /// A flat shape where a solid is wanted, or the other way round.
    WrongDimension,
    /// A rotation by other than quarter turns.
    NotQuarter,
    /// A transform that flattens space.
    Singular,
    /// More shapes than one export may have.
    TooManyParts,
    /// More face planes than one export may have.
    TooManyPlanes,
    /// A list that is too long or too deep.
    LongList,
}

/// What is wrong with a source, and where.
#[derive(Clone, Copy, Debug, PartialEq, Eq)]
pub struct Fault {
    pub kind: FaultKind,
    pub place: Place,
}

/// Why a source has no answer.
#[derive(Clone, Copy, Debug, PartialEq, Eq)]
pub enum Stop {
    Fault(Fault),
    NoMemory,
}

impl FaultKind {
    /// A fault of this kind at a place, which stops what asked. Takes no memory.
    pub fn at(self, place: Place) -> Stop
        ensures { result ≡ Stop.Fault (record { kind = self; place = place }) }
    {
        Stop::Fault(Fault { kind: self, place })
    }
}

/// The name of a kind, as it is printed.
pub fn word(kind: FaultKind) -> &'static str
    ensures { result.now ≡ word_of kind }
{
    match kind {
        FaultKind::BadCharacter => "BadCharacter",
        FaultKind::OpenComment => "OpenComment",
        FaultKind::OpenText => "OpenText",
        FaultKind::NotWhole => "NotWhole",
        FaultKind::TooLarge => "TooLarge",
        FaultKind::TypeMismatch => "TypeMismatch",
        FaultKind::ZeroDivisor => "ZeroDivisor",
        FaultKind::BadSize => "BadSize",
        FaultKind::NotOnGrid => "NotOnGrid",
        FaultKind::OutOfRange => "OutOfRange",
        FaultKind::FewPoints => "FewPoints",
        FaultKind::BadPoint => "BadPoint",
        FaultKind::NotFlat => "NotFlat",
        FaultKind::NotConvex => "NotConvex",
        FaultKind::NotClosed => "NotClosed",
        FaultKind::Expected => "Expected",
        FaultKind::Nested => "Nested",
        FaultKind::UnknownName => "UnknownName",
        FaultKind::UnknownFunction => "UnknownFunction",
        FaultKind::UnknownModule => "UnknownModule",
        FaultKind::BadArgument => "BadArgument",
        FaultKind::TooDeep => "TooDeep",
        FaultKind::TooManyTurns => "TooManyTurns",
        FaultKind::RangeOrder => "RangeOrder",
        FaultKind::AssertFailed => "AssertFailed",
        FaultKind::NotInProfile => "NotInProfile",
        FaultKind::WrongDimension => "WrongDimension",
        FaultKind::NotQuarter => "NotQuarter",
        FaultKind::Singular => "Singular",
        FaultKind::TooManyParts => "TooManyParts",
        FaultKind::TooManyPlanes => "TooManyPlanes",
        FaultKind::LongList => "LongList",
    }
}

impl From<NoMemory> for Stop {
    ghost use Rattle.text_place.specs.declared.fault.Stop.TheVariants.{NoMemory};

    ghost from_gives = { λ _ stop. stop ≡ NoMemory };

    fn from(_refused: NoMemory) -> Stop {
        Stop::NoMemory
    }
}

impl From<Fault> for Stop {
    ghost use Rattle.text_place.specs.declared.fault.Stop.TheVariants.{Fault};

    ghost from_gives = { λ fault stop. stop ≡ Fault fault };

    fn from(fault: Fault) -> Stop {
        Stop::Fault(fault)
    }
}
