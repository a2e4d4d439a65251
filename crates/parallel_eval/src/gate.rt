//! A gate that each build passes before it is made; tests close it to hold or refuse builds.

ghost use Rattle.std.specs.Prelude.{IsOk};

use plain_text::NoMemory;
use std::sync::Wait;

/// What each build enters before it is made: a build may be held there, or be refused.
pub trait Gate {
    /// A build of a node is about to be made for a client. Where this answers `NoMemory`, it is not made.
    fn enter<R: Wait>(&self, rt: &R, client: u32, node: u32) -> Result<(), NoMemory>;
}

/// A gate that lets every build through at once.
#[derive(Clone, Copy)]
pub struct OpenGate;

impl Gate for OpenGate {
    fn enter<R: Wait>(&self, _rt: &R, _client: u32, _node: u32) -> Result<(), NoMemory>
        ensures { IsOk result }
    {
        Ok(())
    }
}
