//! What the clients are to do: their commands, the nodes of each and the keys of these.

ghost use Rattle.std.specs.Prelude.{◌≡◌, ℕ, ◌<◌, true, List, map, length, IfOk, Option, option_map};
ghost use Rattle.std.specs.Arc.{arc_value};
ghost use Rattle.share_core.specs.Views.{ClientTasks, HaveFits, AllThere, MoreThere};

use memo_core::Fit;
use plain_text::NoMemory;
use std::alloc::Global;
use std::sync::Arc;

/// What the clients do. Clients, commands and nodes are numbered from 0; place i of `have` is that
/// of node i.
pub trait Work<F: Fit>: Drop {
    type Reply: Drop;

    /// What the clients do, as contracts see it.
    ghost tasks: { Self → ClientTasks F.Key F.Value Self.Reply };

    /// How many commands a client has: 0 for one that this work does not have.
    fn commands(&self, client: u32) -> u32
        ensures { result ≡ (tasks self.now).commands client };

    /// How many nodes a command has.
    fn nodes(&self, client: u32, command: u32) -> u32
        requires { command < (tasks self.now).commands client }
        ensures { result ≡ (tasks self.now).nodes client command };

    /// The key of a node.
    fn key(&self, client: u32, command: u32, node: u32) -> &Arc<F::Key>
        requires command { command < (tasks self.now).commands client }
        requires node { node < (tasks self.now).nodes client command }
        ensures { arc_value result.now ≡ (tasks self.now).key client command node };

    /// Whether a node can be asked for and built where these values are there.
    fn ready(&self, client: u32, command: u32, node: u32, have: &[Option<Arc<F::Value>>]) -> bool
        requires command { command < (tasks self.now).commands client }
        requires node { node < (tasks self.now).nodes client command }
        requires have { length have.now ≡ (tasks self.now).nodes client command }
        ensures { result ≡ (tasks self.now).ready client command node
            (map (λ v. option_map arc_value v) have.now) };

    /// Builds a value for a node, and says what it weighs.
    fn build(
        &self,
        alloc: Global,
        client: u32,
        command: u32,
        node: u32,
        have: &[Option<Arc<F::Value>>],
    ) -> Result<(Arc<F::Value>, u64), NoMemory>
        requires command { command < (tasks self.now).commands client }
        requires node { node < (tasks self.now).nodes client command }
        requires have { length have.now ≡ (tasks self.now).nodes client command }
        requires ready { (tasks self.now).ready client command node
            (map (λ v. option_map arc_value v) have.now) ≡ true }
        requires fit { HaveFits F.fits ((tasks self.now).key client command) 0
            (map (λ v. option_map arc_value v) have.now) }
        ensures fits { IfOk result (λ r.
            F.fits ((tasks self.now).key client command node) (arc_value r.0)) }
        ensures weighs { IfOk result (λ r. r.1 ≡ F.weighs (arc_value r.0)) };

    /// The reply to a command. All values that fit give the same one.
    fn reply(
        &self,
        alloc: Global,
        client: u32,
        command: u32,
        have: &[Option<Arc<F::Value>>],
    ) -> Result<Self::Reply, NoMemory>
        requires command { command < (tasks self.now).commands client }
        requires have { length have.now ≡ (tasks self.now).nodes client command }
        requires there { AllThere (map (λ v. option_map arc_value v) have.now) }
        requires fit { HaveFits F.fits ((tasks self.now).key client command) 0
            (map (λ v. option_map arc_value v) have.now) }
        ensures { IfOk result (λ r. r ≡ (tasks self.now).reply client command) };

    /// A node that is ready stays ready as more values are there.
    ghost stays_ready: { (w : Self) (client command node : ℕ) (have more : List (Option F.Value)) →
        MoreThere have more → (tasks w).ready client command node have ≡ true →
        (tasks w).ready client command node more ≡ true };
}
