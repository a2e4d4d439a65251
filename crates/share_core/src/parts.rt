//! One client's part of the state.

ghost use Rattle.std.specs.Prelude.{◌≡◌, ◌<◌, map, length, IfOk, IfSome, option_map, replicate};
ghost use Rattle.std.specs.Arc.{arc_value};
ghost use Rattle.share_core.specs.KeptNodes.{client_node};
ghost use Rattle.share_core.specs.Fields.{no_client_part, part_of};
ghost use Rattle.share_core.specs.Steps.{with_node};

use crate::kept_nodes::{NodeState, Nodes};
use plain_text::NoMemory;
use std::alloc::Global;
use std::sync::Arc;

/// One client's part: the nodes of the command that it is at, if it is at one, and its replies.
#[derive(Drop)]
pub struct ClientPart<V, R> {
    pub nodes: Option<Nodes<V>>,
    pub replies: Vec<R>,
}

/// The given number of clients that have not begun.
pub fn nobodies<V: Drop, R: Drop>(
    alloc: Global,
    clients: u32,
) -> Result<Vec<ClientPart<V, R>>, NoMemory>
    ensures { IfOk result (λ v. map part_of v.items ≡ replicate clients no_client_part) }
{
    let mut parts = Vec::new(alloc);
    for _index in 0..clients {
        let replies = Vec::new(alloc);
        parts.push(ClientPart {
            nodes: None,
            replies,
        })?;
    }
    Ok(parts)
}

/// A node of the command that a client is at is there with this value, or else in this state.
pub fn put_node<V: Drop, R: Drop>(
    part: &mut ClientPart<V, R>,
    node: u32,
    state: NodeState<V>,
    value: Option<Arc<V>>,
)
    requires { IfSome (part_of part.old).nodes (λ xs. node < length xs) }
    ensures { part_of part.new ≡
        with_node node (client_node state (option_map arc_value value)) (part_of part.old) }
{
    if let Some(nodes) = &mut part.nodes {
        nodes.put(node, state, value);
    }
}
