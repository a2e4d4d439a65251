//! One node of a tree, taken out of its numbered list.

use bsp_tree::{Face, Link};

/// A node by itself: its face, and the links to what lies behind and ahead of its plane.
#[derive(Drop)]
pub struct Fork {
    /// Its face.
    pub face: Face,
    /// The link to what lies behind the plane.
    pub behind: Link,
    /// The link to what lies ahead of it.
    pub ahead: Link,
}
