/// What a client does in one step. Nodes are numbered from 0.
#[derive(Clone, Copy)]
pub enum Act {
    /// It comes to its next command.
    Command,
    /// It asks the memo for a node's value.
    Probe(u32),
    /// It builds a node that was missed.
    Build(u32),
    /// It offers to the memo what it built.
    Fill(u32),
    /// It answers the command that it is at.
    Reply,
}

/// One step of one client. Clients are numbered from 0.
#[derive(Clone, Copy)]
pub struct Event {
    pub client: u32,
    pub act: Act,
}

/// What became of an event.
#[derive(Clone, Copy, PartialEq, Eq)]
pub enum Stepped {
    Taken,
    /// The event is not possible in this state, which is unchanged.
    NotReady,
}
