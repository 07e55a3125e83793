//! The limits of a server.

ghost use Rattle.std.specs.Prelude.{◌≤◌, ◌^◌};

/// The most that a server takes. Each value is at most the standard one, and any may be 0.
#[derive(Clone, Copy)]
pub struct Limits {
    /// Bytes of a body, whichever way its length is told.
    pub body: u32,
    /// Bytes of a head, the empty lines before it and the one that ends it counted.
    pub head: u32,
    /// Fields of a head.
    pub fields: u32,
    /// Levels of a document that is read.
    pub depth: u32,
    /// Nodes of a workflow definition.
    pub nodes: u32,
    /// Attempts of a flow.
    pub attempts: u32,
    /// Flows that are kept, ended ones counted.
    pub flows: u32,
    /// Tasks that one poll may ask for.
    pub batch: u32,
    /// Bytes of a document that a rule makes.
    pub document: u32,
    /// Levels of sub-workflows.
    pub nesting: u32,
    /// Bytes of the input of a connection.
    pub input: u64,
    pub ghost body_in_range: { body ≤ 1_048_576 },
    pub ghost head_in_range: { head ≤ 16_384 },
    pub ghost fields_in_range: { fields ≤ 64 },
    pub ghost depth_in_range: { depth ≤ 64 },
    pub ghost nodes_in_range: { nodes ≤ 500 },
    pub ghost attempts_in_range: { attempts ≤ 4_096 },
    pub ghost flows_in_range: { flows ≤ 20_000 },
    pub ghost batch_in_range: { batch ≤ 100 },
    pub ghost document_in_range: { document ≤ 1_048_576 },
    pub ghost nesting_in_range: { nesting ≤ 16 },
    pub ghost input_in_range: { input ≤ 2 ^ 40 },
}

impl Limits {
    /// The standard limits, each value the greatest that it may have.
    pub const STANDARD: Limits = Limits {
        body: 1_048_576,
        head: 16_384,
        fields: 64,
        depth: 64,
        nodes: 500,
        attempts: 4_096,
        flows: 20_000,
        batch: 100,
        document: 1_048_576,
        nesting: 16,
        input: 1_099_511_627_776,
    };
}
