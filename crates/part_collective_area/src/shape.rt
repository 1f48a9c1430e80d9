//! What a collective does.

ghost use Rattle.std.specs.Prelude.{◌≡◌, ◌<◌, ◌^◌};
ghost use Rattle.part_collective_area.specs.Shapes.{kind_code, shape_word, is_reduction, has_root, has_result, uses};

/// What is done with the bytes that the nodes give.
#[derive(Clone, Copy)]
pub enum CollectiveKind {
    /// Each node gets the root's bytes.
    Broadcast,
    /// The root gets all bytes, in the order of the nodes.
    Gather,
    /// Each node does.
    AllGather,
    /// The root gets the sums of the words, place by place, modulo 2^64.
    Sum,
    /// The root gets the smallest of them, unsigned.
    Min,
    /// The root gets the greatest of them, unsigned.
    Max,
    /// Each node gets the sums.
    AllSum,
    /// Each node gets the smallest.
    AllMin,
    /// Each node gets the greatest.
    AllMax,
}

/// A collective, as each node starts it.
#[derive(Clone, Copy)]
pub struct Shape {
    /// What is done.
    pub kind: CollectiveKind,
    /// The root; 0 for a kind without one.
    pub root: u16,
    /// How many bytes each node gives.
    pub len: u64,
}

impl CollectiveKind {
    /// The number that stands for it in a part.
    fn code(self) -> u64
        ensures value { result ≡ kind_code self }
        ensures small { result < 9 }
    {
        match self {
            CollectiveKind::Broadcast => 0,
            CollectiveKind::Gather => 1,
            CollectiveKind::AllGather => 2,
            CollectiveKind::Sum => 3,
            CollectiveKind::Min => 4,
            CollectiveKind::Max => 5,
            CollectiveKind::AllSum => 6,
            CollectiveKind::AllMin => 7,
            CollectiveKind::AllMax => 8,
        }
    }

    /// Whether it takes words together.
    pub fn is_reduction(self) -> bool
        ensures { result ≡ is_reduction self }
    {
        match self {
            CollectiveKind::Broadcast | CollectiveKind::Gather | CollectiveKind::AllGather => false,
            CollectiveKind::Sum
            | CollectiveKind::Min
            | CollectiveKind::Max
            | CollectiveKind::AllSum
            | CollectiveKind::AllMin
            | CollectiveKind::AllMax => true,
        }
    }

    /// Whether it has a root.
    pub fn has_root(self) -> bool
        ensures { result ≡ has_root self }
    {
        match self {
            CollectiveKind::Broadcast
            | CollectiveKind::Gather
            | CollectiveKind::Sum
            | CollectiveKind::Min
            | CollectiveKind::Max => true,
            CollectiveKind::AllGather
            | CollectiveKind::AllSum
            | CollectiveKind::AllMin
            | CollectiveKind::AllMax => false,
        }
    }
}

impl Shape {
    /// The word of the shape.
    pub fn word(self) -> u64
        requires short { self.len < 2 ^ 32 }
        ensures { result ≡ shape_word self }
    {
        self.kind.code() * 0x1_0000_0000_0000 + u64::from(self.root) * 0x1_0000_0000 + self.len
    }

    /// Whether a node has a result.
    pub fn has_result(self, node: u16) -> bool
        ensures { result ≡ has_result self node }
    {
        match self.kind {
            CollectiveKind::Gather
            | CollectiveKind::Sum
            | CollectiveKind::Min
            | CollectiveKind::Max => node == self.root,
            CollectiveKind::Broadcast
            | CollectiveKind::AllGather
            | CollectiveKind::AllSum
            | CollectiveKind::AllMin
            | CollectiveKind::AllMax => true,
        }
    }

    /// Whether the result of the node `to` uses the bytes of the node `from`.
    pub fn uses(self, from: u16, to: u16) -> bool
        ensures { result ≡ uses self from to }
    {
        match self.kind {
            CollectiveKind::Broadcast => from == self.root,
            CollectiveKind::Gather
            | CollectiveKind::Sum
            | CollectiveKind::Min
            | CollectiveKind::Max => to == self.root,
            CollectiveKind::AllGather
            | CollectiveKind::AllSum
            | CollectiveKind::AllMin
            | CollectiveKind::AllMax => true,
        }
    }
}
