use share_types::Kind;

/// Correlations of one kind: `count` of them, from number `first` on.
#[derive(Clone, Copy, Debug, PartialEq, Eq)]
pub struct Range {
    pub first: u32,
    pub count: u32,
}

/// What a job was granted of a kind.
#[derive(Clone, Copy, Debug, PartialEq, Eq)]
pub struct Grant {
    pub job: u32,
    pub kind: Kind,
    pub range: Range,
}

/// What a job asked for of one kind: `count` correlations behind the `before` that were asked for
/// earlier. Clauses speak of asks, and no value of this type is made.
#[derive(Clone, Copy)]
pub struct Ask {
    pub job: u32,
    pub before: u64,
    pub count: u32,
}
