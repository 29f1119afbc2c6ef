use mz_base::Seq;

/// A path over a span, with its cost.
#[derive(Drop)]
pub struct Found {
    /// The ordinals of its entries, from the first to the last.
    pub path: Seq<u32>,
    pub cost: i64,
}
