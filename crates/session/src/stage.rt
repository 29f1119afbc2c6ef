use crate::choosing::Choosing;
use crate::composition::Composition;
use mz_base::{DataSet, Text, UserWords};
use std::sync::Arc;

/// Precomposition, composition, conversion.
#[derive(Drop)]
pub enum Stage<D: DataSet, U: UserWords> {
    Precomposition,
    Composition(Arc<Composition<D, U>>),
    Conversion(Choosing<D, U>),
}

/// What a command comes to: it has no meaning here; the preedit is full; the session goes on with a stage; a conversion
/// was made; a text is committed, and the session goes on with a stage.
#[derive(Drop)]
pub enum Outcome<D: DataSet, U: UserWords> {
    Passed,
    Filled,
    Went(Stage<D, U>),
    Converted(Choosing<D, U>),
    Committed(Text, Stage<D, U>),
}
