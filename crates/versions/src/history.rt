/// One entry of a registry's history: a value that was installed, and the entry that came with it. The start value has
/// no entry. No value of it is made: histories are of the proofs alone.
pub struct Version<T, E> {
    pub value: T,
    pub entry: Option<E>,
}
