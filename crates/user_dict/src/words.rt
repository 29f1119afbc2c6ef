/// The reading, the word and the part of speech of a row.
#[derive(Drop, PartialEq, Eq, Hash)]
pub struct Words {
    pub reading: Vec<char>,
    pub word: Vec<char>,
    pub pos: Vec<char>,
}
