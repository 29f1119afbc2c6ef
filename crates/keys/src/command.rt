use crate::Key;
use mz_base::Text;

/// What a script asks of its client.
#[derive(Drop)]
pub enum Command {
    Key(Key),
    /// Takes a candidate or a suggestion by its number, from 1.
    Select(u32),
    /// Goes back to precomposition without a commit.
    Reset,
    /// Waits for a published job of this number or higher, from 1.
    Await(u32),
    /// Compares the shown text.
    ExpectPreedit(Text),
    /// Compares the text of the last commit.
    ExpectResult(Text),
}
