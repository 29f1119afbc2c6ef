//! What follows from the definition of a script, for all lines. A caller of these learns them; nothing runs.

ghost use Rattle.std.specs.Prelude.{◌≡◌, ◌≢◌, ◌≤◌, ℕ, [], ◌∷◌, List, IsSome, Some, Ok, Err, codes, length};
ghost use Rattle.std.specs.List.{flat_map};
ghost use Rattle.keys.specs.declared.command.Command.{Command};
ghost use Rattle.keys.specs.declared.command.Command.TheVariants as command;
ghost use Rattle.keys.specs.declared.key.Key.TheVariants as key;
ghost use Rattle.scenario.specs.Scripts.{script_of, spelled};
ghost use Rattle.scenario.specs.ScriptLines.{AreCommandsOf, AreSent, IsFirstLineAtFault, sent};
ghost use Rattle.scenario.specs.declared.script.ScriptError.{ScriptError};
ghost use Rattle.scenario.specs.declared.script.ScriptError.TheVariants.{NoMemory};
ghost use Rattle.scenario.specs.declared.script.TheConstants.{MOST_KEYS};

/// The commands of a script that reads are those of its lines, in order. One that does not has a line that is bad or
/// passes the limit, and each line before it is read.
pub fn scripts_go_line_by_line()
    ensures ok { (lines : List (List ℕ)) (commands : List Command) → script_of lines ≡ Ok commands → AreCommandsOf [] lines commands }
    ensures err { (lines : List (List ℕ)) (refused : ScriptError) → script_of lines ≡ Err refused → IsFirstLineAtFault [] 1 lines refused }
{}

/// The definition never says that memory ran out.
pub fn scripts_need_no_memory()
    ensures { (lines : List (List ℕ)) → script_of lines ≢ Err NoMemory }
{}

/// A `SEND_KEYS` line means what a `SEND_KEY` line for each of its characters means, one after the other; a space is
/// the key Space. It is read exactly where each of these is, and it is neither empty nor too long.
pub fn keys_are_sent_one_by_one()
    ensures same { (text : List ℕ) (commands : List Command) → spelled (codes "SEND_KEYS") text ≡ Some commands → commands ≡ flat_map sent text }
    ensures each { (text : List ℕ) (commands : List Command) → spelled (codes "SEND_KEYS") text ≡ Some commands → AreSent text }
    ensures read { (text : List ℕ) → 1 ≤ length text → length text ≤ MOST_KEYS → AreSent text → IsSome (spelled (codes "SEND_KEYS") text) }
    ensures space { sent 32 ≡ command.Key key.Space ∷ [] }
{}
