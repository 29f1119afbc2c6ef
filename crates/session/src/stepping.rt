ghost use Rattle.std.specs.Prelude.{◌≡◌, [], ◌∷◌, IfOk, OnErr, false, if◌then◌else◌};
ghost use Rattle.std.specs.Option.{option_copied, option_map};
ghost use Rattle.mz_base.specs.declared.report.Word.TheVariants.{Done};
ghost use Rattle.session_meaning.specs.Lines.{line_of};
ghost use Rattle.session_meaning.specs.Outcomes.{Went};
ghost use Rattle.session_meaning.specs.Stages.{P, mode_of, opening, shown, version_of};
ghost use Rattle.session_meaning.specs.Steps.{acted, after, compared, converted_of, differs, gone, learned, learned_by_action, learned_by_selection, met, need_of_action, need_of_selection, needs, of_suggestion, pressed, selected, settled, stayed, step};
ghost use Rattle.keys.specs.Bindings.{action_in};
ghost use Rattle.session.specs.Kept.{lent};
ghost use Rattle.session.specs.Stages.{outcome_of, stage_of};

use crate::composing::{in_composition, in_precomposition, suggestion_at, took_suggestion};
use crate::converting::{in_conversion, took_candidate};
use crate::lines::{line_of, line_with, mode_of, version_of};
use crate::stage::{Outcome, Stage};
use crate::{Need, Pinned};
use keys::{Action, Command, Key, bind};
use mz_base::{Conversion, DataSet, Line, Mode, NoMemory, Pair, Text, UserWords, Word};
use std::alloc::Global;
use std::marker::Model;
use std::sync::Arc;

/// One client's session.
#[derive(Drop)]
pub struct Session<D: DataSet, U: UserWords> {
    alloc: Global,
    stage: Stage<D, U>,
    /// The text of the last commit.
    last: Text,
    /// Whether the last command made the conversion.
    fresh: bool,
}

impl<D: DataSet, U: UserWords> Model for Session<D, U> {
    ghost use Rattle.session_meaning.specs.Stages.{Session as Meant};
    ghost use Rattle.session.specs.Stages.{stage_of};

    ghost Value = { Meant };

    ghost view = { λ s. record { stage = stage_of s.stage; last = s.last; fresh = s.fresh } };
}

impl<D: DataSet + Drop, U: UserWords + Drop> Session<D, U> {
    /// A session in precomposition that has committed nothing. Its later calls allocate here.
    pub fn new(alloc: Global) -> Session<D, U>
        ensures { result ≡ opening }
    {
        Session {
            alloc,
            stage: Stage::Precomposition,
            last: Text::from_vec(Vec::new(alloc)),
            fresh: false,
        }
    }

    /// The same session. What is composed and what was converted are shared, so that a copy costs the text of the last commit
    /// and the chosen places.
    pub fn copy(&self) -> Result<Session<D, U>, NoMemory>
        ensures { IfOk result (λ copy. copy ≡ self.now) }
    {
        Ok(Session {
            alloc: self.alloc,
            stage: self.shared_stage()?,
            last: self.last.copy(self.alloc)?,
            fresh: self.fresh,
        })
    }

    fn shared_stage(&self) -> Result<Stage<D, U>, NoMemory>
        ensures { IfOk result (λ stage. stage_of stage ≡ self.now.stage) }
    {
        match &self.stage {
            Stage::Precomposition => Ok(Stage::Precomposition),
            Stage::Composition(composition) => Ok(Stage::Composition(Arc::try_clone(composition)?)),
            Stage::Conversion(choosing) => Ok(Stage::Conversion(choosing.share(self.alloc)?)),
        }
    }

    /// What a command needs before its step. It takes no memory.
    #[tactic(auto, unfolding(session_meaning::specs::Steps::needs))]
    pub fn needs(&self, command: &Command) -> Need
        ensures { result ≡ needs self.now command.now }
    {
        match command {
            Command::Key(key) => self.need_of_action(bind(self.mode(), *key)),
            Command::Select(number) => self.need_of_selection(*number),
            _ => Need::Nothing,
        }
    }

    /// The pairs that a command commits; none where it needs no learning.
    #[tactic(auto, unfolding(session_meaning::specs::Steps::learned))]
    pub fn learned(&self, command: &Command) -> Result<Vec<Pair>, NoMemory>
        ensures { IfOk result (λ pairs. pairs.items ≡ learned self.now command.now) }
    {
        match command {
            Command::Key(key) => self.learned_by_action(bind(self.mode(), *key)),
            Command::Select(number) => self.learned_by_selection(*number),
            _ => Ok(Vec::new(self.alloc)),
        }
    }

    /// Carries out a command, with the data that it takes, where its need says so, and tells its line. A wait passes: whoever
    /// serves the session waits. After a refusal the session is as before.
    #[tactic(auto, unfolding(session_meaning::specs::Steps::step))]
    pub fn step(&mut self, command: &Command, taken: Option<Pinned<D, U>>) -> Result<Line, NoMemory>
        ensures ok { IfOk result (λ line. step self.old command.now taken ≡ record { session = self.new; line = line }) }
        ensures err { OnErr result (self.new ≡ self.old) }
    {
        match command {
            Command::Key(key) => self.press(*key, taken),
            Command::Select(number) => self.select(*number),
            Command::Reset => self.after(Outcome::Went(Stage::Precomposition)),
            Command::Await(_) => self.after(Outcome::Passed),
            Command::ExpectPreedit(text) => self.compare_shown(text),
            Command::ExpectResult(text) => self.compare_last(text),
        }
    }

    /// The key and the conversion that the last command made, a resize included; None where it made none. It takes no
    /// memory.
    pub fn converted(&self) -> Option<(&[char], &Conversion)>
        ensures { option_map lent result ≡ converted_of self.now }
    {
        match &self.stage {
            Stage::Conversion(choosing) if self.fresh => Some((
                choosing.key(),
                choosing.conversion(),
            )),
            _ => None,
        }
    }

    /// The mode, as a line has it.
    pub fn mode(&self) -> Mode
        ensures { result ≡ mode_of self.now.stage }
    {
        mode_of(&self.stage)
    }

    /// The number of the job whose data are kept, as a line has it: 0 in precomposition.
    pub fn version(&self) -> u32
        ensures { result ≡ version_of self.now.stage }
    {
        version_of(&self.stage)
    }

    fn need_of_action(&self, action: Option<Action>) -> Need
        ensures { result ≡ need_of_action self.now.stage action }
    {
        match (&self.stage, action) {
            (Stage::Precomposition, Some(Action::Insert(_))) => Need::Take,
            (Stage::Conversion(_), Some(Action::CommitThenInsert(_))) => Need::LearnThenTake,
            (Stage::Conversion(_), Some(Action::Commit)) => Need::Learn,
            _ => Need::Nothing,
        }
    }

    fn need_of_selection(&self, number: u32) -> Need
        ensures { result ≡ need_of_selection self.now.stage number }
    {
        match &self.stage {
            Stage::Composition(composition) if suggestion_at(composition, number).is_some() => {
                Need::Learn
            }
            _ => Need::Nothing,
        }
    }

    fn learned_by_action(&self, action: Option<Action>) -> Result<Vec<Pair>, NoMemory>
        ensures { IfOk result (λ pairs. pairs.items ≡ learned_by_action self.now.stage action) }
    {
        match (&self.stage, action) {
            (Stage::Conversion(choosing), Some(Action::CommitThenInsert(_) | Action::Commit)) => {
                choosing.pairs(self.alloc)
            }
            _ => Ok(Vec::new(self.alloc)),
        }
    }

    fn learned_by_selection(&self, number: u32) -> Result<Vec<Pair>, NoMemory>
        ensures { IfOk result (λ pairs. pairs.items ≡ learned_by_selection self.now.stage number) }
    {
        match &self.stage {
            Stage::Composition(composition) => {
                pair_alone(self.alloc, suggestion_at(composition, number))
            }
            _ => Ok(Vec::new(self.alloc)),
        }
    }

    fn press(&mut self, key: Key, taken: Option<Pinned<D, U>>) -> Result<Line, NoMemory>
        ensures ok { IfOk result (λ line. after self.old (pressed self.old.stage taken (action_in (mode_of self.old.stage) key)) ≡ record { session = self.new; line = line }) }
        ensures err { OnErr result (self.new ≡ self.old) }
    {
        let outcome = match bind(self.mode(), key) {
            Some(action) => self.acted(action, taken)?,
            None => Outcome::Passed,
        };
        self.after(outcome)
    }

    /// What an action comes to, by the mode.
    fn acted(&self, action: Action, taken: Option<Pinned<D, U>>) -> Result<Outcome<D, U>, NoMemory>
        ensures { IfOk result (λ outcome. outcome_of outcome ≡ acted self.now.stage taken action) }
    {
        match &self.stage {
            Stage::Precomposition => in_precomposition(self.alloc, taken, action),
            Stage::Composition(composition) => in_composition(self.alloc, composition, action),
            Stage::Conversion(choosing) => in_conversion(self.alloc, choosing, taken, action),
        }
    }

    fn select(&mut self, number: u32) -> Result<Line, NoMemory>
        ensures ok { IfOk result (λ line. after self.old (selected self.old.stage number) ≡ record { session = self.new; line = line }) }
        ensures err { OnErr result (self.new ≡ self.old) }
    {
        let outcome = self.selected(number)?;
        self.after(outcome)
    }

    /// What a selection comes to.
    fn selected(&self, number: u32) -> Result<Outcome<D, U>, NoMemory>
        ensures { IfOk result (λ outcome. outcome_of outcome ≡ selected self.now.stage number) }
    {
        match &self.stage {
            Stage::Precomposition => Ok(Outcome::Passed),
            Stage::Composition(composition) => took_suggestion(self.alloc, composition, number),
            Stage::Conversion(choosing) => took_candidate(self.alloc, choosing, number),
        }
    }

    /// The session after an outcome, and the line that tells it.
    fn after(&mut self, outcome: Outcome<D, U>) -> Result<Line, NoMemory>
        ensures ok { IfOk result (λ line. after self.old (outcome_of outcome) ≡ record { session = self.new; line = line }) }
        ensures err { OnErr result (self.new ≡ self.old) }
    {
        match outcome {
            Outcome::Passed => self.stay(Word::Pass),
            Outcome::Filled => self.stay(Word::Full),
            Outcome::Went(stage) => self.go(settled(stage), false),
            Outcome::Converted(choosing) => self.go(Stage::Conversion(choosing), true),
            Outcome::Committed(text, stage) => self.commit(text, settled(stage)),
        }
    }

    /// Nothing changes, but that no conversion is new.
    fn stay(&mut self, word: Word) -> Result<Line, NoMemory>
        ensures ok { IfOk result (λ line. stayed self.old (line_of word self.old.stage []) ≡ record { session = self.new; line = line }) }
        ensures err { OnErr result (self.new ≡ self.old) }
    {
        let line = line_of(self.alloc, word, &self.stage, empty(self.alloc))?;
        self.fresh = false;
        Ok(line)
    }

    /// The session goes on with a stage.
    fn go(&mut self, stage: Stage<D, U>, fresh: bool) -> Result<Line, NoMemory>
        ensures ok { IfOk result (λ line. gone self.old (stage_of stage) fresh ≡ record { session = self.new; line = line }) }
        ensures err { OnErr result (self.new ≡ self.old) }
    {
        let line = line_of(self.alloc, Word::Done, &stage, empty(self.alloc))?;
        self.stage = stage;
        self.fresh = fresh;
        Ok(line)
    }

    /// A text is committed, and the session goes on with a stage.
    fn commit(&mut self, text: Text, stage: Stage<D, U>) -> Result<Line, NoMemory>
        ensures ok { IfOk result (λ line. (line ≡ line_of Done (stage_of stage) text) × (self.new ≡ record { stage = stage_of stage; last = text; fresh = false })) }
        ensures err { OnErr result (self.new ≡ self.old) }
    {
        let last = text.copy(self.alloc)?;
        let line = line_of(self.alloc, Word::Done, &stage, text)?;
        self.stage = stage;
        self.last = last;
        self.fresh = false;
        Ok(line)
    }

    fn compare_shown(&mut self, wanted: &Text) -> Result<Line, NoMemory>
        ensures ok { IfOk result (λ line. compared self.old wanted.now (shown self.old.stage) ≡ record { session = self.new; line = line }) }
        ensures err { OnErr result (self.new ≡ self.old) }
    {
        let found = self.shown()?;
        self.compare(wanted, found)
    }

    fn compare_last(&mut self, wanted: &Text) -> Result<Line, NoMemory>
        ensures ok { IfOk result (λ line. compared self.old wanted.now self.old.last ≡ record { session = self.new; line = line }) }
        ensures err { OnErr result (self.new ≡ self.old) }
    {
        let found = self.last.copy(self.alloc)?;
        self.compare(wanted, found)
    }

    /// The shown text.
    fn shown(&self) -> Result<Text, NoMemory>
        ensures { IfOk result (λ text. text ≡ shown self.now.stage) }
    {
        match &self.stage {
            Stage::Precomposition => Ok(empty(self.alloc)),
            Stage::Composition(composition) => Text::from_chars(self.alloc, composition.preedit()),
            Stage::Conversion(choosing) => choosing.text(self.alloc),
        }
    }

    /// Tells whether the text that was expected was found, or else the other one.
    fn compare(&mut self, wanted: &Text, found: Text) -> Result<Line, NoMemory>
        ensures ok { IfOk result (λ line. compared self.old wanted.now found ≡ record { session = self.new; line = line }) }
        ensures err { OnErr result (self.new ≡ self.old) }
    {
        let mut rest = Vec::new(self.alloc);
        let mut word = Word::Met;
        if found.as_chars() != wanted.as_chars() {
            word = Word::Differs;
            rest.push(found)?;
        }
        self.fresh = false;
        Ok(line_with(word, &self.stage, empty(self.alloc), rest))
    }
}

/// A composition that shows nothing is over.
fn settled<D: DataSet + Drop, U: UserWords + Drop>(stage: Stage<D, U>) -> Stage<D, U>
    ensures { stage_of result ≡ settled (stage_of stage) }
{
    if is_over(&stage) {
        return Stage::Precomposition;
    }
    stage
}

fn is_over<D: DataSet + Drop, U: UserWords + Drop>(stage: &Stage<D, U>) -> bool
    ensures { settled (stage_of stage.now) ≡ (if result then P else stage_of stage.now) }
{
    match stage {
        Stage::Composition(composition) => composition.is_empty(),
        _ => false,
    }
}

fn empty(alloc: Global) -> Text
    ensures { result ≡ [] }
{
    Text::from_vec(Vec::new(alloc))
}

/// The pair, copied, where there is one.
fn pair_alone(alloc: Global, pair: Option<&Pair>) -> Result<Vec<Pair>, NoMemory>
    ensures { IfOk result (λ pairs. pairs.items ≡ of_suggestion (option_copied pair.entry)) }
{
    let mut pairs = Vec::new(alloc);
    if let Some(pair) = pair {
        pairs.push(Pair {
            key: pair.key.copy(alloc)?,
            value: pair.value.copy(alloc)?,
        })?;
    }
    Ok(pairs)
}
