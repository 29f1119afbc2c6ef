ghost use Rattle.std.specs.Prelude.{◌≡◌, ◌<◌, ◌≤◌, ◌++◌, ◌∷◌, ℕ, [], false, List, IfOk, length};
ghost use Rattle.std.specs.List.{list_all};
ghost use Rattle.mz_base.specs.declared.logs.JobEntry.{JobEntry};
ghost use Rattle.run_meaning.specs.Jobs.{is_logged, is_published, job_of, newest, outcome_of};
ghost use Rattle.run_meaning.specs.Numbers.{at_number, numbers};
ghost use Rattle.core_steps.specs.declared.board.Mark.TheVariants as mark;
ghost use Rattle.core_steps.specs.Boards.{IsBoard, came, mark_of, newest_with, stands};

use mz_base::{NoMemory, Outcome};
use std::alloc::Global;

/// What became of a job.
#[derive(Clone, Copy)]
pub enum Mark {
    /// It did not come yet.
    Missing,
    Published,
    /// It was refused or skipped.
    Passed,
}

/// What became of each job, so that nobody walks the log.
#[derive(Drop)]
pub struct Board {
    /// By the number of the job.
    marks: Vec<Mark>,
    /// How many jobs did not come yet.
    left: usize,
    /// The newest published job; 0 where none is published.
    newest: u32,
}

impl Board {
    /// No job came.
    pub fn new(alloc: Global, jobs: usize) -> Result<Board, NoMemory>
        ensures { IfOk result (IsBoard jobs []) }
    {
        let mut marks = Vec::new(alloc);
        marks.resize(jobs, Mark::Missing)?;
        Ok(Board {
            marks,
            left: jobs,
            newest: 0,
        })
    }

    pub fn newest(&self) -> u32
        ensures { (jobs : ℕ) (log : List JobEntry) → IsBoard jobs log self.now → result ≡ newest log }
    {
        self.newest
    }

    /// Whether the job came.
    pub fn is_logged(&self, job: u32) -> bool
        ensures { (jobs : ℕ) (log : List JobEntry) → IsBoard jobs log self.now → result ≡ is_logged log job }
    {
        has_come(self.mark(job))
    }

    /// Whether the job stands published.
    pub fn is_published(&self, job: u32) -> bool
        ensures { (jobs : ℕ) (log : List JobEntry) → IsBoard jobs log self.now → result ≡ is_published log job }
    {
        is_standing(self.mark(job))
    }

    /// Whether all jobs came.
    pub fn is_full(&self) -> bool
        ensures { (jobs : ℕ) (log : List JobEntry) → IsBoard jobs log self.now → result ≡ list_all (is_logged log) (numbers jobs) }
    {
        self.left == 0
    }

    /// A job that did not come yet has come, with this outcome.
    pub fn note(&mut self, job: u32, outcome: Outcome)
        requires from { 0 < job }
        requires to { job ≤ length self.old.marks.items }
        ensures { (jobs : ℕ) (log : List JobEntry) (entry : JobEntry) → IsBoard jobs log self.old → is_logged log job ≡ false → job_of entry ≡ job → outcome_of entry ≡ outcome → IsBoard jobs (log ++ entry ∷ []) self.new }
    {
        self.marks[job as usize - 1] = mark_of(outcome);
        self.left = self.left.saturating_sub(1);
        self.newest = newest_with(self.newest, job, outcome);
    }

    /// What became of a job; of one that is not there nothing.
    fn mark(&self, job: u32) -> Mark
        ensures { result ≡ at_number mark.Missing self.now.marks.items job }
    {
        let Some(place) = (job as usize).checked_sub(1) else {
            return Mark::Missing;
        };
        match self.marks.as_slice().get(place) {
            Some(mark) => *mark,
            None => Mark::Missing,
        }
    }
}

fn has_come(mark: Mark) -> bool
    ensures { result ≡ came mark }
{
    match mark {
        Mark::Missing => false,
        Mark::Published | Mark::Passed => true,
    }
}

fn is_standing(mark: Mark) -> bool
    ensures { result ≡ stands mark }
{
    match mark {
        Mark::Published => true,
        Mark::Missing | Mark::Passed => false,
    }
}

fn mark_of(outcome: Outcome) -> Mark
    ensures { result ≡ mark_of outcome }
{
    match outcome {
        Outcome::Published => Mark::Published,
        Outcome::Refused | Outcome::Skipped => Mark::Passed,
    }
}

/// The newest published job, after this one came with this outcome.
fn newest_with(before: u32, job: u32, outcome: Outcome) -> u32
    ensures { result ≡ newest_with before job outcome }
{
    match outcome {
        Outcome::Published => job,
        Outcome::Refused | Outcome::Skipped => before,
    }
}
