//! What the interface asks of a desk's day.

ghost use Rattle.std.specs.Prelude.{◌≡◌, ◌≤◌, ℕ, Bool, List, Option, length, IfOk};
ghost use Rattle.std.specs.Option.{option_map};
ghost use Rattle.sweep_refs.specs.declared.submission.Submission.{Submission};
ghost use Rattle.desk_json.specs.declared.outcome.Outcome.{Outcome};
ghost use Rattle.desk_json.specs.declared.standing.ExecutionsPage.{ExecutionsPage};
ghost use Rattle.desk_json.specs.declared.standing.SweepLegs.{SweepLegs};
ghost use Rattle.desk_json.specs.declared.standing.SweepsPage.{SweepsPage};
ghost use Rattle.desk_json.specs.declared.standing.VenueRow.{VenueRow};
ghost use Rattle.desk_http.specs.declared.day_sums.DaySums.{DaySums};
ghost use Rattle.desk_http.specs.declared.process_use.ProcessUse.{ProcessUse};
ghost use Rattle.desk_http.specs.declared.refusal_counts.RefusalCounts.{RefusalCounts};
ghost use Rattle.desk_http.specs.declared.stopped.Stopped.{Stopped};

use crate::day_sums::DaySums;
use crate::process_use::ProcessUse;
use crate::refusal_counts::RefusalCounts;
use crate::stopped::Stopped;
use desk_json::{ExecutionsPage, Outcome, SweepLegs, SweepsPage, VenueRow};
use desk_words::VenueName;
use std::alloc::AllocError;
use sweep_refs::{Submission, SweepRef};

/// A desk's day, as its clients ask it. An implementation that may wait for a lock holds its handle.
pub trait Day {
    // The names of the venues, by their places.
    ghost venue_names: { Self → List (List ℕ) };

    // What the day answers, and what it is from then on.
    ghost places: { Self → Submission → Option ℕ → Outcome → Self → Type 0 };

    ghost pages: { Self → ℕ → ℕ → SweepsPage → Self → Type 0 };

    ghost finds: { Self → List ℕ → Option ℕ → Type 0 };

    ghost shows: { Self → ℕ → Option SweepLegs → Self → Type 0 };

    ghost reports: { Self → ℕ → ℕ → ExecutionsPage → Self → Type 0 };

    ghost lists: { Self → List VenueRow → Self → Type 0 };

    ghost sums_up: { Self → DaySums → Self → Type 0 };

    ghost refuses: { Self → RefusalCounts → Type 0 };

    ghost guesses: { Self → ℕ → Type 0 };

    ghost uses: { Self → Option ProcessUse → Type 0 };

    ghost closes: { Self → Option ℕ → Self → Type 0 };

    ghost halts: { Self → Option ℕ → Stopped → Self → Type 0 };

    ghost resumes: { Self → Option ℕ → Bool → Self → Type 0 };

    /// The names of the venues, by their places: at most 16.
    fn names(&self) -> &[VenueName]
        ensures value { result.now ≡ venue_names self.now }
        ensures few { length result.now ≤ 16 };

    /// Hands a sweep in by the user at this place, where one is known, and says what becomes of it.
    fn place(&mut self, submission: Submission, by: Option<usize>) -> Outcome
        ensures { places self.old submission by result self.new };

    /// The number under which a sweep was placed under a reference, if one was.
    fn find(&self, reference: &SweepRef) -> Option<u64>
        ensures { finds self.now reference.now result };

    /// The sweeps behind a number, at most so many, with the sums of the day.
    fn sweeps(&mut self, after: u64, most: u64) -> Result<SweepsPage, AllocError>
        ensures { IfOk result (λ page. pages self.old after most page self.new) };

    /// The legs of a sweep, or none where no sweep has this number.
    fn sweep(&mut self, number: u64) -> Result<Option<SweepLegs>, AllocError>
        ensures { IfOk result (λ legs. shows self.old number legs self.new) };

    /// The executions behind a number, at most so many.
    fn executions(&mut self, after: u64, most: u64) -> Result<ExecutionsPage, AllocError>
        ensures { IfOk result (λ page. reports self.old after most page self.new) };

    /// How the venues stand, by their places.
    fn venues(&mut self) -> Result<Vec<VenueRow>, AllocError>
        ensures { IfOk result (λ rows. lists self.old rows.items self.new) };

    /// What the day came to so far. The only refusal is out of memory.
    fn sums(&mut self) -> Result<DaySums, AllocError>
        ensures { IfOk result (λ sums. sums_up self.old sums self.new) };

    /// How many sweeps weren't placed until now.
    fn refusals(&self) -> RefusalCounts
        ensures { refuses self.now result };

    /// How many wrong tokens came until now.
    fn wrong_tokens(&self) -> u64
        ensures { guesses self.now result };

    /// What the process uses of the machine, if the system says it.
    fn process_use(&self) -> Option<ProcessUse>
        ensures { uses self.now result };

    /// Has the day closed by the user at this place, where one is known: from now on no sweep is placed. A second call
    /// changes nothing.
    fn close(&mut self, by: Option<usize>)
        ensures { closes self.old by self.new };

    /// Has the desk halted by the user at this place, where one is known: no sweep is placed until it resumes.
    fn halt(&mut self, by: Option<usize>) -> Stopped
        ensures { halts self.old by result self.new };

    /// Has it resume, and says whether a desk that is started again does too.
    fn resume(&mut self, by: Option<usize>) -> bool
        ensures { resumes self.old by result self.new };

    /// Takes a place among those who follow the day, unless too many do.
    fn may_follow(&mut self) -> bool;
}
