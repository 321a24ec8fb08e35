//! The runs of the settled legs: how a leg more is added to them, and how the leg of an ordinal was settled.

ghost use Rattle.std.specs.Prelude.{◌≡◌, ◌≤◌, ◌<◌, ◌+◌, length, map, nat_lt, nat_le, slice_get, vec_len, vec_capacity, All};
ghost use Rattle.std.specs.List.Sorted.{IsNonDecreasingBy};
ghost use Rattle.resend.specs.declared.run.Run.{Run as OneRun};
ghost use Rattle.resend.specs.declared.sent.Sent.{Sent as InDoubt};
ghost use Rattle.resend.specs.Kept.{leading};
ghost use Rattle.resend.specs.Runs.{single, are_alike, goes_on};
ghost use Rattle.resend.specs.KeptRuns.{added, added_all, joined_at, state_among, EndBy, Follow, AreRuns};

use crate::{Run, Sent};
use leg::LegState;

/// Whether two legs were settled alike.
fn alike(left: LegState, right: LegState) -> bool
    ensures { result ≡ are_alike left right }
{
    match (left, right) {
        (LegState::Taken, LegState::Taken) => true,
        (LegState::Withdrawn, LegState::Withdrawn) => true,
        _ => false,
    }
}

/// Whether the next run begins where a run ends, and is settled alike.
fn continues(run: Run, next: Run) -> bool
    ensures { result ≡ goes_on run next }
{
    run.first_number <= next.first_number
        && next.first_number - run.first_number == run.count
        && run.first_ordinal <= next.first_ordinal
        && next.first_ordinal - run.first_ordinal == run.count
        && alike(run.state, next.state)
}

/// How many of the runs begin below a number.
fn runs_below(runs: &[Run], number: u64) -> usize
    requires { IsNonDecreasingBy (λ (run : OneRun). run.first_number) runs.now }
    ensures { result ≡ leading (λ (run : OneRun). nat_lt run.first_number number) runs.now }
{
    runs.partition_point(|run| run.first_number < number)
}

/// Makes the run in a place one with the next, where it goes on in that.
fn join(runs: &mut Vec<Run>, place: usize)
    requires within { place < length runs.old.items }
    requires end { EndBy 18446744073709551615 runs.old.items }
    ensures items { runs.new.items ≡ joined_at place runs.old.items }
    ensures len { vec_len runs.new ≤ vec_len runs.old }
    ensures capacity { vec_capacity runs.new ≡ vec_capacity runs.old }
{
    let behind = place + 1;
    if behind == runs.len() {
        return;
    }
    let run = runs[place];
    let next = runs[behind];
    if continues(run, next) {
        runs[place] = Run {
            count: run.count + next.count,
            ..run
        };
        let _ = runs.remove(behind);
    }
}

/// Adds a leg, as a run by itself.
fn add(runs: &mut Vec<Run>, leg: Run)
    requires kept { AreRuns runs.old.items }
    requires ends { leg.first_number + leg.count ≤ 18446744073709551615 }
    requires room { vec_len runs.old < vec_capacity runs.old }
    ensures items { runs.new.items ≡ added leg runs.old.items }
    ensures len { vec_len runs.new ≤ vec_len runs.old + 1 }
    ensures capacity { vec_capacity runs.new ≡ vec_capacity runs.old }
{
    let place = runs_below(runs.as_slice(), leg.first_number);
    let _there_is_room = runs.insert(place, leg);
    join(runs, place);
    if place > 0 {
        join(runs, place - 1);
    }
}

/// Adds legs that are settled.
pub(crate) fn add_all(runs: &mut Vec<Run>, sents: &[Sent], state: LegState)
    requires kept { AreRuns runs.old.items }
    requires ends { All (λ (sent : InDoubt). sent.number < 18446744073709551615) sents.now }
    requires room { vec_len runs.old + length sents.now ≤ vec_capacity runs.old }
    ensures items { runs.new.items ≡ added_all
        (map (λ (sent : InDoubt). single sent.number sent.ordinal state) sents.now) runs.old.items }
    ensures kept { AreRuns runs.new.items }
    ensures len { vec_len runs.new ≤ vec_len runs.old + length sents.now }
    ensures capacity { vec_capacity runs.new ≡ vec_capacity runs.old }
{
    for sent in sents {
        add(
            runs,
            Run {
                first_number: sent.number,
                first_ordinal: sent.ordinal,
                count: 1,
                state,
            },
        );
    }
}

/// Whether a run ends below an ordinal.
fn ends_below(run: Run, ordinal: u64) -> bool
    ensures { result ≡ nat_le (run.first_ordinal + run.count) ordinal }
{
    run.first_ordinal <= ordinal && run.count <= ordinal - run.first_ordinal
}

/// How many of the runs end below an ordinal.
fn runs_ended(runs: &[Run], ordinal: u64) -> usize
    requires { IsNonDecreasingBy (λ (run : OneRun). run.first_ordinal + run.count) runs.now }
    ensures { result ≡ leading (λ (run : OneRun). nat_le (run.first_ordinal + run.count) ordinal) runs.now }
{
    runs.partition_point(|run| ends_below(*run, ordinal))
}

/// The run in a place, if there is one.
fn run_in(runs: &[Run], place: usize) -> Option<Run>
    ensures { result ≡ slice_get runs.now place }
{
    runs.get(place).copied()
}

/// How the leg of an ordinal was settled, if it was.
pub(crate) fn settled_state(runs: &[Run], ordinal: u64) -> Option<LegState>
    requires { Follow 0 runs.now }
    ensures { result ≡ state_among ordinal runs.now }
{
    match run_in(runs, runs_ended(runs, ordinal)) {
        Some(run) if run.first_ordinal <= ordinal => Some(run.state),
        _ => None,
    }
}
