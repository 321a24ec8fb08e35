//! A log that is checked.
ghost use Rattle.std.specs.Prelude.{◌≡◌, false, IfErr, IfOk, Ok, OnOk};
ghost use Rattle.day_check.specs.Judge.{Checks, ChecksAs, Judges, NamesBadLine, line_entry};
ghost use Rattle.day_check.specs.ExecutionText.{counts_if, execution_if};
ghost use Rattle.day_check.specs.LineTold.{asked_execution};
ghost use Rattle.day_check.specs.LogChecked.{entry_checked, line_checked, new_day, new_log, with_execution};
ghost use Rattle.day_check.specs.Head.{is_own_head, own_after};
ghost use Rattle.day_check.specs.LogCheck.{log_parts};
ghost use Rattle.day_check.specs.LogText.{entry_findings, legs_if, line_findings, log_end, style_of, uncounted_in};
ghost use Rattle.day_check.specs.Tallies.{breaks_a_rule};

use crate::execution_counts::{ExecutionCounts, counts_json, counts_line};
use crate::fault::LogFault;
use crate::finding::{Printing, cut_text, findings, summary, uncounted_text};
use crate::judge::judge_line;
use crate::legs_json::legs_json;
use crate::line_told::tell_line;
use crate::tallies::{breaks_a_rule, count};
use day_rules::VenueDay;
use log_legs::legs_text;
use log_rules::{Tally, Verdict};
use log_text::is_passed_over;
use std::alloc::{AllocError, Global};

/// A log that is checked: what is known behind the lines that were read, and how often each rule was held and broken.
#[derive(Drop)]
pub(crate) struct LogCheck {
    pub day: VenueDay,
    pub message: Vec<u8>,
    pub tallies: [Tally; 22],
    /// Whether the log ends within a line.
    pub is_cut: bool,
    /// Whether its first line is the head that this program writes.
    pub is_own: bool,
    /// How many executions were told.
    pub executions: ExecutionCounts,
}

/// What is known before any line; the orders are kept where they are asked for.
fn new_day(alloc: Global, keeps_legs: bool) -> VenueDay
    ensures { result ≡ new_day keeps_legs }
{
    if keeps_legs {
        VenueDay::of_legs(alloc)
    } else {
        VenueDay::of_rules(alloc)
    }
}

/// Whether a line is the head that this program writes.
fn is_own_head(line: &[u8]) -> bool
    ensures { result ≡ is_own_head line.now }
{
    line.starts_with(b"# venue ")
}

/// Whether the first line is, behind the line of a number.
fn own_after(number: u64, line: &[u8], is_own: bool) -> bool
    ensures { result ≡ own_after number line.now is_own }
{
    if number == 1 {
        return is_own_head(line);
    }
    is_own
}

impl LogCheck {
    /// Nothing is read yet; the orders are kept where they are asked for.
    pub(crate) fn new(alloc: Global, keeps_legs: bool) -> LogCheck
        ensures { log_parts result ≡ new_log keeps_legs }
    {
        LogCheck {
            day: new_day(alloc, keeps_legs),
            message: Vec::new(alloc),
            tallies: [Tally::new(); 22],
            is_cut: false,
            is_own: false,
            executions: ExecutionCounts::new(),
        }
    }

    /// What the message of a line says of each rule.
    fn judge(
        &mut self,
        alloc: Global,
        printing: &Printing<'_>,
        number: u64,
        line: &[u8],
    ) -> Result<[Verdict; 22], LogFault>
        ensures judged { IfOk result (λ said.
            Judges number (line_entry printing.now.form.now line.now) self.old.day self.new.day (Ok said)) }
        ensures tallies { self.new.tallies ≡ self.old.tallies }
        ensures own { self.new.is_own ≡ self.old.is_own }
        ensures executions { self.new.executions ≡ self.old.executions }
        ensures named { IfErr result (NamesBadLine printing.now.form.now number line.now) }
    {
        match judge_line(
            alloc,
            printing.form,
            line,
            &mut self.message,
            number,
            &mut self.day,
        ) {
            Ok(verdicts) => Ok(verdicts),
            Err(fault) => Err(LogFault::of_line(number, fault)),
        }
    }

    /// Checks the message of the next line, of this number. The answer is what is printed of the rules that it breaks.
    fn check_message(
        &mut self,
        alloc: Global,
        printing: &Printing<'_>,
        number: u64,
        line: &[u8],
    ) -> Result<Vec<u8>, LogFault>
        ensures day { OnOk result
            (ChecksAs number (line_entry printing.now.form.now line.now) self.old.day self.new.day) }
        ensures checked { OnOk result (log_parts self.new
            ≡ entry_checked number (line_entry printing.now.form.now line.now) (log_parts self.old)) }
        ensures text { IfOk result (λ text. printing.now.is_json ≡ false → text.items
            ≡ entry_findings (style_of printing.now) number line.now (line_entry printing.now.form.now line.now)
            self.old.day) }
        ensures named { IfErr result (NamesBadLine printing.now.form.now number line.now) }
    {
        let verdicts = self.judge(alloc, printing, number, line)?;
        count(&mut self.tallies, &verdicts);
        let text = findings(alloc, printing, &verdicts, number, line)?;
        Ok(text)
    }

    /// What is printed of an execution that the next line tells, where that is asked for. It is counted.
    fn tell_execution(
        &mut self,
        alloc: Global,
        printing: &Printing<'_>,
        number: u64,
        line: &[u8],
    ) -> Result<Vec<u8>, LogFault>
        ensures day { self.new.day ≡ self.old.day }
        ensures counted { OnOk result (log_parts self.new
            ≡ with_execution printing.now.tells_executions printing.now.form.now line.now (log_parts self.old)) }
        ensures text { IfOk result (λ text. printing.now.is_json ≡ false → text.items
            ≡ execution_if (asked_execution printing.now.tells_executions printing.now.form.now line.now
            self.old.day.watch)) }
        ensures named { IfErr result (NamesBadLine printing.now.form.now number line.now) }
    {
        if !printing.tells_executions {
            return Ok(Vec::new(alloc));
        }
        let told = tell_line(
            alloc,
            printing,
            number,
            self.day.watch(),
            line,
            &mut self.message,
        )?;
        self.executions = self.executions.with_answer(told.answer);
        Ok(told.text)
    }

    /// Checks the next line, of this number. The answer is what is printed of the execution that it tells, and of the
    /// rules that it breaks.
    pub(crate) fn check_line(
        &mut self,
        alloc: Global,
        printing: &Printing<'_>,
        number: u64,
        line: &[u8],
    ) -> Result<Vec<u8>, LogFault>
        ensures day { OnOk result (Checks printing.now.form.now number line.now self.old.day self.new.day) }
        ensures checked { OnOk result
            (log_parts self.new ≡ line_checked printing.now.form.now printing.now.tells_executions number line.now
            (log_parts self.old)) }
        ensures text { IfOk result (λ text. printing.now.is_json ≡ false → text.items
            ≡ line_findings (style_of printing.now) number line.now self.old.day) }
        ensures named { IfErr result (NamesBadLine printing.now.form.now number line.now) }
    {
        self.is_own = own_after(number, line, self.is_own);
        if is_passed_over(line) {
            return Ok(Vec::new(alloc));
        }
        let mut text = self.tell_execution(alloc, printing, number, line)?;
        text.extend_from_slice(&self.check_message(alloc, printing, number, line)?)?;
        Ok(text)
    }

    /// What became of the orders, where it is asked for.
    fn legs(&self, alloc: Global, printing: &Printing<'_>) -> Result<Vec<u8>, AllocError>
        ensures { IfOk result (λ text. printing.now.is_json ≡ false → text.items
            ≡ legs_if printing.now.tells_legs self.now.day) }
    {
        if !printing.tells_legs {
            return Ok(Vec::new(alloc));
        }
        if printing.is_json {
            return legs_json(alloc, printing.log, self.day.watch());
        }
        legs_text(alloc, self.day.watch())
    }

    /// How many reports weren't counted, where there are some.
    fn uncounted(&self, alloc: Global, printing: &Printing<'_>) -> Result<Vec<u8>, AllocError>
        ensures { IfOk result (λ text. printing.now.is_json ≡ false → text.items
            ≡ uncounted_in self.now.day.watch.checker) }
    {
        uncounted_text(alloc, printing, self.day.watch().uncounted())
    }

    /// How many executions were told, where that is asked for.
    fn executions(&self, alloc: Global, printing: &Printing<'_>) -> Result<Vec<u8>, AllocError>
        ensures { IfOk result (λ text. printing.now.is_json ≡ false → text.items
            ≡ counts_if printing.now.tells_executions self.now.executions) }
    {
        if !printing.tells_executions {
            return Ok(Vec::new(alloc));
        }
        if printing.is_json {
            return counts_json(alloc, printing.log, self.executions);
        }
        counts_line(alloc, self.executions)
    }

    /// A note where the log is cut, a line for each rule, the reports that weren't counted, and where it is asked for
    /// how many executions there were, and what became of the orders.
    pub(crate) fn end(&self, alloc: Global, printing: &Printing<'_>) -> Result<Vec<u8>, AllocError>
        ensures { IfOk result (λ text. printing.now.is_json ≡ false → text.items
            ≡ log_end (style_of printing.now) self.now.is_cut (log_parts self.now)) }
    {
        let mut text = cut_text(alloc, printing, self.is_cut)?;
        text.extend_from_slice(&summary(alloc, printing, &self.tallies)?)?;
        text.extend_from_slice(&self.uncounted(alloc, printing)?)?;
        text.extend_from_slice(&self.executions(alloc, printing)?)?;
        text.extend_from_slice(&self.legs(alloc, printing)?)?;
        Ok(text)
    }

    /// Whether a rule is broken.
    pub(crate) fn is_broken(&self) -> bool
        ensures { result ≡ breaks_a_rule self.now.tallies }
    {
        breaks_a_rule(&self.tallies)
    }
}
