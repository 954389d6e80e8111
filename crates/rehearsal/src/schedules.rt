// Reads a schedule, and tells what became of each of its lines.
ghost use Rattle.std.specs.Prelude.{◌≡◌, ◌++◌, IfOk, OnOk, string_bytes};
ghost use Rattle.std.specs.Result.{result_ok};
ghost use Rattle.rehearsal.specs.Faults.{answered};
ghost use Rattle.rehearsal.specs.Stages.{calls_left};
ghost use Rattle.rehearsal.specs.Transcript.{schedule_text, transcript};

use crate::approval::Approval;
use crate::fault::Fault;
use crate::memory::OutOfMemory;
use crate::opening::NewNet;
use crate::policy::policy_of;
use crate::text::write_sites;
use rules::record::Record;
use schedule::{Section, read_line};
use sites::set::SITE_PLACES;
use std::alloc::Global;
use std::fmt::Write;
use tokens::{Place, Reader};
use votes::Votes;

// The most bytes of a schedule.
pub const MOST_BYTES: usize = 65_536;

// Answers a line that is accepted, as the format says; the numbers of refusals begin at 1.
const ACCEPTED: u32 = 0;

// Stands for the input as a whole, as the format says: no line has this number, and no field.
const WHOLE_INPUT: Place = Place { line: 0, field: 0 };

// What is left to read of a schedule, and what is told of it so far.
#[derive(Drop)]
struct Rehearsal<'a> {
    reader: Reader<'a>,
    text: String,
}

impl Rehearsal<'_> {
    ghost use Rattle.rehearsal.specs.Steps.{told, after_opening, after_fixing};
    ghost use Rattle.rehearsal.specs.Approvals.{stage_of};

    // Tells whether a line was accepted, and hands on what it made.
    fn answer<T: Drop>(
        &mut self,
        line: usize,
        made: Result<T, Fault>,
    ) -> Result<Option<T>, OutOfMemory>
        ensures text { OnOk result (string_bytes self.new.text ≡ string_bytes self.old.text ++ answered line made) }
        ensures made { IfOk result (λ value. value ≡ result_ok made) }
        ensures reader { self.new.reader ≡ self.old.reader }
    {
        match made {
            Ok(value) => {
                writeln!(self.text, "{line},{ACCEPTED}")?;
                Ok(Some(value))
            }
            Err(fault) => {
                writeln!(self.text, "{line},{fault}")?;
                Ok(None)
            }
        }
    }

    // The line of the roster.
    fn open(&mut self) -> Result<Option<NewNet>, OutOfMemory>
        ensures { IfOk result (λ opened. told self.new (after_opening opened) ≡ told self.old schedule_text) }
    {
        match read_line(&mut self.reader, Section::Roster) {
            Some(reading) => self.answer(reading.number, NewNet::open(reading.line)),
            None => Ok(None),
        }
    }

    // The line of the policy. This and `open` stay two: a closure that makes what either line makes would need a clause
    // over all that it may return, longer than both.
    fn fix(&mut self, opened: &NewNet) -> Result<Option<Votes>, OutOfMemory>
        ensures { IfOk result (λ policy. told self.new (after_fixing opened.now policy) ≡ told self.old (after_opening (Some opened.now))) }
    {
        let section = Section::Policy {
            sites: opened.net.sites(),
        };
        match read_line(&mut self.reader, section) {
            Some(reading) => self.answer(reading.number, policy_of(reading.line)),
            None => Ok(None),
        }
    }

    // The lines of the calls, and then the records of the sites.
    fn run_calls(&mut self, approval: &mut Approval<'_>) -> Result<(), OutOfMemory>
        ensures { OnOk result (string_bytes self.new.text ≡ told self.old (calls_left (stage_of approval.old))) }
    {
        while let Some(reading) = read_line(&mut self.reader, Section::Calls) {
            self.answer(reading.number, approval.run(reading.line))?;
        }
        write_sites(&mut self.text, &approval.vault)
    }

    // A whole schedule. It goes on only after a roster and a policy that are accepted.
    fn run(&mut self, heap: Global) -> Result<(), OutOfMemory>
        ensures { OnOk result (string_bytes self.new.text ≡ told self.old schedule_text) }
    {
        let Some(opened) = self.open()? else {
            return Ok(());
        };
        let Some(policy) = self.fix(&opened)? else {
            return Ok(());
        };
        let mut rows = [Record::blank(); SITE_PLACES];
        let mut approval = Approval::new(heap, opened, policy, &mut rows)?;
        self.run_calls(&mut approval)
    }
}

// The text that a schedule prints. Only want of memory gives none.
pub fn rehearse(heap: Global, input: &[u8]) -> Result<String, OutOfMemory>
    ensures { IfOk result (λ text. string_bytes text ≡ transcript input.now) }
{
    let mut rehearsal = Rehearsal {
        reader: Reader::new(input),
        text: String::new(heap),
    };
    if input.len() > MOST_BYTES {
        rehearsal.answer::<()>(WHOLE_INPUT.line, Err(Fault::from(WHOLE_INPUT)))?;
        return Ok(rehearsal.text);
    }
    rehearsal.run(heap)?;
    Ok(rehearsal.text)
}
