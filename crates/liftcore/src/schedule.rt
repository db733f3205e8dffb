// The reader of schedules.

ghost use Rattle.std.specs.Prelude.{◌≡◌, ◌<◌, ◌≤◌, ◌∷◌, [], ℕ, List, IfErr, IfOk, IfSome, IsSomeAnd, MatchBool, MatchResult, OnOk, Some, false};
ghost use Rattle.text.specs.Cause.{HasCause};
ghost use Rattle.text.specs.Lines.{IfKnown};
ghost use Rattle.text.specs.Reads.{Reads};
ghost use Rattle.text.specs.Text.{pieces_of};
ghost use Rattle.text.specs.Tokens as token;
ghost use Rattle.liftcore.specs.Begun.{IsBegunLine};
ghost use Rattle.liftcore.specs.Scan as at;
ghost use Rattle.liftcore.specs.Schedule.{HasScheduleFaultAt, IsEventLine, IsSchedule, IsOfSoMany, ScheduleLineFault, schedule_fault_of, reader_fault_of, vertex_of_event, worker_of_event, failed};
ghost use Rattle.liftcore.specs.Taken.{HasTakenLines, EventsSoFar, TakesBytes, TakesBlock, Tells, TellsRead};

use crate::error::{ReadError, ScheduleError, ScheduleFault};
use crate::event::Event;
use crate::line::Line;
use std::alloc::Global;
use std::io::ErrorKind;
use text::error::ReadFault;
use text::source::{Blocks, Source, blocks_of};

fn worker_of(event: Event) -> usize
    ensures { result ≡ worker_of_event event }
{
    match event {
        Event::Take { worker, .. }
        | Event::Read { worker, .. }
        | Event::Raise { worker }
        | Event::Push { worker, .. } => worker,
    }
}

// Whether the event names a vertex that is none of so many.
fn is_far(event: Event, vertices: u32) -> bool
    ensures { MatchBool result (IsSomeAnd (vertex_of_event event) (λ v. vertices ≤ v)) (IfSome (vertex_of_event event) (λ v. v < vertices)) }
{
    match event {
        Event::Take { vertex, .. } | Event::Read { vertex, .. } | Event::Push { vertex, .. } => {
            vertex >= vertices
        }
        Event::Raise { .. } => false,
    }
}

// The event of a line, if it has one, where its worker and its vertex are among so many.
fn judged(event: Option<Event>, workers: u32, vertices: u32) -> Result<Event, ScheduleFault>
    ensures { (line : List ℕ) → at.event_at token.whole_number line ≡ event
        → MatchResult result (λ event. IsEventLine line event × IsOfSoMany workers vertices event) (ScheduleLineFault workers vertices line) }
{
    let Some(event) = event else {
        return Err(ScheduleFault::BadLine);
    };
    if worker_of(event) >= workers as usize {
        return Err(ScheduleFault::NoSuchWorker);
    }
    if is_far(event, vertices) {
        return Err(ScheduleFault::NoSuchVertex);
    }
    Ok(event)
}

/// What was read of a schedule for so many workers and vertices: the events of whole lines, and the line that has begun.
#[derive(Drop)]
pub(crate) struct Intake {
    pub(crate) events: Vec<Event>,
    pub(crate) line: Line,
    pub(crate) workers: u32,
    pub(crate) vertices: u32,
}

impl Intake {
    // Nothing yet.
    fn new(alloc: Global, workers: u32, vertices: u32) -> Self
        ensures { (text : List ℕ) → HasTakenLines workers vertices text text result }
    {
        Intake {
            events: Vec::new(alloc),
            line: Line::new(),
            workers,
            vertices,
        }
    }

    // Ends the line.
    fn end_line(&mut self) -> Result<(), ScheduleError>
        ensures bounds { (self.new.workers ≡ self.old.workers) × (self.new.vertices ≡ self.old.vertices) }
        ensures fresh { OnOk result (IsBegunLine [] self.new.line.word.items self.new.line.part) }
        ensures event { OnOk result ((line text left rest : List ℕ) → IsBegunLine line self.old.line.word.items self.old.line.part
            → EventsSoFar self.old.workers self.old.vertices text left self.old.events.items → pieces_of left ≡ line ∷ pieces_of rest
            → EventsSoFar self.old.workers self.old.vertices text rest self.new.events.items) }
        ensures fault { IfErr result (λ e. (line text left rest : List ℕ) → IsBegunLine line self.old.line.word.items self.old.line.part
            → EventsSoFar self.old.workers self.old.vertices text left self.old.events.items → pieces_of left ≡ line ∷ pieces_of rest
            → IfSome (schedule_fault_of e) (HasScheduleFaultAt self.old.workers self.old.vertices text)) }
    {
        match judged(self.line.event(), self.workers, self.vertices) {
            Ok(event) => {
                let Ok(()) = self.events.push(event) else {
                    return Err(ScheduleError::Memory);
                };
                self.line = Line::new();
                Ok(())
            }
            Err(fault) => {
                let line = self.events.len() as u64 + 1;
                Err(ScheduleError::Fault { fault, line })
            }
        }
    }

    // Takes the byte that is next.
    fn take(&mut self, byte: u8) -> Result<(), ScheduleError>
        ensures taken { OnOk result (TakesBytes (byte ∷ []) self.old self.new) }
        ensures fault { IfErr result (Tells (byte ∷ []) self.old) }
    {
        if byte == b'\n' {
            return self.end_line();
        }
        self.line.take(byte);
        Ok(())
    }

    // Takes the bytes that are next.
    fn take_all(&mut self, bytes: &[u8]) -> Result<(), ScheduleError>
        ensures taken { OnOk result (TakesBytes bytes.now self.old self.new) }
        ensures fault { IfErr result (Tells bytes.now self.old) }
    {
        for byte in bytes {
            self.take(*byte)?;
        }
        Ok(())
    }

    // The events of all lines, where no byte is left.
    fn finish(mut self) -> Result<Vec<Event>, ScheduleError>
        ensures events { IfOk result (λ events. (workers vertices : ℕ) (text : List ℕ) → HasTakenLines workers vertices text [] self
            → IsSchedule workers vertices text events.items) }
        ensures fault { IfErr result (λ e. (workers vertices : ℕ) (text : List ℕ) → HasTakenLines workers vertices text [] self
            → IfSome (schedule_fault_of e) (HasScheduleFaultAt workers vertices text)) }
    {
        if self.line.is_empty() {
            return Ok(self.events);
        }
        self.end_line()?;
        Ok(self.events)
    }
}

/// Reads a schedule for so many workers and vertices: an event a line. Lines end by LF, the last end may be missing, and a CR
/// is a byte like any other.
///
/// # Errors
/// The first faulty line decides, and in it first its shape, then the worker, then the vertex. S4 is out of memory.
pub fn read_schedule(
    alloc: Global,
    text: &[u8],
    workers: u32,
    vertices: u32,
) -> Result<Vec<Event>, ScheduleError>
    ensures reads { Reads (IsSchedule workers vertices) (IsSchedule workers vertices) (IsSchedule workers vertices) (HasScheduleFaultAt workers vertices)
        (λ v. v.items) schedule_fault_of (Some text.now) result }
{
    let mut intake = Intake::new(alloc, workers, vertices);
    intake.take_all(text)?;
    intake.finish()
}

// Takes the bytes at hand, and says whether there were some, or may be.
fn take_block<B: Blocks>(reader: &mut B, intake: &mut Intake) -> Result<bool, ReadError>
    ensures taken { IfOk result (λ more. IfKnown (B.remaining reader.old) (B.remaining reader.new) (TakesBlock intake.old intake.new more)) }
    ensures fault { IfErr result (TellsRead (B.remaining reader.old) intake.old) }
    ensures cause { IfErr result (HasCause B.can_fail failed) }
{
    let block = match reader.fill_buf() {
        Ok(block) => block,
        Err(error) if error.kind() == ErrorKind::Interrupted => return Ok(true),
        Err(_) => return Err(ReadError::Read(reader.fault())),
    };
    let len = block.len();
    intake.take_all(block)?;
    reader.consume(len);
    Ok(len > 0)
}

// Reads the whole text. A loop has to end, so this one has at most 2^64 turns.
fn read_text<B: Blocks>(reader: &mut B, mut intake: Intake) -> Result<Vec<Event>, ReadError>
    ensures events { IfOk result (λ events. IfSome (B.remaining reader.old) (λ left. (workers vertices : ℕ) (text : List ℕ)
        → HasTakenLines workers vertices text left intake → IsSchedule workers vertices text events.items)) }
    ensures fault { IfErr result (TellsRead (B.remaining reader.old) intake) }
    ensures cause { IfErr result (HasCause B.can_fail failed) }
{
    for _ in 0..u64::MAX {
        if !take_block(reader, &mut intake)? {
            return Ok(intake.finish()?);
        }
    }
    Err(ReadError::Read(reader.fault()))
}

/// Reads a schedule as [`read_schedule`] does, and keeps no line of its text: of it there is a block of 8,192 bytes, beside the events.
///
/// # Errors
/// Those of [`read_schedule`]. It is also refused where a read fails, or where memory runs out for the block.
pub fn read_schedule_from<R: Source + Drop>(
    alloc: Global,
    reader: R,
    workers: u32,
    vertices: u32,
) -> Result<Vec<Event>, ReadError>
    ensures reads { Reads (IsSchedule workers vertices) (IsSchedule workers vertices) (IsSchedule workers vertices) (HasScheduleFaultAt workers vertices)
        (λ v. v.items) reader_fault_of (R.remaining reader) result }
    ensures cause { IfErr result (HasCause R.can_fail failed) }
{
    let Ok(mut blocks) = blocks_of(alloc, reader) else {
        return Err(ReadError::Read(ReadFault::Memory));
    };
    read_text(&mut blocks, Intake::new(alloc, workers, vertices))
}
