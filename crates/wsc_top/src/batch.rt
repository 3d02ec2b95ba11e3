//! The jobs of a text for several threads.

ghost use Rattle.std.specs.Prelude.{◌≡◌, ◌+◌, ◌<◌, ◌≤◌, ◌^◌, List, length, true, false, IfOk, IfErr};
ghost use Rattle.std.specs.Prelude.{IfSome, IfNone, OnOk, [], ◌∷◌, ◌++◌};
ghost use Rattle.asm_read.specs.Sections.{rest_of};
ghost use Rattle.job_read.specs.Job.{job_limit};
ghost use Rattle.wsc_top.specs.Jobs.{separator, first_job, behind, place_behind, IsLast, IsCrowded};
ghost use Rattle.wsc_top.specs.Jobs.{IsJobsFault, Jobs, Piece, most_jobs};
ghost use Rattle.wsc_top.specs.Running.{IsRead, IsPieceFault, AreRead};

use crate::yields::checked_image;
use asm_read::{after_line, front_length};
use src_ast::{Place, Refusal, TextFault, read_is_written};
use src_lex::place_after;
use std::alloc::Global;
use ws_isa::Checked;
use ws_words::{NoMemory, Words};

/// Why a text is refused: for a fourth separator, in this line; or for a fault of the job that begins at
/// this place.
#[derive(Clone, Copy, Debug, PartialEq, Eq)]
pub enum JobsRefusal {
    Threads(u32),
    OfJob(Place, Refusal),
}

/// Why a text has no jobs.
#[derive(Clone, Copy, Debug, PartialEq, Eq)]
pub enum JobsFault {
    Refused(JobsRefusal),
    NoMemory,
}

impl From<NoMemory> for JobsFault {
    ghost use Rattle.wsc_top.specs.declared.batch.JobsFault.TheVariants.{NoMemory as of_memory};

    ghost from_gives = { λ _ e. e ≡ of_memory };

    fn from(_e: NoMemory) -> JobsFault {
        JobsFault::NoMemory
    }
}

/// Images of the programs of jobs, and the words that they read, in order.
#[derive(Drop)]
pub struct ReadJobs {
    pub images: Vec<Checked>,
    pub inputs: Vec<Words>,
}

/// The line between two jobs.
const JOB: &[u8] = b"%job";

/// Where a text begins.
const START: Place = Place { line: 1, column: 1 };

// The first job of a text, and the separator after it with what stands behind it.
fn split(text: &[u8]) -> (&[u8], &[u8])
    ensures job { result.0.now ≡ first_job text.now }
    ensures rest { result.1.now ≡ rest_of separator true text.now }
    ensures job_within { length result.0.now ≤ length text.now }
    ensures rest_within { length result.1.now ≤ length text.now }
{
    text.split_at(front_length(text, JOB))
}

// Whether no line of a text is a separator.
fn is_last(text: &[u8]) -> bool
    ensures last { result ≡ true → IsLast text.now }
    ensures further { result ≡ false → IsLast text.now → ⊥ }
{
    let (_, rest) = split(text);
    rest.is_empty()
}

// What stands behind the first separator of a text that begins at a place, and where.
fn next(at: Place, text: &[u8]) -> (Place, &[u8])
    requires line { 0 < at.line }
    requires column { 0 < at.column }
    requires room { at.line + at.column + length text.now ≤ 2 ^ 32 }
    ensures place { result.0 ≡ place_behind at text.now }
    ensures rest { result.1.now ≡ behind text.now }
    ensures line { 0 < result.0.line }
    ensures column { 0 < result.0.column }
    ensures room { result.0.line + result.0.column + length result.1.now ≤ 2 ^ 32 }
    ensures within { length result.1.now ≤ length text.now }
    ensures fewer { (IsLast text.now → ⊥) → length result.1.now < length text.now }
{
    let (_, rest) = split(text);
    let rest = after_line(rest);
    let (front, _) = text.split_at(text.len() - rest.len());
    (place_after(at, front), rest)
}

// The line of the fourth separator of a text, where it has one.
fn crowded(text: &[u8]) -> Option<u32>
    requires { length text.now ≤ job_limit }
    ensures some { IfSome result (IsCrowded text.now) }
    ensures none { IfNone result ((pieces : List Piece) → Jobs text.now pieces
        → length pieces ≤ most_jobs) }
{
    let (second, rest) = next(START, text);
    let (third, rest) = next(second, rest);
    let (fourth, rest) = next(third, rest);
    if is_last(rest) {
        return None;
    }
    let (job, _) = split(rest);
    Some(place_after(fourth, job).line)
}

// The image and the words of a job that begins at a place of the whole text, or why it is refused.
fn read_job(alloc: Global, at: Place, text: &[u8]) -> Result<(Checked, Words), JobsFault>
    requires { length text.now ≤ job_limit }
    ensures ok { IfOk result (λ x. IsRead text.now x.0 x.1) }
    ensures refused { IfErr result (IsPieceFault at text.now) }
{
    read_is_written();
    match job_read::read(alloc, text) {
        Ok((accepted, input)) => Ok((checked_image(alloc, &accepted)?, input)),
        Err(TextFault::Refused(refusal)) => {
            Err(JobsFault::Refused(JobsRefusal::OfJob(at, refusal)))
        }
        Err(TextFault::NoMemory) => Err(JobsFault::NoMemory),
    }
}

// Puts an image and words behind those of the jobs before.
fn keep(read: &mut ReadJobs, image: Checked, input: Words) -> Result<(), NoMemory>
    ensures images { OnOk result (read.new.images.items ≡ read.old.images.items ++ image ∷ []) }
    ensures inputs { OnOk result (read.new.inputs.items ≡ read.old.inputs.items ++ input ∷ []) }
{
    read.images.push(image)?;
    read.inputs.push(input)?;
    Ok(())
}

/// The images and the words of the jobs of a text, or why it is refused.
pub fn read(alloc: Global, text: &[u8]) -> Result<ReadJobs, JobsFault>
    requires { length text.now ≤ job_limit }
    ensures ok { IfOk result (λ jobs. AreRead text.now jobs.images.items jobs.inputs.items) }
    ensures refused { IfErr result (IsJobsFault text.now) }
{
    if let Some(line) = crowded(text) {
        return Err(JobsFault::Refused(JobsRefusal::Threads(line)));
    }
    let mut read = ReadJobs {
        images: Vec::new(alloc),
        inputs: Vec::new(alloc),
    };
    let mut at = START;
    let mut rest = text;
    'jobs: loop {
        let (job, _) = split(rest);
        let (image, input) = match read_job(alloc, at, job) {
            Ok(found) => found,
            Err(fault) => return Err(fault),
        };
        keep(&mut read, image, input)?;
        if is_last(rest) {
            return Ok(read);
        }
        let (place, further) = next(at, rest);
        at = place;
        rest = further;
    }
}
