// The run: job after job, until the input is used up or a job is malformed.
ghost use Rattle.std.specs.Prelude.{◌≡◌, ◌≤◌, length};
ghost use Rattle.script.specs.Runs.{output, answers_to};
ghost use Rattle.script.specs.Steps.{Put, Puts};

use crate::job::{answer_job, malformed};
use crate::written::Answers;

// The answers to all jobs, into the output as far as it reaches; how many bytes they are.
pub(crate) fn answers(input: &[u8], out: &mut [u8]) -> usize
    ensures { Put out.old 0 (output input.now) out.new result }
{
    let mut answers = Answers { out, at: 0 };
    if 65536 < input.len() {
        malformed(&mut answers);
        return answers.at;
    }
    answer_jobs(input, &mut answers);
    answers.at
}

// Job after job; what is written is as long for any output. Jobs differ in length, so no iterator goes over them.
fn answer_jobs(input: &[u8], answers: &mut Answers)
    requires { (length input.now ≤ 65536) × (answers.old.at ≡ 0) }
    ensures { Puts answers.old (answers_to (length input.now) input.now) answers.new }
{
    let mut from: usize = 0;
    while from < input.len() {
        from += answer_job(&input[from..], answers);
    }
}
