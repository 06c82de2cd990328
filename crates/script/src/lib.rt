// The script program of document 01, as a function from the input's bytes to the output's. No public function has a `requires`.
#![tactic(auto)]

mod answer; // what an op answers, as two lines
mod job; // one job
mod operand; // the text of an operand
mod op; // the table of ops
mod run; // all jobs
mod written; // the two lines of an answer

ghost use Rattle.std.specs.Prelude.{◌≡◌};
ghost use Rattle.value.specs.Conversions.{given};
ghost use Rattle.script.specs.Runs as S;

use types::refusal::Refusal;

// Answers every job of the input at the front of the output. The answers are counted first, with nowhere to write them: 20 changes nothing.
pub fn script(input: &[u8], out: &mut [u8]) -> Result<usize, Refusal>
    ensures { given result out.new ≡ S.script input.now out.old }
{
    let n = run::answers(input, &mut out[..0]);
    if out.len() < n {
        return Err(Refusal::OutputTooShort);
    }
    run::answers(input, out);
    Ok(n)
}
