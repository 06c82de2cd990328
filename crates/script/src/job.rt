// One job: four lines, named `op=`, `a=`, `b=`, `c=`.
ghost use Rattle.std.specs.Prelude.{◌≡◌, ◌+◌, ◌≤◌, length, Some};
ghost use Rattle.script.specs.Ops.{refused_by};
ghost use Rattle.script.specs.Runs as R;
ghost use Rattle.script.specs.Steps as S;

use crate::answer::{Given, answer_op};
use crate::op::{Op, op_of};
use crate::operand::{Operand, operand_of};
use crate::written::Answers;
use text::lines::{begins_with, line_length};
use types::refusal::Refusal;
use types::value::AmlValue;

// An operand's line: a value, how many bytes it has, and how many the line has with its line feed.
#[derive(Clone, Copy)]
pub struct OperandLine {
    pub value: AmlValue,
    pub count: usize,
    pub end: usize,
}

// `status=40`, `value=-`.
pub(crate) fn malformed(answers: &mut Answers)
    requires { answers.old.at ≤ 100000000 }
    ensures { S.Tells answers.old (refused_by Refusal.MalformedJob) answers.new }
{
    answers.put_refusal(Refusal::MalformedJob);
}

// The length of the line that s begins with, where it has this name.
fn named_line(s: &[u8], name: &[u8]) -> Option<usize>
    ensures { (S.line_as result (length name.now) s.now ≡ R.next name.now s.now) × S.Inside result (length name.now) (length s.now) }
{
    let n = line_length(s)?;
    if !begins_with(&s[..n], name) {
        return None;
    }
    Some(n)
}

// The operand of a line of so many bytes: a value where it is used, and `-` where it is not, whose place an Integer takes that no op looks at.
fn fill(used: bool, operand: Operand, end: usize) -> Option<OperandLine>
    ensures { result ≡ S.fill_as used (Some operand) end }
{
    match (used, operand) {
        (true, Operand::Value(value, count)) => Some(OperandLine { value, count, end }),
        (false, Operand::Unused) => Some(OperandLine {
            value: AmlValue::Integer(0),
            count: 0,
            end,
        }),
        _ => None,
    }
}

// The operand in the line of this name that s begins with, its bytes at the front of scratch.
fn operand_line(s: &[u8], name: &[u8], used: bool, scratch: &mut [u8; 256]) -> Option<OperandLine>
    ensures { (S.operand_as result scratch.new s.now ≡ R.operand_line name.now used s.now) × S.Within result (length s.now) }
{
    let n = named_line(s, name)?;
    let from = name.len();
    let operand = operand_of(&s[from..n], scratch)?;
    fill(used, operand, n + 1)
}

// The input's bound goes with what is left of it as a clause: a type that keeps it would be made anew for each line. Without a heap each operand's
// bytes stand in an array here.
// The operands of an op that uses so many of a, b, c, each line behind the one before; then its answer. How many bytes the lines have; None where one is malformed.
fn answer_operands(op: Op, used: usize, s: &[u8], answers: &mut Answers) -> Option<usize>
    requires { (answers.old.at ≤ 100000000) × (length s.now ≤ 65536) }
    ensures { S.Answered result s.now answers.old (R.with_op op used s.now) answers.new }
{
    let mut x = [0u8; 256];
    let first = operand_line(s, b"a=", 0 < used, &mut x)?;
    let mut y = [0u8; 256];
    let second = operand_line(&s[first.end..], b"b=", 1 < used, &mut y)?;
    let from = first.end + second.end;
    let mut z = [0u8; 256];
    let third = operand_line(&s[from..], b"c=", 2 < used, &mut z)?;
    let a = Given {
        value: first.value,
        bytes: &x[..first.count],
    };
    let b = Given {
        value: second.value,
        bytes: &y[..second.count],
    };
    let c = Given {
        value: third.value,
        bytes: &z[..third.count],
    };
    answer_op(op, a, b, c, answers);
    Some(from + third.end)
}

// A job that is not malformed, answered; how many bytes it has.
fn answered(s: &[u8], answers: &mut Answers) -> Option<usize>
    requires { (answers.old.at ≤ 100000000) × (length s.now ≤ 65536) }
    ensures { S.Answered result s.now answers.old (R.job_of s.now) answers.new }
{
    let n = named_line(s, b"op=")?;
    let (op, used) = op_of(&s[3..n])?;
    let from = n + 1;
    let rest = answer_operands(op, used, &s[from..], answers)?;
    Some(from + rest)
}

// The job that s begins with, answered. A malformed one ends the run: all that is left of the input is used.
#[tactic(auto, using(crate::proofs::Jobs::stopped))]
pub(crate) fn answer_job(s: &[u8], answers: &mut Answers) -> usize
    requires { (answers.old.at ≤ 100000000) × (length s.now ≤ 65536) }
    ensures { S.Stepped s.now answers.old (R.job_of s.now) answers.new result }
{
    if let Some(used) = answered(s, answers) {
        return used;
    }
    malformed(answers);
    s.len()
}
