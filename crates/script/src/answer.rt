// What each op answers, as the two lines of an answer.
ghost use Rattle.std.specs.Prelude.{◌≡◌, ◌+◌, ◌≤◌, length};
ghost use Rattle.value.specs.Conversions.{held_by, to_buffer};
ghost use Rattle.expression.specs.Mid.{mid};
ghost use Rattle.expression.specs.Concat.{joined, join_resources};
ghost use Rattle.script.specs.Ops as Ops;
ghost use Rattle.script.specs.Steps.{Tells};

use crate::op::{NumberOp, Op};
use crate::written::Answers;
use expression::compare::compare;
use expression::concat::{ConcatValue, def_concat, def_concat_res};
use expression::mid::{def_mid, def_mid_part};
use expression::number::{
    def_add, def_and, def_decrement, def_increment, def_shift_left, def_shift_right,
};
use std::cmp::Ordering;
use types::refusal::Refusal;
use types::value::AmlValue;
use value::integer::to_integer;

// An operand: a value, and its bytes.
#[derive(Clone, Copy)]
pub(crate) struct Given<'a> {
    pub(crate) value: AmlValue,
    pub(crate) bytes: &'a [u8],
    ghost short: { length bytes.now ≤ 256 },
}

// The ops that answer a number: document 01's table, as a match.
fn number_op(op: NumberOp, a: Given, b: Given) -> Result<u64, Refusal>
    ensures { result ≡ Ops.number_op op a.entry.value a.entry.bytes.now b.entry.value b.entry.bytes.now }
{
    match op {
        NumberOp::Add => def_add(a.value, a.bytes, b.value, b.bytes),
        NumberOp::And => def_and(a.value, a.bytes, b.value, b.bytes),
        NumberOp::Increment => def_increment(a.value, a.bytes),
        NumberOp::Decrement => def_decrement(a.value, a.bytes),
        NumberOp::ShiftLeft => def_shift_left(a.value, a.bytes, b.value, b.bytes),
        NumberOp::ShiftRight => def_shift_right(a.value, a.bytes, b.value, b.bytes),
        NumberOp::ToInteger => to_integer(a.value, a.bytes),
    }
}

// The number, or what was refused.
fn put_integer(answer: Result<u64, Refusal>, answers: &mut Answers)
    requires { answers.old.at ≤ 100000000 }
    ensures { Tells answers.old (Ops.of_integer answer) answers.new }
{
    match answer {
        Ok(n) => answers.put_number(n),
        Err(r) => answers.put_refusal(r),
    }
}

// 0, 1, 2 for less, equal, greater: the script's numbers, by a definition of their own, as other formats have theirs.
#[tactic(auto, using(crate::proofs::Puts::zero_text, crate::proofs::Puts::one_text, crate::proofs::Puts::two_text))]
fn put_order(answer: Result<Ordering, Refusal>, answers: &mut Answers)
    requires { answers.old.at ≤ 100000000 }
    ensures { Tells answers.old (Ops.of_compare answer) answers.new }
{
    match answer {
        Ok(Ordering::Less) => answers.put_number(0),
        Ok(Ordering::Equal) => answers.put_number(1),
        Ok(Ordering::Greater) => answers.put_number(2),
        Err(r) => answers.put_refusal(r),
    }
}

// The part behind its source's letter; of anything but a String and a Buffer Mid is refused.
fn put_mid(a: Given, b: Given, c: Given, answers: &mut Answers)
    requires { answers.old.at ≤ 100000000 }
    ensures { Tells answers.old (Ops.of_bytes (Ops.letter_of a.entry.value) (mid a.entry.value a.entry.bytes.now b.entry.value b.entry.bytes.now c.entry.value c.entry.bytes.now)) answers.new }
{
    if let Err(r) = def_mid(a.value, a.bytes, b.value, b.bytes, c.value, c.bytes) {
        return answers.put_refusal(r);
    }
    let part = def_mid_part(a.value, a.bytes, b.value, b.bytes, c.value, c.bytes);
    match a.value {
        AmlValue::String => answers.put_hex(b"s", part),
        _ => answers.put_hex(b"x", part),
    }
}

// Both operands have at most 512 bytes together, and so has what Concat makes of them.
fn put_concat(a: Given, b: Given, answers: &mut Answers)
    requires { answers.old.at ≤ 100000000 }
    ensures { Tells answers.old (Ops.of_joined (joined (held_by a.entry.value a.entry.bytes.now) (held_by b.entry.value b.entry.bytes.now))) answers.new }
{
    let mut room = [0u8; 512];
    let answer = def_concat(a.value, a.bytes, b.value, b.bytes, &mut room);
    match answer {
        Ok(ConcatValue::Buffer(n)) => answers.put_hex(b"x", &room[..n]),
        Ok(ConcatValue::String(n)) => answers.put_hex(b"s", &room[..n]),
        Err(r) => answers.put_refusal(r),
    }
}

// Likewise: two bytes of each go, and two come. Apart from put_concat, whose answer has two kinds.
fn put_concat_res(a: Given, b: Given, answers: &mut Answers)
    requires { answers.old.at ≤ 100000000 }
    ensures { Tells answers.old (Ops.of_bytes Ops.buffer_letter (join_resources (to_buffer (held_by a.entry.value a.entry.bytes.now)) (to_buffer (held_by b.entry.value b.entry.bytes.now)))) answers.new }
{
    let mut room = [0u8; 512];
    let answer = def_concat_res(a.value, a.bytes, b.value, b.bytes, &mut room);
    match answer {
        Ok(n) => answers.put_hex(b"x", &room[..n]),
        Err(r) => answers.put_refusal(r),
    }
}

// The op's operator is called, and what it answers is written: the same table.
#[tactic(auto, unfolding(crate::specs::Ops::answer_of))]
pub(crate) fn answer_op(op: Op, a: Given, b: Given, c: Given, answers: &mut Answers)
    requires { answers.old.at ≤ 100000000 }
    ensures { Tells answers.old (Ops.answer_of op a.entry.value a.entry.bytes.now b.entry.value b.entry.bytes.now c.entry.value c.entry.bytes.now) answers.new }
{
    match op {
        Op::Number(f) => put_integer(number_op(f, a, b), answers),
        Op::Mid => put_mid(a, b, c, answers),
        Op::Concat => put_concat(a, b, answers),
        Op::ConcatRes => put_concat_res(a, b, answers),
        Op::Compare => put_order(compare(a.value, a.bytes, b.value, b.bytes), answers),
    }
}
