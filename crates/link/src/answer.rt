// The numbers of an answer.
ghost use Rattle.std.specs.Prelude.{◌≡◌, ◌≤◌, MatchResult};
ghost use Rattle.std.specs.Result.{ForOk};
ghost use Rattle.link.specs.Answers.{present_of, wanted_of, no_such_kind, refused_by, read_answer, outcome_answer, unit_read_answer, unit_written_answer, read_count, written_count};
ghost use Rattle.link.specs.Answers.{kind_answer, integer_answer, bool_answer, bytes_answer, type_answer, status_answer, compare_answer, concat_answer, place_answer, place_count};
ghost use Rattle.link.specs.Words.{word_of, of_word};

use buffer_field::FieldValue;
use expression::concat::ConcatValue;
use expression::mid::Part;
use field_unit::whole::UnitRead;
use std::cmp::Ordering;
use types::refusal::{Refusal, Types, types_of};
use types::value::AmlType;
use value::convert::Converted;
use value::status::StatusObject;

// The C interface: numbers for what is a Result below it. It comes back in two registers.
// status: document 01's number of the refusal, 0 where there is none; 255 where the host named a kind that is none. present, wanted: ACPI's
// numbers of the types that a refusal carries. kind: the value's, by the number that a host's value has, 0 where there is no value.
// count: the loads and stores made. value: an Integer, 0 or 1 of a Boolean, or how many bytes a Buffer or a String has.
#[repr(C)]
#[derive(Clone, Copy)]
pub struct Answer {
    pub status: u8,
    pub present: u8,
    pub wanted: u8,
    pub kind: u8,
    pub count: u32,
    pub value: u64,
}

pub(crate) fn accepted(kind: u8, count: u32, value: u64) -> Answer
    ensures { result ≡ Rattle.link.specs.Answers.accepted kind count value }
{
    Answer {
        status: 0,
        present: 0,
        wanted: 0,
        kind,
        count,
        value,
    }
}

fn carrying(status: u8, present: u8, wanted: u8) -> Answer
    ensures { result ≡ (record { status = status; present = present; wanted = wanted; kind = 0; count = 0; value = 0 }) }
{
    Answer {
        status,
        present,
        wanted,
        kind: 0,
        count: 0,
        value: 0,
    }
}

// The type met, or the present one.
fn present_of(types: Types) -> u8
    ensures { result ≡ present_of types }
{
    match types {
        Types::Nothing => 0,
        Types::Met(met) => u8::from(met),
        Types::Conversion { current, target: _ } => u8::from(current),
    }
}

fn wanted_of(types: Types) -> u8
    ensures { result ≡ wanted_of types }
{
    match types {
        Types::Nothing => 0,
        Types::Met(_) => 0,
        Types::Conversion { current: _, target } => u8::from(target),
    }
}

// A refusal's number and its two types, a byte each: a word stays in a register where an answer would go through memory. Summed as the
// definition has it (specs/Words).
#[tactic(auto, unfolding(crate::specs::Words::word_of))]
fn word_of(r: Refusal) -> u32
    ensures { result ≡ word_of r }
{
    let types = types_of(r);
    u32::from(u8::from(r))
        + 256 * u32::from(present_of(types))
        + 65536 * u32::from(wanted_of(types))
}

// The answer of such a word.
#[tactic(auto, unfolding(crate::specs::Words::of_word))]
fn refused(word: u32) -> Answer
    ensures { result ≡ of_word word }
{
    carrying(
        (word % 256) as u8,
        (word / 256 % 256) as u8,
        (word / 65536 % 256) as u8,
    )
}

// What a call gave, or the refusal.
#[tactic(auto, using(crate::proofs::Numbers::by_word))]
pub(crate) fn told<T, F: FnOnce(T) -> Answer>(r: Result<T, Refusal>, f: F) -> Answer
    requires { ForOk r (F.pre f) }
    ensures { MatchResult r (λ x. F.post f x result) (λ why. result ≡ refused_by why) }
{
    match r {
        Ok(x) => f(x),
        Err(why) => refused(word_of(why)),
    }
}

#[tactic(auto, unfolding(crate::specs::Answers::no_such_kind))]
pub(crate) fn no_such_kind() -> Answer
    ensures { result ≡ no_such_kind }
{
    carrying(255, 0, 0)
}

#[tactic(auto, unfolding(crate::specs::Answers::kind_answer))]
pub(crate) fn kind_answer(t: AmlType) -> Answer
    ensures { result ≡ kind_answer t }
{
    accepted(u8::from(t), 0, 0)
}

#[tactic(auto, unfolding(crate::specs::Answers::integer_answer))]
pub(crate) fn integer_answer(r: Result<u64, Refusal>) -> Answer
    ensures { result ≡ integer_answer r }
{
    told(r, |n| accepted(1, 0, n))
}

#[tactic(auto, unfolding(crate::specs::Answers::bool_answer))]
pub(crate) fn bool_answer(r: Result<bool, Refusal>) -> Answer
    ensures { result ≡ bool_answer r }
{
    told(r, |b| accepted(17, 0, u64::from(b)))
}

// A Buffer's or a String's bytes stand at the front of the output.
#[tactic(auto, unfolding(crate::specs::Answers::bytes_answer))]
pub(crate) fn bytes_answer(kind: u8, r: Result<usize, Refusal>) -> Answer
    ensures { result ≡ bytes_answer kind r }
{
    told(r, |n| accepted(kind, 0, n as u64))
}

#[tactic(auto, unfolding(crate::specs::Answers::type_answer))]
pub(crate) fn type_answer(r: Result<Converted, Refusal>) -> Answer
    ensures { result ≡ type_answer r }
{
    told(r, |c| match c {
        Converted::Same => accepted(0, 0, 0),
        Converted::Integer(n) => accepted(1, 0, n),
        Converted::Buffer(n) => accepted(3, 0, n as u64),
    })
}

// Like bool_answer, by a definition of its own.
#[tactic(auto, unfolding(crate::specs::Answers::status_answer))]
pub(crate) fn status_answer(r: Result<StatusObject, Refusal>) -> Answer
    ensures { result ≡ status_answer r }
{
    told(r, |s| accepted(1, 0, u64::from(s)))
}

// 0, 1, 2 for less, equal, greater: the C interface's numbers, by a definition of their own.
#[tactic(auto, unfolding(crate::specs::Answers::compare_answer))]
pub(crate) fn compare_answer(r: Result<Ordering, Refusal>) -> Answer
    ensures { result ≡ compare_answer r }
{
    told(r, |order| match order {
        Ordering::Less => accepted(1, 0, 0),
        Ordering::Equal => accepted(1, 0, 1),
        Ordering::Greater => accepted(1, 0, 2),
    })
}

#[tactic(auto, unfolding(crate::specs::Answers::concat_answer))]
pub(crate) fn concat_answer(r: Result<ConcatValue, Refusal>) -> Answer
    ensures { result ≡ concat_answer r }
{
    told(r, |joined| match joined {
        ConcatValue::String(n) => accepted(2, 0, n as u64),
        ConcatValue::Buffer(n) => accepted(3, 0, n as u64),
    })
}

// A part of so many bytes at a place of the source.
#[tactic(auto, unfolding(crate::specs::Answers::place_answer))]
pub(crate) fn place_answer(kind: u8, r: Result<Part, Refusal>) -> Answer
    requires { place_count r ≤ 65536 }
    ensures { result ≡ place_answer kind r }
{
    told(r, |part| accepted(kind, part.count as u32, part.at))
}

#[tactic(auto, unfolding(crate::specs::Answers::read_answer))]
pub(crate) fn read_answer(r: Result<FieldValue, Refusal>) -> Answer
    ensures { result ≡ read_answer r }
{
    told(r, |read| match read {
        FieldValue::Integer(x) => accepted(1, 0, x),
        FieldValue::Buffer(n) => accepted(3, 0, n as u64),
    })
}

#[tactic(auto, unfolding(crate::specs::Answers::outcome_answer))]
pub(crate) fn outcome_answer(r: Result<(), Refusal>) -> Answer
    ensures { result ≡ outcome_answer r }
{
    told(r, |_| accepted(0, 0, 0))
}

// The bound on the count stays a clause, here and in the two like it: it is a fact of what field_unit answers, which its own clauses say.
#[tactic(auto, unfolding(crate::specs::Answers::unit_read_answer))]
pub(crate) fn unit_read_answer(r: Result<UnitRead, Refusal>) -> Answer
    requires { read_count r ≤ 11 }
    ensures { result ≡ unit_read_answer r }
{
    told(r, |read| accepted(1, read.count as u32, read.value))
}

#[tactic(auto, unfolding(crate::specs::Answers::unit_written_answer))]
pub(crate) fn unit_written_answer(r: Result<u64, Refusal>) -> Answer
    requires { written_count r ≤ 11 }
    ensures { result ≡ unit_written_answer r }
{
    told(r, |count| accepted(0, count as u32, 0))
}
