// The operators, and what they answered.
use crate::job::Job;
use crate::told::{Given, Kind};
use expression::concat::{self, ConcatValue};
use expression::{buffer, compare, mid, number};
use std::cmp::Ordering;
use types::refusal::Refusal;

// Those that need no output.
pub(crate) fn call(job: &Job, first: &[u8], second: &[u8], third: &[u8]) -> Result<Given, Refusal> {
    let left = job.first.value;
    let right = job.second.value;
    let x = match job.call {
        18 => number::def_add(left, first, right, second)?,
        19 => number::def_and(left, first, right, second)?,
        20 => number::def_increment(left, first)?,
        21 => number::def_decrement(left, first)?,
        22 => number::def_shift_left(left, first, right, second)?,
        23 => number::def_shift_right(left, first, right, second)?,
        24 => return Ok(order(compare::compare(left, first, right, second)?)),
        _ => return part(job, first, second, third),
    };
    Ok(Given::number(Kind::Integer, x))
}

// Those that write one.
pub(crate) fn call_out(
    job: &Job,
    first: &[u8],
    second: &[u8],
    out: &mut [u8],
) -> Result<Given, Refusal> {
    let left = job.first.value;
    let right = job.second.value;
    let n = match job.call {
        26 => return Ok(joined(concat::def_concat(left, first, right, second, out)?)),
        27 => concat::def_concat_res(left, first, right, second, out)?,
        _ => buffer::def_buffer(left, first, second, out)?,
    };
    Ok(Given::bytes(Kind::Buffer, n))
}

// The columns' numbers of an order.
fn order(order: Ordering) -> Given {
    let number = match order {
        Ordering::Less => 0,
        Ordering::Equal => 1,
        Ordering::Greater => 2,
    };
    Given::number(Kind::Order, number)
}

fn joined(value: ConcatValue) -> Given {
    match value {
        ConcatValue::String(n) => Given::bytes(Kind::String, n),
        ConcatValue::Buffer(n) => Given::bytes(Kind::Buffer, n),
    }
}

fn part(job: &Job, source: &[u8], index: &[u8], count: &[u8]) -> Result<Given, Refusal> {
    mid::def_mid(
        job.first.value,
        source,
        job.second.value,
        index,
        job.third_value(),
        count,
    )?;
    let part = mid_part(job, source, index, count);
    Ok(Given::bytes(Kind::Part, part.len()))
}

pub(crate) fn mid_part<'a>(job: &Job, source: &'a [u8], index: &[u8], count: &[u8]) -> &'a [u8] {
    mid::def_mid_part(
        job.first.value,
        source,
        job.second.value,
        index,
        job.third_value(),
        count,
    )
}
