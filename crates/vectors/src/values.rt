// Conversions, status, ToInteger and writes of values, and what they answered.
use crate::job::Job;
use crate::told::{Given, Kind};
use types::refusal::Refusal;
use value::convert::{self, Converted};
use value::status::StatusObject;

pub(crate) fn call(job: &Job, bytes: &[u8], out: &mut [u8]) -> Result<Given, Refusal> {
    let value = job.first.value;
    Ok(match job.call {
        9 => Given::number(Kind::Integer, convert::as_integer(value, bytes)?),
        10 => Given::number(Kind::Bool, u64::from(convert::as_bool(value, bytes)?)),
        11 => Given::bytes(Kind::Buffer, convert::as_buffer(value, bytes, out)?),
        12 => Given::bytes(Kind::String, convert::as_string(value, bytes, out)?),
        13 => named(convert::as_type(value, bytes, job.named_type(), out)?),
        14 => status(value::status::as_status(value, bytes)?),
        15 => Given::number(Kind::Integer, value::integer::to_integer(value, bytes)?),
        29 => Given::bytes(Kind::Buffer, convert::buffer_length(value, bytes)?),
        30 => Given::bytes(Kind::String, convert::string_length(value, bytes)?),
        _ => status(value::status::default_status()),
    })
}

fn named(converted: Converted) -> Given {
    match converted {
        Converted::Same => Given::number(Kind::Itself, 0),
        Converted::Integer(x) => Given::number(Kind::Integer, x),
        Converted::Buffer(n) => Given::bytes(Kind::Buffer, n),
    }
}

// A bit for each part.
fn status(s: StatusObject) -> Given {
    Given::number(Kind::Status, u64::from(s))
}

// Into the field of the first operand: the second's value with the bytes lent beside it, or with none.
pub(crate) fn write(job: &Job, region: &mut [u8], bytes: &[u8]) -> Result<Given, Refusal> {
    let field = job.first.field;
    let value = job.second.value;
    let count = match job.call {
        16 => value::field::write_value(region, field, value, bytes)?,
        _ => value::field::write_value_self(region, field, value)?,
    };
    Ok(Given::accesses(count))
}
