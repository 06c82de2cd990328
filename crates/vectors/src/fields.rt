// Calls on field units, buffer fields, flags and types, and what they answered.
use crate::job::Job;
use crate::told::{self, Given, Kind, Text};
use buffer_field::FieldValue;
use field_unit::access::FieldOp;
use field_unit::next::next_access;
use types::flags::FieldFlags;
use types::refusal::Refusal;
use types::value::type_of;

pub(crate) fn call(
    job: &Job,
    first: &mut [u8],
    second: &mut [u8],
    out: &mut [u8],
    text: &mut Text,
) -> Result<Given, Refusal> {
    match job.call {
        1 => unit_call(job.op(), first, second, text),
        2 => one_access(job, first),
        3 => {
            check_and_count(job.op(), job.made(), text);
            Ok(Given::default())
        }
        4 => field_read(job, first, out),
        5 => field_write(job, first, second),
        6 => field_write_self(job, first),
        7 => flag_parts(job.first.field.flags, text),
        _ => Ok(Given {
            kind: None,
            value: told::number(type_of(job.first.value)),
            count: 0,
        }),
    }
}

// The check and the count alone, for a region of so many bytes.
fn check_and_count(op: FieldOp, size: u64, text: &mut Text) {
    if let Err(r) = field_unit::check::check_field(op.field, op.write, size) {
        text.put(told::CHECK_STATUS, told::number(r));
    }
    match field_unit::next::count_accesses(op, size) {
        Ok(n) => text.put(told::COUNTED, n),
        Err(r) => text.put(told::COUNT_STATUS, told::number(r)),
    }
}

// The whole call on the one region, all its accesses one by one on the other.
fn unit_call(
    op: FieldOp,
    region: &mut [u8],
    again: &mut [u8],
    text: &mut Text,
) -> Result<Given, Refusal> {
    check_and_count(op, region.len() as u64, text);
    steps(op, again, text);
    whole_call(op, region)
}

fn whole_call(op: FieldOp, region: &mut [u8]) -> Result<Given, Refusal> {
    if op.write {
        let count = field_unit::whole::write_field(region, op.field, op.value)?;
        return Ok(Given::accesses(count));
    }
    let read = field_unit::whole::read_field(region, op.field)?;
    Ok(Given {
        kind: Some(Kind::Integer),
        value: read.value,
        count: read.count,
    })
}

// All accesses, at most twenty: what is held after the last, and how many were made.
fn steps(op: FieldOp, region: &mut [u8], text: &mut Text) {
    let mut held = 0;
    let mut made = 0;
    for k in 0..20 {
        match next_access(op, k, held, region) {
            Ok(Some(after)) => {
                held = after;
                made = k + 1;
            }
            Ok(None) => break,
            Err(r) => {
                text.put(told::STEP_STATUS, told::number(r));
                break;
            }
        }
    }
    text.put(told::HELD, held);
    text.put(told::STEPS, made);
}

fn one_access(job: &Job, region: &mut [u8]) -> Result<Given, Refusal> {
    let next = next_access(job.op(), job.made(), job.held(), region)?;
    Ok(match next {
        Some(held) => Given::number(Kind::Held, held),
        None => Given::number(Kind::NoAccess, 0),
    })
}

fn field_read(job: &Job, buffer: &[u8], out: &mut [u8]) -> Result<Given, Refusal> {
    let field = job.first.field;
    let read = buffer_field::read_buffer_field(buffer, field.offset, field.length, out)?;
    Ok(match read {
        FieldValue::Integer(x) => Given::number(Kind::Integer, x),
        FieldValue::Buffer(n) => Given::bytes(Kind::Buffer, n),
    })
}

fn field_write(job: &Job, buffer: &mut [u8], bytes: &[u8]) -> Result<Given, Refusal> {
    let field = job.first.field;
    let value = job.second.value;
    buffer_field::write_buffer_field(buffer, field.offset, field.length, value, bytes)?;
    Ok(Given::default())
}

fn field_write_self(job: &Job, buffer: &mut [u8]) -> Result<Given, Refusal> {
    let field = job.first.field;
    buffer_field::write_buffer_field_self(buffer, field.offset, field.length)?;
    Ok(Given::default())
}

// Access type and width, update rule, lock rule, each by itself: the width is told beside a refused type too.
fn flag_parts(flags: FieldFlags, text: &mut Text) -> Result<Given, Refusal> {
    match flags.field_update_rule() {
        Ok(rule) => text.put(told::HELD, rule as u64),
        Err(r) => text.put(told::STEP_STATUS, told::number(r)),
    }
    text.put(told::STEPS, u64::from(flags.lock_rule()));
    let width = flags.access_width();
    text.put(told::COUNT, width);
    let access = flags.access_type()?;
    Ok(Given {
        kind: None,
        value: access as u64,
        count: width,
    })
}
