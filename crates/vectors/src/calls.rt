// A job's call: what is lent with it, and what is told of it.
use crate::job::Job;
use crate::told::{Given, Text};
use crate::{fields, operators, told, values};
use types::refusal::Refusal;

// The room for the bytes that are lent. The output's holds what the longest Concat gives.
#[derive(Clone, Copy)]
pub struct Room {
    pub first: [u8; 65544],
    pub second: [u8; 65544],
    pub third: [u8; 65544],
    pub out: [u8; 131088],
}

// The calls' numbers are those of the jobs (OPS in tests/lines.py).
const UNIT: u8 = 1;

const MID: u8 = 25;

// Lends the bytes, makes the call, tells of it and of the bytes after it. A field unit's steps go over its region once more, so its
// bytes are lent twice. Mid's part has the output's columns.
pub(crate) fn answer(job: &Job, room: &mut Room) -> Text {
    let twice = if job.call == UNIT {
        job.first.bytes
    } else {
        job.second.bytes
    };
    let first = job.first.bytes.lend(&mut room.first);
    let second = twice.lend(&mut room.second);
    let third = job.third.lend(&mut room.third);
    let out = job.out.lend(&mut room.out);
    let mut text = Text::blank();
    let answered = make_call(job, first, second, third, out, &mut text);
    text.answer(answered);
    text.tell(told::FIRST, first, job.show);
    text.tell(told::SECOND, second, job.show);
    if job.call == MID {
        let part = operators::mid_part(job, first, second, third);
        text.tell(told::OUT, part, 0);
    } else {
        text.tell(told::OUT, out, job.show);
    }
    text
}

// A match on the number, here and in the modules: it is the job's own column, and no enum of 31 calls would say more than the arms do.
fn make_call(
    job: &Job,
    first: &mut [u8],
    second: &mut [u8],
    third: &[u8],
    out: &mut [u8],
    text: &mut Text,
) -> Result<Given, Refusal> {
    match job.call {
        1..=8 => fields::call(job, first, second, out, text),
        9..=15 | 29..=31 => values::call(job, first, out),
        16..=17 => values::write(job, first, second),
        18..=25 => operators::call(job, first, second, third),
        26..=28 => operators::call_out(job, first, second, out),
        _ => Ok(Given::default()),
    }
}
