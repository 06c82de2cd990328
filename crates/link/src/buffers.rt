// Buffer fields of a lent buffer.
#![tactic(auto, using(crate::proofs::Known::no_value, crate::proofs::Known::is_value))]

ghost use Rattle.std.specs.Prelude.{◌≡◌, []};
ghost use Rattle.types.specs.declared.value.AmlValue.TheVariants as Val;
ghost use Rattle.buffer_field.specs.BufferFields.{read, write, write_self};
ghost use Rattle.link.specs.Answers.{read_answer, outcome_answer, no_such_kind};
ghost use Rattle.link.specs.Values.{with_value};

use crate::answer::{Answer, no_such_kind, outcome_answer, read_answer};
use crate::given::HostValue;
use buffer_field::{
    read_buffer_field, write_buffer_field, write_buffer_field_bytes, write_buffer_field_integer,
    write_buffer_field_self,
};

// Reads a field. One of more than 64 bits goes to the front of out.
#[unsafe(no_mangle)]
pub extern "C" fn aml_read_buffer_field(
    buffer: &[u8],
    offset: u64,
    length: u64,
    out: &mut [u8],
) -> Answer
    ensures { (result ≡ read_answer (read buffer.now offset length out.old).answer) × (out.new ≡ (read buffer.now offset length out.old).out) }
{
    read_answer(read_buffer_field(buffer, offset, length, out))
}

// Writes a number over the whole field.
#[unsafe(no_mangle)]
pub extern "C" fn aml_write_buffer_integer(
    buffer: &mut [u8],
    offset: u64,
    length: u64,
    value: u64,
) -> Answer
    ensures { (result ≡ outcome_answer (write buffer.old offset length (Val.Integer value) []).answer) × (buffer.new ≡ (write buffer.old offset length (Val.Integer value) []).buffer) }
{
    outcome_answer(write_buffer_field_integer(buffer, offset, length, value))
}

// Writes a Buffer's bytes over the whole field.
#[unsafe(no_mangle)]
pub extern "C" fn aml_write_buffer_bytes(
    buffer: &mut [u8],
    offset: u64,
    length: u64,
    bytes: &[u8],
) -> Answer
    ensures { (result ≡ outcome_answer (write buffer.old offset length Val.Buffer bytes.now).answer) × (buffer.new ≡ (write buffer.old offset length Val.Buffer bytes.now).buffer) }
{
    outcome_answer(write_buffer_field_bytes(buffer, offset, length, bytes))
}

// Writes any value; a Buffer's bytes are lent beside it.
#[unsafe(no_mangle)]
pub extern "C" fn aml_write_buffer_field(
    buffer: &mut [u8],
    offset: u64,
    length: u64,
    given: HostValue,
    bytes: &[u8],
) -> Answer
    ensures { (result ≡ with_value given (λ v. outcome_answer (write buffer.old offset length v bytes.now).answer) no_such_kind) × (buffer.new ≡ with_value given (λ v. (write buffer.old offset length v bytes.now).buffer) buffer.old) }
{
    let Some(v) = given.value() else {
        return no_such_kind();
    };
    outcome_answer(write_buffer_field(buffer, offset, length, v, bytes))
}

// Writes the buffer itself, as it was before, into a field of it.
#[unsafe(no_mangle)]
pub extern "C" fn aml_write_buffer_field_self(buffer: &mut [u8], offset: u64, length: u64) -> Answer
    ensures { (result ≡ outcome_answer (write_self buffer.old offset length).answer) × (buffer.new ≡ (write_self buffer.old offset length).buffer) }
{
    outcome_answer(write_buffer_field_self(buffer, offset, length))
}
