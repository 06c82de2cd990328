// Values and what they convert to. A String's, a Buffer's, a BufferField's, a FieldUnit's bytes are lent beside the value.
// Exports alike but for the call stay apart: the C interface has a name for each.
#![tactic(auto, using(crate::proofs::Known::no_value, crate::proofs::Known::is_value))]

ghost use Rattle.std.specs.Prelude.{◌≡◌};
ghost use Rattle.types.specs.Values.{type_of};
ghost use Rattle.value.specs.Conversions.{as_integer, as_bool, as_buffer, as_string, as_type};
ghost use Rattle.value.specs.Integers.{def_to_integer};
ghost use Rattle.value.specs.Status.{as_status, default_status, status_number};
ghost use Rattle.link.specs.Answers.{no_such_kind, kind_answer, integer_answer, bool_answer, bytes_answer, type_answer, status_answer};
ghost use Rattle.link.specs.Values.{with_value, with_type};

use crate::answer::{
    Answer, bool_answer, bytes_answer, integer_answer, kind_answer, no_such_kind, status_answer,
    type_answer,
};
use crate::given::HostValue;
use types::value::{AmlType, type_of};
use value::convert::{as_bool, as_buffer, as_integer, as_string, as_type};
use value::integer::to_integer;
use value::status::{as_status, default_status};

// The value's type, as the answer's kind; a Boolean's is Integer.
#[unsafe(no_mangle)]
pub extern "C" fn aml_type_of(given: HostValue) -> Answer
    ensures { result ≡ with_value given (λ v. kind_answer (type_of v)) no_such_kind }
{
    let Some(v) = given.value() else {
        return no_such_kind();
    };
    kind_answer(type_of(v))
}

#[unsafe(no_mangle)]
pub extern "C" fn aml_as_integer(given: HostValue, bytes: &[u8]) -> Answer
    ensures { result ≡ with_value given (λ v. integer_answer (as_integer v bytes.now)) no_such_kind }
{
    let Some(v) = given.value() else {
        return no_such_kind();
    };
    integer_answer(as_integer(v, bytes))
}

#[unsafe(no_mangle)]
pub extern "C" fn aml_as_bool(given: HostValue, bytes: &[u8]) -> Answer
    ensures { result ≡ with_value given (λ v. bool_answer (as_bool v bytes.now)) no_such_kind }
{
    let Some(v) = given.value() else {
        return no_such_kind();
    };
    bool_answer(as_bool(v, bytes))
}

// At the front of the output.
#[unsafe(no_mangle)]
pub extern "C" fn aml_as_buffer(given: HostValue, bytes: &[u8], out: &mut [u8]) -> Answer
    ensures { (result ≡ with_value given (λ v. bytes_answer 3 (as_buffer v bytes.now out.old).answer) no_such_kind) × (out.new ≡ with_value given (λ v. (as_buffer v bytes.now out.old).out) out.old) }
{
    let Some(v) = given.value() else {
        return no_such_kind();
    };
    bytes_answer(3, as_buffer(v, bytes, out))
}

// At the front of the output.
#[unsafe(no_mangle)]
pub extern "C" fn aml_as_string(given: HostValue, bytes: &[u8], out: &mut [u8]) -> Answer
    ensures { (result ≡ with_value given (λ v. bytes_answer 2 (as_string v bytes.now out.old).answer) no_such_kind) × (out.new ≡ with_value given (λ v. (as_string v bytes.now out.old).out) out.old) }
{
    let Some(v) = given.value() else {
        return no_such_kind();
    };
    bytes_answer(2, as_string(v, bytes, out))
}

// To the type of this number; the answer's kind is 0 where the value has it already.
#[tactic(auto, using(crate::proofs::Known::no_kind, crate::proofs::Known::no_type, crate::proofs::Known::is_named))]
#[unsafe(no_mangle)]
pub extern "C" fn aml_as_type(given: HostValue, bytes: &[u8], wanted: u8, out: &mut [u8]) -> Answer
    ensures { (result ≡ with_type given wanted (λ v t. type_answer (as_type v bytes.now t out.old).answer) no_such_kind) × (out.new ≡ with_type given wanted (λ v t. (as_type v bytes.now t out.old).out) out.old) }
{
    let Some(v) = given.value() else {
        return no_such_kind();
    };
    let Ok(t) = AmlType::try_from(wanted) else {
        return no_such_kind();
    };
    type_answer(as_type(v, bytes, t, out))
}

// ToInteger.
#[unsafe(no_mangle)]
pub extern "C" fn aml_to_integer(given: HostValue, bytes: &[u8]) -> Answer
    ensures { result ≡ with_value given (λ v. integer_answer (def_to_integer v bytes.now)) no_such_kind }
{
    let Some(v) = given.value() else {
        return no_such_kind();
    };
    integer_answer(to_integer(v, bytes))
}

// The value of _STA, by bits 0 to 4.
#[unsafe(no_mangle)]
pub extern "C" fn aml_as_status(given: HostValue, bytes: &[u8]) -> Answer
    ensures { result ≡ with_value given (λ v. status_answer (as_status v bytes.now)) no_such_kind }
{
    let Some(v) = given.value() else {
        return no_such_kind();
    };
    status_answer(as_status(v, bytes))
}

// The status of a device that has none, by the same bits.
#[unsafe(no_mangle)]
pub extern "C" fn aml_default_status() -> u64
    ensures { result ≡ status_number default_status }
{
    u64::from(default_status())
}
