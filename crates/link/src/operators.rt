// The operators. Bytes are lent beside each operand. Exports alike but for the call stay apart: the C interface has a name for each.
#![tactic(auto, using(crate::proofs::Known::no_value, crate::proofs::Known::is_value, crate::proofs::Known::no_left, crate::proofs::Known::no_right, crate::proofs::Known::are_values))]

ghost use Rattle.std.specs.Prelude.{◌≡◌};
ghost use Rattle.expression.specs.Numbers as E;
ghost use Rattle.expression.specs.Compare.{compare};
ghost use Rattle.expression.specs.Mid.{mid_place};
ghost use Rattle.expression.specs.Concat.{concat, concat_res};
ghost use Rattle.expression.specs.Build.{build_buffer};
ghost use Rattle.link.specs.Answers.{no_such_kind, integer_answer, bytes_answer, compare_answer, concat_answer, place_answer};
ghost use Rattle.link.specs.Values.{with_value, with_both};

use crate::answer::{
    Answer, bytes_answer, compare_answer, concat_answer, integer_answer, no_such_kind, place_answer,
};
use crate::given::HostValue;
use expression::buffer::def_buffer;
use expression::compare::compare;
use expression::concat::{def_concat, def_concat_res};
use expression::mid::def_mid_place;
use expression::number::{
    def_add, def_and, def_decrement, def_increment, def_shift_left, def_shift_right,
};

// Add.
#[unsafe(no_mangle)]
pub extern "C" fn aml_add(
    left: HostValue,
    left_bytes: &[u8],
    right: HostValue,
    right_bytes: &[u8],
) -> Answer
    ensures { result ≡ with_both left right (λ l r. integer_answer (E.binary E.add l left_bytes.now r right_bytes.now)) no_such_kind }
{
    let Some(l) = left.value() else {
        return no_such_kind();
    };
    let Some(r) = right.value() else {
        return no_such_kind();
    };
    integer_answer(def_add(l, left_bytes, r, right_bytes))
}

// And.
#[unsafe(no_mangle)]
pub extern "C" fn aml_and(
    left: HostValue,
    left_bytes: &[u8],
    right: HostValue,
    right_bytes: &[u8],
) -> Answer
    ensures { result ≡ with_both left right (λ l r. integer_answer (E.binary E.and l left_bytes.now r right_bytes.now)) no_such_kind }
{
    let Some(l) = left.value() else {
        return no_such_kind();
    };
    let Some(r) = right.value() else {
        return no_such_kind();
    };
    integer_answer(def_and(l, left_bytes, r, right_bytes))
}

// ShiftLeft.
#[unsafe(no_mangle)]
pub extern "C" fn aml_shift_left(
    left: HostValue,
    left_bytes: &[u8],
    right: HostValue,
    right_bytes: &[u8],
) -> Answer
    ensures { result ≡ with_both left right (λ l r. integer_answer (E.binary E.shift_left l left_bytes.now r right_bytes.now)) no_such_kind }
{
    let Some(l) = left.value() else {
        return no_such_kind();
    };
    let Some(r) = right.value() else {
        return no_such_kind();
    };
    integer_answer(def_shift_left(l, left_bytes, r, right_bytes))
}

// ShiftRight.
#[unsafe(no_mangle)]
pub extern "C" fn aml_shift_right(
    left: HostValue,
    left_bytes: &[u8],
    right: HostValue,
    right_bytes: &[u8],
) -> Answer
    ensures { result ≡ with_both left right (λ l r. integer_answer (E.binary E.shift_right l left_bytes.now r right_bytes.now)) no_such_kind }
{
    let Some(l) = left.value() else {
        return no_such_kind();
    };
    let Some(r) = right.value() else {
        return no_such_kind();
    };
    integer_answer(def_shift_right(l, left_bytes, r, right_bytes))
}

// The number and 1; nothing is stored.
#[unsafe(no_mangle)]
pub extern "C" fn aml_increment(given: HostValue, bytes: &[u8]) -> Answer
    ensures { result ≡ with_value given (λ v. integer_answer (E.unary E.increment v bytes.now)) no_such_kind }
{
    let Some(v) = given.value() else {
        return no_such_kind();
    };
    integer_answer(def_increment(v, bytes))
}

// The number less 1; nothing is stored.
#[unsafe(no_mangle)]
pub extern "C" fn aml_decrement(given: HostValue, bytes: &[u8]) -> Answer
    ensures { result ≡ with_value given (λ v. integer_answer (E.unary E.decrement v bytes.now)) no_such_kind }
{
    let Some(v) = given.value() else {
        return no_such_kind();
    };
    integer_answer(def_decrement(v, bytes))
}

// 0, 1, 2 for less, equal, greater.
#[unsafe(no_mangle)]
pub extern "C" fn aml_compare(
    left: HostValue,
    left_bytes: &[u8],
    right: HostValue,
    right_bytes: &[u8],
) -> Answer
    ensures { result ≡ with_both left right (λ l r. compare_answer (compare l left_bytes.now r right_bytes.now)) no_such_kind }
{
    let Some(l) = left.value() else {
        return no_such_kind();
    };
    let Some(r) = right.value() else {
        return no_such_kind();
    };
    compare_answer(compare(l, left_bytes, r, right_bytes))
}

// Concat, at the front of the output.
#[unsafe(no_mangle)]
pub extern "C" fn aml_concat(
    left: HostValue,
    left_bytes: &[u8],
    right: HostValue,
    right_bytes: &[u8],
    out: &mut [u8],
) -> Answer
    ensures { (result ≡ with_both left right (λ l r. concat_answer (concat l left_bytes.now r right_bytes.now out.old).answer) no_such_kind) × (out.new ≡ with_both left right (λ l r. (concat l left_bytes.now r right_bytes.now out.old).out) out.old) }
{
    let Some(l) = left.value() else {
        return no_such_kind();
    };
    let Some(r) = right.value() else {
        return no_such_kind();
    };
    concat_answer(def_concat(l, left_bytes, r, right_bytes, out))
}

// ConcatRes, at the front of the output.
#[unsafe(no_mangle)]
pub extern "C" fn aml_concat_res(
    left: HostValue,
    left_bytes: &[u8],
    right: HostValue,
    right_bytes: &[u8],
    out: &mut [u8],
) -> Answer
    ensures { (result ≡ with_both left right (λ l r. bytes_answer 3 (concat_res l left_bytes.now r right_bytes.now out.old).answer) no_such_kind) × (out.new ≡ with_both left right (λ l r. (concat_res l left_bytes.now r right_bytes.now out.old).out) out.old) }
{
    let Some(l) = left.value() else {
        return no_such_kind();
    };
    let Some(r) = right.value() else {
        return no_such_kind();
    };
    bytes_answer(3, def_concat_res(l, left_bytes, r, right_bytes, out))
}

// Mid. The part is the source's own bytes: the answer's count says how many, its value where they begin.
#[tactic(auto, using(crate::proofs::Known::no_value, crate::proofs::Known::is_value, crate::proofs::Known::no_left, crate::proofs::Known::no_right, crate::proofs::Known::are_values, crate::proofs::Parts::mid_count))]
#[unsafe(no_mangle)]
pub extern "C" fn aml_mid(
    source: HostValue,
    source_bytes: &[u8],
    index: HostValue,
    index_bytes: &[u8],
    length: HostValue,
    length_bytes: &[u8],
) -> Answer
    ensures { result ≡ with_value source (λ v. with_both index length (λ i n. place_answer source.kind (mid_place v source_bytes.now i index_bytes.now n length_bytes.now)) no_such_kind) no_such_kind }
{
    let Some(v) = source.value() else {
        return no_such_kind();
    };
    let Some(i) = index.value() else {
        return no_such_kind();
    };
    let Some(n) = length.value() else {
        return no_such_kind();
    };
    let placed = def_mid_place(v, source_bytes, i, index_bytes, n, length_bytes);
    place_answer(source.kind, placed)
}

// Building a buffer of the size given, at the front of the output.
#[unsafe(no_mangle)]
pub extern "C" fn aml_buffer(
    given: HostValue,
    bytes: &[u8],
    initial: &[u8],
    out: &mut [u8],
) -> Answer
    ensures { (result ≡ with_value given (λ v. bytes_answer 3 (build_buffer v bytes.now initial.now out.old).answer) no_such_kind) × (out.new ≡ with_value given (λ v. (build_buffer v bytes.now initial.now out.old).out) out.old) }
{
    let Some(v) = given.value() else {
        return no_such_kind();
    };
    bytes_answer(3, def_buffer(v, bytes, initial, out))
}
