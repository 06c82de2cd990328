// The table of ops: a name, which operator it is, how many of a, b, c it uses.
ghost use Rattle.std.specs.Prelude.{◌≡◌};
ghost use Rattle.script.specs.Ops as Ops;

// The ops that answer a number.
#[derive(Clone, Copy)]
pub enum NumberOp {
    Add,
    And,
    Increment,
    Decrement,
    ShiftLeft,
    ShiftRight,
    ToInteger,
}

#[derive(Clone, Copy)]
pub enum Op {
    Number(NumberOp),
    Mid,
    Concat,
    ConcatRes,
    Compare,
}

const ROWS: [(&[u8], Op, usize); 11] = [
    (b"add", Op::Number(NumberOp::Add), 2),
    (b"and", Op::Number(NumberOp::And), 2),
    (b"inc", Op::Number(NumberOp::Increment), 1),
    (b"dec", Op::Number(NumberOp::Decrement), 1),
    (b"shl", Op::Number(NumberOp::ShiftLeft), 2),
    (b"shr", Op::Number(NumberOp::ShiftRight), 2),
    (b"mid", Op::Mid, 3),
    (b"concat", Op::Concat, 2),
    (b"concatres", Op::ConcatRes, 2),
    (b"toint", Op::Number(NumberOp::ToInteger), 1),
    (b"cmp", Op::Compare, 2),
];

// The row of a name: its op, and how many operands that uses.
pub(crate) fn op_of(s: &[u8]) -> Option<(Op, usize)>
    ensures { result ≡ Ops.row_of Ops.ops s.now }
{
    for &(name, op, used) in &ROWS {
        if name == s {
            return Some((op, used));
        }
    }
    None
}
