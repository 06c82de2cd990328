// A job, as the columns of its line say it.
ghost use Rattle.std.specs.Prelude.{◌≡◌, length};

use crate::lent::{HEADED, Pattern};
use crate::lines::{byte, number};
use field_unit::access::FieldOp;
use std::ops::Range;
use types::flags::FieldFlags;
use types::value::{AmlType, AmlValue, FieldUnit, RegionSpace};

const CALL: Range<usize> = 0..2;

const WRITES: Range<usize> = 3..5; // 1 for a write

const HELD: Range<usize> = 6..22;

const MADE: Range<usize> = 23..39;

const SHOW: Range<usize> = 40..48;

const FIRST: Range<usize> = 49..191; // the three operands

const SECOND: Range<usize> = 192..334;

const THIRD: Range<usize> = 335..477;

const OUT: Range<usize> = 478..486; // the output: its length and seed

const OUT_SEED: Range<usize> = 487..495;

// The columns of an operand.
const KIND: Range<usize> = 0..2;

const FLAGS: Range<usize> = 3..5;

const SPACE: Range<usize> = 6..8;

const OFFSET: Range<usize> = 9..25;

const LENGTH: Range<usize> = 26..42;

const VALUE: Range<usize> = 43..59;

const COUNT: Range<usize> = 60..68; // the bytes lent beside the value: their length, seed and head

const SEED: Range<usize> = 69..77;

const HEAD: Range<usize> = 78..142;

// A value, the same columns as a field and as a number, and the bytes lent beside it.
#[derive(Clone, Copy)]
pub struct Operand {
    pub value: AmlValue,
    pub field: FieldUnit,
    pub number: u64,
    pub bytes: Pattern,
}

// What most calls ask for is read once; held, made and the third value, which few do, when they are asked for: each digit costs.
// show: where the shown bytes begin.
#[derive(Clone, Copy)]
pub struct Job<'a> {
    line: &'a [u8; 496],
    pub call: u8,
    pub writes: bool,
    pub show: usize,
    pub first: Operand,
    pub second: Operand,
    pub third: Pattern,
    pub out: Pattern,
}

impl Operand {
    fn read(columns: &[u8]) -> Operand
        requires { length columns.now ≡ 142 }
    {
        let field = FieldUnit {
            space: RegionSpace::from(byte(&columns[SPACE])),
            flags: FieldFlags::new(byte(&columns[FLAGS])),
            offset: number(&columns[OFFSET]),
            length: number(&columns[LENGTH]),
        };
        let number_of = number(&columns[VALUE]);
        Operand {
            value: value(byte(&columns[KIND]), number_of, field),
            field,
            number: number_of,
            bytes: lent(columns),
        }
    }
}

impl<'a> Job<'a> {
    pub(crate) fn read(line: &'a [u8; 496]) -> Job<'a> {
        Job {
            line,
            call: byte(&line[CALL]),
            writes: byte(&line[WRITES]) != 0,
            show: number(&line[SHOW]) as usize,
            first: Operand::read(&line[FIRST]),
            second: Operand::read(&line[SECOND]),
            third: lent(&line[THIRD]),
            out: Pattern {
                count: number(&line[OUT]) as usize,
                seed: number(&line[OUT_SEED]),
                head: [0; 32],
            },
        }
    }

    // The field of the first operand, written with the number of the second.
    pub(crate) fn op(&self) -> FieldOp {
        FieldOp {
            write: self.writes,
            field: self.first.field,
            value: self.second.number,
        }
    }

    // For one access alone: what is held, and how many were made.
    pub(crate) fn held(&self) -> u64 {
        let line = self.line;
        number(&line[HELD])
    }

    // Also the region's length for a check alone, and the number of a named type.
    pub(crate) fn made(&self) -> u64 {
        let line = self.line;
        number(&line[MADE])
    }

    pub(crate) fn third_value(&self) -> AmlValue {
        let line = self.line;
        Operand::read(&line[THIRD]).value
    }

    // The type whose number stands in `made`; BufferField where none has it.
    pub(crate) fn named_type(&self) -> AmlType {
        match u8::try_from(self.made()) {
            Ok(n) => AmlType::try_from(n).unwrap_or(AmlType::BufferField),
            Err(_) => AmlType::BufferField,
        }
    }
}

// The kinds' numbers are those of the jobs (KINDS in tests/lines.py).
fn value(kind: u8, number: u64, field: FieldUnit) -> AmlValue {
    match kind {
        0 => AmlValue::Boolean(number != 0),
        1 => AmlValue::Integer(number),
        2 => AmlValue::String,
        3 => AmlValue::Buffer,
        4 => AmlValue::BufferField {
            offset: field.offset,
            length: field.length,
        },
        5 => AmlValue::Field(field),
        6 => AmlValue::OpRegion,
        7 => AmlValue::Device,
        8 => AmlValue::Method,
        9 => AmlValue::Processor,
        10 => AmlValue::Mutex,
        11 => AmlValue::Package,
        12 => AmlValue::PowerResource,
        _ => AmlValue::ThermalZone,
    }
}

// The bytes of an operand. The head, half of its columns, is read where the seed names it.
fn lent(columns: &[u8]) -> Pattern
    requires { length columns.now ≡ 142 }
{
    let seed = number(&columns[SEED]);
    Pattern {
        count: number(&columns[COUNT]) as usize,
        seed,
        head: if seed == HEADED {
            head(&columns[HEAD])
        } else {
            [0; 32]
        },
    }
}

fn head(columns: &[u8]) -> [u8; 32] {
    let mut head = [0; 32];
    let (pairs, _) = columns.as_chunks::<2>();
    for (place, pair) in head.iter_mut().zip(pairs) {
        *place = byte(pair);
    }
    head
}
