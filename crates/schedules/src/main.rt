// Schedules of two and three short operations, all interleavings of their calls, each run to its end on the task table and compared with
// the same operations run whole, in the order in which they finished. Where the premise holds they agree; where it does not, some differ.
#![tactic(auto)]

ghost use Rattle.std.specs.Prelude.{◌<◌};

mod ops;
mod run;
mod words;

use crate::ops::{Group, Locks, ON_BYTES, Place, SHORT_ON_BYTES, Shape};
use crate::words::{Counts, Work, all};
use field_unit::next::count_accesses;
use std::io;

const PLACES: [Place; 3] = [Place::SameBytes, Place::OneByte, Place::BytesApart];

const LOCKS: [Locks; 3] = [Locks::Nobody, Locks::First, Locks::All];

// The task's work on an operation of this shape; none where the operation is refused.
fn work(group: Group, shape: &Shape, task: usize) -> Option<Work>
    requires { task < 3 }
{
    let op = group.operation(*shape, task);
    let accesses = count_accesses(op, 12).ok()?;
    Some(Work {
        op,
        calls: accesses.wrapping_add(1),
    })
}

// All schedules of two operations.
fn pairs(group: Group) -> Counts {
    let shapes = group.place.shapes(ON_BYTES);
    let mut counts = Counts::default();
    for a in shapes {
        for b in shapes {
            counts = counts + all([work(group, a, 0), work(group, b, 1), None]);
        }
    }
    counts
}

// All schedules of three operations.
fn triples(group: Group) -> Counts {
    let shapes = group.place.shapes(SHORT_ON_BYTES);
    let mut counts = Counts::default();
    for a in shapes {
        for b in shapes {
            for c in shapes {
                counts = counts + all([work(group, a, 0), work(group, b, 1), work(group, c, 2)]);
            }
        }
    }
    counts
}

fn main(rt: HostRuntime) -> io::Result<()> {
    let mut total = Counts::default();
    for place in PLACES {
        for locks in LOCKS {
            let group = Group { place, locks };
            let two = pairs(group);
            println!(rt; "two tasks, {group}: {two}")?;
            let three = triples(group);
            println!(rt; "three tasks, {group}: {three}")?;
            total = total + two + three;
        }
    }
    println!(rt; "all: {total}")
}
