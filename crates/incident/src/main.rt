// The incident, replayed: a twelve-bit fill count is written into a record whose other four bits are a valve timer's trim.
#![tactic(auto)]

use field_unit::whole::write_field;
use std::io;
use types::flags::FieldFlags;
use types::value::{FieldUnit, RegionSpace};

fn show(rt: &impl Print, title: &str, low: u8, high: u8) -> io::Result<()> {
    println!(rt; "{title}{low:02x} {high:02x}")
}

fn main(rt: HostRuntime) -> io::Result<()> {
    let mut region = [255u8, 255u8];
    let fill_count = FieldUnit {
        space: RegionSpace::SystemMemory,
        flags: FieldFlags::new(2),
        offset: 0,
        length: 12,
    };
    show(&rt, "record before   ", region[0], region[1])?;
    println!(rt; "write           0x123 into 12 bits at bit 0, word access, Preserve")?;
    let answer = write_field(&mut region, fill_count, 0x123);
    show(&rt, "record after    ", region[0], region[1])?;
    match answer {
        Ok(n) => println!(rt; "accesses        {n}"),
        Err(r) => {
            let n = u8::from(r);
            println!(rt; "refused         {n}")
        }
    }
}
