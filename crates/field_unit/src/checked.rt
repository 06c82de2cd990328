// An operation that the checks accept: its units, and what one access of it does. The access width is looked up once, and kept.
ghost use Rattle.std.specs.Prelude.{ℕ, ◌≡◌, ◌+◌, ◌-◌, ◌*◌, ◌≤◌, ◌<◌, IfOk, IfErr};
ghost use Rattle.bits.specs.Bits.{bit_of, run, put, get_bits, set_bits};
ghost use Rattle.types.specs.Flags.{access_bits, access_width};
ghost use Rattle.types.specs.Refusals.{first_of};
ghost use Rattle.field_unit.specs.Checks.{field_checks};
ghost use Rattle.field_unit.specs.Accesses.{progress, first, last, keeps, covered, partly, base, lo, hi, unit_of, gathered, merged, others, act};
ghost use Rattle.field_unit.specs.Calls.{plan_of, Touches};

use crate::access::{Access, FieldOp, units};
use crate::check::check_width;
use types::flags::FieldUpdateRule;
use types::refusal::Refusal;

// What the checks found stays with it: the flags have a width, and this is it; the field has 1 to 64 bits, and ends inside the greatest region.
#[derive(Clone, Copy)]
pub(crate) struct Checked {
    pub op: FieldOp,
    pub width: u64,
    ghost width_is: { width ≡ access_width op.field.flags.0 },
    ghost access: { access_bits op.field.flags.0 < 6 },
    ghost wide: { (8 ≤ width) × (width ≤ 64) },
    ghost fits: { (1 ≤ op.field.length) × (op.field.length ≤ 64) },
    ghost ends: { op.field.offset + op.field.length ≤ 524288 },
}

// skip: the unit's bits before the field; done: the field's bits before the unit; n: the bits that they share.
#[derive(Clone, Copy)]
struct Share {
    skip: u64,
    done: u64,
    n: u64,
}

// The lowest at bits of held, and above them the lowest n of x.
#[tactic(auto, using(bits::proofs::Words::one_left, crate::proofs::Parts::above_law))]
fn above(held: u64, at: u64, n: u64, x: u64) -> u64
    requires { (1 ≤ n) × (at + n ≤ 64) }
    ensures { result ≡ run (put (bit_of held) at n (bit_of x)) 0 (at + n) }
{
    let low = held & ((1 << at) - 1);
    low | ((x << (64 - n)) >> (64 - n - at))
}

// What the bits around the field are taken from.
#[tactic(auto, using(bits::proofs::Laws::bit_of_none, crate::proofs::Parts::all_ones), unfolding(crate::specs::Accesses::others))]
fn around(rule: FieldUpdateRule, held: u64) -> u64
    ensures { (k : ℕ) → k < 64 → bit_of result k ≡ others rule (bit_of held) k }
{
    match rule {
        FieldUpdateRule::Preserve => held,
        FieldUpdateRule::WriteAsOnes => 0xffff_ffff_ffff_ffff,
        FieldUpdateRule::WriteAsZeros => 0,
    }
}

// old with its n bits from at on replaced by v's. A mask picks between the two. bits has this for any n, by one more test, for its own runs alone.
#[tactic(auto, using(crate::proofs::Parts::merge_is))]
fn merge(old: u64, at: u64, n: u64, v: u64) -> u64
    requires { (1 ≤ n) × (at + n ≤ 64) }
    ensures { result ≡ run (put (bit_of old) at n (bit_of v)) 0 64 }
{
    let m = (0xffff_ffff_ffff_ffff >> (64 - n)) << at;
    old ^ ((old ^ (v << at)) & m)
}

impl Checked {
    // The operation, if its field is accepted in a region of size bytes.
    #[tactic(auto, using(crate::proofs::Accepted::facts))]
    pub(crate) fn new(op: FieldOp, size: u64) -> Result<Checked, Refusal>
        ensures ok { IfOk result (λ c. (first_of (field_checks op.write op.field size) ≡ Ok tt) × (c.op ≡ op)) }
        ensures err { IfErr result (λ r. first_of (field_checks op.write op.field size) ≡ Err r) }
    {
        let width = check_width(op.field, op.write, size)?;
        Ok(Checked { op, width })
    }

    pub(crate) fn first(self) -> u64
        ensures { result ≡ first (plan_of self.op) }
    {
        units(self.op.field.offset, self.width)
    }

    pub(crate) fn last(self) -> u64
        ensures { result ≡ last (plan_of self.op) }
    {
        units(self.op.field.offset + self.op.field.length - 1, self.width)
    }

    // 3 is refused for a write, and no read looks.
    fn rule(self) -> FieldUpdateRule
        ensures { result ≡ (plan_of self.op).rule }
    {
        let bits = self.op.field.flags.0 / 32 % 4;
        match bits {
            0 => FieldUpdateRule::Preserve,
            1 => FieldUpdateRule::WriteAsOnes,
            _ => FieldUpdateRule::WriteAsZeros,
        }
    }

    // Are the bits around the field kept?
    fn keeps(self) -> bool
        ensures { result ≡ keeps (plan_of self.op).rule }
    {
        matches!(self.rule(), FieldUpdateRule::Preserve)
    }

    // That u is a unit of the field stays a clause: u goes over them in a loop, and is no part of the operation.
    // Does the field cover the unit?
    #[tactic(auto, using(crate::proofs::Kept::unit))]
    fn covers(self, u: u64) -> bool
        requires { Touches self.op u }
        ensures { result ≡ covered (plan_of self.op) u }
    {
        let field = self.op.field;
        let base = u * self.width;
        field.offset <= base && base + self.width <= field.offset + field.length
    }

    // Is the unit loaded before it is stored? Only a write under Preserve does so, where the field does not cover the unit.
    #[tactic(auto, unfolding(crate::specs::Accesses::partly))]
    pub(crate) fn is_partly(self, u: u64) -> bool
        requires { Touches self.op u }
        ensures { result ≡ partly (plan_of self.op) u }
    {
        self.op.write && self.keeps() && !self.covers(u)
    }

    // What the field and the unit share.
    #[tactic(auto, using(crate::proofs::Kept::unit))]
    fn share(self, u: u64) -> Share
        requires { Touches self.op u }
        ensures skip { result.skip ≡ lo (plan_of self.op) u - base (plan_of self.op) u }
        ensures done { result.done ≡ lo (plan_of self.op) u - self.op.field.offset }
        ensures n { result.n ≡ hi (plan_of self.op) u - lo (plan_of self.op) u }
    {
        let field = self.op.field;
        let base = u * self.width;
        let skip = field.offset.saturating_sub(base);
        let done = base.saturating_sub(field.offset);
        let n = (field.length - done).min(self.width - skip);
        Share { skip, done, n }
    }

    // The unit x gives a read its bits of the field; they stand above those held.
    #[tactic(auto, using(crate::proofs::Kept::unit))]
    fn gather(self, u: u64, held: u64, x: u64) -> u64
        requires { Touches self.op u }
        ensures { result ≡ gathered (plan_of self.op) u held x }
    {
        let Share { skip, done, n } = self.share(u);
        above(held, done, n, x >> skip)
    }

    // The unit to store, in the lowest bits: the field's bits in it are the value's, the others, if there are any, go by the rule.
    #[tactic(auto, using(crate::proofs::Kept::unit))]
    pub(crate) fn merge(self, u: u64, held: u64) -> u64
        requires { Touches self.op u }
        ensures { run (bit_of result) 0 self.width ≡ merged (plan_of self.op) u held }
    {
        let Share { skip, done, n } = self.share(u);
        let v = self.op.value >> done;
        if n == self.width {
            return v;
        }
        merge(around(self.rule(), held), skip, n, v)
    }

    // The unit u of the region. Every load is made here, every store by `put`.
    #[tactic(auto, using(crate::proofs::Kept::unit, crate::proofs::Kept::place, crate::proofs::Kept::bytes))]
    pub(crate) fn fetch(self, u: u64, region: &[u8]) -> u64
        requires { Touches self.op u }
        ensures { result ≡ get_bits region.now (u * self.width) self.width }
    {
        let at = u * self.width / 8;
        bits::unit::load(region, at as usize, (self.width / 8) as usize)
    }

    // Stores the lowest bits of x as the unit u of the region.
    #[tactic(auto, using(crate::proofs::Kept::unit, crate::proofs::Kept::place, crate::proofs::Kept::bytes))]
    pub(crate) fn put(self, u: u64, region: &mut [u8], x: u64)
        requires { Touches self.op u }
        ensures { region.new ≡ set_bits region.old (u * self.width) self.width x }
    {
        let at = u * self.width / 8;
        bits::unit::store(region, at as usize, (self.width / 8) as usize, x);
    }

    // Loads unit u. Answers what is held after it: a read's bits so far, a write's unit for the store that follows.
    #[tactic(auto, unfolding(crate::specs::Accesses::act))]
    fn load(self, u: u64, region: &[u8], held: u64) -> u64
        requires { Touches self.op u }
        ensures { result ≡ (act (plan_of self.op) (Access.Load u) (progress region.now held)).held }
    {
        let x = self.fetch(u, region);
        if self.op.write {
            return x;
        }
        self.gather(u, held, x)
    }

    // Makes one access. Answers what is held after it.
    #[inline(always)]
    #[tactic(auto, unfolding(crate::specs::Accesses::act), using(crate::proofs::Parts::stores))]
    pub(crate) fn act(self, a: Access, region: &mut [u8], held: u64) -> u64
        requires { Touches self.op (unit_of a) }
        ensures { progress region.new result ≡ act (plan_of self.op) a (progress region.old held) }
    {
        match a {
            Access::Load(u) => self.load(u, region, held),
            Access::Store(u) => {
                self.put(u, region, self.merge(u, held));
                0
            }
        }
    }
}
