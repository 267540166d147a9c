// A call, and the line that says what was tried and what it answered.
use crate::change::RawRecord;
use crate::counts::prefix_len;
use crate::slots::Lent;
use crate::text::{LookupAnswer, UpdateAnswer};
use std::io;
use std::net::Ipv4Addr;

// The first and the last address, and where the three other quarters of all addresses begin.
pub const ADDRESSES: [u32; 5] = [0, 0x40000000, 0x80000000, 0xC0000000, 0xFFFFFFFF];

// A list is applied; the line's beginning was printed before.
pub fn apply_list(rt: &impl Print, lent: &mut Lent<'_>, list: &[u8]) -> io::Result<()> {
    let answer = ledger::update(lent.lo, lent.hi, lent.up, lent.hop, list);
    println!(rt; "{}", UpdateAnswer(answer))
}

// One record is applied.
pub fn apply(rt: &impl Print, lent: &mut Lent<'_>, record: RawRecord) -> io::Result<()> {
    print!(rt; "  {record}: ")?;
    apply_list(rt, lent, &record.to_bytes())
}

// A line of lookups.
fn look<F: Fn(u32) -> LookupAnswer>(rt: &impl Print, title: &str, lookup: F) -> io::Result<()>
    requires { F.IsAlwaysCallable lookup }
{
    print!(rt; "    {title}")?;
    for address in ADDRESSES {
        let answer = lookup(address);
        print!(rt; "; {} {answer}", Ipv4Addr::from(address))?;
    }
    println!(rt)
}

// The ledger as lookups see it.
pub fn look_around(rt: &impl Print, lent: &Lent<'_>) -> io::Result<()> {
    look(rt, "lookups", |address| {
        LookupAnswer(ledger::lookup(lent.lo, lent.hi, lent.up, lent.hop, address))
    })
}

// A list at the same addresses.
pub fn look_around_list(rt: &impl Print, list: &[u8]) -> io::Result<()> {
    look(
        rt,
        "in list",
        |address| LookupAnswer(lists::lookup_list(list, address)),
    )
}

// A record is applied, by a call of its own, or the ledger is looked at. (`writings` has a step more, and so steps of its own: as one enum,
// `trials` would carry one that it cannot take.)
#[derive(Clone, Copy)]
pub enum Step {
    Apply(RawRecord),
    Look,
}

// Steps are taken one after the other.
pub fn run(rt: &impl Print, lent: &mut Lent<'_>, steps: &[Step]) -> io::Result<()> {
    for step in steps {
        match *step {
            Step::Apply(record) => apply(rt, lent, record)?,
            Step::Look => look_around(rt, lent)?,
        }
    }
    Ok(())
}

// An address is looked up in a list; the line's beginning was printed before.
pub fn look_in_list(rt: &impl Print, list: &[u8], address: u32) -> io::Result<()> {
    let answer = LookupAnswer(lists::lookup_list(list, address));
    println!(rt; ", lookup of {}: {answer}", Ipv4Addr::from(address))
}

// An address is looked up in the first bytes of a list, as many as are asked for and are there.
pub fn look_in_first(rt: &impl Print, list: &[u8], asked: isize, address: u32) -> io::Result<()> {
    let count = prefix_len(asked, list);
    print!(rt; "  {count} bytes")?;
    look_in_list(rt, &list[..count], address)
}
