// The unit's record: its types, how they are read and built, when a record is well formed, and a new unit. No call stands here.
#![tactic(auto)]

ghost use Rattle.std.specs.Prelude.{cond, ◌≡◌, set, get_or, replicate, None};
ghost use Rattle.unit.specs.Units.{is_out, is_out_for, made_unit, blank, slot_of, is_waiting, held_of, slot_well_formed, hosts_well_formed, out_well_formed, well_formed, largest_of, with_drive, with_marks, with_slot, with_held, with_out, without_hosts, rested};
ghost use Rattle.unit.specs.declared.Slot.TheVariants.{Empty};

use drive::{Drive, Edition, Made, Millis, Record, Setting, Tenths};
use requests::{Failure, Request};

// Stays an enum of its own: document 01 names the form, a waiting case that holds a request.
#[derive(Clone, Copy)]
pub enum Slot {
    Empty,
    Waiting(Request),
}

// The edition is "fixed at manufacture" (document 02, request (vi)): no call changes it.
#[derive(Clone, Copy)]
pub struct Unit {
    pub drive: Drive,
    pub edition: Edition,
    pub stopped: bool,
    pub unsaved: bool,
    pub slots: [Slot; 4],
    // The deferred senses that wait for their hosts: a failure's and no other.
    pub held: [Option<Failure>; 4],
    // The host whose operation has a command at the drive.
    pub out: Option<u32>,
}

// What a list has for a host; a host above 3 has `none`.
fn of_host<T: Copy>(list: [T; 4], host: u32, none: T) -> T
    ensures { result ≡ get_or list host none }
{
    if host < 4 { list[host as usize] } else { none }
}

// The list with another entry for a host.
fn set_host<T: Copy>(list: [T; 4], host: u32, entry: T) -> [T; 4]
    ensures { result ≡ set list host entry }
{
    let mut next = list;
    if host < 4 {
        next[host as usize] = entry;
    }
    next
}

pub fn slot_of(slots: [Slot; 4], host: u32) -> Slot
    ensures { result ≡ slot_of slots host }
{
    of_host(slots, host, Slot::Empty)
}

pub fn is_waiting(s: Slot) -> bool
    ensures { result ≡ is_waiting s }
{
    matches!(s, Slot::Waiting(_))
}

pub fn held_of(held: [Option<Failure>; 4], host: u32) -> Option<Failure>
    ensures { result ≡ held_of held host }
{
    of_host(held, host, None)
}

pub fn is_out(o: Option<u32>) -> bool
    ensures { result ≡ is_out o }
{
    o.is_some()
}

pub fn is_out_for(host: u32, out: Option<u32>) -> bool
    ensures { result ≡ is_out_for host out }
{
    out == Some(host)
}

// The largest timer and the largest idle count of a unit: its edition's.
pub fn largest_of(u: Unit) -> Tenths
    ensures { result.0 ≡ largest_of u }
{
    drive::largest_timer(u.edition)
}

fn slot_ok(records: [Record; 5], s: Slot) -> bool
    ensures { result ≡ slot_well_formed records s }
{
    match s {
        Slot::Empty => true,
        Slot::Waiting(q) => requests::request_ok(records, q.target, q.stage),
    }
}

// A `for`, as `drive` tests the records: `all` costs each call some 13 instructions.
fn hosts_ok(records: [Record; 5], slots: [Slot; 4], held: [Option<Failure>; 4]) -> bool
    ensures { result ≡ hosts_well_formed records slots held }
{
    let mut ok = true;
    for s in slots.iter() {
        ok &= slot_ok(records, *s);
    }
    ok
}

// A command out is the one due from a waiting operation.
fn out_ok(slots: [Slot; 4], out: Option<u32>) -> bool
    ensures { result ≡ out_well_formed slots out }
{
    match out {
        None => true,
        Some(host) => is_waiting(slot_of(slots, host)),
    }
}

// Whether the record is well formed. A call asks this of the record it was handed, once.
pub fn unit_ok(u: Unit) -> bool
    ensures { result ≡ well_formed u }
{
    drive::drive_ok(largest_of(u), u.drive)
        & hosts_ok(u.drive.records, u.slots, u.held)
        & out_ok(u.slots, u.out)
}

pub fn with_drive(u: Unit, d: Drive) -> Unit
    ensures { result ≡ with_drive d u }
{
    let mut v = u;
    v.drive = d;
    v
}

pub fn with_marks(u: Unit, stopped: bool, unsaved: bool) -> Unit
    ensures { result ≡ with_marks stopped unsaved u }
{
    let mut v = u;
    v.stopped = stopped;
    v.unsaved = unsaved;
    v
}

pub fn with_slot(u: Unit, host: u32, s: Slot) -> Unit
    ensures { result ≡ with_slot host s u }
{
    let mut v = u;
    v.slots = set_host(u.slots, host, s);
    v
}

pub fn with_held(u: Unit, host: u32, h: Option<Failure>) -> Unit
    ensures { result ≡ with_held host h u }
{
    let mut v = u;
    v.held = set_host(u.held, host, h);
    v
}

// The host's slot, unless the record is kept as it is.
pub fn with_slot_unless(u: Unit, kept: bool, host: u32, s: Slot) -> Unit
    ensures { result ≡ cond kept u (with_slot host s u) }
{
    let mut v = u;
    v.slots = rows::pick(kept, u.slots, set_host(u.slots, host, s));
    v
}

pub fn with_out(u: Unit, out: Option<u32>) -> Unit
    ensures { result ≡ with_out out u }
{
    let mut v = u;
    v.out = out;
    v
}

// What is out, unless the record is kept as it is.
pub fn with_out_unless(u: Unit, kept: bool, next: Option<u32>) -> Unit
    ensures { result ≡ cond kept u (with_out next u) }
{
    with_out(u, rows::pick(kept, u.out, next))
}

// What every reset takes, operations, the command out and deferred senses, unless the record is kept as it is.
pub fn without_hosts_unless(u: Unit, kept: bool) -> Unit
    ensures { result ≡ cond kept u (without_hosts u) }
{
    let mut v = u;
    v.slots = rows::pick(kept, u.slots, [Slot::Empty; 4]);
    v.held = rows::pick(kept, u.held, [None; 4]);
    with_out_unless(v, kept, None)
}

// The idle count restarts, unless the record is kept as it is. Power and records stay where they lie.
pub fn rest_unless(u: Unit, kept: bool) -> Unit
    ensures { result ≡ cond kept u (rested u) }
{
    let d = u.drive;
    let idle = d.idle;
    with_drive(u, drive::with_idle(d, drive::zero_unless(kept, idle)))
}

// The idle count restarts.
pub fn rest(u: Unit) -> Unit
    ensures { result ≡ rested u }
{
    let d = u.drive;
    with_drive(u, drive::restart(d))
}

pub fn made_unit(edition: Edition, made: [Made; 5]) -> Unit
    ensures { result ≡ made_unit edition made }
{
    let d = drive::manufacture(made);
    Unit {
        edition,
        drive: d,
        stopped: false,
        unsaved: false,
        slots: [Slot::Empty; 4],
        held: [None; 4],
        out: None,
    }
}

// The unit of an edition that supports nothing: what stands beside manufacture's refusal.
pub fn blank_unit(edition: Edition) -> Unit
    ensures { result ≡ blank edition }
{
    let nothing = Made {
        supported: false,
        saveable: false,
        changeable: false,
        recovery: Millis(0),
        default: Setting {
            enabled: false,
            timer: Tenths(0),
        },
    };
    made_unit(edition, [nothing; 5])
}
