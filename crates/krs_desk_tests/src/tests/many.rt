//! As many seats as a desk has, each with a caller of its own.
ghost use Rattle.std.specs.Prelude.{All, IfOk};
ghost use Rattle.krs_desk.specs.Sitting.{IsIdleAt};

use crate::opened;
use krs_desk::{Desk, Seat};
use krs_store::Store;
use krs_store_asks::{Want, hello, is_wanted, number_of, read};
use krs_types::{Ask, Blob, Op, TypeName};
use std::alloc::{AllocError, Global};
use std::sync::Wait;
use std::test::*;
use std::thread;
use std::thread::Threads;

/// Whether a seat's caller reads back the digits of its lane, which it added under the same name as all others do.
fn reads_its_own<R: Wait>(
    rt: &R,
    alloc: Global,
    desk: &Desk,
    mut seat: Seat,
) -> Result<bool, AllocError>
    requires { IsIdleAt desk.now seat }
{
    let lane = seat.lane();
    let digits = format!(in alloc; "{lane}")?;
    let context = number_of(&desk.call(
        rt,
        &mut seat,
        0,
        hello(alloc, 1000u32.saturating_add(lane)),
    ));
    let op = Op::Add {
        type_name: TypeName::from_slice(alloc, b"user")?,
        desc: Blob::from_slice(alloc, b"a")?,
        payload: Blob::from_slice(alloc, digits.as_bytes())?,
        ring: -4,
    };
    let serial = number_of(&desk.call(rt, &mut seat, 0, Ask { context, op }));
    let reply = desk.call(
        rt,
        &mut seat,
        0,
        read(context, i32::try_from(serial).unwrap_or(0)),
    );
    Ok(is_wanted(&reply, Want::Bytes(digits.as_bytes())))
}

/// At how many of these seats that is so, one after the other.
fn count_reads<R: Wait>(
    rt: &R,
    alloc: Global,
    desk: &Desk,
    seats: Vec<Seat>,
) -> Result<u32, AllocError>
    requires { All (λ s. IsIdleAt desk.now s) seats.items }
{
    let mut left = seats;
    let mut count = 0u32;
    'seats: for _place in 0..left.len() {
        let Some(seat) = left.pop() else {
            return Ok(count);
        };
        if reads_its_own(rt, alloc, desk, seat)? {
            count = count.saturating_add(1);
        }
    }
    Ok(count)
}

/// The seats in groups of 32.
fn groups_of(alloc: Global, desk: &Desk, seats: Vec<Seat>) -> Result<Vec<Vec<Seat>>, AllocError>
    requires { All (λ s. IsIdleAt desk.now s) seats.items }
    ensures { IfOk result (λ groups. All (λ g. All (λ s. IsIdleAt desk.now s) g.items) groups.items) }
{
    let _desk = desk;
    let mut left = seats;
    let mut groups = Vec::new(alloc);
    'groups: for _group in 0..8 {
        let at = left.len().saturating_sub(32);
        groups.push(left.split_off(at)?)?;
    }
    Ok(groups)
}

// 256 callers of one desk, 32 a thread: each has a user of its own, and a key of one name.
#[test]
fn as_many_callers_as_there_are_seats(rt: HostRuntime) -> Result<(), Fail> {
    let alloc = rt.alloc();
    let (desk, seats) = opened(alloc, 256, Store::new(alloc)).ok_or("no desk")?;
    let groups = groups_of(alloc, &desk, seats)?;
    let counts = thread::map_vec(&rt, groups, &|seats| count_reads(&rt, alloc, &desk, seats))?;
    let mut count = 0u32;
    for counted in counts {
        count = count.saturating_add(counted?);
    }
    assert_eq!(rt; count, 256);
    Ok(())
}
