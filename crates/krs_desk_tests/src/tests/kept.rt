//! A turn that a seat keeps for the calls that follow.
ghost use Rattle.krs_desk.specs.Sitting.{IsIdleAt};

use crate::{three_seats, two_seats};
use krs_desk::{Desk, Helped, Seat};
use krs_store::Store;
use krs_store_asks::{hello, leave, number_of, read};
use std::alloc::Global;
use std::sync::Wait;
use std::test::*;

/// Whether this seat finds the turn free. It gives it back.
fn finds_it_free(desk: &Desk, seat: &mut Seat) -> bool
    requires { IsIdleAt desk.now seat.old }
    ensures { IsIdleAt desk.now seat.new }
{
    desk.try_call(seat, 0, leave()).is_ok()
}

// A call behind which more follow keeps the turn. Calls of a context of its own are answered in it as in any other.
#[test]
fn a_turn_is_kept_until_there_is_no_more(rt: HostRuntime) -> Result<(), Fail> {
    let alloc = rt.alloc();
    let (desk, mut first, mut second) = two_seats(alloc, Store::new(alloc)).ok_or("no desk")?;
    let context = number_of(&desk.call_on(&rt, &mut first, 0, hello(alloc, 1000), true));
    assert_eq!(rt; context, 1);
    assert!(rt; !finds_it_free(&desk, &mut second), "it is kept");
    assert!(rt;
        desk.call_on(&rt, &mut first, 0, read(context, -4), true)
            .is_ok()
    );
    assert!(rt; !finds_it_free(&desk, &mut second), "it is kept again");
    assert!(rt;
        desk.call_on(&rt, &mut first, 0, read(context, -4), false)
            .is_ok()
    );
    assert!(rt; finds_it_free(&desk, &mut second), "it is given back");
    Ok(())
}

/// Makes so many calls behind which more follow, and tells behind how many of them the turn was free.
fn count_free<R: Wait>(rt: &R, desk: &Desk, first: &mut Seat, second: &mut Seat, calls: u32) -> u32
    requires { IsIdleAt desk.now first.old × IsIdleAt desk.now second.old }
    ensures { IsIdleAt desk.now first.new × IsIdleAt desk.now second.new }
{
    let mut free = 0u32;
    for _ in 0..calls {
        let _ = desk.call_on(rt, first, 0, leave(), true);
        if finds_it_free(desk, second) {
            free = free.wrapping_add(1);
        }
    }
    free
}

// 64 calls of a seat are served in one turn, and no more.
#[test]
fn a_turn_serves_64_calls_of_its_seat(rt: HostRuntime) -> Result<(), Fail> {
    let alloc = rt.alloc();
    let (desk, mut first, mut second) = two_seats(alloc, Store::new(alloc)).ok_or("no desk")?;
    assert_eq!(rt; count_free(&rt, &desk, &mut first, &mut second, 63), 0);
    assert_eq!(rt; count_free(&rt, &desk, &mut first, &mut second, 1), 1);
    assert_eq!(rt; count_free(&rt, &desk, &mut first, &mut second, 63), 0);
    assert_eq!(rt; count_free(&rt, &desk, &mut first, &mut second, 1), 1);
    Ok(())
}

// What is posted while a turn is kept is answered in it, before the next call of its seat, and the turn stays. So it is
// at the last call of the turn.
#[test]
fn a_kept_turn_answers_what_is_posted(rt: HostRuntime) -> Result<(), Fail> {
    let alloc = rt.alloc();
    let (desk, mut first, mut second, mut third) = three_seats(alloc, Store::new(alloc)).ok_or(
        "no desk",
    )?;
    let _ = desk.call_on(&rt, &mut first, 0, leave(), true);
    desk.post(&mut second, 0, hello(alloc, 1000));
    let own = number_of(&desk.call_on(&rt, &mut first, 0, hello(alloc, 1000), true));
    let posted = desk.collect(&mut second).ok_or("it isn't answered")?;
    assert_eq!(rt; (number_of(&posted), own), (1, 2));
    assert!(rt; !finds_it_free(&desk, &mut third), "it is kept");
    desk.post(&mut second, 0, hello(alloc, 1000));
    let own = number_of(&desk.call(&rt, &mut first, 0, hello(alloc, 1000)));
    let posted = desk
        .collect(&mut second)
        .ok_or("it isn't answered at the end")?;
    assert_eq!(rt; (number_of(&posted), own), (3, 4));
    assert!(rt; finds_it_free(&desk, &mut third), "it is given back");
    Ok(())
}

/// Does something at a seat that may have kept its turn, by its number.
fn act<R: Wait>(rt: &R, alloc: Global, desk: &Desk, seat: &mut Seat, number: u8)
    requires { IsIdleAt desk.now seat.old }
    ensures { IsIdleAt desk.now seat.new }
{
    match number {
        0 => desk.rest(seat),
        1 => {
            let _ = desk.call(rt, seat, 0, hello(alloc, 1000));
        }
        2 => {
            let _ = desk.try_call(seat, 0, hello(alloc, 1000));
        }
        _ => {
            let _ = desk.call_on(rt, seat, 0, hello(alloc, 1000), false);
        }
    }
}

/// Whether the turn is free where a seat that has kept it has done that.
fn gives_back<R: Wait>(
    rt: &R,
    alloc: Global,
    desk: &Desk,
    first: &mut Seat,
    second: &mut Seat,
    number: u8,
) -> bool
    requires { IsIdleAt desk.now first.old × IsIdleAt desk.now second.old }
    ensures { IsIdleAt desk.now first.new × IsIdleAt desk.now second.new }
{
    let _ = desk.call_on(rt, first, 0, leave(), true);
    let was_kept = !finds_it_free(desk, second);
    act(rt, alloc, desk, first, number);
    was_kept && finds_it_free(desk, second)
}

// `rest` gives the turn back, and so does each other call.
#[test]
fn each_other_call_gives_the_turn_back(rt: HostRuntime) -> Result<(), Fail> {
    let alloc = rt.alloc();
    let (desk, mut first, mut second) = two_seats(alloc, Store::new(alloc)).ok_or("no desk")?;
    assert!(rt;
        gives_back(&rt, alloc, &desk, &mut first, &mut second, 0),
        "rest"
    );
    assert!(rt;
        gives_back(&rt, alloc, &desk, &mut first, &mut second, 1),
        "call"
    );
    assert!(rt;
        gives_back(&rt, alloc, &desk, &mut first, &mut second, 2),
        "try_call"
    );
    assert!(rt;
        gives_back(&rt, alloc, &desk, &mut first, &mut second, 3),
        "call_on"
    );
    let _ = desk.call_on(&rt, &mut first, 0, leave(), true);
    assert!(rt; desk.help(&mut first) == Helped::Took(0));
    assert!(rt; finds_it_free(&desk, &mut second), "help");
    let _ = desk.call_on(&rt, &mut first, 0, leave(), true);
    desk.post(&mut first, 0, leave());
    assert!(rt; desk.help(&mut second) == Helped::Took(1), "post");
    assert!(rt; desk.collect(&mut first).is_some());
    Ok(())
}

// A seat that has kept its turn meets another, and gives the store back.
#[test]
fn a_kept_turn_is_given_back_to_meet_and_to_close(rt: HostRuntime) -> Result<(), Fail> {
    let alloc = rt.alloc();
    let (desk, mut first, mut second) = two_seats(alloc, Store::new(alloc)).ok_or("no desk")?;
    let _ = desk.call_on(&rt, &mut first, 0, leave(), true);
    desk.meet(&mut first, &mut second);
    assert!(rt; finds_it_free(&desk, &mut second), "behind a meeting");
    let _ = desk.call_on(&rt, &mut first, 0, leave(), true);
    assert!(rt; desk.close(first).is_ok());
    Ok(())
}
