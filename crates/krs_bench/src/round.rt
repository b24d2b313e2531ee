//! Rounds of asks, and the numbers that they will be answered.

use crate::lines::{Marks, read_ask};
use crate::operation::Operation;
use krs_store::Store;
use krs_types::{Answer, Ask, Fault};
use std::alloc::Global;

/// Makes a key, a context and a queue, and takes them away, to see which numbers come next: those of the first round.
pub fn next_numbers(store: &mut Store, alloc: Global, links: u32) -> Result<Marks, Fault> {
    let mut marks = Marks::at(links, links.saturating_add(9));
    marks.serial = number_of(store, alloc, &marks, 1, "add user DESC DATA @us")?;
    let _ = number_of(store, alloc, &marks, 1, "unlink MADE @us")?;
    marks.context = number_of(store, alloc, &marks, 0, "hello 1000 1000")?;
    let _ = number_of(store, alloc, &marks, marks.context, "exit")?;
    marks.queue = number_of(store, alloc, &marks, 1, "open 1")?;
    let _ = number_of(store, alloc, &marks, 1, "closeq QUEUE")?;
    Ok(marks.in_round(1))
}

/// The number that client 0 is answered, 0 where it is answered none.
fn number_of(
    store: &mut Store,
    alloc: Global,
    marks: &Marks,
    context: u32,
    line: &str,
) -> Result<u32, Fault> {
    let ask = read_ask(alloc, marks, context, line)?;
    match store.apply(0, 0, ask)? {
        Answer::Number(number) => Ok(number),
        _ => Ok(0),
    }
}

/// The asks of a round.
#[derive(Drop)]
pub struct Turn {
    pub first: Ask,
    pub second: Option<Ask>,
}

/// The asks of so many rounds, of which the first has these marks.
pub fn turns(
    alloc: Global,
    operation: Operation,
    marks: Marks,
    rounds: u32,
) -> Result<Vec<Turn>, Fault> {
    let mut turns = Vec::new(alloc);
    for number in 0..rounds {
        turns.push(asks_of_round(alloc, operation, &marks.in_round(number))?)?;
    }
    Ok(turns)
}

/// The asks of the round that has these marks.
fn asks_of_round(alloc: Global, operation: Operation, marks: &Marks) -> Result<Turn, Fault> {
    let first = read_ask(alloc, marks, operation.context(), operation.first())?;
    let second = second(alloc, operation, marks)?;
    Ok(Turn { first, second })
}

/// The second ask of a round, where there is one. EXIT is of the context that the first one makes.
fn second(alloc: Global, operation: Operation, marks: &Marks) -> Result<Option<Ask>, Fault> {
    let context = match operation.second() {
        "" => return Ok(None),
        "exit" => marks.context,
        _ => operation.context(),
    };
    Ok(Some(read_ask(alloc, marks, context, operation.second())?))
}
