//! Stores to time asks on.

use crate::lines::{Marks, read_ask, serial_at};
use krs_store::Store;
use krs_types::{Ask, Errno, Fault};
use std::alloc::Global;

/// The place, behind the linked keys, of the first key of client 2.
const OTHERS: u32 = 10;

/// How many keys client 2 has in one keyring.
const IN_RING: u32 = 1_000;

/// What a store has.
#[derive(Clone, Copy)]
pub struct Scene {
    /// The links of the user keyring of context 1.
    pub links: u32,
    /// Keys of another client.
    pub others: u32,
    /// How many of these another queue watches.
    pub watches: u32,
    /// Contexts of a third client, at most 64.
    pub contexts: u32,
}

impl Scene {
    /// So many links, and little else.
    pub fn linking(links: u32) -> Self {
        Scene {
            links,
            others: 0,
            watches: 0,
            contexts: 0,
        }
    }
}

/// The spare key, the watched one and the small keyring of context 1, and two queues; context 2, of another uid, with
/// a key and a keyring; context 3, which joined a keyring by a name; and context 4: each ask with its context.
const FURNITURE: [(u32, &str); 12] = [
    (1, "add user NEW DATA @us"),
    (1, "add user WATCHED-DESC DATA @us"),
    (1, "newring key-2 @us"),
    (1, "open 16"),
    (1, "open 16"),
    (1, "watch WATCHED 1 1"),
    (0, "hello 2000 2000"),
    (2, "add user key-0 DATA @u"),
    (2, "newring key-1 @u"),
    (0, "hello 1000 1000"),
    (3, "join shared"),
    (0, "hello 1000 1000"),
];

/// A store whose client 0 has in context 1 the links of the scene, and in contexts 1 to 4 what else is asked about.
pub fn stocked(alloc: Global, scene: Scene) -> Result<Store, Fault> {
    let mut store = Store::new(alloc);
    furnish(&mut store, alloc, scene)?;
    Ok(store)
}

/// All that a scene has.
fn furnish(store: &mut Store, alloc: Global, scene: Scene) -> Result<(), Fault> {
    fill(store, filling(alloc, scene.links)?)?;
    let marks = Marks::at(scene.links, 0);
    for (context, line) in &FURNITURE {
        accept(store, 0, read_ask(alloc, &marks, *context, line)?)?;
    }
    add_others(store, alloc, scene)?;
    watch_others(store, alloc, scene)?;
    add_contexts(store, alloc, scene.contexts)
}

/// The asks for context 1, and for the keys of its user keyring.
pub fn filling(alloc: Global, links: u32) -> Result<Vec<Ask>, Fault> {
    let mut asks = Vec::new(alloc);
    asks.push(read_ask(alloc, &Marks::at(links, 0), 0, "hello 1000 1000")?)?;
    for place in 0..links {
        let marks = Marks::at(links, place);
        asks.push(read_ask(alloc, &marks, 1, "add user DESC DATA @u")?)?;
    }
    Ok(asks)
}

/// Client 0 makes these asks, and is accepted.
pub fn fill(store: &mut Store, asks: Vec<Ask>) -> Result<(), Fault> {
    for ask in asks {
        accept(store, 0, ask)?;
    }
    Ok(())
}

/// Context 5, of client 2, with keyrings of keys.
fn add_others(store: &mut Store, alloc: Global, scene: Scene) -> Result<(), Fault> {
    let marks = Marks::at(scene.links, 0);
    accept(store, 2, read_ask(alloc, &marks, 0, "hello 3000 3000")?)?;
    for place in 0..scene.others {
        accept(store, 2, other_key(alloc, scene.links, place)?)?;
    }
    Ok(())
}

/// The ask for a key of client 2, or for one of its keyrings, which stands before its keys.
fn other_key(alloc: Global, links: u32, place: u32) -> Result<Ask, Fault> {
    let (ring_place, key_place) = (place / IN_RING, place % IN_RING);
    if key_place == 0 {
        let marks = Marks::at(links, ring_place);
        return read_ask(alloc, &marks, 5, "newring DESC @u");
    }
    let mut marks = Marks::at(links, key_place);
    marks.serial = serial_at(other_place(links, ring_place.saturating_mul(IN_RING)));
    read_ask(alloc, &marks, 5, "add user DESC DATA MADE")
}

/// The place, among all keys, of a key of client 2.
fn other_place(links: u32, place: u32) -> u32 {
    links.saturating_add(OTHERS).saturating_add(place)
}

/// A queue of client 2 that watches some of its keys.
fn watch_others(store: &mut Store, alloc: Global, scene: Scene) -> Result<(), Fault> {
    let links = scene.links;
    accept(
        store,
        2,
        read_ask(alloc, &Marks::at(links, 0), 0, "open 16")?,
    )?;
    for place in 0..scene.watches {
        let marks = Marks::at(links, other_place(links, place));
        accept(store, 2, read_ask(alloc, &marks, 5, "watch KEY 3 1")?)?;
    }
    Ok(())
}

/// So many contexts of client 3.
fn add_contexts(store: &mut Store, alloc: Global, contexts: u32) -> Result<(), Fault> {
    for _ in 0..contexts {
        let marks = Marks::at(0, 0);
        accept(store, 3, read_ask(alloc, &marks, 0, "hello 4000 4000")?)?;
    }
    Ok(())
}

/// A client asks, and is accepted.
pub fn accept(store: &mut Store, client: u32, ask: Ask) -> Result<(), Errno> {
    let _ = store.apply(client, 0, ask)?;
    Ok(())
}
