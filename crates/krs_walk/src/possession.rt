ghost use Rattle.std.specs.Prelude.{[], ◌≡◌, ◌≤◌, drop, false, IfOk, IfSome, length, OnOk, option_to_list, Some, true};
ghost use Rattle.std.specs.List.{list_any};
ghost use Rattle.krs_model.specs.{Levels.is_in, Possession.{attached_with, is_followed, possessed_with}};
ghost use Rattle.krs_links.specs.Links.{serial_named};
ghost use Rattle.krs_keys.specs.Keys.{AreFit, name_at, named_links_of_content, seen, shown};
ghost use Rattle.krs_walk.specs.Seeking.{heads, is_linked_anywhere, is_possessed, links_it, links_within, nested};
ghost use Rattle.krs_walk.specs.{Lists.join, Seeking.one_links, Walks.{followed_rings, is_found, with_next}};

use crate::keyrings::rings_in;
use crate::visits::NoRoom;
use crate::{Visits, Walker};
use bitflags::Flags;
use krs_keys::{Content, Key, KeyTable};
use krs_links::HashedName;
use krs_types::{Caller, Context, Rights, SEARCH_DEPTH, Serial};

/// So many levels of keyrings are asked first, by `is_linked_near`: a key is mostly linked by an attached keyring, or
/// by one that it links, as the session keyring links the user keyring.
pub(crate) const NEAR_LEVELS: u8 = 2;

/// A key that is looked for: among which keys, by which context, its process's keyring, when, and its name and serial.
#[derive(Clone, Copy)]
pub struct Sought<'a> {
    pub keys: &'a KeyTable,
    pub context: &'a Context,
    pub process_ring: Option<Serial>,
    pub clock: u64,
    pub name: &'a HashedName,
    pub serial: Serial,
}

impl Walker {
    /// Whether a context, whose process has this keyring, possesses a key. keyrings(7), "Possession"; profile, search
    /// depth. The two nearest levels are asked first, and those below are not walked where one of these links the key.
    pub fn possesses(
        &self,
        keys: &KeyTable,
        context: &Context,
        process_ring: Option<Serial>,
        clock: u64,
        serial: Serial,
    ) -> bool
        requires { AreFit keys.now.keys }
        ensures { result ≡ possessed_with (shown keys.now.keys) clock context.now process_ring serial }
    {
        keys.only_keyrings_link();
        match keys.get(serial) {
            Some(key) => self.possesses_named(&Sought {
                keys,
                context,
                process_ring,
                clock,
                name: &key.name,
                serial,
            }),
            None => is_attached(context, &process_ring, serial),
        }
    }

    /// The same of a key whose name is at hand: what links it has that name.
    pub fn possesses_named(&self, sought: &Sought<'_>) -> bool
        requires fit { AreFit sought.now.keys.now.keys }
        requires name { name_at sought.now.keys.now.keys sought.now.serial ≡ Some sought.now.name.now }
        ensures { result ≡ is_possessed sought.now }
    {
        sought.keys.only_keyrings_link();
        sought.is_attached() || sought.is_linked(self)
    }

    /// Whether it is attached, or hints lead to a link of it at once.
    pub fn possesses_hinted(&self, sought: &Sought<'_>) -> bool
        requires fit { AreFit sought.now.keys.now.keys }
        requires name { name_at sought.now.keys.now.keys sought.now.serial ≡ Some sought.now.name.now }
        ensures { result ≡ true → is_possessed sought.now ≡ true }
    {
        sought.keys.only_keyrings_link();
        sought.is_attached() || sought.is_hinted()
    }

    /// Whether it is possessed, where that takes a look at few keyrings: else none. No hint of it is looked at.
    pub fn possesses_soon(&self, sought: &Sought<'_>) -> Option<bool>
        requires fit { AreFit sought.now.keys.now.keys }
        requires name { name_at sought.now.keys.now.keys sought.now.serial ≡ Some sought.now.name.now }
        ensures { IfSome result (λ b. b ≡ is_possessed sought.now) }
    {
        sought.keys.only_keyrings_link();
        if sought.is_attached() {
            return Some(true);
        }
        sought.is_linked_soon(self)
    }
}

impl Sought<'_> {
    /// Whether it is attached.
    fn is_attached(&self) -> bool
        ensures { result ≡ is_in self.now.serial (heads self.now) }
    {
        is_attached(self.context, &self.process_ring, self.serial)
    }

    /// Whether a followed keyring of the first `SEARCH_DEPTH` levels links it. Hints are followed first: they mostly
    /// lead to the link at once, however many keyrings there are.
    fn is_linked(&self, walker: &Walker) -> bool
        requires fit { AreFit self.now.keys.now.keys }
        requires name { name_at self.now.keys.now.keys self.now.serial ≡ Some self.now.name.now }
        ensures { result ≡ is_linked_anywhere self.now }
    {
        if self.is_hinted() {
            return true;
        }
        self.is_linked_unhinted(walker)
    }

    /// The same, where no hint leads to a link in the two nearest levels.
    #[inline(never)]
    fn is_linked_unhinted(&self, walker: &Walker) -> bool
        requires fit { AreFit self.now.keys.now.keys }
        requires name { name_at self.now.keys.now.keys self.now.serial ≡ Some self.now.name.now }
        ensures { result ≡ is_linked_anywhere self.now }
    {
        match self.is_linked_soon(walker) {
            Some(linked) => linked,
            None => self.is_linked_by_walk(walker),
        }
    }

    /// The same by a walk down from the attached keyrings.
    #[inline(never)]
    fn is_linked_by_walk(&self, walker: &Walker) -> bool
        requires fit { AreFit self.now.keys.now.keys }
        requires name { name_at self.now.keys.now.keys self.now.serial ≡ Some self.now.name.now }
        ensures { result ≡ is_linked_anywhere self.now }
    {
        if self.is_linked_near() {
            return true;
        }
        self.is_linked_by_levels(walker)
    }

    /// The same, where few keyrings have to be looked at: else none.
    fn is_linked_soon(&self, walker: &Walker) -> Option<bool>
        requires fit { AreFit self.now.keys.now.keys }
        requires name { name_at self.now.keys.now.keys self.now.serial ≡ Some self.now.name.now }
        ensures { IfSome result (λ b. b ≡ is_linked_anywhere self.now) }
    {
        if self.nests_many(0) {
            return self.is_linked_by_hints();
        }
        if self.is_linked_near() {
            return Some(true);
        }
        self.is_linked_far(walker)
    }

    /// The same, where hints lead to a link in the levels below.
    #[inline(never)]
    fn is_linked_by_hints(&self) -> Option<bool>
        requires fit { AreFit self.now.keys.now.keys }
        ensures { IfSome result (λ b. b ≡ is_linked_anywhere self.now) }
    {
        if self.is_hinted_far() {
            return Some(true);
        }
        None
    }

    /// The same, where none of the near levels does.
    #[inline(never)]
    fn is_linked_far(&self, walker: &Walker) -> Option<bool>
        requires fit { AreFit self.now.keys.now.keys }
        requires name { name_at self.now.keys.now.keys self.now.serial ≡ Some self.now.name.now }
        requires near { one_links self.now 2 (heads self.now) ≡ false }
        ensures { IfSome result (λ b. b ≡ is_linked_anywhere self.now) }
    {
        if self.ends_near() {
            return Some(false);
        }
        if self.is_hinted_far() {
            return Some(true);
        }
        if self.nests_many(SEARCH_DEPTH - NEAR_LEVELS) {
            return None;
        }
        Some(self.is_linked_by_levels(walker))
    }

    /// Whether one of the first `SEARCH_DEPTH` levels does, where none of the near ones does.
    fn is_linked_by_levels(&self, walker: &Walker) -> bool
        requires fit { AreFit self.now.keys.now.keys }
        requires name { name_at self.now.keys.now.keys self.now.serial ≡ Some self.now.name.now }
        requires near { one_links self.now 2 (heads self.now) ≡ false }
        ensures { result ≡ is_linked_anywhere self.now }
    {
        let mut seen = walker.take(&walker.followed);
        let linked = self.is_linked_below(&mut seen);
        walker.followed.set(seen);
        match linked {
            Ok(linked) => linked,
            Err(NoRoom) => self.is_linked_within_reach(SEARCH_DEPTH),
        }
    }

    /// The same again, where the near levels are not asked again. It has an empty list for the keyrings.
    fn is_linked_below(&self, seen: &mut Visits) -> Result<bool, NoRoom>
        requires fit { AreFit self.now.keys.now.keys }
        requires name { name_at self.now.keys.now.keys self.now.serial ≡ Some self.now.name.now }
        requires near { one_links self.now 2 (heads self.now) ≡ false }
        requires seen { seen.old ≡ [] }
        ensures { IfOk result (λ b. b ≡ is_linked_anywhere self.now) }
    {
        let caller = &self.context.caller;
        join_attached(seen, self.context, self.process_ring)?;
        let below = next_level(self.keys, caller, self.clock, seen, 0)?;
        let mut start = next_level(self.keys, caller, self.clock, seen, below)?;
        for level in NEAR_LEVELS..SEARCH_DEPTH {
            let _ = level;
            if self.level_links(seen, start) {
                return Ok(true);
            }
            start = next_level(self.keys, caller, self.clock, seen, start)?;
        }
        Ok(false)
    }

    /// Whether a followed keyring of the two nearest levels links it: an attached one, or one that it links. It keeps
    /// no list of what was seen, and takes no memory.
    fn is_linked_near(&self) -> bool
        requires fit { AreFit self.now.keys.now.keys }
        requires name { name_at self.now.keys.now.keys self.now.serial ≡ Some self.now.name.now }
        ensures { result ≡ one_links self.now 2 (heads self.now) }
    {
        self.one_links_near(self.context.thread)
            || self.one_links_near(self.process_ring)
            || self.one_links_near(self.context.session)
    }

    /// The same from one keyring, where there is one.
    fn one_links_near(&self, ring: Option<Serial>) -> bool
        requires fit { AreFit self.now.keys.now.keys }
        requires name { name_at self.now.keys.now.keys self.now.serial ≡ Some self.now.name.now }
        ensures { result ≡ one_links self.now 2 (option_to_list ring) }
    {
        match ring {
            Some(ring) => self.links_near(ring),
            None => false,
        }
    }

    /// Whether this keyring, or one that it links, links it, where they are followed.
    fn links_near(&self, ring: Serial) -> bool
        requires fit { AreFit self.now.keys.now.keys }
        requires name { name_at self.now.keys.now.keys self.now.serial ≡ Some self.now.name.now }
        ensures { result ≡ links_within self.now 2 ring }
    {
        let (linked, rings) = self.look_into(ring);
        if linked {
            return true;
        }
        for nested in rings {
            if self.links_key(*nested) {
                return true;
            }
        }
        false
    }

    /// Whether a followed keyring of so many levels links it, from each attached keyring down, with no list of what was
    /// seen, so that it may come to a keyring more than once. It takes no memory.
    fn is_linked_within_reach(&self, depth: u8) -> bool
        requires fit { AreFit self.now.keys.now.keys }
        requires name { name_at self.now.keys.now.keys self.now.serial ≡ Some self.now.name.now }
        ensures { result ≡ one_links self.now depth (heads self.now) }
    {
        self.one_leads_to(self.context.thread, depth)
            || self.one_leads_to(self.process_ring, depth)
            || self.one_leads_to(self.context.session, depth)
    }

    /// The same from one keyring, where there is one.
    fn one_leads_to(&self, ring: Option<Serial>, depth: u8) -> bool
        requires fit { AreFit self.now.keys.now.keys }
        requires name { name_at self.now.keys.now.keys self.now.serial ≡ Some self.now.name.now }
        ensures { result ≡ one_links self.now depth (option_to_list ring) }
    {
        match ring {
            Some(ring) => self.is_linked_within(ring, depth),
            None => false,
        }
    }

    /// Whether a followed keyring of so many levels links it, of which this keyring is the first.
    fn is_linked_within(&self, ring: Serial, depth: u8) -> bool
        requires fit { AreFit self.now.keys.now.keys }
        requires name { name_at self.now.keys.now.keys self.now.serial ≡ Some self.now.name.now }
        ensures { result ≡ links_within self.now depth ring }
    {
        if depth == 0 {
            return false;
        }
        let (linked, rings) = self.look_into(ring);
        if linked {
            return true;
        }
        for nested in rings {
            if self.is_linked_within(*nested, depth - 1) {
                return true;
            }
        }
        false
    }

    /// Whether a keyring from this place on links it.
    fn level_links(&self, seen: &Visits, start: usize) -> bool
        requires fit { AreFit self.now.keys.now.keys }
        requires name { name_at self.now.keys.now.keys self.now.serial ≡ Some self.now.name.now }
        requires start { start ≤ length seen.now }
        ensures { result ≡ list_any (links_it self.now) (drop start seen.now) }
    {
        for place in start..seen.len() {
            if self.links_key(seen.at(place)) {
                return true;
            }
        }
        false
    }

    /// Both at one look at a keyring: whether it links the key, and its possessor follows that; and the nested keyrings
    /// that he follows.
    fn look_into(&self, ring: Serial) -> (bool, &[Serial])
        requires fit { AreFit self.now.keys.now.keys }
        requires name { name_at self.now.keys.now.keys self.now.serial ≡ Some self.now.name.now }
        ensures linked { result.0 ≡ links_it self.now ring }
        ensures rings { result.1.now ≡ nested self.now ring }
    {
        match self.keys.get(ring) {
            Some(holder) if is_followed(holder, &self.context.caller, self.clock) => {
                let linked = holder.link_place(self.name, self.serial).is_some();
                (linked, rings_in(&holder.content))
            }
            _ => (false, &[]),
        }
    }

    /// Whether a keyring links it, and its possessor follows that.
    fn links_key(&self, ring: Serial) -> bool
        requires fit { AreFit self.now.keys.now.keys }
        requires name { name_at self.now.keys.now.keys self.now.serial ≡ Some self.now.name.now }
        ensures { result ≡ links_it self.now ring }
    {
        match self.keys.get(ring) {
            Some(holder) if is_followed(holder, &self.context.caller, self.clock) => {
                holder.link_place(self.name, self.serial).is_some()
            }
            _ => false,
        }
    }
}

/// The attached keyrings join a list.
pub(crate) fn join_attached(
    seen: &mut Visits,
    context: &Context,
    process_ring: Option<Serial>,
) -> Result<(), NoRoom>
    ensures { OnOk result (seen.new ≡ join seen.old (attached_with context.now process_ring)) }
{
    seen.join_one(context.thread)?;
    seen.join_one(process_ring)?;
    seen.join_one(context.session)
}

/// Whether a keyring is attached.
pub(crate) fn is_attached(context: &Context, process_ring: &Option<Serial>, serial: Serial) -> bool
    ensures { result ≡ is_in serial (attached_with context.now process_ring.now) }
{
    is_found(context.thread, serial)
        || is_found(*process_ring, serial)
        || is_found(context.session, serial)
}

fn is_found(found: Option<Serial>, serial: Serial) -> bool
    ensures { result ≡ is_found serial found }
{
    match found {
        Some(found) => found == serial,
        None => false,
    }
}

/// Joins the nested keyrings of those from a place on, and gives the place where these begin.
pub(crate) fn next_level(
    keys: &KeyTable,
    caller: &Caller,
    clock: u64,
    seen: &mut Visits,
    start: usize,
) -> Result<usize, NoRoom>
    requires fit { AreFit keys.now.keys }
    requires start { start ≤ length seen.old }
    ensures place { IfOk result (λ end. end ≡ length seen.old) }
    ensures joined { OnOk result (seen.new ≡ with_next (shown keys.now.keys) clock caller.now start seen.old) }
{
    let end = seen.len();
    for place in start..end {
        let here = seen.at(place);
        seen.join(followed_rings(keys, caller, clock, here))?;
    }
    Ok(end)
}

/// Whether the possessor of a key follows its links.
pub(crate) fn is_followed(key: &Key, caller: &Caller, clock: u64) -> bool
    ensures { result ≡ is_followed clock caller.now (seen key.now) }
{
    key.is_alive(clock) && key.grants(caller, true).contains(Rights::SEARCH)
}

/// The nested keyrings that the possessor of a keyring follows.
#[inline(always)]
pub(crate) fn followed_rings<'a>(
    keys: &'a KeyTable,
    caller: &Caller,
    clock: u64,
    serial: Serial,
) -> &'a [Serial]
    requires { AreFit keys.now.keys }
    ensures { result.now ≡ followed_rings (shown keys.now.keys) clock caller.now serial }
{
    match keys.get(serial) {
        Some(key) if is_followed(key, caller, clock) => rings_in(&key.content),
        _ => &[],
    }
}

/// The serial that is linked under a name.
pub(crate) fn find_in(content: &Content, name: &HashedName) -> Option<Serial>
    ensures { result ≡ serial_named (named_links_of_content content.now) name.now }
{
    match content {
        Content::Payload(_) => None,
        Content::Links(links) => links.find_hashed(name),
    }
}
