ghost use Rattle.std.specs.Prelude.{[], ◌+◌, ◌≡◌, ◌≤◌, flat_map, IfOk, length, OnOk, take, true};
ghost use Rattle.krs_model.specs.{Levels.search_depth, Reach.is_ring, Table.at};
ghost use Rattle.krs_keys.specs.Keys.{AreFit, OnlyRingsLink, shown};
ghost use Rattle.krs_walk.specs.{Lists.join, Searching.{AreFirst, AreHeld, is_held, matches_by}};
ghost use Rattle.krs_walk.specs.declared.search.Search as search;

use crate::Visits;
use crate::possession::{is_attached, join_attached, next_level};
use crate::search::Search;
use crate::visits::NoRoom;
use krs_types::{SEARCH_DEPTH, Serial};

/// The keyrings that a context possesses, as far as they were asked for: those of the first levels,
/// each once. Those of level `SEARCH_DEPTH` are the last.
#[derive(Drop)]
pub(crate) struct HeldRings {
    seen: Visits,
    start: usize,
    levels: u8,
}

impl HeldRings {
    /// None yet, with an empty list for them.
    pub(crate) fn new(seen: Visits) -> Self
        requires { seen ≡ [] }
        ensures { (s : search.Search) → AreHeld s result }
    {
        HeldRings {
            seen,
            start: 0,
            levels: 0,
        }
    }

    /// Their list.
    pub(crate) fn into_list(self) -> Visits {
        self.seen
    }

    /// Whether a keyring is possessed. Levels are walked until one has it.
    pub(crate) fn has(&mut self, search: &Search<'_>, ring: Serial) -> Result<bool, NoRoom>
        requires fit { AreFit search.now.keys.now.keys }
        requires only { OnlyRingsLink (shown search.now.keys.now.keys) }
        requires held { AreHeld search.now self.old }
        requires ring { is_ring (at (shown search.now.keys.now.keys) ring) ≡ true }
        ensures held { OnOk result (AreHeld search.now self.new) }
        ensures has { IfOk result (λ b. b ≡ is_held search.now ring) }
    {
        if is_attached(search.context, &search.process_ring, ring) {
            return Ok(true);
        }
        'walk: while !self.seen.has(ring) {
            if self.levels > SEARCH_DEPTH {
                return Ok(false);
            }
            self.walk_on(search)?;
        }
        Ok(true)
    }

    /// Walks all levels whose links are possessed, and gives the place where they end.
    pub(crate) fn walk_all(&mut self, search: &Search<'_>) -> Result<usize, NoRoom>
        requires fit { AreFit search.now.keys.now.keys }
        requires held { AreHeld search.now self.old }
        ensures held { OnOk result (AreHeld search.now self.new) }
        ensures end { IfOk result (λ end. AreFirst search.now end self.new.seen) }
    {
        'walk: while self.levels < SEARCH_DEPTH {
            self.walk_on(search)?;
        }
        if self.levels > SEARCH_DEPTH {
            Ok(self.start)
        } else {
            Ok(self.seen.len())
        }
    }

    /// The keys of the name that keyrings before a place link join a list.
    pub(crate) fn join_matches(
        &self,
        search: &Search<'_>,
        end: usize,
        matches: &mut Visits,
    ) -> Result<(), NoRoom>
        requires { end ≤ length self.now.seen }
        ensures { OnOk result (matches.new ≡ join matches.old
            (flat_map (matches_by search.now) (take end self.now.seen))) }
    {
        for place in 0..end {
            let here = self.seen.at(place);
            matches.join_one(search.match_in(here))?;
        }
        Ok(())
    }

    /// Joins one level more.
    fn walk_on(&mut self, search: &Search<'_>) -> Result<(), NoRoom>
        requires fit { AreFit search.now.keys.now.keys }
        requires held { AreHeld search.now self.old }
        requires more { self.old.levels ≤ search_depth }
        ensures held { OnOk result (AreHeld search.now self.new) }
        ensures one { OnOk result (self.new.levels ≡ self.old.levels + 1) }
    {
        if self.levels == 0 {
            join_attached(&mut self.seen, search.context, search.process_ring)?;
        } else {
            let caller = &search.context.caller;
            self.start = next_level(
                search.keys,
                caller,
                search.clock,
                &mut self.seen,
                self.start,
            )?;
        }
        self.levels += 1;
        Ok(())
    }
}
