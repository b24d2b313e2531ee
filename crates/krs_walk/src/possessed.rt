ghost use Rattle.std.specs.Prelude.{[], ◌≡◌, IfOk, None, OnOk, Some};
ghost use Rattle.krs_keys.specs.Keys.{AreFit, name_at, OnlyRingsLink, shown};
ghost use Rattle.krs_walk.specs.Searching.{AreMatches, ArePossessed, is_held};
ghost use Rattle.krs_walk.specs.declared.search.Search as search;

use crate::Visits;
use crate::held::HeldRings;
use crate::possession::is_attached;
use crate::search::Search;
use crate::visits::NoRoom;
use krs_types::Serial;

/// What the context of a search possesses: keyrings, and once that was asked, the keys of the name that they link. So
/// many keys of the name cost no more than the keyrings once.
#[derive(Drop)]
pub(crate) struct Possessed {
    pub(crate) rings: HeldRings,
    matches: Option<Visits>,
}

impl Possessed {
    /// Nothing yet, with an empty list.
    pub(crate) fn new(rings: Visits) -> Self
        requires { rings ≡ [] }
        ensures { (s : search.Search) → ArePossessed s result }
    {
        Possessed {
            rings: HeldRings::new(rings),
            matches: None,
        }
    }

    /// Their lists.
    pub(crate) fn into_lists(self) -> (Visits, Option<Visits>) {
        (self.rings.into_list(), self.matches)
    }

    /// Whether a key of the name is possessed.
    pub(crate) fn has(&mut self, search: &Search<'_>, serial: Serial) -> Result<bool, NoRoom>
        requires fit { AreFit search.now.keys.now.keys }
        requires only { OnlyRingsLink (shown search.now.keys.now.keys) }
        requires held { ArePossessed search.now self.old }
        requires named { name_at search.now.keys.now.keys serial ≡ Some search.now.name.now }
        ensures held { OnOk result (ArePossessed search.now self.new) }
        ensures has { IfOk result (λ b. b ≡ is_held search.now serial) }
    {
        if is_attached(search.context, &search.process_ring, serial) {
            return Ok(true);
        }
        if let Some(matches) = &self.matches {
            return Ok(matches.has(serial));
        }
        let matches = self.ask(search)?;
        let found = matches.has(serial);
        self.matches = Some(matches);
        Ok(found)
    }

    /// Asks each keyring whose links are possessed which key of the name it links.
    fn ask(&mut self, search: &Search<'_>) -> Result<Visits, NoRoom>
        requires fit { AreFit search.now.keys.now.keys }
        requires held { ArePossessed search.now self.old }
        ensures held { OnOk result (ArePossessed search.now self.new) }
        ensures matches { IfOk result (AreMatches search.now) }
    {
        let end = self.rings.walk_all(search)?;
        let list = &search.walker.followed;
        let mut matches = search.walker.take(list);
        if let Err(NoRoom) = self.rings.join_matches(search, end, &mut matches) {
            list.set(matches);
            return Err(NoRoom);
        }
        Ok(matches)
    }
}
