ghost use Rattle.std.specs.Prelude.{[], ◌+◌, ◌∷◌, ◌≡◌, ◌≤◌, IfErr, IfOk, OnErr, OnOk, option_to_list};
ghost use Rattle.krs_types.specs.{Name.same_name, declared.errno.Errno.TheVariants.ENOSPC};
ghost use Rattle.krs_model.specs.Asks.Adding.{made, new_key};
ghost use Rattle.krs_model.specs.{Lookup.context_of, Making.made_for, Outcome.Leads, Sound.IsSound};
ghost use Rattle.krs_tables.specs.Making.{maker_key};
ghost use Rattle.krs_tables.specs.Specials.{adding_made, AreLinksTo, attached_as, HasPlace, IsMissing, linking_made};
ghost use Rattle.krs_tables.specs.Specials.{made_as, maker_of, Makes, ring_at, ring_key, ring_made, special_name};

use crate::holding::{check_room, hold_of, make_room};
use crate::tables::Tables;
use krs_ctx::Contexts;
use krs_keys::{Content, Key, LAST_SERIAL};
use krs_links::{HashedName, Links, Seed};
use krs_types::{Answer, Blob, Body, Context, Desc, Errno, Fault, KeyId, Kind, Name, Perm, Serial};
use std::alloc::{AllocError, Global};

/// A keyring that an ask makes where it wants it and there is none: thread-keyring(7), process-keyring(7).
#[derive(Clone, Copy, Debug, PartialEq, Eq)]
pub enum Special {
    Thread,
    Process,
}

/// For whom a keyring is made: a context's number, its process, and the uid and gid of its caller.
#[derive(Clone, Copy, Debug)]
pub(crate) struct Maker {
    pub(crate) number: u32,
    pub(crate) process: u32,
    pub(crate) uid: u32,
    pub(crate) gid: u32,
}

impl Maker {
    /// The maker that a context of this number is.
    fn of(number: u32, context: &Context) -> Maker
        ensures { result ≡ maker_of number context.now }
    {
        Maker {
            number,
            process: context.process,
            uid: context.caller.uid,
            gid: context.caller.gid,
        }
    }
}

impl Special {
    /// The description of the keyring: thread-keyring(7), process-keyring(7).
    fn desc(self) -> &'static [u8]
        ensures { result.now ≡ (special_name self).desc }
    {
        match self {
            Special::Thread => b"_tid",
            Special::Process => b"_pid",
        }
    }

    /// Whether a keyring of this name is sought.
    pub fn is_of_name(self, name: &Name) -> bool
        ensures { result ≡ same_name name.now (special_name self) }
    {
        name.kind == Kind::Keyring && name.desc.as_slice() == self.desc()
    }

    fn name(self, alloc: Global) -> Result<Name, AllocError>
        ensures { IfOk result (λ name. name ≡ special_name self) }
    {
        Ok(Name {
            kind: Kind::Keyring,
            desc: Desc::new(Blob::from_slice(alloc, self.desc())?),
        })
    }

    /// It, with these links: profile, masks of new keys.
    fn key(self, alloc: Global, seed: Seed, maker: Maker, links: Links) -> Result<Key, AllocError>
        ensures { IfOk result (λ key. key ≡ ring_key self maker links) }
    {
        Ok(Key {
            name: HashedName::new(self.name(alloc)?, seed),
            uid: maker.uid,
            gid: maker.gid,
            perm: Perm::OF_KEY,
            expiry: None,
            revoked: false,
            joined: false,
            closed: false,
            content: Content::Links(links),
        })
    }

    /// It is attached to its maker's context, or its process.
    fn attach(self, contexts: &mut Contexts, maker: Maker, ring: Serial)
        ensures { contexts.new ≡ attached_as self maker ring contexts.old }
    {
        match self {
            Special::Thread => contexts.attach_thread(maker.number, ring),
            Special::Process => contexts.attach_process(maker.process, ring),
        }
    }
}

/// One link, to this key under its name.
fn one_link(
    alloc: Global,
    seed: Seed,
    name: &HashedName,
    serial: Serial,
) -> Result<Links, AllocError>
    ensures { IfOk result (λ links. links ≡ (name.now, serial) ∷ []) }
{
    let mut links = Links::new(alloc, seed);
    let name = name.copy(alloc)?;
    match links.put_hashed(name, serial) {
        Ok(_) => Ok(links),
        Err(_) => Err(AllocError),
    }
}

impl Tables {
    /// The keyring that is to be made, where the id stands for the thread or the process keyring and there is none.
    #[tactic(auto, unfolding(krs_model::specs::Making::made_for))]
    pub fn wanted(&self, number: u32, context: &Context, id: i32) -> Option<Special>
        ensures made { made_for self.now number context.now id ≡ made_as result self.now number context.now }
        ensures makes { Makes result self.now number context.now id }
    {
        match KeyId::from_i32(id) {
            Ok(KeyId::Thread) if context.thread.is_none() => Some(Special::Thread),
            Ok(KeyId::Process) if self.process_ring(context.process).is_none() => {
                Some(Special::Process)
            }
            _ => None,
        }
    }

    /// A serial is left for one more key: profile, serials run out.
    pub fn check_serial(&self) -> Result<(), Errno>
        ensures ok { OnOk result (self.now.next_serial ≤ 2147483647) }
        ensures err { OnErr result (2147483648 ≤ self.now.next_serial) }
        ensures error { IfErr result (λ e. e ≡ ENOSPC) }
    {
        if self.keys.next() > LAST_SERIAL {
            return Err(Errno::ENOSPC);
        }
        Ok(())
    }

    /// The keyring made, empty: thread-keyring(7), process-keyring(7).
    pub fn make_alone(
        &mut self,
        client: u32,
        number: u32,
        special: Special,
    ) -> Result<Answer, Fault>
        requires sound { IsSound self.old }
        requires missing { IfOk (context_of self.old client number) (IsMissing special self.old) }
        ensures { Leads self.old result self.new (ring_made special self.old client number) }
    {
        let maker = Maker::of(number, self.context_of(client, number)?);
        self.check_serial()?;
        let ring = self.make_ring(special, maker, self.no_links(), None)?;
        Ok(Answer::Number(ring.number()))
    }

    /// The keyring made, with a link to a key: ELOOP where that nests keyrings too deep.
    pub fn make_linking(
        &mut self,
        client: u32,
        number: u32,
        special: Special,
        serial: Serial,
        answer: Answer,
    ) -> Result<Answer, Fault>
        requires sound { IsSound self.old }
        requires missing { IfOk (context_of self.old client number) (IsMissing special self.old) }
        ensures { Leads self.old result self.new (linking_made special self.old client number serial answer) }
    {
        let maker = Maker::of(number, self.context_of(client, number)?);
        let key = self.key(serial).ok_or(Errno::ENOKEY)?;
        let _height = self.walker.height_of(&self.keys, serial)?;
        self.check_serial()?;
        let links = one_link(self.alloc, self.names.seed(), &key.name, serial)?;
        self.make_ring(special, maker, links, Some(serial))?;
        Ok(answer)
    }

    /// The keyring under the next serial, attached, with these links: none, or one, whose key it holds.
    fn make_ring(
        &mut self,
        special: Special,
        maker: Maker,
        links: Links,
        linked: Option<Serial>,
    ) -> Result<Serial, AllocError>
        requires serial { self.old.next_serial ≤ 2147483647 }
        requires place { HasPlace special maker self.old }
        requires links { AreLinksTo self.old links linked }
        ensures serial { IfOk result (λ n. n ≡ self.old.next_serial) }
        ensures ok { OnOk result (self.new ≡ ring_at special maker (option_to_list linked) self.old) }
        ensures err { OnErr result (self.new ≡ self.old) }
    {
        let ring = Serial::new(self.keys.next());
        let key = special.key(self.alloc, self.names.seed(), maker, links)?;
        check_room(&self.holders, &linked)?;
        make_room(&mut self.holders, ring)?;
        self.make_walk_room(1)?;
        match self.keys.insert(key) {
            Ok(_) => {
                special.attach(&mut self.contexts, maker, ring);
                self.holders.hold(ring);
                hold_of(&mut self.holders, &linked);
                Ok(ring)
            }
            Err(_) => Err(AllocError),
        }
    }

    /// The keyring made, with a link to a new key of that name.
    pub fn make_adding(
        &mut self,
        client: u32,
        number: u32,
        special: Special,
        name: HashedName,
        payload: Body,
    ) -> Result<Answer, Fault>
        requires sound { IsSound self.old }
        requires missing { IfOk (context_of self.old client number) (IsMissing special self.old) }
        ensures { Leads self.old result self.new (adding_made special self.old client number name payload) }
    {
        let context = self.context_of(client, number)?;
        let maker = Maker::of(number, context);
        if self.keys.next() >= LAST_SERIAL {
            return Err(Fault::Refused(Errno::ENOSPC));
        }
        let serial = self.make_two(special, maker, name, payload)?;
        Ok(Answer::Number(serial.number()))
    }

    /// The keyring made, and a new key that it links, whose serial is answered. ENOMEM leaves neither.
    fn make_two(
        &mut self,
        special: Special,
        maker: Maker,
        name: HashedName,
        payload: Body,
    ) -> Result<Serial, AllocError>
        requires serials { self.old.next_serial ≤ 2147483646 }
        requires place { HasPlace special maker self.old }
        ensures serial { IfOk result (λ n. n ≡ self.old.next_serial + 1) }
        ensures ok { OnOk result (self.new ≡ made (ring_at special maker [] self.old)
            self.old.next_serial name (new_key name payload maker.uid maker.gid)) }
        ensures err { OnErr result (self.new ≡ self.old) }
    {
        let first = self.keys.next();
        let (one, two) = (Serial::new(first), Serial::new(first + 1));
        let (ring, key) = self.two_keys(special, maker, two, name, payload)?;
        make_room(&mut self.holders, one)?;
        make_room(&mut self.holders, two)?;
        self.make_walk_room(2)?;
        match self.keys.insert_two(ring, key) {
            Ok(_) => {
                special.attach(&mut self.contexts, maker, one);
                self.holders.hold(one);
                self.holders.hold(two);
                Ok(two)
            }
            Err(_) => Err(AllocError),
        }
    }

    /// The keyring with a link to a new key of that name, which comes under this serial, and that key.
    fn two_keys(
        &self,
        special: Special,
        maker: Maker,
        serial: Serial,
        name: HashedName,
        payload: Body,
    ) -> Result<(Key, Key), AllocError>
        ensures ring { IfOk result (λ keys. keys.0 ≡ ring_key special maker ((name, serial) ∷ [])) }
        ensures key { IfOk result (λ keys. keys.1 ≡ maker_key name payload maker.uid maker.gid) }
    {
        let links = one_link(self.alloc, self.names.seed(), &name, serial)?;
        let ring = special.key(self.alloc, self.names.seed(), maker, links)?;
        Ok((ring, self.new_key(name, payload, maker.uid, maker.gid)))
    }
}
