//! The library of accepted modules.

ghost use Rattle.std.specs.Prelude.{◌≡◌, IfOk, IfErr, IfSome, OnOk, OnErr};
ghost use Rattle.std.specs.Option.{option_map};
ghost use Rattle.scrib_tree.specs.declared.tree.ModuleTree as parsed;
ghost use Rattle.scrib_record.specs.Versions.{meaning_of, number_of};
ghost use Rattle.scrib_library.specs.Modules.{IsMeaning, AllProject, MeansProtocols, MeansOnce};
ghost use Rattle.scrib_library.specs.Holdings.{no_holdings, no_holdings_under, IsNumber, IsStamp, AreNumbered, IsAccepting};
ghost use Rattle.scrib_library.specs.Edits.{IsPut, IsChanges, AreVersionsUsed, PutFails, IsWithdrawal, AreWithdrawn, WithdrawFails};
ghost use Rattle.scrib_library.specs.Profiles.{ProfileFails};

use crate::changes::Changes;
use crate::fault::EditFault;
use crate::hints::Hints;
use crate::module_store::ModuleStore;
use crate::numberings::Numberings;
use crate::plan::{Plan, plan_put, plan_withdrawal};
use crate::profiles::check_change;
use crate::read::read;
use crate::removal::free_place;
use crate::versions::{
    NamedVersion, apply_edits, found_at_hint, named_at_hint, numbered_at, version_at_hint,
};
use scrib_parser::interner::Interner;
use scrib_record::numbering::Numbering;
use scrib_record::version::Version;
use scrib_types::name::Dotted;
use scrib_types::profile::Profile;
use std::alloc::Global;
use std::marker::Model;

/// The maximal number of modules.
pub const MAX_MODULES: usize = 256;

/// The maximal number of protocols of all modules together.
pub const MAX_PROTOCOLS: usize = 1024;

/// The maximal number of versions over the library's life.
pub const MAX_VERSIONS: u32 = 65_536;

/// The accepted modules, and a version of each protocol that they declare, in the order of full names. It also holds
/// the profile under which all these protocols project, and the number of versions ever used. Contracts see the
/// profile, the modules, the version numbers and the count.
#[derive(Drop)]
pub struct Library {
    alloc: Global,
    profile: Profile,
    modules: ModuleStore,
    versions: Vec<NamedVersion>,
    used: u32,
    // Where the index of a version is looked up first.
    hints: Hints,
    // The numberings of the versions that conversations had. Correctness does not depend on them.
    numberings: Numberings,
    // Names and messages of recent texts, which the next text shares. Correctness does not depend on them.
    interner: Interner,
}

impl Model for Library {
    ghost use Rattle.std.specs.Coded.{codes};
    ghost use Rattle.scrib_tree.specs.contracts.tree.Statement as statement;
    ghost use Rattle.scrib_library.specs.Holdings.{Holdings};
    ghost use Rattle.scrib_library.specs.Stored.{stamps_of, IsLibrary};

    ghost Value = { Holdings };

    ghost coded = { Prim.hlevel (codes, statement.the_row.coded) };

    ghost view = { λ l. record {
      profile = l.profile;
      modules = l.modules;
      stamps = stamps_of l.versions.items;
      used = l.used;
    } };

    ghost invariant = { λ l. IsLibrary l.profile l.modules l.versions.items l.used };
}

impl Library {
    /// Returns a library of the plain profile, without modules and used versions.
    pub fn new(alloc: Global) -> Library
        ensures { result ≡ no_holdings }
    {
        Library::with_profile(alloc, Profile::Plain)
    }

    /// Returns a library of this profile, without modules and used versions.
    pub fn with_profile(alloc: Global, profile: Profile) -> Library
        ensures { result ≡ no_holdings_under profile }
    {
        Library {
            alloc,
            profile,
            modules: ModuleStore::new(alloc),
            versions: Vec::new(alloc),
            used: 0,
            hints: Hints::new(alloc),
            numberings: Numberings::new(alloc),
            interner: Interner::new(),
        }
    }

    /// Parses the text and puts its module into the library, replacing a module of the same name. Returns the changes.
    /// Each declared protocol then projects under the library's profile. A refused put changes nothing.
    ///
    /// # Errors
    /// The first of these that applies: `Lex`, `Parse`, `TooManyModules`, `ImportMissing`, `TooManyProtocols`,
    /// `Elaborate`, `Project`, `VersionsFull`. `OutOfMemory` if memory was refused.
    pub fn put(&mut self, text: &[u8]) -> Result<Changes, EditFault>
        ensures ok { IfOk result (λ changes. (m : parsed.ModuleTree)
            × IsPut self.old.profile self.old.modules text.now m self.new.modules
            × (changes.module ≡ m.name) × IsChanges self.old.modules self.new.modules changes.list) }
        ensures versions { IfOk result (λ changes. AreVersionsUsed self.old self.new changes.list) }
        ensures fault { IfErr result (PutFails self.old.profile self.old.modules self.old.used text.now) }
        ensures err { OnErr result (self.new ≡ self.old) }
        ensures profile { self.new.profile ≡ self.old.profile }
    {
        let tree = read(self.alloc, text, &mut self.interner)?;
        self.hints.make_room(self.alloc)?;
        self.numberings.make_room()?;
        let placed = self.modules.put(tree)?;
        let new = &self.modules.as_slice()[placed.at];
        let gone = placed.replaced.as_ref();
        match plan_put(
            self.alloc,
            self.profile,
            &self.modules,
            new,
            gone,
            &mut self.versions,
            &self.hints,
            self.used,
        ) {
            Ok(plan) => {
                let Plan {
                    edits,
                    used,
                    changes,
                } = plan;
                apply_edits(
                    &mut self.versions,
                    &mut self.hints,
                    &mut self.numberings,
                    edits,
                );
                self.used = used;
                Ok(changes)
            }
            Err(fault) => {
                self.modules.undo(placed);
                Err(fault)
            }
        }
    }

    /// Withdraws the module of this name and returns the changes: its protocols, which then have no meaning. A module
    /// that is imported by itself alone can be withdrawn. A refused withdrawal changes nothing.
    ///
    /// # Errors
    /// `UnknownModule` if no module has the name, else `StillImported` if another module imports it. `OutOfMemory` if
    /// memory was refused.
    pub fn withdraw(&mut self, name: &Dotted) -> Result<Changes, EditFault>
        ensures ok { IfOk result (λ changes. IsWithdrawal self.old.profile self.old.modules name.now self.new.modules
            × (changes.module ≡ name.now) × IsChanges self.old.modules self.new.modules changes.list
            × AreWithdrawn changes.list) }
        ensures versions { IfOk result (λ changes. AreVersionsUsed self.old self.new changes.list
            × (self.new.used ≡ self.old.used)) }
        ensures fault { IfErr result (WithdrawFails self.old.modules name.now) }
        ensures err { OnErr result (self.new ≡ self.old) }
        ensures profile { self.new.profile ≡ self.old.profile }
    {
        let at = free_place(&self.modules, name)?;
        let gone = &self.modules.as_slice()[at];
        let plan = plan_withdrawal(self.alloc, gone, &mut self.versions, &self.hints, self.used)?;
        let Plan { edits, changes, .. } = plan;
        apply_edits(
            &mut self.versions,
            &mut self.hints,
            &mut self.numberings,
            edits,
        );
        self.modules.take_out(at);
        Ok(changes)
    }

    /// Returns the library's profile. Each declared protocol projects under it.
    pub fn profile(&self) -> Profile
        ensures { result ≡ self.now.profile }
    {
        self.profile
    }

    /// Changes the library's profile; the modules, the versions and their count stay. A change to the same or to the
    /// reception profile is always accepted. A change to the plain profile is accepted if every declared protocol
    /// projects under it. A refused change changes nothing.
    ///
    /// # Errors
    /// `NeedsReception` with the first name that the plain profile does not project, if that profile is wanted.
    /// `OutOfMemory` if memory was refused while the plain profile replaces the reception profile.
    pub fn set_profile(&mut self, profile: Profile) -> Result<(), EditFault>
        ensures ok { OnOk result (self.new ≡ record {
          profile = profile;
          modules = self.old.modules;
          stamps = self.old.stamps;
          used = self.old.used;
        }) }
        ensures projected { OnOk result (AllProject profile self.old.modules) }
        ensures fault { IfErr result (ProfileFails self.old.profile profile self.old.modules) }
        ensures err { OnErr result (self.new ≡ self.old) }
    {
        check_change(self.alloc, &self.versions, self.profile, profile)?;
        self.profile = profile;
        Ok(())
    }

    /// Returns the present version of a protocol, by its full name.
    pub fn present(&self, name: &Dotted) -> Option<&Version>
        ensures meaning { IsMeaning self.now.modules name.now (option_map (λ v. meaning_of v.now) result) }
        ensures number { IsNumber self.now name.now (option_map (λ v. number_of v.now) result) }
    {
        version_at_hint(&self.versions, self.hints.place_of(name), name)
    }

    /// Returns the present version of a protocol, by its full name, and the index at which it is or would be. `hint`
    /// may be any index and is tried first: a caller that often asks for one name passes the index that it got last.
    pub fn present_at_hint(&self, hint: usize, name: &Dotted) -> (usize, Option<&Version>)
        ensures meaning { IsMeaning self.now.modules name.now (option_map (λ v. meaning_of v.now) result.1) }
        ensures number { IsNumber self.now name.now (option_map (λ v. number_of v.now) result.1) }
    {
        found_at_hint(&self.versions, hint, name)
    }

    /// Returns the version at this index if it has this number. The name is not compared: a caller that knows whose
    /// number it is avoids a look-up.
    pub fn numbered_at(&self, place: usize, number: u32) -> Option<&Version>
        ensures numbered { IfSome result (λ version. number_of version.now ≡ number) }
        ensures stamp { IfSome result (λ version. IsStamp self.now (meaning_of version.now) (number_of version.now)) }
    {
        numbered_at(&self.versions, place, number)
    }

    /// Returns the library's own copy of a protocol's full name, so that all holders share one copy, and the present
    /// version of the protocol.
    pub fn present_shared(&self, name: &Dotted) -> Option<(&Dotted, &Version)>
        ensures name { IfSome result (λ found. found.0.now ≡ name.now) }
        ensures meaning { IsMeaning self.now.modules name.now (option_map (λ found. meaning_of found.1.now) result) }
        ensures number { IsNumber self.now name.now (option_map (λ found. number_of found.1.now) result) }
    {
        named_at_hint(&self.versions, self.hints.place_of(name), name)
    }

    /// Returns a numbering that is likely to be that of the protocol's present version, shared. It is made on the first
    /// call for a version. Returns none if the name has no version or if memory was refused. The caller compares the
    /// version of the numbering with the one that it wants.
    pub fn numbering(&self, name: &Dotted) -> Option<Numbering> {
        let (at, version) = self.present_at_hint(self.hints.place_of(name), name);
        let version = version?;
        self.numberings.share(at, version)
    }

    /// Returns the number of versions ever used.
    pub fn used(&self) -> usize
        ensures { result ≡ self.now.used }
    {
        self.used as usize
    }

    /// A law: the meaning of each name is a protocol.
    pub fn means_protocols(&self)
        ensures { MeansProtocols self.now.modules }
    {
        let _versions = self.versions.as_slice();
    }

    /// A law: a name has at most one meaning. Each name with a meaning has a number of its own, below the count of used
    /// versions.
    pub fn are_numbered(&self)
        ensures once { MeansOnce self.now.modules }
        ensures numbers { AreNumbered self.now }
    {
        let _versions = self.versions.as_slice();
    }

    /// A law: the modules have different names and are well formed under the library's profile. A name has at most one
    /// meaning, and the versions are numbered.
    pub fn is_accepting(&self)
        ensures { IsAccepting self.now }
    {
        let _versions = self.versions.as_slice();
    }
}
