//! Doors and a net in memory of which chosen calls fail.
ghost use Rattle.std.specs.Prelude.{◌≡◌, refl, ◌≤◌, ◌<◌, ◌+◌, ◌↔◌, ◌⊎◌, [], ◌∷◌, if◌then◌else◌};
ghost use Rattle.std.specs.Prelude.{ℕ, List, length, map, take, drop, vec_len, vec_capacity, Some, IfOk, IfErr, OnOk, OnErr, MatchResult, IsErr, IsTrue};
ghost use Rattle.std.specs.List.{AllByRecursion};
ghost use Rattle.house_io.specs.Faults.{faults_after, raised_by};
ghost use Rattle.house_io.specs.Doors.{HangsUp};
ghost use Rattle.house_io.specs.Nets.{TakesDoor, TakesLink};
ghost use Rattle.house_io.specs.NetsShown.{net_shown};
ghost use Rattle.house_io.specs.ListForms.{IsToFail, counted};
ghost use Rattle.house_io.specs.ListShelves.{plan_after};
ghost use Rattle.house_io.specs.LinkForms.{ListedLink, ListedDoor, ListedNet, FailsBy, IsFirstLink, IsReady, ListsDoors, ListsLink};
ghost use Rattle.house_io.specs.LinkForms.{fresh_list_door, fresh_list_net, net_faults_after, ready_door, unfailed_link};

use crate::memory::addresses::Addresses;
use crate::memory::failing::FailingCalls;
use crate::memory::given_back::Places;
use crate::memory::rows::first_of;
use crate::{Door, Failed, Link, ListLink, Net, Refusal};
use lot_base::NoMemory;
use std::alloc::{AllocError, Global};
use std::collections::VecDeque;
use std::marker::Model;

/// A door in memory of which chosen calls fail. Where no link is to come it fails.
#[derive(Drop)]
pub struct ListDoor {
    /// The links that it has yet to give, in order, each with its count at 0.
    to_come: VecDeque<ListLink>,
    /// The links that were hung up, in order. A new door has a place for each of its links to come.
    hung_up: Places<ListLink>,
    /// Which calls to accept fail.
    plan: FailingCalls,
    /// How often it has failed.
    faults: u64,
}

impl Model for ListDoor {
    ghost Value = { ListedDoor };

    ghost view = { λ door. record {
      links = record { to_come = door.to_come.items; hung_up = door.hung_up.kept; free = door.hung_up.free };
      plan = door.plan;
      faults = door.faults;
    } };

    ghost invariant = { λ door. AllByRecursion (λ (link : ListedLink). link.faults ≡ 0) door.to_come.items };
}

impl ListDoor {
    /// A door with these links to come, and a place for each, of which the calls with these numbers fail. Each link starts
    /// with its count at 0.
    pub fn new(alloc: Global, links: Vec<ListLink>, failing: Vec<u64>) -> Result<ListDoor, NoMemory>
        ensures { IfOk result (λ door. door ≡ fresh_list_door links.items failing.items) }
    {
        let mut hung_up = Places::none(alloc);
        hung_up.reserve(links.len())?;
        let links = unfailed_links(alloc, links)?;
        Ok(ListDoor {
            to_come: VecDeque::from(links),
            hung_up,
            plan: FailingCalls::new(failing),
            faults: 0,
        })
    }

    /// The door with a place for each of its links to come, and its count at 0.
    fn ready(self) -> Result<ListDoor, NoMemory>
        ensures { IfOk result (λ door. door ≡ ready_door self) }
    {
        let mut door = self;
        door.hung_up.ensure(door.to_come.len())?;
        door.faults = 0;
        Ok(door)
    }

    /// The links that were hung up, in order.
    pub fn hung_up(&self) -> &[ListLink]
        ensures { result.now ≡ self.now.links.hung_up }
    {
        self.hung_up.kept()
    }

    /// How often it has failed.
    fn faults(&self) -> u64
        ensures { result ≡ self.now.faults }
    {
        self.faults
    }
}

/// The links, each with its count at 0.
fn unfailed_links(alloc: Global, links: Vec<ListLink>) -> Result<Vec<ListLink>, NoMemory>
    ensures { IfOk result (λ unfailed. unfailed.items ≡ map unfailed_link links.items) }
{
    let mut unfailed = Vec::new(alloc);
    for link in links {
        unfailed.push(link.unfailed())?;
    }
    Ok(unfailed)
}

impl Door for ListDoor {
    type Link = ListLink;

    ghost told = { λ door. Some door.links };

    ghost faults = { λ door. door.faults };

    fn accept(&mut self) -> Result<ListLink, Failed>
        ensures links { MatchResult result (λ link. IsFirstLink link self.old.links self.new.links) (λ _. self.new.links ≡ self.old.links) }
        ensures fresh { IfOk result (λ link. link.faults ≡ 0) }
        ensures fails { IsErr result ↔ (IsToFail self.old.plan ⊎ (self.old.links.to_come ≡ [])) }
        ensures plan { self.new.plan ≡ counted self.old.plan }
        ensures faults { self.new.faults ≡ faults_after result self.old.faults }
    {
        if !self.plan.next_fails() {
            if let Some(link) = self.to_come.pop_front() {
                return Ok(link);
            }
        }
        self.faults = self.faults.saturating_add(1);
        Err(Failed)
    }

    fn hang_up(&mut self, link: ListLink)
        ensures links { HangsUp link self.old.links self.new.links }
        ensures faults { self.new.faults ≡ self.old.faults }
        ensures plan { self.new.plan ≡ self.old.plan }
    {
        self.hung_up.place(link);
    }
}

/// A net in memory of which chosen calls fail. Where too few doors are to come, or no link, it fails.
#[derive(Drop)]
pub struct ListNet {
    /// The doors that are yet to be opened, in order, each with a place for each of its links and its count at 0.
    doors: VecDeque<ListDoor>,
    /// The links that are yet to be dialled, in order, each with its count at 0.
    links: VecDeque<ListLink>,
    /// The doors that were given back, in order. A place is reserved for each door that is given.
    closed: Places<ListDoor>,
    /// The dialled links that were given back, in order. A place is reserved for each link that is given.
    hung_up: Places<ListLink>,
    /// The addresses at which doors were asked for, in order.
    asked: Addresses,
    /// The addresses that were dialled, in order.
    dialled: Addresses,
    /// Which calls fail, of those that open doors and those that dial.
    plan: FailingCalls,
    /// How often it has failed, with the faults of what was given back.
    faults: u64,
}

impl Model for ListNet {
    ghost Value = { ListedNet };

    ghost view = { λ net. record {
      lists = record {
        doors = net.doors.items;
        links = net.links.items;
        closed = net.closed.kept;
        hung_up = net.hung_up.kept;
        door_places = net.closed.free;
        link_places = net.hung_up.free;
        asked = net.asked;
        dialled = net.dialled;
      };
      plan = net.plan;
      faults = net.faults;
    } };

    ghost invariant = { λ net. AllByRecursion IsReady net.doors.items
        × AllByRecursion (λ (link : ListedLink). link.faults ≡ 0) net.links.items };
}

impl ListNet {
    /// A net with these doors and links to come, of which the calls with these numbers fail. Each door gets a place for each
    /// of its links, and all start with their counts at 0.
    pub fn new(
        alloc: Global,
        doors: Vec<ListDoor>,
        links: Vec<ListLink>,
        failing: Vec<u64>,
    ) -> Result<ListNet, NoMemory>
        ensures { IfOk result (λ net. net ≡ fresh_list_net doors.items links.items failing.items) }
    {
        let doors = ready_doors(alloc, doors)?;
        let links = unfailed_links(alloc, links)?;
        Ok(ListNet {
            doors: VecDeque::from(doors),
            links: VecDeque::from(links),
            closed: Places::none(alloc),
            hung_up: Places::none(alloc),
            asked: Addresses::none(alloc),
            dialled: Addresses::none(alloc),
            plan: FailingCalls::new(failing),
            faults: 0,
        })
    }

    /// The links that were given back, in order.
    pub fn hung_up(&self) -> &[ListLink]
        ensures { result.now ≡ self.now.lists.hung_up }
    {
        self.hung_up.kept()
    }

    /// The doors that were given back, in order.
    pub fn closed(&self) -> &[ListDoor]
        ensures { result.now ≡ self.now.lists.closed }
    {
        self.closed.kept()
    }

    /// Counts one call, and tells whether it fails: where it is to, or where nothing is there to be given.
    fn fails(&mut self, missing: bool) -> bool
        ensures fails { IsTrue result ↔ (IsToFail self.old.plan ⊎ IsTrue missing) }
        ensures plan { self.new.plan ≡ counted self.old.plan }
        ensures faults { self.new.faults ≡ (if result then raised_by self.old.faults 1 else self.old.faults) }
        ensures lists { self.new.lists ≡ self.old.lists }
    {
        if self.plan.next_fails() || missing {
            self.faults = self.faults.saturating_add(1);
            return true;
        }
        false
    }
}

/// The doors, each with its places and its count at 0.
fn ready_doors(alloc: Global, doors: Vec<ListDoor>) -> Result<Vec<ListDoor>, NoMemory>
    ensures { IfOk result (λ ready. ready.items ≡ map ready_door doors.items) }
{
    let mut ready = Vec::new(alloc);
    for door in doors {
        ready.push(door.ready()?)?;
    }
    Ok(ready)
}

impl Net for ListNet {
    type Link = ListLink;

    type Door = ListDoor;

    ghost told = { λ net. Some net.lists };

    ghost faults = { λ net. net.faults };

    ghost shown = { λ net. net_shown (λ (n : ListedNet). Some n.lists) ⟦<ListDoor as Door>⟧.told
        ⟦<ListLink as Link>⟧.told ⟦<ListLink as Link>⟧.faults ⟦<ListLink as Link>⟧.told (λ (n : ListedNet). n.faults) net };

    ghost shows = { λ net. refl };

    fn doors(&mut self, alloc: Global, address: &str, count: u32) -> Result<Vec<ListDoor>, Refusal>
        ensures lists { ListsDoors address.now count result self.old.lists self.new.lists }
        ensures ready { IfOk result (λ doors. AllByRecursion IsReady doors.items) }
        ensures failed { FailsBy (length self.old.lists.doors < count) self.old.plan result }
        ensures plan { self.new.plan ≡ plan_after result self.old.plan }
        ensures faults { self.new.faults ≡ net_faults_after result self.old.faults }
    {
        // The memory before the plan: a call that finds none is no call.
        let count = count as usize;
        let mut doors = match Vec::with_capacity(alloc, count) {
            Ok(doors) => doors,
            Err(_) => return Err(Refusal::NoMemory),
        };
        if let Err(NoMemory) = self.closed.reserve(count) {
            return Err(Refusal::NoMemory);
        }
        if let Err(NoMemory) = self.asked.note(alloc, address) {
            self.closed.release(count);
            return Err(Refusal::NoMemory);
        }
        let missing = self.doors.len() < count;
        if self.fails(missing) {
            self.closed.release(count);
            return Err(Refusal::Failed);
        }
        first_of(&mut self.doors, count, &mut doors);
        Ok(doors)
    }

    fn close_door(&mut self, door: ListDoor)
        ensures lists { TakesDoor door self.old.lists self.new.lists }
        ensures faults { self.new.faults ≡ raised_by self.old.faults door.faults }
        ensures plan { self.new.plan ≡ self.old.plan }
    {
        self.faults = self.faults.saturating_add(door.faults());
        self.closed.place(door);
    }

    fn dial(&mut self, alloc: Global, address: &str) -> Result<ListLink, Refusal>
        ensures lists { ListsLink address.now result self.old.lists self.new.lists }
        ensures fresh { IfOk result (λ link. link.faults ≡ 0) }
        ensures failed { FailsBy (length self.old.lists.links ≡ 0) self.old.plan result }
        ensures plan { self.new.plan ≡ plan_after result self.old.plan }
        ensures faults { self.new.faults ≡ net_faults_after result self.old.faults }
    {
        if let Err(NoMemory) = self.hung_up.reserve(1) {
            return Err(Refusal::NoMemory);
        }
        if let Err(NoMemory) = self.dialled.note(alloc, address) {
            self.hung_up.release(1);
            return Err(Refusal::NoMemory);
        }
        let missing = self.links.is_empty();
        if self.fails(missing) {
            self.hung_up.release(1);
            return Err(Refusal::Failed);
        }
        Ok(self.links.pop_front().unwrap())
    }

    fn hang_up(&mut self, link: ListLink)
        ensures lists { TakesLink link self.old.lists self.new.lists }
        ensures faults { self.new.faults ≡ raised_by self.old.faults link.faults }
        ensures plan { self.new.plan ≡ self.old.plan }
    {
        self.faults = self.faults.saturating_add(link.faults());
        self.hung_up.place(link);
    }
}
