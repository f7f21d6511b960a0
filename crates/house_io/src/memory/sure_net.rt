//! Doors and a net in memory that never fail.
ghost use Rattle.std.specs.Prelude.{◌≡◌, refl, ◌≤◌, ◌<◌, ◌+◌, ◌++◌, [], ℕ, List, length, map, max, take, drop, vec_len, vec_capacity, Some, IsOk, IfOk, IfErr, string_bytes};
ghost use Rattle.std.specs.List.{AllByRecursion};
ghost use Rattle.house_io.specs.Doors.{DoorLinks, HasPlaces, fresh_door};
ghost use Rattle.house_io.specs.Nets.{NetLists};
ghost use Rattle.house_io.specs.NetsShown.{net_shown};
ghost use Rattle.house_io.specs.LinkForms.{SuredLink, fresh_net, with_places};
ghost use Rattle.house_io.specs.declared.shelves.Refusal.TheVariants as why;

use crate::memory::addresses::Addresses;
use crate::memory::given_back::Places;
use crate::memory::rows::first_of;
use crate::{Door, Failed, Link, Net, Refusal, SureLink};
use lot_base::NoMemory;
use std::alloc::{AllocError, Global};
use std::collections::VecDeque;
use std::marker::Model;

/// A door in memory that never fails, seen as its links. Where none is to come it gives a link without bytes.
#[derive(Drop)]
pub struct SureDoor {
    /// What a link without bytes is made with. Such a link takes no memory.
    alloc: Global,
    /// The links that it has yet to give, in order.
    to_come: VecDeque<SureLink>,
    /// The links that were hung up, in order. A new door has a place for each of its links to come.
    hung_up: Places<SureLink>,
}

impl Model for SureDoor {
    ghost Value = { DoorLinks SuredLink };

    ghost view = { λ door. record {
      to_come = door.to_come.items;
      hung_up = door.hung_up.kept;
      free = door.hung_up.free;
    } };
}

impl SureDoor {
    /// A door with these links to come, and a place for each.
    pub fn new(alloc: Global, links: Vec<SureLink>) -> Result<SureDoor, NoMemory>
        ensures { IfOk result (λ door. door ≡ fresh_door links.items) }
    {
        let mut hung_up = Places::none(alloc);
        hung_up.reserve(links.len())?;
        Ok(SureDoor {
            alloc,
            to_come: VecDeque::from(links),
            hung_up,
        })
    }

    /// A door without links.
    fn empty(alloc: Global) -> SureDoor
        ensures { result ≡ fresh_door [] }
    {
        SureDoor {
            alloc,
            to_come: VecDeque::new(alloc),
            hung_up: Places::none(alloc),
        }
    }

    /// The door with a place for each of its links to come.
    fn placed(self) -> Result<SureDoor, NoMemory>
        ensures { IfOk result (λ door. door ≡ with_places self) }
    {
        let mut door = self;
        door.hung_up.ensure(door.to_come.len())?;
        Ok(door)
    }

    /// The links that were hung up, in order.
    pub fn hung_up(&self) -> &[SureLink]
        ensures { result.now ≡ self.now.hung_up }
    {
        self.hung_up.kept()
    }
}

impl Door for SureDoor {
    type Link = SureLink;

    ghost told = { λ door. Some door };

    ghost faults = { λ _. 0 };

    fn accept(&mut self) -> Result<SureLink, Failed> {
        match self.to_come.pop_front() {
            Some(link) => Ok(link),
            None => Ok(SureLink::empty(self.alloc)),
        }
    }

    fn hang_up(&mut self, link: SureLink) {
        self.hung_up.place(link);
    }
}

/// A net in memory that never fails, seen as its doors and links. Where too few are to come it gives doors without links
/// and links without bytes.
#[derive(Drop)]
pub struct SureNet {
    /// The doors that are yet to be opened, in order, each with a place for each of its links.
    doors: VecDeque<SureDoor>,
    /// The links that are yet to be dialled, in order.
    links: VecDeque<SureLink>,
    /// The doors that were given back, in order. A place is reserved for each door that is given.
    closed: Places<SureDoor>,
    /// The dialled links that were given back, in order. A place is reserved for each link that is given.
    hung_up: Places<SureLink>,
    /// The addresses at which doors were asked for, in order.
    asked: Addresses,
    /// The addresses that were dialled, in order.
    dialled: Addresses,
}

impl Model for SureNet {
    ghost Value = { NetLists (DoorLinks SuredLink) SuredLink };

    ghost view = { λ net. record {
      doors = net.doors.items;
      links = net.links.items;
      closed = net.closed.kept;
      hung_up = net.hung_up.kept;
      door_places = net.closed.free;
      link_places = net.hung_up.free;
      asked = net.asked;
      dialled = net.dialled;
    } };

    ghost invariant = { λ net. AllByRecursion (λ (door : DoorLinks SuredLink). HasPlaces (Some door)) net.doors.items };
}

impl SureNet {
    /// A net with these doors and links to come. Each door gets a place for each of its links.
    pub fn new(
        alloc: Global,
        doors: Vec<SureDoor>,
        links: Vec<SureLink>,
    ) -> Result<SureNet, NoMemory>
        ensures { IfOk result (λ net. net ≡ fresh_net (map with_places doors.items) links.items) }
    {
        let doors = placed_doors(alloc, doors)?;
        Ok(SureNet {
            doors: VecDeque::from(doors),
            links: VecDeque::from(links),
            closed: Places::none(alloc),
            hung_up: Places::none(alloc),
            asked: Addresses::none(alloc),
            dialled: Addresses::none(alloc),
        })
    }

    /// The links that were given back, in order.
    pub fn hung_up(&self) -> &[SureLink]
        ensures { result.now ≡ self.now.hung_up }
    {
        self.hung_up.kept()
    }

    /// The doors that were given back, in order.
    pub fn closed(&self) -> &[SureDoor]
        ensures { result.now ≡ self.now.closed }
    {
        self.closed.kept()
    }

    /// The addresses at which doors were asked for, in order.
    pub fn asked(&self) -> &[String]
        ensures { map (λ address. string_bytes address) result.now ≡ self.now.asked }
    {
        self.asked.list()
    }

    /// The addresses that were dialled, in order.
    pub fn dialled(&self) -> &[String]
        ensures { map (λ address. string_bytes address) result.now ≡ self.now.dialled }
    {
        self.dialled.list()
    }
}

/// The doors, each with a place for each of its links to come.
fn placed_doors(alloc: Global, doors: Vec<SureDoor>) -> Result<Vec<SureDoor>, NoMemory>
    ensures { IfOk result (λ placed. placed.items ≡ map with_places doors.items) }
{
    let mut placed = Vec::new(alloc);
    for door in doors {
        placed.push(door.placed()?)?;
    }
    Ok(placed)
}

/// Fills a list up to so many doors with doors without links.
fn fill_up(alloc: Global, doors: &mut Vec<SureDoor>, count: usize)
    requires room { count ≤ vec_capacity doors.old }
    requires few { vec_len doors.old ≤ count }
    ensures filled { (empty : List (DoorLinks SuredLink)) × (doors.new.items ≡ doors.old.items ++ empty)
        × AllByRecursion (λ (door : DoorLinks SuredLink). door ≡ fresh_door []) empty }
    ensures count { vec_len doors.new ≡ count }
{
    'fills: while doors.len() < count {
        doors.push_reserved(SureDoor::empty(alloc));
    }
}

impl Net for SureNet {
    type Link = SureLink;

    type Door = SureDoor;

    ghost told = { λ net. Some net };

    ghost faults = { λ _. 0 };

    ghost shown = { λ net. net_shown (λ (n : NetLists (DoorLinks SuredLink) SuredLink). Some n) ⟦<SureDoor as Door>⟧.told
        ⟦<SureLink as Link>⟧.told ⟦<SureLink as Link>⟧.faults ⟦<SureLink as Link>⟧.told (λ _. 0) net };

    ghost shows = { λ net. refl };

    fn doors(
        &mut self,
        alloc: Global,
        address: &str,
        count: u32,
    ) -> Result<Vec<SureDoor>, Refusal> {
        let count = count as usize;
        let mut doors = match Vec::with_capacity(alloc, count) {
            Ok(doors) => doors,
            Err(_) => return Err(Refusal::NoMemory),
        };
        if let Err(NoMemory) = self.closed.reserve(count) {
            return Err(Refusal::NoMemory);
        }
        if let Err(NoMemory) = self.asked.note(alloc, address) {
            self.closed.release(count);
            return Err(Refusal::NoMemory);
        }
        first_of(&mut self.doors, count, &mut doors);
        fill_up(alloc, &mut doors, count);
        Ok(doors)
    }

    fn close_door(&mut self, door: SureDoor) {
        self.closed.place(door);
    }

    fn dial(&mut self, alloc: Global, address: &str) -> Result<SureLink, Refusal> {
        if let Err(NoMemory) = self.hung_up.reserve(1) {
            return Err(Refusal::NoMemory);
        }
        if let Err(NoMemory) = self.dialled.note(alloc, address) {
            self.hung_up.release(1);
            return Err(Refusal::NoMemory);
        }
        match self.links.pop_front() {
            Some(link) => Ok(link),
            None => Ok(SureLink::empty(alloc)),
        }
    }

    fn hang_up(&mut self, link: SureLink) {
        self.hung_up.place(link);
    }
}
