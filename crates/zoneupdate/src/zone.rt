//! Zones (RFC 1034, 4.2), and their updates (RFC 2136).

ghost use Rattle.std.specs.Prelude.{◌≡◌, ◌≤◌, ◌<◌, List, Some, Ok, length, IfOk, OnOk, IsErrOf};
ghost use Rattle.push_base.specs.Limits.{max_home_octets};
ghost use Rattle.dnsname.specs.Names.{Labels, octets};
ghost use Rattle.rrset.specs.RecordSet.{RecordSet};
ghost use Rattle.nametable.specs.Nodes.{HasRoomFor, keys_put, room_at};
ghost use Rattle.zoneupdate.specs.Zones.{new_zone, serial_of_zone};
ghost use Rattle.zoneupdate.specs.Updates.{judged};
ghost use Rattle.zoneupdate.specs.KeptZones.{IsKept, IsUnder, Judges, HasRoom, Leads, IsPlanOf};

use crate::applying::make_changes;
use crate::initial_records::first_records;
use crate::plan::{Under, Verdict, ZoneFault, ZonePlan};
use crate::serial::serial_at;
use crate::update_check::{planned, refused_first};
use dnsname::Name;
use dnswire::Update;
use nametable::NameTable;
use push_base::limits::MAX_HOME_OCTETS;
use rrset::NoMemory;
use rrset::rcodes::REFUSED;
use std::alloc::Global;
use std::marker::Model;

/// A zone: its apex, whether it takes updates, and its records.
#[derive(Debug, Drop)]
pub struct Zone {
    apex: Name,
    writable: bool,
    rows: NameTable,
}

impl Model for Zone {
    ghost use Rattle.zoneupdate.specs.KeptZones.{ZoneKept, IsKept};

    ghost Value = { ZoneKept };

    ghost view = { λ z. record { state = record { apex = z.apex; writable = z.writable; rows = z.rows.rows }; nodes = z.rows.nodes } };

    ghost invariant = { λ z. IsKept (record { apex = z.apex; writable = z.writable; rows = z.rows.rows }) };
}

impl Zone {
    /// A zone with its SOA and NS. `TooLong` comes exactly where its name has more than 200 octets, which is tested
    /// before any memory is taken.
    pub fn new(alloc: Global, apex: Name, serial: u32, writable: bool) -> Result<Zone, ZoneFault>
        ensures made { IfOk result (λ zone. zone.state ≡ new_zone apex serial writable) }
        ensures short { OnOk result (length (octets apex) ≤ max_home_octets) }
        ensures long { IsErrOf result ZoneFault.TooLong → max_home_octets < length (octets apex) }
        ensures too_long { max_home_octets < length (octets apex) → IsErrOf result ZoneFault.TooLong }
    {
        if apex.octets().len() > MAX_HOME_OCTETS {
            return Err(ZoneFault::TooLong);
        }
        let rows = first_records(alloc, &apex, serial)?;
        Ok(Zone {
            apex,
            writable,
            rows,
        })
    }

    /// What an update gets that names this zone: prerequisites, permission, prescan and limits, in this order, answer
    /// by the first that fails (RFC 2136, 3.2 to 3.4). The records stay, and room is made for the plan beside that of
    /// earlier ones.
    pub fn check(
        &mut self,
        alloc: Global,
        update: &Update,
        under: &Under,
    ) -> Result<Verdict, NoMemory>
        ensures verdict { IfOk result (λ verdict. (homes : List Labels) → IsUnder homes self.old.state.apex under.now → Judges self.old.state verdict (judged homes self.old.state update.now)) }
        ensures state { self.new.state ≡ self.old.state }
        ensures room { IfOk result (λ verdict. HasRoom self.new.nodes verdict) }
        ensures kept { (name : Labels) → room_at self.old.nodes name ≤ room_at self.new.nodes name }
    {
        let (rows, apex) = (&self.rows, &self.apex);
        if let Some(code) = refused_first(alloc, rows, apex, self.writable, update, under)? {
            return Ok(Verdict::Refuse(code));
        }
        let Some(plan) = planned(alloc, rows, apex, &update.changes)? else {
            return Ok(Verdict::Refuse(REFUSED));
        };
        self.rows.reserve_for(&plan.changed)?;
        Ok(Verdict::Accept(plan))
    }

    /// Makes the changes of a plan, which `check` made of these records. It takes no memory.
    pub fn apply(&mut self, plan: ZonePlan)
        requires planned { IsPlanOf self.old.state plan }
        requires room { HasRoomFor (keys_put plan) self.old.nodes }
        ensures { (rows : RecordSet) → Leads self.old.state plan rows → self.new.state ≡ record self.old.state { rows = rows } }
    {
        let ZonePlan { changed } = plan;
        make_changes(&mut self.rows, changed);
    }

    /// Gives back names without records, and room that was made for plans. To be called where no plan is pending.
    pub fn give_back(&mut self)
        ensures { self.new.state ≡ self.old.state }
    {
        self.rows.give_back();
    }

    /// The zone's records.
    pub fn rows(&self) -> &NameTable
        ensures rows { result.now.rows ≡ self.now.state.rows }
        ensures kept { IsKept self.now.state }
    {
        &self.rows
    }

    /// The serial of its SOA (RFC 1035, 3.3.13).
    pub fn serial(&self) -> u32
        ensures { serial_of_zone self.now.state ≡ Some result }
    {
        match serial_at(&self.rows, &self.apex) {
            Some(serial) => serial,
            None => unreachable!(),
        }
    }

    /// Its name.
    pub fn apex(&self) -> &Name
        ensures { result.now ≡ self.now.state.apex }
    {
        &self.apex
    }

    /// The same zone.
    pub fn copy(&self) -> Result<Zone, NoMemory>
        ensures { IfOk result (λ zone. zone.state ≡ self.now.state) }
    {
        Ok(Zone {
            apex: self.apex.copy()?,
            writable: self.writable,
            rows: self.rows.copy()?,
        })
    }
}
