//! Questions by name.

ghost use Rattle.std.specs.Prelude.{◌≡◌, ◌∷◌, [], true, IfOk, OnOk, OnErr, if◌then◌else◌};
ghost use Rattle.std.specs.List.{position, position_or_len};
ghost use Rattle.dnsname.specs.Names.{Labels, same_name};
ghost use Rattle.subscr.specs.ByName.{Renoted, noted_at};
ghost use Rattle.subscr.specs.Named.{AreOrdered, comes_behind, kinds_cmp, kinds_of, with_ask, without_ask};

use crate::NoMemory;
use dnsname::Name;
use std::alloc::Global;
use std::cmp::Ordering;
use std::collections::BTreeMap;
use std::marker::Model;

/// Of a question with its ID what isn't its name.
#[derive(Clone, Copy, Debug)]
pub(crate) struct Ask {
    /// The QTYPE.
    pub kind: u16,
    /// The QCLASS.
    pub class: u16,
    /// The ID.
    pub id: u16,
}

/// The order of questions at a name, by QTYPE and then by QCLASS.
pub(crate) fn compare_to(ask: &Ask, kind: u16, class: u16) -> Ordering
    ensures { result ≡ kinds_cmp (kinds_of ask.now) (kind, class) }
{
    match ask.kind.cmp(&kind) {
        Ordering::Equal => ask.class.cmp(&class),
        unequal => unequal,
    }
}

/// Where the first question is that comes behind another one.
fn first_behind(asks: &[Ask], ask: &Ask) -> Option<usize>
    ensures { result ≡ position (comes_behind ask.now) asks.now }
{
    asks.iter()
        .position(|other| compare_to(other, ask.kind, ask.class).is_gt())
}

/// Where a question belongs: before the first that comes behind it.
fn place_for(asks: &[Ask], ask: &Ask) -> usize
    ensures { result ≡ position_or_len (comes_behind ask.now) asks.now }
{
    match first_behind(asks, ask) {
        Some(place) => place,
        None => asks.len(),
    }
}

/// The questions of one name, in their order.
#[derive(Debug, Drop)]
struct Asks {
    items: Vec<Ask>,
}

impl Model for Asks {
    ghost use Rattle.std.specs.Prelude.{List};
    ghost use Rattle.subscr.specs.Named.{AreOrdered};
    ghost use Rattle.subscr.specs.declared.named.Ask.{Ask};

    ghost Value = { List Ask };

    ghost view = { λ a. a.items.items };

    ghost invariant = { λ a. AreOrdered a.items.items };
}

impl Asks {
    /// One question.
    fn of(alloc: Global, ask: Ask) -> Result<Asks, NoMemory>
        ensures { IfOk result (λ asks. asks ≡ ask ∷ []) }
    {
        let mut items = Vec::new(alloc);
        items.push(ask)?;
        Ok(Asks { items })
    }

    /// One more in its place.
    fn add(&mut self, ask: Ask) -> Result<(), NoMemory>
        ensures ok { OnOk result (self.new ≡ with_ask ask self.old) }
        ensures err { OnErr result (self.new ≡ self.old) }
    {
        let place = place_for(&self.items, &ask);
        self.items.insert(place, ask)?;
        Ok(())
    }

    /// Whether there is none.
    fn is_empty(&self) -> bool
        ensures { result ≡ true → self.now ≡ [] }
    {
        self.items.is_empty()
    }

    /// Those with an ID go.
    fn remove(&mut self, id: u16)
        ensures { self.new ≡ without_ask id self.old }
    {
        self.items.retain(|ask| ask.id != id);
    }
}

/// Nothing is asked of a name.
fn forget(names: &mut BTreeMap<Name, Asks>, name: &Name)
    ensures { Renoted name.now [] names.old.entries names.new.entries }
{
    names.remove(name);
}

/// What is asked of each name (names but for case).
#[derive(Debug, Drop)]
pub(crate) struct Named {
    alloc: Global,
    names: BTreeMap<Name, Asks>,
}

impl Model for Named {
    ghost use Rattle.std.specs.Prelude.{List};
    ghost use Rattle.dnsname.specs.Names.{Labels};
    ghost use Rattle.subscr.specs.declared.named.Ask.{Ask};

    ghost Value = { List (Labels × List Ask) };

    ghost view = { λ n. n.names.entries };
}

impl Named {
    /// Nothing is asked.
    pub fn new(alloc: Global) -> Self
        ensures { result ≡ [] }
    {
        Named {
            alloc,
            names: BTreeMap::new(alloc),
        }
    }

    /// One more question of a name. Where memory runs out nothing changes.
    pub fn add(&mut self, name: Name, ask: Ask) -> Result<(), NoMemory>
        ensures ok { OnOk result ((other : Labels) → noted_at other self.new ≡ (if same_name name other then with_ask ask (noted_at other self.old) else noted_at other self.old)) }
        ensures err { OnErr result (self.new ≡ self.old) }
    {
        match self.names.get_mut(&name) {
            Some(asks) => asks.add(ask),
            None => {
                let asks = Asks::of(self.alloc, ask)?;
                self.names.insert(name, asks)?;
                Ok(())
            }
        }
    }

    /// Those of a name with an ID go.
    pub fn remove(&mut self, name: &Name, id: u16)
        ensures { (other : Labels) → noted_at other self.new ≡ (if same_name name.now other then without_ask id (noted_at other self.old) else noted_at other self.old) }
    {
        let Some(asks) = self.names.get_mut(name) else {
            return;
        };
        asks.remove(id);
        if asks.is_empty() {
            forget(&mut self.names, name);
        }
    }

    /// What is asked of a name.
    pub fn at(&self, name: &Name) -> &[Ask]
        ensures noted { result.now ≡ noted_at name.now self.now }
        ensures ordered { AreOrdered result.now }
    {
        match self.names.get(name) {
            Some(asks) => &asks.items,
            None => &[],
        }
    }
}
