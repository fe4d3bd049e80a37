//! The sessions that watch one name.

ghost use Rattle.std.specs.Prelude.{◌≡◌, ◌<◌, ℕ, ◌==◌, [], ◌∷◌, true, false, get_or, length, nat_lt, IfOk, OnOk, OnErr};
ghost use Rattle.std.specs.List.{position, position_or_len};
ghost use Rattle.subscr.specs.Numbers.{again_of};
ghost use Rattle.subscr.specs.Watching.{StandsOnceLess, StandsOnceMore, are_rising, is_in, times};
ghost use Rattle.subscr.specs.declared.sessions.Again.{Again};

use crate::NoMemory;
use std::alloc::Global;
use std::marker::Model;

/// Whether a number is there.
fn is_in(numbers: &[u64], session: u64) -> bool
    ensures { result ≡ is_in session numbers.now }
{
    numbers.iter().any(|number| *number == session)
}

/// Where a number is.
fn place_of(numbers: &[u64], session: u64) -> Option<usize>
    ensures { result ≡ position (λ n. n == session) numbers.now }
{
    numbers.iter().position(|number| *number == session)
}

/// Where the first greater number is.
fn first_above(numbers: &[u64], session: u64) -> Option<usize>
    ensures { result ≡ position (λ n. nat_lt session n) numbers.now }
{
    numbers.iter().position(|number| *number > session)
}

/// Where a number belongs: before the first greater one.
fn place_for(numbers: &[u64], session: u64) -> usize
    ensures { result ≡ position_or_len (λ n. nat_lt session n) numbers.now }
{
    match first_above(numbers, session) {
        Some(place) => place,
        None => numbers.len(),
    }
}

/// Puts a number in its place among rising ones that don't have it.
fn put_in(numbers: &mut Vec<u64>, session: u64) -> Result<(), NoMemory>
    requires rising { are_rising numbers.old.items ≡ true }
    requires new { is_in session numbers.old.items ≡ false }
    ensures more { OnOk result (StandsOnceMore session numbers.old.items numbers.new.items) }
    ensures rising { OnOk result (are_rising numbers.new.items ≡ true) }
    ensures err { OnErr result (numbers.new.items ≡ numbers.old.items) }
{
    let place = place_for(numbers, session);
    numbers.insert(place, session)?;
    Ok(())
}

/// Takes out the first one of a number, and says whether there was one.
fn take_out(numbers: &mut Vec<u64>, session: u64) -> bool
    ensures found { result ≡ is_in session numbers.old.items }
    ensures less { StandsOnceLess session numbers.old.items numbers.new.items }
    ensures rising { are_rising numbers.old.items ≡ true → are_rising numbers.new.items ≡ true }
{
    let Some(place) = place_of(numbers, session) else {
        return false;
    };
    numbers.remove(place);
    true
}

/// A session that watches the name more than once.
#[derive(Clone, Copy, Debug)]
struct Again {
    session: u64,
    /// How many further times it does besides the second one.
    besides: u64,
}

/// Where a session is among those that watch the name more than once.
fn place_again(again: &[Again], session: u64) -> Option<usize>
    ensures { result ≡ position (λ a. a.session == session) again.now }
{
    again.iter().position(|one| one.session == session)
}

/// The one at a place watches the name once more.
fn count_more(again: &mut Vec<Again>, place: usize) -> Result<(), NoMemory>
    requires { place < length again.old.items }
    ensures ok { OnOk result ((one : Again) → StandsOnceMore (get_or again.old.items place one).session (again_of again.old.items) (again_of again.new.items)) }
    ensures err { OnErr result (again.new.items ≡ again.old.items) }
{
    let besides = again[place].besides;
    if besides == u64::MAX {
        return Err(NoMemory);
    }
    again[place].besides = besides + 1;
    Ok(())
}

/// The one at a place watches the name once less.
fn count_less(again: &mut Vec<Again>, place: usize)
    requires { place < length again.old.items }
    ensures { (one : Again) → StandsOnceLess (get_or again.old.items place one).session (again_of again.old.items) (again_of again.new.items) }
{
    let besides = again[place].besides;
    if besides == 0 {
        again.remove(place);
        return;
    }
    again[place].besides = besides - 1;
}

/// A session that watches the name does so once more.
fn add_again(again: &mut Vec<Again>, session: u64) -> Result<(), NoMemory>
    ensures ok { OnOk result (StandsOnceMore session (again_of again.old.items) (again_of again.new.items)) }
    ensures err { OnErr result (again.new.items ≡ again.old.items) }
{
    match place_again(again, session) {
        Some(place) => count_more(again, place),
        None => Ok(again.push(Again {
            session,
            besides: 0,
        })?),
    }
}

/// One of the further times of a session goes, and the answer says whether there was one.
fn take_again(again: &mut Vec<Again>, session: u64) -> bool
    ensures found { result ≡ is_in session (again_of again.old.items) }
    ensures less { StandsOnceLess session (again_of again.old.items) (again_of again.new.items) }
{
    let Some(place) = place_again(again, session) else {
        return false;
    };
    count_less(again, place);
    true
}

/// The sessions that watch a name, each as often as its questions have it. They are seen as their numbers,
/// one for each question.
#[derive(Debug, Drop)]
pub(crate) struct Sessions {
    numbers: Vec<u64>,
    again: Vec<Again>,
}

impl Model for Sessions {
    ghost use Rattle.std.specs.Prelude.{ℕ, List, ◌++◌};
    ghost use Rattle.subscr.specs.Numbers.{AreKept, again_of};

    ghost Value = { List ℕ };

    ghost view = { λ s. s.numbers.items ++ again_of s.again.items };

    ghost invariant = { λ s. AreKept s.numbers.items (again_of s.again.items) };
}

impl Sessions {
    /// One session, which watches the name once.
    pub fn of(alloc: Global, session: u64) -> Result<Self, NoMemory>
        ensures { IfOk result (λ sessions. sessions ≡ session ∷ []) }
    {
        let mut numbers = Vec::new(alloc);
        numbers.push(session)?;
        Ok(Sessions {
            numbers,
            again: Vec::new(alloc),
        })
    }

    /// A session watches the name once more.
    pub fn add(&mut self, session: u64) -> Result<(), NoMemory>
        ensures ok { OnOk result (StandsOnceMore session self.old self.new) }
        ensures err { OnErr result (self.new ≡ self.old) }
    {
        if is_in(&self.numbers, session) {
            return add_again(&mut self.again, session);
        }
        put_in(&mut self.numbers, session)?;
        Ok(())
    }

    /// A session watches the name once less. Nothing changes where it doesn't watch it, and the answer says so.
    pub fn remove(&mut self, session: u64) -> bool
        ensures watched { result ≡ nat_lt 0 (times session self.old) }
        ensures less { StandsOnceLess session self.old self.new }
    {
        if take_again(&mut self.again, session) {
            return true;
        }
        take_out(&mut self.numbers, session)
    }

    /// Whether no session watches the name.
    pub fn is_empty(&self) -> bool
        ensures { result ≡ true → (session : ℕ) → times session self.now ≡ 0 }
    {
        self.numbers.is_empty()
    }

    /// The numbers of the sessions, each once, rising.
    pub fn numbers(&self) -> &[u64]
        ensures rising { are_rising result.now ≡ true }
        ensures each { (session : ℕ) → is_in session result.now ≡ nat_lt 0 (times session self.now) }
    {
        &self.numbers
    }
}
