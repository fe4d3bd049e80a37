//! The wishes of a client, in order of asking.

ghost use Rattle.std.specs.Prelude.{◌≡◌, ◌≤◌, ◌==◌, ◌||◌, find, map, filter, cond, false, true, [], None, Some, MatchOption, OnOk, OnErr, ◌++◌, ◌∷◌};
ghost use Rattle.std.specs.Vec.{vec_len, vec_capacity};
ghost use Rattle.std.specs.List.{list_any, flat_map};
ghost use Rattle.rrset.specs.Records.{same_question};
ghost use Rattle.pushclient.specs.Clients.{id_in_use, unasked, without_wish};
ghost use Rattle.pushclient.specs.Rule.{standing_of, dropped_wish, stood_wish};
ghost use Rattle.pushclient.specs.Steps.{is_active, is_unanswered};

use crate::NoMemory;
use crate::wish::{Wish, WishStatus};
use rrset::record::Question;
use rrset::same_question;

/// The wish for a question (names but for case).
pub(crate) fn wish_for<'a>(wishes: &'a [Wish], question: &Question) -> Option<&'a Wish>
    ensures { MatchOption result (find (λ w. same_question w.question question.now) wishes.now ≡ None) (λ w. find (λ w. same_question w.question question.now) wishes.now ≡ Some w.now) }
{
    'wishes: for wish in wishes {
        if same_question(&wish.question, question) {
            return Some(wish);
        }
    }
    None
}

/// The wish that waits for the answer with an ID.
pub(crate) fn request_of(wishes: &[Wish], id: u16) -> Option<&Wish>
    ensures { MatchOption result (find (λ w. is_unanswered id w.standing) wishes.now ≡ None) (λ w. find (λ w. is_unanswered id w.standing) wishes.now ≡ Some w.now) }
{
    'wishes: for wish in wishes {
        if wish.standing.awaits(id) {
            return Some(wish);
        }
    }
    None
}

/// Whether a wish uses an ID.
pub(crate) fn use_id(wishes: &[Wish], id: u16) -> bool
    ensures { result ≡ list_any (λ u. u == id) (flat_map (λ w. id_in_use w.standing) wishes.now) }
{
    'wishes: for wish in wishes {
        if wish.standing.uses(id) {
            return true;
        }
    }
    false
}

/// Whether the client asks for something (RFC 8490, 6.4).
pub(crate) fn are_active(wishes: &[Wish]) -> bool
    ensures { result ≡ list_any (λ w. is_active w.standing) wishes.now }
{
    wishes.iter().any(|wish| wish.standing.is_active())
}

/// Takes out the wish for a question.
pub(crate) fn forget(wishes: &mut Vec<Wish>, question: &Question)
    ensures left { wishes.new.items ≡ without_wish question.now wishes.old.items }
    ensures fewer { vec_len wishes.new ≤ vec_len wishes.old }
    ensures room { vec_capacity wishes.old ≤ vec_capacity wishes.new }
{
    wishes.retain(|wish| !same_question(&wish.question, question));
}

/// Takes out the wish for a question, and puts another as the last in order. Where memory runs out nothing changes.
pub(crate) fn move_back(
    wishes: &mut Vec<Wish>,
    question: &Question,
    wish: Wish,
) -> Result<(), NoMemory>
    ensures ok { OnOk result (wishes.new.items ≡ without_wish question.now wishes.old.items ++ wish ∷ []) }
    ensures err { OnErr result (wishes.new.items ≡ wishes.old.items) }
{
    wishes.reserve(1)?;
    forget(wishes, question);
    if wishes.push(wish).is_err() {
        unreachable!();
    }
    Ok(())
}

/// Takes out what isn't wanted.
fn keep_wanted(wishes: &mut Vec<Wish>)
    ensures { wishes.new.items ≡ filter (λ w. w.wanted) wishes.old.items }
{
    wishes.retain(|wish| wish.wanted);
}

/// A wish that is wanted and not asked.
fn unask(wish: &mut Wish)
    ensures { wish.new ≡ unasked wish.old.question }
{
    wish.wanted = true;
    wish.standing = WishStatus::NotAsked;
}

/// No wish is asked, and all are wanted.
fn unask_all(wishes: &mut [Wish])
    ensures { wishes.new ≡ map (λ w. unasked w.question) wishes.old }
{
    'wishes: for place in 0..wishes.len() {
        unask(&mut wishes[place]);
    }
}

/// What was dropped is forgotten, and nothing is asked.
pub(crate) fn cut(wishes: &mut Vec<Wish>)
    ensures { wishes.new.items ≡ map (λ w. unasked w.question) (filter (λ w. w.wanted) wishes.old.items) }
{
    keep_wanted(wishes);
    unask_all(wishes);
}

/// Drops a wish if it is for a question.
fn drop_one(wish: &mut Wish, question: &Question)
    ensures { wish.new ≡ dropped_wish question.now wish.old }
{
    if same_question(&wish.question, question) {
        wish.wanted = false;
    }
}

/// The wish for a question waits for its answer, and is wanted no more.
pub(crate) fn drop_wish(wishes: &mut [Wish], question: &Question)
    ensures { wishes.new ≡ map (dropped_wish question.now) wishes.old }
{
    'wishes: for place in 0..wishes.len() {
        drop_one(&mut wishes[place], question);
    }
}

/// Lets a wish stand otherwise if it is for a question.
fn stand_one(wish: &mut Wish, question: &Question, standing: WishStatus)
    ensures { wish.new ≡ stood_wish question.now (standing_of standing) wish.old }
{
    if same_question(&wish.question, question) {
        wish.standing = standing;
    }
}

/// The wish for a question stands otherwise.
pub(crate) fn stand(wishes: &mut [Wish], question: &Question, standing: WishStatus)
    ensures { wishes.new ≡ map (stood_wish question.now (standing_of standing)) wishes.old }
{
    'wishes: for place in 0..wishes.len() {
        stand_one(&mut wishes[place], question, standing);
    }
}
