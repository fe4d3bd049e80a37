//! Laws of nets, of packing and of first answers that the contracts cite.

ghost use Rattle.std.specs.Prelude.{◌≡◌, ◌++◌, [], ◌∷◌, None, codes, replicate};
ghost use Rattle.push_base.specs.Hexadecimal.{hex};
ghost use Rattle.coalesce.specs.FirstLaws.{FirstFillsTheNew, FirstLeadsTheOthers, FirstAnewLeadsFromAny, FirstAddsNothingKnown, FirstLeavesOtherNames, FirstFitsOneMessage, FirstIsReadBack};
ghost use Rattle.coalesce.specs.Laws.{NetLeadsToNew, NothingToTell, NetLeadsEachQuestion, PartsStaySides, NetFitsOneMessage, NetIsReadBack, PacksTheFront, PacksNothingOfNothing, PackedFitsOneMessage, NetSpeaksOfItsName, OthersChangeNothing, OneOfSeveral, PackedLeads, PackedIsReadBack};
ghost use Rattle.coalesce.specs.Worked.{first_data, four, record_of, waits_with};

/// A subscriber that applies the net to the old set of its question has the new one, also where the net is that of the
/// records of several questions.
pub fn net_leads_to_new()
    ensures one_question { NetLeadsToNew }
    ensures each_question { NetLeadsEachQuestion }
    ensures parts { PartsStaySides }
{}

/// A net is empty exactly where both sides show the same.
pub fn nothing_to_tell()
    ensures { NothingToTell }
{}

/// One name's net, alone in a PUSH, takes at most 60,281 octets where the new records take at most 60,000.
pub fn net_fits_one_message()
    ensures { NetFitsOneMessage }
{}

/// What is written for a net is read back.
pub fn net_is_read_back()
    ensures { NetIsReadBack }
{}

/// A message takes the first names of a queue, each with its whole net, up to the first that doesn't fit. It is empty
/// exactly where no name has anything to tell, and takes at most 60,281 octets where each net alone does.
pub fn packing()
    ensures front { PacksTheFront }
    ensures nothing { PacksNothingOfNothing }
    ensures size { PackedFitsOneMessage }
{}

/// Several names in one message don't meet: what the message does to the set of a question is what the net of its name
/// does.
pub fn names_do_not_meet()
    ensures of_its_name { NetSpeaksOfItsName }
    ensures others { OthersChangeNothing }
    ensures one_of_several { OneOfSeveral }
{}

/// A message leads each question whose name goes to what is there now, and leaves the set of any other; what is written
/// for it is read back.
pub fn packed_names_lead()
    ensures to_now { PackedLeads }
    ensures read { PackedIsReadBack }
{}

/// What follows the answer to a SUBSCRIBE leads each question of the session: the new one from nothing, and the others of
/// its name from what they were sent, to what they match now. Questions of other names keep their sets.
pub fn first_answers_lead()
    ensures new { FirstFillsTheNew }
    ensures others { FirstLeadsTheOthers }
    ensures anew { FirstAnewLeadsFromAny }
    ensures known { FirstAddsNothingKnown }
    ensures apart { FirstLeavesOtherNames }
{}

/// What follows the answer to a SUBSCRIBE is one message of at most 60,281 octets, and what is written for it is read back.
pub fn first_answers_are_read_back()
    ensures size { FirstFitsOneMessage }
    ensures read { FirstIsReadBack }
{}

/// Examples of what follows the answer to a SUBSCRIBE, where another question is asked: for addresses, and for long ones.
pub fn worked_first_answers()
    ensures nothing_waits { first_data 1 28 four None ≡ hex (codes "0178076578616d706c6503636f6d000001000100000078000401020304") }
    ensures nothing_changed { first_data 1 28 four (waits_with four four) ≡ hex (codes "0178076578616d706c6503636f6d000001000100000078000401020304") }
    ensures others_unchanged { first_data 1 28 four (waits_with (record_of 28 (replicate 16 7) ∷ []) four) ≡ hex (codes "0178076578616d706c6503636f6d000001000100000078000401020304") }
    ensures changed { first_data 1 28 four (waits_with [] four) ≡ hex (codes "0178076578616d706c6503636f6d0000ff0001fffffffe0000") ++ hex (codes "0178076578616d706c6503636f6d000001000100000078000401020304") ++ hex (codes "0178076578616d706c6503636f6d00001c000100000078001007070707070707070707070707070707") }
    ensures all_gone { first_data 1 28 [] (waits_with four []) ≡ hex (codes "0178076578616d706c6503636f6d0000ff0001fffffffe0000") }
    ensures nothing_there { first_data 1 28 [] None ≡ [] }
{}
