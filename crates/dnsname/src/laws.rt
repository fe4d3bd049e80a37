//! Laws of the definitions that the contracts cite.

ghost use Rattle.std.specs.Prelude.{◌≡◌, ◌↔◌, ◌+◌, ◌<◌, ◌≤◌, ◌++◌, take, ℕ, List, [], ◌∷◌, length, codes, true, IsTrue, None, Some, Ok, Err};
ghost use Rattle.std.specs.List.{AllByRecursion};
ghost use Rattle.push_base.specs.Hexadecimal.{hex};
ghost use Rattle.dnsname.specs.declared.name.NameFault.{NameFault};
ghost use Rattle.dnsname.specs.Names.{Labels, IsName, IsSame, EndsIn, octets, is_name, same_name, ends_in, home};
ghost use Rattle.dnsname.specs.Spelling.{SpellsNameAt, SpellsNameIn, FaultAt, FaultIn, SpellsPlainNameAt, PlainFaultAt};
ghost use Rattle.dnsname.specs.Reading.{name_in, name_at, name_up_to, plain_name_at};
ghost use Rattle.dnsname.specs.NameSteps.{steps_in, name_steps, steps_up_to};
ghost use Rattle.dnsname.specs.Text.{SpellsText, name_text, name_of_text};

/// No name's spelling begins another's, so what was written is read again, whatever follows it.
pub fn one_spelling()
    ensures { (a b : Labels) (x y : List ℕ) → IsName a → IsName b
        → octets a ++ x ≡ octets b ++ y → (a ≡ b) × (x ≡ y) }
{}

/// What was written stands where it was written, as a name without pointers and as one with them.
pub fn written_is_there()
    ensures plain { (before after : List ℕ) (name : Labels) → IsName name
        → SpellsPlainNameAt (before ++ octets name ++ after) (length before) name (length before + length (octets name)) }
    ensures pointed { (before after : List ℕ) (name : Labels) → IsName name
        → SpellsNameAt (before ++ octets name ++ after) (length before) name (length before + length (octets name)) }
{}

/// At each place there is at most one name, or one first fault, and not both.
pub fn one_reading()
    ensures name { (message : List ℕ) (at p q : ℕ) (a b : Labels) → SpellsNameAt message at a p → SpellsNameAt message at b q → (a ≡ b) × (p ≡ q) }
    ensures fault { (message : List ℕ) (at : ℕ) (e f : NameFault) → FaultAt message at e → FaultAt message at f → e ≡ f }
    ensures either { (message : List ℕ) (at p : ℕ) (name : Labels) (e : NameFault) → SpellsNameAt message at name p → ¬ FaultAt message at e }
{}

/// At each place there is at most one name without pointers, or one first fault, and not both.
pub fn one_plain_reading()
    ensures name { (octets : List ℕ) (at p q : ℕ) (a b : Labels) → SpellsPlainNameAt octets at a p → SpellsPlainNameAt octets at b q → (a ≡ b) × (p ≡ q) }
    ensures fault { (octets : List ℕ) (at : ℕ) (e f : NameFault) → PlainFaultAt octets at e → PlainFaultAt octets at f → e ≡ f }
    ensures either { (octets : List ℕ) (at p : ℕ) (name : Labels) (e : NameFault) → SpellsPlainNameAt octets at name p → ¬ PlainFaultAt octets at e }
{}

/// A name's text is read as the name, and no text is read as two.
pub fn one_name_of_a_text()
    ensures written { (name : Labels) → IsName name → SpellsText (name_text name) name }
    ensures one { (text : List ℕ) (a b : Labels) → SpellsText text a → SpellsText text b → a ≡ b }
{}

/// The tests of names decide what they stand for.
pub fn tests_of_names()
    ensures name { (name : Labels) → IsTrue (is_name name) ↔ IsName name }
    ensures same { (name other : Labels) → IsTrue (same_name name other) ↔ IsSame name other }
    ensures ends { (name suffix : Labels) → IsTrue (ends_in name suffix) ↔ EndsIn name suffix }
{}

/// What is read at a place is what stands there, and the fault that is read is the first one.
pub fn what_is_read()
    ensures name { (piece message : List ℕ) (at after : ℕ) (name : Labels) → SpellsNameIn piece message at name after → name_in piece message at ≡ Ok (name, after) }
    ensures fault { (piece message : List ℕ) (at : ℕ) (fault : NameFault) → FaultIn piece message at fault → name_in piece message at ≡ Err fault }
    ensures found { (piece message : List ℕ) (at after : ℕ) (name : Labels)
        → AllByRecursion (λ o. o < 256) piece → AllByRecursion (λ o. o < 256) message
        → name_in piece message at ≡ Ok (name, after) → SpellsNameIn piece message at name after }
    ensures plain_name { (octets : List ℕ) (at after : ℕ) (name : Labels) → SpellsPlainNameAt octets at name after → plain_name_at octets at ≡ Ok (name, after) }
    ensures plain_found { (octets : List ℕ) (at after : ℕ) (name : Labels) → AllByRecursion (λ o. o < 256) octets
        → plain_name_at octets at ≡ Ok (name, after) → SpellsPlainNameAt octets at name after }
    ensures plain_fault { (octets : List ℕ) (at : ℕ) (fault : NameFault) → PlainFaultAt octets at fault → plain_name_at octets at ≡ Err fault }
    ensures text { (text : List ℕ) (name : Labels) → name_of_text text ≡ Some name ↔ SpellsText text name }
{}

/// A name that stands in the first octets of a message, but for what its pointers lead to, is one that stands
/// in the message and ends there or before.
pub fn names_up_to_an_end()
    ensures { (message : List ℕ) (end at after : ℕ) (name : Labels)
        → SpellsNameIn (take end message) message at name after ↔ (SpellsNameAt message at name after × (after ≤ end)) }
{}

/// A name with pointers is read in few steps, wherever its first piece stands and whatever the message holds.
pub fn steps_are_few()
    ensures { (piece message : List ℕ) (at : ℕ) → steps_in piece message at ≤ at + 128 }
{}

/// Examples of what is read and written.
pub fn examples()
    ensures plain { plain_name_at (hex (codes "076578616d706c6503636f6d00")) 0 ≡ Ok (codes "example" ∷ codes "com" ∷ [], 13) }
    ensures pointer { name_at (hex (codes "03636f6d000161c000")) 5 ≡ Ok (codes "a" ∷ codes "com" ∷ [], 9) }
    ensures up_to { name_up_to 7 (hex (codes "03636f6d000161c000")) 5 ≡ Err (NameFault.Short 7) }
    ensures onward { name_at (hex (codes "c000")) 0 ≡ Err (NameFault.Pointer 0) }
    ensures short { name_at (hex (codes "0161")) 0 ≡ Err (NameFault.Short 2) }
    ensures reserved { name_at (hex (codes "41")) 0 ≡ Err (NameFault.LongLabel 0) }
    ensures steps { name_steps (hex (codes "03636f6d000161c000")) 5 ≡ 4 }
    ensures steps_up_to { steps_up_to 7 (hex (codes "03636f6d000161c000")) 5 ≡ 2 }
    ensures onward_steps { name_steps (hex (codes "c000")) 0 ≡ 1 }
    ensures text { name_of_text (codes "a\\046b.com.") ≡ Some (codes "a.b" ∷ codes "com" ∷ []) }
    ensures root { name_of_text (codes ".") ≡ Some [] }
    ensures bare { name_of_text (codes "a") ≡ None }
    ensures escaped { name_text (codes "a.b" ∷ codes "com" ∷ []) ≡ codes "a\\.b.com." }
    ensures suffix { ends_in (codes "A" ∷ codes "Com" ∷ []) (codes "com" ∷ []) ≡ true }
    ensures longest { home ((codes "com" ∷ []) ∷ (codes "a" ∷ codes "com" ∷ []) ∷ []) (codes "b" ∷ codes "A" ∷ codes "com" ∷ []) ≡ Some (codes "a" ∷ codes "com" ∷ []) }
{}
