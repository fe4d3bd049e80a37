//! Laws of lists of services, and examples.

ghost use Rattle.std.specs.Prelude.{◌≡◌, [], ◌∷◌, ◌++◌, codes, None, Some};
ghost use Rattle.push_base.specs.Hexadecimal.{hex};
ghost use Rattle.dnsname.specs.Text.{name};
ghost use Rattle.services.specs.Laws.{NeedsStand, SameIsSilent, ToldAgain};
ghost use Rattle.services.specs.Services.{changes, instances_in, needs, server_in, whole};
ghost use Rattle.services.specs.declared.service.Change.TheVariants.{Came, Differs, Went};

/// What a list asks for determines it: where the same is known of that, the lists are one, and so is what they ask for.
pub fn needs_stand()
    ensures { NeedsStand }
{}

/// Who holds a list and makes the changes that are told holds the new one: of each instance the same, to the letter.
pub fn told_again()
    ensures { ToldAgain }
{}

/// From a list to itself nothing is told.
pub fn same_is_silent()
    ensures { SameIsSilent }
{}

/// Examples of what records make, and of changes.
pub fn worked_rows()
    ensures instance { instances_in ((record { owner = name (codes "_ipp._tcp."); class = 1; kind = 12; rdata = hex (codes "016100") }, record { owner = name (codes "_ipp._tcp."); ttl = 5; rdata = hex (codes "014100") }) ∷ []) ≡ name (codes "A.") ∷ [] }
    ensures another_kind { instances_in ((record { owner = name (codes "a."); class = 1; kind = 5; rdata = hex (codes "016100") }, record { owner = name (codes "a."); ttl = 5; rdata = hex (codes "016100") }) ∷ []) ≡ [] }
    ensures weight { server_in ((record { owner = name (codes "a."); class = 1; kind = 33; rdata = hex (codes "000000010277016200") }, record { owner = name (codes "a."); ttl = 5; rdata = hex (codes "000000010277016200") }) ∷ (record { owner = name (codes "a."); class = 1; kind = 33; rdata = hex (codes "000000020277016300") }, record { owner = name (codes "a."); ttl = 5; rdata = hex (codes "000000020277016300") }) ∷ [])
        ≡ Some (record { priority = 0; weight = 2; port = 631; host = name (codes "c.") }) }
    ensures asked { needs (whole (name (codes "_ipp._tcp."))) ((record { instance = name (codes "a."); server = None; addresses = []; texts = [] }) ∷ []) ≡ whole (name (codes "_ipp._tcp.")) ∷ whole (name (codes "a.")) ∷ [] }
    ensures came { changes [] ((record { instance = name (codes "a."); server = None; addresses = []; texts = [] }) ∷ []) ≡ Came (record { instance = name (codes "a."); server = None; addresses = []; texts = [] }) ∷ [] }
    ensures went { changes ((record { instance = name (codes "a."); server = None; addresses = []; texts = [] }) ∷ []) [] ≡ Went (record { instance = name (codes "a."); server = None; addresses = []; texts = [] }) ∷ [] }
    ensures differs { changes ((record { instance = name (codes "a."); server = None; addresses = []; texts = [] }) ∷ []) ((record { instance = name (codes "A."); server = None; addresses = []; texts = [] }) ∷ [])
        ≡ Differs (record { instance = name (codes "a."); server = None; addresses = []; texts = [] }) (record { instance = name (codes "A."); server = None; addresses = []; texts = [] }) ∷ [] }
{}
