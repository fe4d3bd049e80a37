//! Laws of what a subscriber says, and worked texts.

ghost use Rattle.std.specs.Prelude.{◌≡◌, ◌++◌, ◌∷◌, [], None, Some, codes, drop, take};
ghost use Rattle.push_base.specs.Hexadecimal.{hex, hex_text};
ghost use Rattle.push_base.specs.Line.{bytes, end_of_line, quiet};
ghost use Rattle.subscriber.specs.EveryCut.{EndsTheOctets, SaysTheOctets, SaysTheSame};
ghost use Rattle.subscriber.specs.Said.{said, saying};
ghost use Rattle.subscriber.specs.Worked.{added_soa, answered, pushed, soa_asked};

/// Where the clock stands still, the client doesn't close as idle and the reads aren't used up, what is said depends on the
/// octets alone, however they were cut (RFC 7766, 8).
pub fn text_depends_on_the_octets()
    ensures octets { SaysTheOctets }
    ensures ended { EndsTheOctets }
    ensures same { SaysTheSame }
{}

/// An answer and a PUSH, in one read and in three, and how it ends: at the line's end, after a message, after reads, by a
/// message that closes the client, and once it is idle. What is asked goes out first, a Keepalive when it is due.
pub fn worked_texts()
    ensures row { said (soa_asked None 9) (bytes (answered ++ pushed) ∷ end_of_line ∷ []) (0 ∷ []) ≡ codes "answer 1 0" ∷ added_soa ∷ codes "closed eof" ∷ [] }
    ensures cut { said (soa_asked None 9) (bytes (take 15 (answered ++ pushed)) ∷ quiet ∷ bytes (drop 15 (answered ++ pushed)) ∷ end_of_line ∷ []) (0 ∷ []) ≡ codes "answer 1 0" ∷ added_soa ∷ codes "closed eof" ∷ [] }
    ensures wire { hex_text (saying (soa_asked None 9) [] (0 ∷ [])).wire ≡ codes "002100013000000000000000000000400011076578616d706c6503636f6d0000060001" }
    ensures messages { said (soa_asked (Some 1) 9) (bytes (answered ++ pushed) ∷ []) (0 ∷ []) ≡ codes "answer 1 0" ∷ codes "ended messages" ∷ [] }
    ensures no_message { said (soa_asked (Some 0) 9) [] (0 ∷ []) ≡ codes "ended messages" ∷ [] }
    ensures turns { said (soa_asked None 2) (quiet ∷ bytes answered ∷ []) (0 ∷ []) ≡ codes "answer 1 0" ∷ codes "ended turns" ∷ [] }
    ensures no_turn { said (soa_asked None 0) [] (0 ∷ []) ≡ codes "ended turns" ∷ [] }
    ensures closing { said (soa_asked (Some 1) 9) (bytes pushed ∷ []) (0 ∷ []) ≡ codes "closed early" ∷ [] }
    ensures keepalive { hex_text (drop 35 (saying (soa_asked None 9) (bytes answered ∷ quiet ∷ []) (0 ∷ 1 ∷ 15001 ∷ [])).wire) ≡ codes "00180002300000000000000000000001000800003a9800003a98" }
{}
