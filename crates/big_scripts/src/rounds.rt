//! The scripts of a number.

ghost use Rattle.std.specs.Prelude.{◌≡◌, ◌++◌, ◌∷◌, [], codes, IfOk, OnOk, string_bytes};
ghost use Rattle.scripts.specs.Words.{ended_lines, line};
ghost use Rattle.big_scripts.specs.Scripts.{hear_of_round, round_lines, script_octets, update_of_round};

use push_base::{NoMemory, Octets, hex_text};
use std::alloc::Global;

/// A script of a number has at most so many rounds.
pub const MOST_ROUNDS: u32 = 1_000;

// A zone, a link, and a client that asks for a name of each.
const OPENING: &[u8] =
    b"zone example.com. 1 open\nlink lan lan.example.com.\nclient c\nask c a.example.com. 1 1\nask c h.lan.example.com. 1 1\nopen c\nsettle c\n";

// What the client holds at the end, and the newest point.
const CLOSING: &[u8] =
    b"settle c\nshow c a.example.com. 1 1\nshow c h.lan.example.com. 1 1\npoint\n";

/// The octets of the script with so many rounds.
pub(crate) fn script_of(alloc: Global, rounds: u32) -> Result<Octets, NoMemory>
    ensures { IfOk result (λ script. script ≡ script_octets rounds) }
{
    let mut script = Vec::new(alloc);
    script.extend_from_slice(OPENING)?;
    'rounds: for before in 0..rounds {
        push_round(alloc, &mut script, before + 1)?;
    }
    script.extend_from_slice(CLOSING)?;
    Ok(Octets::from_vec(script))
}

// Appends the lines of a round.
fn push_round(alloc: Global, script: &mut Vec<u8>, round: u32) -> Result<(), NoMemory>
    ensures { OnOk result (script.new.items ≡ script.old.items ++ ended_lines (round_lines round)) }
{
    let hearing = hearing_line(alloc, round)?;
    script.extend_from_slice(update_line(round))?;
    script.extend_from_slice(hearing.as_bytes())?;
    script.extend_from_slice(b"emit c 100\ndown c 60\n")?;
    Ok(())
}

// In turn 192.0.2.1 is added, 192.0.2.2 is added, and 192.0.2.1 is deleted (RFC 2136, 2.5).
fn update_line(round: u32) -> &'static [u8]
    ensures { result.now ≡ line (update_of_round round) }
{
    match round % 3 {
        1 =>
            b"update 000128000001000000010000076578616d706c6503636f6d00000600010161c00c000100010000003c0004c0000201\n",
        2 =>
            b"update 000328000001000000010000076578616d706c6503636f6d00000600010161c00c000100010000003c0004c0000202\n",
        _ =>
            b"update 000228000001000000010000076578616d706c6503636f6d00000600010161c00c000100fe000000000004c0000201\n",
    }
}

// An address whose last octet is the round's number is heard (RFC 6762, 18).
fn hearing_line(alloc: Global, round: u32) -> Result<String, NoMemory>
    ensures { IfOk result (λ text. string_bytes text ≡ line (hear_of_round round)) }
{
    let last = hex_text(alloc, &[(round % 256) as u8])?;
    hearing_of(alloc, last.as_str())
}

fn hearing_of(alloc: Global, last: &str) -> Result<String, NoMemory>
    ensures { IfOk result (λ text. string_bytes text ≡ codes "hear lan 0000840000000001000000000168056c6f63616c0000010001000000780004c00002" ++ (last.now ++ 10 ∷ [])) }
{
    format!(in alloc;
        "hear lan 0000840000000001000000000168056c6f63616c0000010001000000780004c00002{last}\n"
    )
}
