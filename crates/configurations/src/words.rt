//! Words of configurations.

ghost use Rattle.std.specs.Prelude.{◌≡◌, IfOk, option_map, string_bytes};
ghost use Rattle.scripts.specs.Lines.{words_in};
ghost use Rattle.scripts.specs.TextLines.{Takes};
ghost use Rattle.configurations.specs.Configurations.{address, number_once};

use push_base::NoMemory;
use scripts::{number_from, one_word};
use std::alloc::Global;

/// An address: one word, which is handed on as it is.
pub(crate) fn address_of_word(alloc: Global, text: &[u8]) -> Result<Option<String>, NoMemory>
    ensures { IfOk result (λ found. option_map (λ w. string_bytes w) found ≡ address text.now) }
{
    if text.is_empty() {
        return Ok(None);
    }
    let Ok(text) = str::from_utf8(text) else {
        return Ok(None);
    };
    Ok(Some(String::from_str(alloc, text)?))
}

/// Takes the words of a line that is a number from one to another, once.
pub(crate) fn take_number(said: &mut Option<u64>, least: u64, greatest: u64, words: &[u8]) -> bool
    ensures { Takes (number_once least greatest said.old (words_in words.now)) said.new result }
{
    let Some(word) = one_word(words) else {
        return false;
    };
    let Some(number) = number_from(least, greatest, word) else {
        return false;
    };
    if said.is_some() {
        return false;
    }
    *said = Some(number);
    true
}
