//! Texts among the words.
ghost use Rattle.std.specs.Prelude.{◌≡◌, option_map, IfOk};
ghost use Rattle.std.specs.String.{string_bytes};
ghost use Rattle.clap.specs.Words.{first_of, found_of, rows_of};
ghost use Rattle.memory_count.specs.Faults.{HasCause};

use clap::ArgMatches;
use memory_count::{Memory, NoMemory};

/// The text that is the value of an argument.
pub fn text_at<'a>(matches: &ArgMatches<'a>, id: &str) -> Option<&'a str>
    ensures { option_map (λ text. text.now) result
        ≡ first_of id.now (rows_of (found_of matches.now)) }
{
    matches.get_str(id)
}

/// A copy of a text.
pub fn copied(memory: &mut Memory, text: &str) -> Result<String, NoMemory>
    ensures copy { IfOk result (λ copy. string_bytes copy ≡ text.now) }
    ensures cause { HasCause memory.old memory.new result }
{
    let copy = String::from_str(memory.alloc(), text);
    memory.of(copy)
}

/// A copy of a text, where there is one.
pub fn copied_if(memory: &mut Memory, text: Option<&str>) -> Result<Option<String>, NoMemory>
    ensures copy { IfOk result (λ copy. option_map (λ text. string_bytes text) copy
        ≡ option_map (λ text. text.now) text.entry) }
    ensures cause { HasCause memory.old memory.new result }
{
    let Some(text) = text else {
        return Ok(None);
    };
    let copy = copied(memory, text)?;
    Ok(Some(copy))
}
