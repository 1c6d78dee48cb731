ghost use Rattle.std.specs.Prelude.{◌≡◌, ◌<◌};
ghost use Rattle.script.specs.LineView.{ReadsLine};
ghost use Rattle.script.specs.Lines.{up_to, past, next_word, name_line, list_line, read_line};

use crate::fault::Fault;
use crate::name::read_name;
use crate::set::read_set;
use names::types::TypeSet;
use std::alloc::Global;

// A line of a script.
#[derive(Drop)]
pub enum Line {
    // a blank line or a comment
    Nothing,
    // the names so far are asked for
    List,
    // a name, as octets that may be none, and types for it
    Name(Vec<u8>, TypeSet),
}

// The text before the first mark, and the text after it. Without a mark the whole text is before it.
fn cut(text: &str, mark: char) -> (&str, &str)
    requires { mark < 128 }
    ensures before { result.0.now ≡ up_to mark text.now }
    ensures after { result.1.now ≡ past mark text.now }
{
    text.split_once(mark).unwrap_or((text, ""))
}

// The first word, empty where there is none, and the text after it.
fn next_word(text: &str) -> (&str, &str)
    ensures { (result.0.now, result.1.now) ≡ next_word text.now }
{
    // Behind `list` nothing is left, and is not searched.
    if text.is_empty() {
        return ("", "");
    }
    cut(text.trim_start_matches(' '), ' ')
}

// The words behind `name`.
fn read_name_line(heap: Global, text: &str) -> Result<Line, Fault>
    ensures { ReadsLine result (name_line text.now) }
{
    let (name, rest) = next_word(text);
    let (types, rest) = next_word(rest);
    let (more, _) = next_word(rest);
    if types.is_empty() {
        return Err(Fault::TooFewWords);
    }
    if !more.is_empty() {
        return Err(Fault::TooManyWords);
    }
    let octets = read_name(heap, name)?;
    let set = read_set(heap, types)?;
    Ok(Line::Name(octets, set))
}

// The words behind `list`: none.
fn read_list_line(text: &str) -> Result<Line, Fault>
    ensures { ReadsLine result (list_line text.now) }
{
    let (more, _) = next_word(text);
    if more.is_empty() {
        Ok(Line::List)
    } else {
        Err(Fault::TooManyWords)
    }
}

// What a line of a script says.
pub fn read_line(heap: Global, text: &str) -> Result<Line, Fault>
    ensures { ReadsLine result (read_line text.now) }
{
    let (code, _) = cut(text, '#');
    // Blank lines and lines with a comment only end here, without the search for a word.
    if code.is_empty() {
        return Ok(Line::Nothing);
    }
    let (command, rest) = next_word(code);
    match command {
        "" => Ok(Line::Nothing),
        "list" => read_list_line(rest),
        "name" => read_name_line(heap, rest),
        _ => Err(Fault::NotACommand),
    }
}
