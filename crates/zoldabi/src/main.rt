// Reads a script from standard input, or from the file that its first argument names, and prints for each line
// `LINE => ANSWER`.
#![tactic(auto)]

mod owned;

use crate::owned::OwnedName;
use anyhow::Context;
use names::name::Name;
use names::refusal::Refusal;
use names::types::TypeSet;
use script::line::{Line, read_line};
use script::name::name_text;
use script::record::{entry_line, record_line};
use std::alloc::{AllocError, Global};
use std::collections::BTreeMap;
use std::process::ExitCode;
use std::{env, fs, io};

// The whole script.
fn script_text(rt: &HostRuntime) -> io::Result<String> {
    match env::args(rt)?.nth(1) {
        Some(path) => fs::read_to_string(rt, path.as_str()),
        None => io::read_to_string(rt.alloc(), rt.stdin()),
    }
}

// Finds the first line that is none. What the lines say is not kept: a script may have far more lines than names.
fn check_lines(heap: Global, script: &str) -> anyhow::Result<()> {
    for (i, text) in script.lines().enumerate() {
        if let Err(fault) = read_line(heap, text) {
            let number = i.saturating_add(1);
            return Err(fault).context(format_args!("line {number}"));
        }
    }
    Ok(())
}

// The name that a line gives. Refused are types that neither the rule for an apex nor that for other names allows it.
fn allowed_name<'a>(octets: &'a [u8], types: &TypeSet) -> Result<Name<'a>, Refusal> {
    let name = Name::read(octets)?;
    if types.allowed_at_apex() || types.allowed_below_apex(&name) {
        Ok(name)
    } else {
        Err(Refusal::TypesNotAllowed)
    }
}

// The label count and the lower-case form of a name, which is kept, or why it is refused.
fn answer_name(
    heap: Global,
    kept: &mut BTreeMap<OwnedName, TypeSet>,
    octets: Vec<u8>,
    types: TypeSet,
) -> Result<String, AllocError> {
    let name = match allowed_name(&octets, &types) {
        Ok(name) => name,
        Err(refusal) => {
            let number = refusal.number();
            return format!(in heap; "refused {number}: {refusal}");
        }
    };
    let count = name.label_count();
    let text = name_text(heap, &name)?;
    if let Some(name) = OwnedName::new(octets) {
        kept.insert(name, types)?;
    }
    format!(in heap; "{count} {text}")
}

// The number of the names so far, and a line for each in canonical order.
fn answer_list(heap: Global, kept: &BTreeMap<OwnedName, TypeSet>) -> Result<String, AllocError> {
    let count = kept.len();
    let mut answer = format!(in heap; "{count}")?;
    for (name, types) in kept {
        let line = entry_line(heap, &name.name(), types)?;
        write!(answer, "\n{line}")?;
    }
    Ok(answer)
}

fn run(rt: &HostRuntime) -> anyhow::Result<()> {
    let heap = rt.alloc();
    let script = script_text(rt)?;
    check_lines(heap, &script)?;
    let mut kept = BTreeMap::new(heap);
    for text in script.lines() {
        let answer = match read_line(heap, text)? {
            Line::Nothing => continue,
            Line::List => answer_list(heap, &kept)?,
            Line::Name(octets, types) => answer_name(heap, &mut kept, octets, types)?,
        };
        let record = record_line(heap, text, &answer)?;
        println!(rt; "{record}")?;
    }
    Ok(())
}

fn main(rt: HostRuntime) -> anyhow::Result<ExitCode> {
    if let Err(error) = run(&rt) {
        eprintln!(rt; "zoldabi: {error:#}")?;
        return Ok(ExitCode::FAILURE);
    }
    Ok(ExitCode::SUCCESS)
}
