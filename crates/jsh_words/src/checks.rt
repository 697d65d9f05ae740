//! The rules for numbers and for names of files.
ghost use Rattle.std.specs.Prelude.{◌≡◌, ◌&&◌, ◌++◌, nat_le, length, codes, map, IfOk, OnOk, option_map};
ghost use Rattle.std.specs.List.{list_all, list_any};
ghost use Rattle.std.specs.Str.{bytes_eq};
ghost use Rattle.jsh_words.specs.Meant.{is_digit, is_number, number, number_or, is_file, file, with_outputs, are_distinct, is_empty};
ghost use Rattle.jsh_words.specs.Clap.{texts};

use jsh_tree::SrcText;
use std::alloc::{AllocError, Global};

fn is_digit(byte: u8) -> bool
    ensures { result ≡ is_digit byte }
{
    48 <= byte && byte <= 57
}

fn has_few_digits(text: &str) -> bool
    ensures { result ≡ (nat_le 1 (length text.now) && nat_le (length text.now) 10) }
{
    1 <= text.len() && text.len() <= 10
}

fn has_digits_alone(text: &str) -> bool
    ensures { result ≡ list_all is_digit text.now }
{
    text.as_bytes().iter().all(|byte| is_digit(*byte))
}

fn is_number(text: &str) -> bool
    ensures { result ≡ is_number text.now }
{
    has_few_digits(text) && has_digits_alone(text)
}

pub(crate) fn number(least: u32, most: u32, text: &str) -> Option<u32>
    ensures { result ≡ number least most text.now }
{
    if !is_number(text) {
        return None;
    }
    let Ok(value) = text.parse::<u32>() else {
        return None;
    };
    if value < least {
        return None;
    }
    if most < value {
        return None;
    }
    Some(value)
}

pub(crate) fn number_or(default: u32, least: u32, most: u32, values: &[&str]) -> Option<u32>
    ensures { result ≡ number_or default least most (texts values.now) }
{
    match values {
        [] => Some(default),
        [text] => number(least, most, text),
        _ => None,
    }
}

pub(crate) fn is_file(name: &str) -> bool
    ensures { result ≡ is_file name.now }
{
    is_name(name.as_bytes())
}

pub(crate) fn is_name(bytes: &[u8]) -> bool
    ensures { result ≡ is_file bytes.now }
{
    match bytes {
        [] => false,
        [first, ..] => *first != b'-',
    }
}

pub(crate) fn file<'a>(values: &[&'a str]) -> Option<Option<&'a str>>
    ensures { option_map (option_map (λ name. name.now)) result ≡ file (texts values.now) }
{
    match values {
        [] => Some(None),
        [name] => {
            if is_file(name) {
                Some(Some(*name))
            } else {
                None
            }
        }
        _ => None,
    }
}

pub(crate) fn is_empty(values: &[&str]) -> bool
    ensures { result ≡ is_empty (texts values.now) }
{
    match values {
        [] => true,
        _ => false,
    }
}

// The name of a client's output.
fn output_of(alloc: Global, name: &str) -> Result<SrcText, AllocError>
    ensures { IfOk result (λ output. output ≡ name.now ++ codes ".out") }
{
    let mut output = String::from_str(alloc, name)?;
    output.push_str(".out")?;
    SrcText::from_text(alloc, output.as_str())
}

// Adds copies of the names.
pub(crate) fn push_names(
    alloc: Global,
    names: &[&str],
    files: &mut Vec<SrcText>,
) -> Result<(), AllocError>
    ensures { OnOk result (files.new.items ≡ files.old.items ++ texts names.now) }
{
    files.reserve(names.len())?;
    for name in names {
        let name = SrcText::from_text(alloc, name)?;
        files.push(name)?;
    }
    Ok(())
}

// Adds the names, each with that of its output.
pub(crate) fn push_with_outputs(
    alloc: Global,
    names: &[&str],
    files: &mut Vec<SrcText>,
) -> Result<(), AllocError>
    ensures { OnOk result (files.new.items ≡ files.old.items ++ with_outputs (texts names.now)) }
{
    for name in names {
        let output = output_of(alloc, name)?;
        let name = SrcText::from_text(alloc, name)?;
        files.push(name)?;
        files.push(output)?;
    }
    Ok(())
}

pub(crate) fn are_few(names: &[&str]) -> bool
    ensures { result ≡ nat_le (length (texts names.now)) 32 }
{
    names.len() <= 32
}

pub(crate) fn are_files(names: &[&str]) -> bool
    ensures { result ≡ list_all is_file (texts names.now) }
{
    for name in names {
        if !is_file(name) {
            return false;
        }
    }
    true
}

fn stands_in(name: &SrcText, others: &[SrcText]) -> bool
    ensures { result ≡ list_any (λ other. bytes_eq other name.now) others.now }
{
    others.iter().any(|other| other.as_str() == name.as_str())
}

pub(crate) fn are_distinct(names: &[SrcText]) -> bool
    ensures { result ≡ are_distinct names.now }
{
    for at in 0..names.len() {
        if stands_in(&names[at], &names[at + 1..]) {
            return false;
        }
    }
    true
}
