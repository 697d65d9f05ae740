//! Makes a chain of as many classes as its first word says, each with a field of the next one, which
//! one further class ends where the second word is 1, and prints how many are visible.
//! `bench/headers.sh` takes the time.
#![tactic(auto)]

use jsh_header::visible;
use jsh_library::table;
use jsh_text::NoMemory;
use jsh_tree::{Field, Header, Key, Member, Name, Seq, TypeWritten};
use std::alloc::Global;
use std::env::args;
use std::io;

fn name(alloc: Global, number: u32) -> Result<Name, NoMemory> {
    let text = format!(in alloc; "A{number}")?;
    Ok(Name::from_text(alloc, text.as_str())?)
}

fn field(alloc: Global, number: u32) -> Result<Field, NoMemory> {
    Ok(Field {
        written: TypeWritten {
            name: name(alloc, number)?,
            dims: 0,
        },
        name: Name::from_text(alloc, "f")?,
    })
}

fn class(alloc: Global, number: u32, fields: Seq<Field>) -> Result<Member, NoMemory> {
    Ok(Member {
        id: number,
        key: Key::OfType(name(alloc, number)?),
        header: Header::OfType {
            interface: false,
            is_abstract: false,
            name: name(alloc, number)?,
            extends: Seq::new(alloc),
            implements: Seq::new(alloc),
            fields,
            methods: Seq::new(alloc),
            constructors: Seq::new(alloc),
        },
        link: None,
    })
}

fn one_field(alloc: Global, number: u32) -> Result<Seq<Field>, NoMemory> {
    let mut fields = Vec::new(alloc);
    fields.push(field(alloc, number)?)?;
    Ok(Seq::from_vec(fields))
}

fn chain(alloc: Global, count: u32) -> Result<Vec<Member>, NoMemory> {
    let mut members = Vec::new(alloc);
    for number in 0..count {
        let fields = one_field(alloc, number.wrapping_add(1))?;
        members.push(class(alloc, number, fields)?)?;
    }
    Ok(members)
}

fn seen(alloc: Global, count: u32, ends: bool) -> Result<usize, NoMemory> {
    let mut members = chain(alloc, count)?;
    if ends {
        members.push(class(alloc, count, Seq::new(alloc))?)?;
    }
    let library = table(alloc)?;
    let marks = visible(alloc, members.as_slice(), &library)?;
    Ok(marks.iter().filter(|mark| **mark).count())
}

/// The numbers that the two words behind the program's name say, or none.
fn counts(all: std::env::Args) -> (u32, u32) {
    let mut classes = 0;
    let mut ends = 0;
    for (place, word) in all.enumerate() {
        let number = word.as_str().parse::<u32>().unwrap_or(0);
        if place == 1 {
            classes = number;
        } else if place == 2 {
            ends = number;
        }
    }
    (classes, ends)
}

fn main(rt: HostRuntime) -> io::Result<()> {
    let (classes, ends) = counts(args(&rt)?);
    match seen(rt.alloc(), classes, ends == 1) {
        Ok(seen) => println!(rt; "{seen}")?,
        Err(NoMemory) => println!(rt; "no memory")?,
    }
    Ok(())
}
