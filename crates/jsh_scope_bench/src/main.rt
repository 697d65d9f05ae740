//! Makes an environment of as many members as its first word says, asks it as many names as its second
//! word says, and prints how many answers there were. `bench/environment.sh` takes the time.
#![tactic(auto)]

use jsh_library::table;
use jsh_scope::Env;
use jsh_text::NoMemory;
use jsh_tree::{Header, Key, Link, Member, Name, Seq, TypeWritten};
use std::alloc::Global;
use std::env::args;
use std::io;

fn name(alloc: Global, letter: &str, number: u32) -> Result<Name, NoMemory> {
    let text = format!(in alloc; "{letter}{number}")?;
    Ok(Name::from_text(alloc, text.as_str())?)
}

fn int(alloc: Global) -> Result<TypeWritten, NoMemory> {
    Ok(TypeWritten {
        name: Name::from_text(alloc, "int")?,
        dims: 0,
    })
}

fn variable_key(alloc: Global, number: u32) -> Result<Key, NoMemory> {
    Ok(Key::OfVar(name(alloc, "v", number)?))
}

fn method_key(alloc: Global, number: u32) -> Result<Key, NoMemory> {
    Ok(Key::OfMethod {
        name: name(alloc, "f", number)?,
        params: Seq::new(alloc),
    })
}

fn class_key(alloc: Global, number: u32) -> Result<Key, NoMemory> {
    Ok(Key::OfType(name(alloc, "C", number)?))
}

/// A variable, a method or a class that extends the one before it, by the number's remainder.
fn key(alloc: Global, number: u32) -> Result<Key, NoMemory> {
    match number % 3 {
        0 => variable_key(alloc, number),
        1 => method_key(alloc, number),
        _ => class_key(alloc, number),
    }
}

fn class_header(alloc: Global, number: u32) -> Result<Header, NoMemory> {
    let mut extends = Vec::new(alloc);
    if 3 <= number {
        extends.push(name(alloc, "C", number - 3)?)?;
    }
    Ok(Header::OfType {
        interface: false,
        is_abstract: false,
        name: name(alloc, "C", number)?,
        extends: Seq::from_vec(extends),
        implements: Seq::new(alloc),
        fields: Seq::new(alloc),
        methods: Seq::new(alloc),
        constructors: Seq::new(alloc),
    })
}

fn header(alloc: Global, number: u32) -> Result<Header, NoMemory> {
    match number % 3 {
        0 => Ok(Header::OfVar(int(alloc)?)),
        1 => Ok(Header::OfMethod {
            result: Some(int(alloc)?),
            params: Seq::new(alloc),
        }),
        _ => class_header(alloc, number),
    }
}

fn member(alloc: Global, number: u32) -> Result<Member, NoMemory> {
    Ok(Member {
        id: number,
        key: key(alloc, number)?,
        header: header(alloc, number)?,
        link: Some(Link {
            key: key(alloc, number)?,
            generation: 1,
        }),
    })
}

fn environment(alloc: Global, count: u32) -> Result<Env, NoMemory> {
    let mut members = Vec::new(alloc);
    for number in 0..count {
        members.push(member(alloc, number)?)?;
    }
    let library = table(alloc)?;
    Env::new(alloc, members.as_slice(), &library)
}

/// Whether the member of this number is found by its name.
fn is_found(alloc: Global, env: &Env, number: u32) -> Result<bool, NoMemory> {
    match number % 3 {
        0 => Ok(env.var_named(&name(alloc, "v", number)?).is_some()),
        1 => Ok(
            !env.methods_named(alloc, &name(alloc, "f", number)?)?
                .is_empty(),
        ),
        _ => Ok(env.type_named(&name(alloc, "C", number)?).is_some()),
    }
}

fn found(alloc: Global, members: u32, names: u32) -> Result<u32, NoMemory> {
    let env = environment(alloc, members)?;
    let mut found = 0u32;
    for number in 0..names {
        if is_found(alloc, &env, number)? {
            found = found.wrapping_add(1);
        }
    }
    Ok(found)
}

/// The numbers that the two words behind the program's name say, or none.
fn counts(all: std::env::Args) -> (u32, u32) {
    let mut members = 0;
    let mut names = 0;
    for (place, word) in all.enumerate() {
        let number = word.as_str().parse::<u32>().unwrap_or(0);
        if place == 1 {
            members = number;
        } else if place == 2 {
            names = number;
        }
    }
    (members, names)
}

fn main(rt: HostRuntime) -> io::Result<()> {
    let (members, names) = counts(args(&rt)?);
    match found(rt.alloc(), members, names) {
        Ok(found) => println!(rt; "{found}")?,
        Err(NoMemory) => println!(rt; "no memory")?,
    }
    Ok(())
}
