ghost use Rattle.std.specs.Prelude.{◌≡◌, ◌==◌, [], ◌∷◌, ◌++◌, length, ◌↔◌, IsTrue, IfOk, OnOk, OnErr};
ghost use Rattle.std.specs.Str.{chars};
ghost use Rattle.jsh_text.specs.Utf.{utf16, utf8};
ghost use Rattle.std.specs.Cmp.Lexicographic.{pointwise};
ghost use Rattle.std.specs.Cmp.Rules.{comparing};
ghost use Rattle.std.proofs.Common.{rules};

use crate::memory::NoMemory;
use crate::utf8::shown;
use std::alloc::{AllocError, Global};
use std::marker::Model;

/// A text as Java has it: a list of UTF-16 units, in which a surrogate may lack its partner.
#[derive(Debug, Drop)]
pub struct UText {
    units: Vec<u16>,
}

impl Model for UText {
    ghost use Rattle.std.specs.Prelude.{ℕ, List};

    ghost Value = { List ℕ };

    ghost view = { λ t. t.units.items };
}

impl UText {
    /// The empty text, which takes no memory yet.
    pub fn new(alloc: Global) -> UText
        ensures { result ≡ [] }
    {
        UText {
            units: Vec::new(alloc),
        }
    }

    pub fn from_units(alloc: Global, units: &[u16]) -> Result<UText, NoMemory>
        ensures { IfOk result (λ text. text ≡ units.now) }
    {
        let units = Vec::from_slice(alloc, units)?;
        Ok(UText { units })
    }

    /// Each byte is the unit of the same number, so ASCII text is itself.
    pub fn from_latin1(alloc: Global, bytes: &[u8]) -> Result<UText, NoMemory>
        ensures { IfOk result (λ text. text ≡ bytes.now) }
    {
        let units = widened(alloc, bytes)?;
        Ok(UText { units })
    }

    pub fn from_str(alloc: Global, text: &str) -> Result<UText, NoMemory>
        ensures units { IfOk result (λ units. units ≡ utf16 (chars text.now)) }
        ensures shown { IfOk result (λ units. utf8 units ≡ text.now) }
    {
        let units = encoded(alloc, text)?;
        Ok(UText { units })
    }

    /// Takes the units over, without memory.
    pub fn from_vec(units: Vec<u16>) -> UText
        ensures { result ≡ units.items }
    {
        UText { units }
    }

    pub fn as_slice(&self) -> &[u16]
        ensures { result.now ≡ self.now }
    {
        self.units.as_slice()
    }

    /// The number of units, as `String.length` counts them.
    pub fn len(&self) -> usize
        ensures { result ≡ length self.now }
    {
        self.units.len()
    }

    pub fn is_empty(&self) -> bool
        ensures { IsTrue result ↔ (self.now ≡ []) }
    {
        self.units.is_empty()
    }

    pub fn push(&mut self, unit: u16) -> Result<(), NoMemory>
        ensures ok { OnOk result (self.new ≡ self.old ++ unit ∷ []) }
        ensures err { OnErr result (self.new ≡ self.old) }
    {
        self.units.push(unit)?;
        Ok(())
    }

    pub fn push_units(&mut self, units: &[u16]) -> Result<(), NoMemory>
        ensures ok { OnOk result (self.new ≡ self.old ++ units.now) }
        ensures err { OnErr result (self.new ≡ self.old) }
    {
        self.units.extend_from_slice(units)?;
        Ok(())
    }

    pub fn append(&mut self, more: &UText) -> Result<(), NoMemory>
        ensures ok { OnOk result (self.new ≡ self.old ++ more.now) }
        ensures err { OnErr result (self.new ≡ self.old) }
    {
        self.push_units(more.as_slice())
    }

    pub fn push_str(&mut self, text: &str) -> Result<(), NoMemory>
        ensures ok { OnOk result (self.new ≡ self.old ++ utf16 (chars text.now)) }
        ensures err { OnErr result (self.new ≡ self.old) }
    {
        let more = encoded(*self.units.allocator(), text)?;
        self.push_units(more.as_slice())
    }

    /// Appends each byte as the unit of the same number, so ASCII text as itself.
    pub fn push_latin1(&mut self, bytes: &[u8]) -> Result<(), NoMemory>
        ensures ok { OnOk result (self.new ≡ self.old ++ bytes.now) }
        ensures err { OnErr result (self.new ≡ self.old) }
    {
        let more = widened(*self.units.allocator(), bytes)?;
        self.push_units(more.as_slice())
    }

    /// `clone`, whose want of memory is `NoMemory`.
    pub fn copy(&self) -> Result<UText, NoMemory>
        ensures { IfOk result (λ text. text ≡ self.now) }
    {
        Ok(self.clone()?)
    }

    /// The text in UTF-8, with `?` for each surrogate that has no partner.
    pub fn to_utf8(&self, alloc: Global) -> Result<Vec<u8>, NoMemory>
        ensures { IfOk result (λ bytes. bytes.items ≡ utf8 self.now) }
    {
        let text = shown(alloc, self.as_slice())?;
        Ok(text.into_bytes())
    }
}

// The characters of a text, each as its one or two units.
fn encoded(alloc: Global, text: &str) -> Result<Vec<u16>, NoMemory>
    ensures { IfOk result (λ units. units.items ≡ utf16 (chars text.now)) }
{
    let mut units = Vec::with_capacity(alloc, text.len())?;
    for character in text.chars() {
        let mut buffer = [0; 2];
        units.extend_from_slice(character.encode_utf16(&mut buffer))?;
    }
    Ok(units)
}

impl Clone for UText {
    ghost is_clone = { λ text copy. copy ≡ text };

    fn clone(&self) -> Result<UText, AllocError> {
        let units = Vec::from_slice(*self.units.allocator(), self.as_slice())?;
        Ok(UText { units })
    }
}

impl PartialEq for UText {
    ghost eq = { pointwise ◌==◌ };

    ghost laws = { Prim.search (comparing, rules) };

    fn eq(&self, other: &UText) -> bool {
        self.as_slice() == other.as_slice()
    }
}

impl Eq for UText {
    ghost laws = { Prim.search (comparing, rules) };
}

// Each byte as the unit of the same number.
fn widened(alloc: Global, bytes: &[u8]) -> Result<Vec<u16>, NoMemory>
    ensures { IfOk result (λ units. units.items ≡ bytes.now) }
{
    let mut units = Vec::with_capacity(alloc, bytes.len())?;
    for byte in bytes {
        units.push(*byte as u16)?;
    }
    Ok(units)
}
