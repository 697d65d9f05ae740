ghost use Rattle.std.specs.Prelude.{◌≡◌, Some, IfOk, OnErr};
ghost use Rattle.jsh_text.specs.declared.value.KindName.TheVariants.{Text};
ghost use Rattle.jsh_text.specs.Value.{kind_of, kind_text};

use crate::memory::NoMemory;
use crate::utext::UText;
use std::fmt;

/// What a variable, a field or an operand of the program holds. A reference to a text is the text.
#[derive(Clone, Debug, Drop, PartialEq, Eq)]
pub enum Value {
    Int(i32),
    Long(i64),
    /// A UTF-16 unit.
    Char(u16),
    Boolean(bool),
    Text(UText),
    /// The number of an object.
    Ref(u32),
    Null,
}

/// The kinds of values, one for each variant of `Value`.
#[derive(Clone, Copy, Debug, PartialEq, Eq)]
pub enum KindName {
    Int,
    Long,
    Char,
    Boolean,
    Text,
    Ref,
    Null,
}

impl Value {
    pub fn kind(&self) -> KindName
        ensures { result ≡ kind_of self.now }
    {
        match self {
            Value::Int(_) => KindName::Int,
            Value::Long(_) => KindName::Long,
            Value::Char(_) => KindName::Char,
            Value::Boolean(_) => KindName::Boolean,
            Value::Text(_) => KindName::Text,
            Value::Ref(_) => KindName::Ref,
            Value::Null => KindName::Null,
        }
    }

    /// `clone`, whose want of memory is `NoMemory`. It comes of a text alone.
    pub fn copy(&self) -> Result<Value, NoMemory>
        ensures value { IfOk result (λ value. value ≡ self.now) }
        ensures err { OnErr result (kind_of self.now ≡ Text) }
    {
        match self {
            Value::Int(number) => Ok(Value::Int(*number)),
            Value::Long(number) => Ok(Value::Long(*number)),
            Value::Char(unit) => Ok(Value::Char(*unit)),
            Value::Boolean(truth) => Ok(Value::Boolean(*truth)),
            Value::Text(text) => Ok(Value::Text(text.copy()?)),
            Value::Ref(object) => Ok(Value::Ref(*object)),
            Value::Null => Ok(Value::Null),
        }
    }
}

impl KindName {
    /// The name in lower case.
    pub fn as_str(&self) -> &'static str
        ensures { result.now ≡ kind_text self.now }
    {
        match self {
            KindName::Int => "int",
            KindName::Long => "long",
            KindName::Char => "char",
            KindName::Boolean => "boolean",
            KindName::Text => "text",
            KindName::Ref => "ref",
            KindName::Null => "null",
        }
    }
}

impl fmt::Display for KindName {
    ghost output = { λ kind. Some (kind_text kind) };

    fn fmt<W: fmt::Write>(&self, f: &mut fmt::Formatter<W>) -> fmt::Result {
        f.write_str(self.as_str())
    }
}
