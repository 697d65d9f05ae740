ghost use Rattle.std.specs.Prelude.{◌≡◌};
ghost use Rattle.jsh_typed.specs.Types as spec;

use jsh_text::KindName;
use jsh_tree::{Link, Name};

/// A class or an interface, by what declares it.
#[derive(Drop)]
pub enum ClassName {
    /// Of the library, by its simple name. `String` is a type of its own.
    Library(Name),
    Snippet(Link),
}

/// A type that is no array (JLS 4.2, 4.3).
#[derive(Drop)]
pub enum Element {
    Int,
    Long,
    Char,
    Boolean,
    /// `String`
    Text,
    Class(ClassName),
}

/// The type of an expression that has a value. No type stands for `void`.
#[derive(Drop)]
pub enum ResolvedType {
    /// The type of `null` (JLS 4.1).
    Null,
    /// An array where there are dimensions (JLS 10.1), and else the element's type.
    Of { element: Element, dims: u32 },
}

/// A type of numbers (JLS 4.2).
#[derive(Clone, Copy, Debug, PartialEq, Eq)]
pub enum Numeric {
    Int,
    Long,
    Char,
}

/// A type that operators compute in (JLS 5.6).
#[derive(Clone, Copy, Debug, PartialEq, Eq)]
pub enum Promoted {
    Int,
    Long,
}

impl ClassName {
    pub fn is(&self, other: &ClassName) -> bool
        ensures { result ≡ spec.same_class self.now other.now }
    {
        match (self, other) {
            (ClassName::Library(name), ClassName::Library(other)) => name == other,
            (ClassName::Snippet(link), ClassName::Snippet(other)) => link == other,
            _ => false,
        }
    }

    /// Whether it is `Object`, the supertype of every class, interface and array.
    pub fn is_object(&self) -> bool
        ensures { result ≡ spec.is_object self.now }
    {
        match self {
            ClassName::Library(name) => name.as_str() == "Object",
            ClassName::Snippet(_) => false,
        }
    }
}

impl Element {
    pub fn is(&self, other: &Element) -> bool
        ensures { result ≡ spec.same_element self.now other.now }
    {
        match (self, other) {
            (Element::Int, Element::Int)
            | (Element::Long, Element::Long)
            | (Element::Char, Element::Char)
            | (Element::Boolean, Element::Boolean)
            | (Element::Text, Element::Text) => true,
            (Element::Class(class), Element::Class(other)) => class.is(other),
            _ => false,
        }
    }

    pub fn is_object(&self) -> bool
        ensures { result ≡ spec.is_object_element self.now }
    {
        match self {
            Element::Class(class) => class.is_object(),
            _ => false,
        }
    }

    pub fn is_reference(&self) -> bool
        ensures { result ≡ spec.is_reference_element self.now }
    {
        match self {
            Element::Text | Element::Class(_) => true,
            _ => false,
        }
    }

    pub fn numeric(&self) -> Option<Numeric>
        ensures { result ≡ spec.numeric_element self.now }
    {
        match self {
            Element::Int => Some(Numeric::Int),
            Element::Long => Some(Numeric::Long),
            Element::Char => Some(Numeric::Char),
            _ => None,
        }
    }

    /// Whether a value of the type may be of the kind. An `Object` may be a text.
    pub fn has_kind(&self, kind: KindName) -> bool
        ensures { result ≡ spec.element_has_kind self.now kind }
    {
        match (self, kind) {
            (Element::Int, KindName::Int)
            | (Element::Long, KindName::Long)
            | (Element::Char, KindName::Char)
            | (Element::Boolean, KindName::Boolean) => true,
            (Element::Text, KindName::Text) | (Element::Text, KindName::Null) => true,
            (Element::Class(_), KindName::Ref) | (Element::Class(_), KindName::Null) => true,
            (Element::Class(class), KindName::Text) => class.is_object(),
            _ => false,
        }
    }
}

impl ResolvedType {
    pub fn is(&self, other: &ResolvedType) -> bool
        ensures { result ≡ spec.same_type self.now other.now }
    {
        match (self, other) {
            (ResolvedType::Null, ResolvedType::Null) => true,
            (
                ResolvedType::Of { element, dims },
                ResolvedType::Of {
                    element: other_element,
                    dims: other_dims,
                },
            ) => dims == other_dims && element.is(other_element),
            _ => false,
        }
    }

    /// Whether it is the type of `null`, `String`, a class, an interface or an array.
    pub fn is_reference(&self) -> bool
        ensures { result ≡ spec.is_reference self.now }
    {
        match self {
            ResolvedType::Null => true,
            ResolvedType::Of { element, dims } => *dims != 0 || element.is_reference(),
        }
    }

    pub fn is_text(&self) -> bool
        ensures { result ≡ spec.is_text self.now }
    {
        match self {
            ResolvedType::Of {
                element: Element::Text,
                dims,
            } => *dims == 0,
            _ => false,
        }
    }

    pub fn is_char(&self) -> bool
        ensures { result ≡ spec.is_char self.now }
    {
        match self {
            ResolvedType::Of {
                element: Element::Char,
                dims,
            } => *dims == 0,
            _ => false,
        }
    }

    pub fn is_boolean(&self) -> bool
        ensures { result ≡ spec.is_boolean self.now }
    {
        match self {
            ResolvedType::Of {
                element: Element::Boolean,
                dims,
            } => *dims == 0,
            _ => false,
        }
    }

    pub fn numeric(&self) -> Option<Numeric>
        ensures { result ≡ spec.numeric_of self.now }
    {
        match self {
            ResolvedType::Null => None,
            ResolvedType::Of { element, dims } => {
                if *dims == 0 { element.numeric() } else { None }
            }
        }
    }

    /// Whether a value of the type may be of the kind. `null` is of every reference type.
    pub fn has_kind(&self, kind: KindName) -> bool
        ensures { result ≡ spec.has_kind self.now kind }
    {
        match self {
            ResolvedType::Null => kind == KindName::Null,
            ResolvedType::Of { element, dims } => {
                if *dims == 0 {
                    element.has_kind(kind)
                } else {
                    kind == KindName::Ref || kind == KindName::Null
                }
            }
        }
    }
}

impl Numeric {
    /// Unary numeric promotion (JLS 5.6.1).
    pub fn promoted(self) -> Promoted
        ensures { result ≡ spec.promoted self }
    {
        match self {
            Numeric::Long => Promoted::Long,
            _ => Promoted::Int,
        }
    }

    /// Binary numeric promotion (JLS 5.6.2).
    pub fn promoted_with(self, other: Numeric) -> Promoted
        ensures { result ≡ spec.promoted_with self other }
    {
        match (self, other) {
            (Numeric::Long, _) | (_, Numeric::Long) => Promoted::Long,
            _ => Promoted::Int,
        }
    }

    /// Whether it is the same type, or a wider one (JLS 5.1.2).
    pub fn widens_to(self, target: Numeric) -> bool
        ensures { result ≡ spec.number_widens self target }
    {
        match (self, target) {
            (Numeric::Char, _) | (_, Numeric::Long) | (Numeric::Int, Numeric::Int) => true,
            _ => false,
        }
    }
}
