//! What need not come of a frame, and what may.

ghost use Rattle.std.specs.Prelude.{◌≡◌, MatchOption};
ghost use Rattle.jsh_recognizer.specs.Machine as machine;
ghost use Rattle.jsh_recognizer.specs.Recognizing.{WillTake, AlwaysPasses};

use crate::frame::{Context, Ending, Frame};
use jsh_tree::TokenKind;

/// Whether an operand that so ends may be all there is.
fn may_end(context: Context, ending: Ending) -> bool
    ensures { result ≡ machine.may_end context ending }
{
    match context {
        Context::Expression | Context::Operand => true,
        Context::Target => matches!(ending, Ending::Name | Ending::Place),
        Context::Effect => matches!(ending, Ending::Call),
    }
}

/// Whether nothing more need come of a frame.
pub fn may_stop(frame: Frame) -> bool
    ensures { result ≡ machine.may_stop frame }
{
    match frame {
        Frame::Path { context, ending } => may_end(context, ending),
        Frame::Enclosed(context) | Frame::NewSized(context) | Frame::NewUnsized(context) => {
            may_end(context, Ending::Other)
        }
        Frame::Operators { .. }
        | Frame::Brackets
        | Frame::Else
        | Frame::Initialized
        | Frame::MoreCatches
        | Frame::Superclass
        | Frame::NamesBehind(_)
        | Frame::MoreNames => true,
        _ => false,
    }
}

/// A kind of token that a frame takes, if it takes any.
pub fn wanted_by(frame: Frame) -> Option<TokenKind>
    ensures { MatchOption result (AlwaysPasses frame) (WillTake frame) }
{
    match frame {
        Frame::Expect(kind) => Some(kind),
        Frame::NamesBehind(word) => match word {
            TokenKind::Implements | TokenKind::Extends | TokenKind::Throws => Some(word),
            _ => None,
        },
        Frame::Operators { .. } => Some(TokenKind::Question),
        Frame::Path { .. } => Some(TokenKind::Dot),
        Frame::Opened(_)
        | Frame::Enclosed(_)
        | Frame::New(_)
        | Frame::Member(_)
        | Frame::Unsigned
        | Frame::Type => Some(TokenKind::Identifier),
        Frame::Expression
        | Frame::Conditional
        | Frame::Operand
        | Frame::Target
        | Frame::Effect
        | Frame::Initial => Some(TokenKind::Identifier),
        Frame::Statement
        | Frame::Named
        | Frame::Variable
        | Frame::ForVariable
        | Frame::ForNamed
        | Frame::CatchType => Some(TokenKind::Identifier),
        Frame::Snippet
        | Frame::Import
        | Frame::DottedName
        | Frame::Declaration
        | Frame::NamedSnippet
        | Frame::Names => Some(TokenKind::Identifier),
        Frame::Parameter | Frame::ClassMember | Frame::NamedMember | Frame::Signature => {
            Some(TokenKind::Identifier)
        }
        Frame::OpenedName(_)
        | Frame::CastType { .. }
        | Frame::Arguments
        | Frame::MoreArguments
        | Frame::ForUpdate
        | Frame::ParametersInside
        | Frame::MoreParameters => Some(TokenKind::RightParen),
        Frame::OpenedPair(_)
        | Frame::NewOpened(_)
        | Frame::NewSizedOpened(_)
        | Frame::NewUnsizedOpened(_)
        | Frame::NamedPair
        | Frame::ForPair
        | Frame::NamedSnippetPair => Some(TokenKind::RightBracket),
        Frame::NewNamed(_)
        | Frame::OpenArguments
        | Frame::Condition
        | Frame::For
        | Frame::Parameters
        | Frame::ThisFirst
        | Frame::SuperFirst => Some(TokenKind::LeftParen),
        Frame::NewPrimitive(_)
        | Frame::NewFilled(_)
        | Frame::NewSized(_)
        | Frame::NewUnsized(_)
        | Frame::Brackets => Some(TokenKind::LeftBracket),
        Frame::Values
        | Frame::MoreValues
        | Frame::Statements
        | Frame::Groups
        | Frame::Group
        | Frame::Members
        | Frame::FirstCall
        | Frame::Signatures => Some(TokenKind::RightBrace),
        Frame::Block
        | Frame::Switch
        | Frame::ClassBody
        | Frame::ConstructorBody
        | Frame::InterfaceBody => Some(TokenKind::LeftBrace),
        Frame::Else => Some(TokenKind::Else),
        Frame::Initialized => Some(TokenKind::Assign),
        Frame::Returned
        | Frame::ForStart
        | Frame::ForTyped
        | Frame::ForCondition
        | Frame::MoreDotted
        | Frame::MethodOrVariable
        | Frame::FieldOrMethod
        | Frame::MethodBody => Some(TokenKind::Semicolon),
        Frame::ForInferred => Some(TokenKind::Assign),
        Frame::CaseValue | Frame::NegativeValue => Some(TokenKind::IntLiteral),
        Frame::Catches | Frame::MoreCatches => Some(TokenKind::Catch),
        Frame::Superclass => Some(TokenKind::Extends),
        Frame::MoreNames => Some(TokenKind::Comma),
    }
}
