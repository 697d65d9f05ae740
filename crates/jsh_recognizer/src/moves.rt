//! What each frame does with a token.

ghost use Rattle.std.specs.Prelude.{◌≤◌, ◌^◌};
ghost use Rattle.jsh_recognizer.specs.Machine as machine;
ghost use Rattle.jsh_recognizer.specs.Stacks.{frames_of, HasRoom, Does};

use crate::answer::Answer;
use crate::creations::{
    new_begins, new_filled, new_named, new_opened, new_primitive, new_sized, new_sized_opened,
    new_unsized, new_unsized_opened,
};
use crate::declarations::{
    class_body, class_member, constructor_body, declaration_behind, dotted_name, field_or_method,
    first_call, import_name, interface_body, members, method_body, method_or_variable, more_dotted,
    more_names, more_parameters, named_member, named_snippet, named_snippet_pair, names,
    names_behind, parameter, parameters, parameters_inside, signature, signatures, snippet,
    super_first, superclass, this_first,
};
use crate::frame::{Context, Frame};
use crate::fresh::Fresh;
use crate::operands::{
    arguments, begins, begins_inside, behind_operand, behind_path, brackets, cast_type, enclosed,
    initial, member, more_arguments, more_values, open_arguments, opened, opened_name, opened_pair,
    type_use, unsigned, values,
};
use crate::statements::{
    block, case_value, catch_type, catches, condition, else_branch, for_condition, for_head,
    for_inferred, for_named, for_pair, for_start, for_typed, for_update, for_variable, group,
    groups, initialized, more_catches, named, named_pair, negative_value, returned, statement,
    statements, switch_block, variable,
};
use jsh_tree::TokenKind;

/// What a frame does with a token, but for a token that it expects.
pub fn move_of(fresh: &mut Fresh, depth: u64, frame: Frame, kind: TokenKind) -> Answer
    requires fits { depth ≤ 2 ^ 32 }
    requires room { HasRoom 8 fresh.now }
    ensures { Does depth (machine.move_of frame kind) (frames_of fresh.old) (frames_of fresh.new) result }
{
    match frame {
        Frame::Expect(_) => Answer::Refused,
        Frame::Expression => begins(fresh, depth, Context::Expression, kind),
        Frame::Conditional => begins_inside(
            fresh,
            depth,
            0,
            &[(0, Frame::Operators { behind_type: false })],
            Context::Operand,
            kind,
        ),
        Frame::Operand => begins(fresh, depth, Context::Operand, kind),
        Frame::Unsigned => unsigned(fresh, depth, kind),
        Frame::Target => begins(fresh, depth, Context::Target, kind),
        Frame::Effect => begins(fresh, depth, Context::Effect, kind),
        Frame::Operators { behind_type } => behind_operand(fresh, depth, behind_type, kind),
        Frame::Path { context, ending } => behind_path(fresh, depth, context, ending, kind),
        Frame::Member(context) => member(fresh, depth, context, kind),
        Frame::Opened(context) => opened(fresh, depth, context, kind),
        Frame::OpenedName(context) => opened_name(fresh, depth, context, kind),
        Frame::OpenedPair(context) => opened_pair(fresh, depth, context, kind),
        Frame::CastType {
            is_primitive,
            context,
        } => cast_type(fresh, depth, is_primitive, context, kind),
        Frame::Enclosed(context) => enclosed(fresh, depth, context, kind),
        Frame::New(context) => new_begins(fresh, depth, context, kind),
        Frame::NewNamed(context) => new_named(fresh, depth, context, kind),
        Frame::NewPrimitive(context) => new_primitive(fresh, depth, context, kind),
        Frame::NewOpened(context) => new_opened(fresh, depth, context, kind),
        Frame::NewFilled(context) => new_filled(fresh, depth, context, kind),
        Frame::NewSized(context) => new_sized(fresh, depth, context, kind),
        Frame::NewSizedOpened(context) => new_sized_opened(fresh, depth, context, kind),
        Frame::NewUnsized(context) => new_unsized(fresh, depth, context, kind),
        Frame::NewUnsizedOpened(context) => new_unsized_opened(fresh, depth, context, kind),
        Frame::OpenArguments => open_arguments(fresh, depth, kind),
        Frame::Arguments => arguments(fresh, depth, kind),
        Frame::MoreArguments => more_arguments(fresh, depth, kind),
        Frame::Values => values(fresh, depth, kind),
        Frame::MoreValues => more_values(fresh, depth, kind),
        Frame::Initial => initial(fresh, depth, kind),
        Frame::Type => type_use(fresh, depth, kind),
        Frame::Brackets => brackets(fresh, depth, kind),
        Frame::Statement => statement(fresh, depth, kind),
        Frame::Condition => condition(fresh, depth, kind),
        Frame::Else => else_branch(fresh, depth, kind),
        Frame::Block => block(fresh, depth, kind),
        Frame::Statements => statements(fresh, depth, kind),
        Frame::Named => named(fresh, depth, kind),
        Frame::NamedPair => named_pair(fresh, depth, kind),
        Frame::Variable => variable(fresh, depth, kind),
        Frame::Initialized => initialized(fresh, depth, kind),
        Frame::Returned => returned(fresh, depth, kind),
        Frame::For => for_head(fresh, depth, kind),
        Frame::ForStart => for_start(fresh, depth, kind),
        Frame::ForVariable => for_variable(fresh, depth, kind),
        Frame::ForInferred => for_inferred(fresh, depth, kind),
        Frame::ForTyped => for_typed(fresh, depth, kind),
        Frame::ForNamed => for_named(fresh, depth, kind),
        Frame::ForPair => for_pair(fresh, depth, kind),
        Frame::ForCondition => for_condition(fresh, depth, kind),
        Frame::ForUpdate => for_update(fresh, depth, kind),
        Frame::Switch => switch_block(fresh, depth, kind),
        Frame::Groups => groups(fresh, depth, kind),
        Frame::Group => group(fresh, depth, kind),
        Frame::CaseValue => case_value(fresh, depth, kind),
        Frame::NegativeValue => negative_value(fresh, depth, kind),
        Frame::Catches => catches(fresh, depth, kind),
        Frame::MoreCatches => more_catches(fresh, depth, kind),
        Frame::CatchType => catch_type(fresh, depth, kind),
        Frame::Snippet => snippet(fresh, depth, kind),
        Frame::Import => import_name(fresh, depth, kind),
        Frame::DottedName => dotted_name(fresh, depth, kind),
        Frame::MoreDotted => more_dotted(fresh, depth, kind),
        Frame::Declaration => declaration_behind(fresh, depth, kind),
        Frame::MethodOrVariable => method_or_variable(fresh, depth, kind),
        Frame::NamedSnippet => named_snippet(fresh, depth, kind),
        Frame::NamedSnippetPair => named_snippet_pair(fresh, depth, kind),
        Frame::Superclass => superclass(fresh, depth, kind),
        Frame::NamesBehind(word) => names_behind(fresh, depth, word, kind),
        Frame::Names => names(fresh, depth, kind),
        Frame::MoreNames => more_names(fresh, depth, kind),
        Frame::Parameters => parameters(fresh, depth, kind),
        Frame::ParametersInside => parameters_inside(fresh, depth, kind),
        Frame::Parameter => parameter(fresh, depth, kind),
        Frame::MoreParameters => more_parameters(fresh, depth, kind),
        Frame::ClassBody => class_body(fresh, depth, kind),
        Frame::Members => members(fresh, depth, kind),
        Frame::ClassMember => class_member(fresh, depth, kind),
        Frame::NamedMember => named_member(fresh, depth, kind),
        Frame::FieldOrMethod => field_or_method(fresh, depth, kind),
        Frame::MethodBody => method_body(fresh, depth, kind),
        Frame::ConstructorBody => constructor_body(fresh, depth, kind),
        Frame::FirstCall => first_call(fresh, depth, kind),
        Frame::ThisFirst => this_first(fresh, depth, kind),
        Frame::SuperFirst => super_first(fresh, depth, kind),
        Frame::InterfaceBody => interface_body(fresh, depth, kind),
        Frame::Signatures => signatures(fresh, depth, kind),
        Frame::Signature => signature(fresh, depth, kind),
    }
}
