use crate::*;
use jsh_text::UText;
use jsh_tree::{
    Block, Boxed, ClassDeclaration, Expr, Field, FieldDeclaration, Header, Identifier, Import,
    InterfaceDeclaration, Key, Literal, MemberDeclaration, MethodDeclaration, Name, Parameter, Seq,
    Signature, Span, Tree, TypeUse, TypeWritten, Variable,
};
use std::alloc::Global;
use std::test::Fail;

const NOWHERE: Span = Span { from: 0, to: 0 };

fn identifier(alloc: Global, text: &str) -> Result<Identifier, Fail> {
    Ok(Identifier {
        name: Name::from_text(alloc, text)?,
        span: NOWHERE,
    })
}

fn written(alloc: Global, name: &str, dims: u32) -> Result<TypeWritten, Fail> {
    Ok(TypeWritten {
        name: Name::from_text(alloc, name)?,
        dims,
    })
}

fn type_use(alloc: Global, name: &str, dims: u32) -> Result<TypeUse, Fail> {
    Ok(TypeUse {
        written: written(alloc, name, dims)?,
        span: NOWHERE,
    })
}

fn one<T: Drop>(alloc: Global, item: T) -> Result<Seq<T>, Fail> {
    let mut items = Vec::new(alloc);
    items.push(item)?;
    Ok(Seq::from_vec(items))
}

fn two<T: Drop>(alloc: Global, first: T, second: T) -> Result<Seq<T>, Fail> {
    let mut items = Vec::new(alloc);
    items.push(first)?;
    items.push(second)?;
    Ok(Seq::from_vec(items))
}

/// `long f(int a, C[] b)` with this body.
fn method(alloc: Global, body: Option<Block>) -> Result<MethodDeclaration, Fail> {
    let first = Parameter {
        is_final: false,
        written: type_use(alloc, "int", 0)?,
        name: identifier(alloc, "a")?,
    };
    let second = Parameter {
        is_final: false,
        written: type_use(alloc, "C", 1)?,
        name: identifier(alloc, "b")?,
    };
    Ok(MethodDeclaration {
        modifiers: Seq::new(alloc),
        result: Some(type_use(alloc, "long", 0)?),
        name: identifier(alloc, "f")?,
        parameters: two(alloc, first, second)?,
        throws: Seq::new(alloc),
        body,
    })
}

/// The parameter types of that method.
fn parameters(alloc: Global) -> Result<Seq<TypeWritten>, Fail> {
    two(alloc, written(alloc, "int", 0)?, written(alloc, "C", 1)?)
}

fn signature(alloc: Global, is_abstract: bool) -> Result<Signature, Fail> {
    Ok(Signature {
        name: Name::from_text(alloc, "f")?,
        result: Some(written(alloc, "long", 0)?),
        params: parameters(alloc)?,
        is_abstract,
    })
}

fn shows(alloc: Global, name: &UText, text: &str) -> Result<bool, Fail> {
    Ok(*name == UText::from_str(alloc, text)?)
}

/// `class A extends B { D d; long f(int a, C[] b); }`
#[test]
fn class_without_constructor(rt: HostRuntime) -> Result<(), Fail> {
    let alloc = rt.alloc();
    let field = FieldDeclaration {
        modifiers: Seq::new(alloc),
        written: type_use(alloc, "D", 0)?,
        name: identifier(alloc, "d")?,
        initial: None,
    };
    let members = two(
        alloc,
        MemberDeclaration::Field(field),
        MemberDeclaration::Method(method(alloc, None)?),
    )?;
    let tree = Tree::Class(ClassDeclaration {
        modifiers: Seq::new(alloc),
        name: identifier(alloc, "A")?,
        extends: Some(identifier(alloc, "B")?),
        implements: Seq::new(alloc),
        members,
    });
    let header = header_of(alloc, &None, &tree)?;
    let expected = Header::OfType {
        interface: false,
        is_abstract: false,
        name: Name::from_text(alloc, "A")?,
        extends: one(alloc, Name::from_text(alloc, "B")?)?,
        implements: Seq::new(alloc),
        fields: one(
            alloc,
            Field {
                written: written(alloc, "D", 0)?,
                name: Name::from_text(alloc, "d")?,
            },
        )?,
        methods: one(alloc, signature(alloc, true)?)?,
        constructors: one(alloc, Seq::new(alloc))?,
    };
    assert!(rt; header == expected);
    let mentioned = mentions(alloc, &header)?;
    let mut names = Vec::new(alloc);
    names.push(Name::from_text(alloc, "B")?)?;
    names.push(Name::from_text(alloc, "D")?)?;
    names.push(Name::from_text(alloc, "C")?)?;
    assert!(rt; mentioned == Seq::from_vec(names));
    let subkind = subkind_of(ExpressionType::Void, &tree);
    assert!(rt; matches!(subkind, Subkind::Class));
    let kind = subkind.kind();
    assert!(rt; matches!(kind, Kind::TypeDecl));
    let key = key_of(alloc, kind, 7, &tree)?;
    assert!(rt; key == Key::OfType(Name::from_text(alloc, "A")?));
    let name = name_of(alloc, kind, 7, "class A ..", &tree)?;
    assert!(rt; shows(alloc, &name, "class A")?);
    Ok(())
}

/// `interface I { long f(int a, C[] b); }`
#[test]
fn interface(rt: HostRuntime) -> Result<(), Fail> {
    let alloc = rt.alloc();
    let tree = Tree::Interface(InterfaceDeclaration {
        modifiers: Seq::new(alloc),
        name: identifier(alloc, "I")?,
        extends: Seq::new(alloc),
        methods: one(alloc, method(alloc, None)?)?,
    });
    let header = header_of(alloc, &None, &tree)?;
    let expected = Header::OfType {
        interface: true,
        is_abstract: true,
        name: Name::from_text(alloc, "I")?,
        extends: Seq::new(alloc),
        implements: Seq::new(alloc),
        fields: Seq::new(alloc),
        methods: one(alloc, signature(alloc, true)?)?,
        constructors: Seq::new(alloc),
    };
    assert!(rt; header == expected);
    let name = name_of(alloc, Kind::TypeDecl, 7, "interface I ..", &tree)?;
    assert!(rt; shows(alloc, &name, "interface I")?);
    Ok(())
}

/// `long f(int a, C[] b) {}`
#[test]
fn method_alone(rt: HostRuntime) -> Result<(), Fail> {
    let alloc = rt.alloc();
    let body = Block {
        span: NOWHERE,
        statements: Seq::new(alloc),
    };
    let tree = Tree::Method(method(alloc, Some(body))?);
    let header = header_of(alloc, &None, &tree)?;
    let expected = Header::OfMethod {
        result: Some(written(alloc, "long", 0)?),
        params: parameters(alloc)?,
    };
    assert!(rt; header == expected);
    let key = key_of(alloc, Kind::Method, 7, &tree)?;
    let expected = Key::OfMethod {
        name: Name::from_text(alloc, "f")?,
        params: parameters(alloc)?,
    };
    assert!(rt; key == expected);
    let name = name_of(alloc, Kind::Method, 7, "long f ..", &tree)?;
    assert!(rt; shows(alloc, &name, "f(int,C[])")?);
    let rejected = name_of(alloc, Kind::Erroneous, 7, "long f ..", &tree)?;
    assert!(rt; rejected.is_empty());
    Ok(())
}

/// `import a.*;`
#[test]
fn import_on_demand(rt: HostRuntime) -> Result<(), Fail> {
    let alloc = rt.alloc();
    let tree = Tree::Import(Import {
        span: NOWHERE,
        is_static: false,
        parts: one(alloc, identifier(alloc, "a")?)?,
        on_demand: true,
    });
    let subkind = subkind_of(ExpressionType::Void, &tree);
    assert!(rt; matches!(subkind, Subkind::TypeImportOnDemand));
    let key = key_of(alloc, Kind::Import, 7, &tree)?;
    let expected = Key::OfImport {
        is_static: false,
        parts: one(alloc, Name::from_text(alloc, "a")?)?,
        on_demand: true,
    };
    assert!(rt; key == expected);
    let header = header_of(alloc, &None, &tree)?;
    assert!(rt; header == Header::Empty);
    let name = name_of(alloc, Kind::Import, 7, "import a.*;", &tree)?;
    assert!(rt; shows(alloc, &name, "import a.*;")?);
    Ok(())
}

/// `var x = 1;`
#[test]
fn variable_of_a_fixed_type(rt: HostRuntime) -> Result<(), Fail> {
    let alloc = rt.alloc();
    let tree = Tree::Variable {
        modifiers: Seq::new(alloc),
        variable: Variable {
            written: None,
            name: identifier(alloc, "x")?,
            initial: None,
        },
    };
    let fixed = Some(written(alloc, "int", 0)?);
    let header = header_of(alloc, &fixed, &tree)?;
    assert!(rt; header == Header::OfVar(written(alloc, "int", 0)?));
    let mentioned = mentions(alloc, &header)?;
    assert!(rt; mentioned.is_empty());
    let key = key_of(alloc, Kind::Var, 7, &tree)?;
    assert!(rt; key == Key::OfVar(Name::from_text(alloc, "x")?));
    Ok(())
}

/// `x = null`, which is an assignment whatever its type is.
#[test]
fn assignment(rt: HostRuntime) -> Result<(), Fail> {
    let alloc = rt.alloc();
    let target = Boxed::new(alloc, Expr::Name(identifier(alloc, "x")?))?;
    let null = Expr::Literal {
        span: NOWHERE,
        literal: Literal::Null,
    };
    let tree = Tree::Expression(Expr::Assign {
        target,
        operator: None,
        value: Boxed::new(alloc, null)?,
    });
    let subkind = subkind_of(ExpressionType::Null, &tree);
    assert!(rt; matches!(subkind, Subkind::Assignment));
    let key = key_of(alloc, Kind::Expression, 7, &tree)?;
    assert!(rt; key == Key::OfRun(7));
    let name = name_of(alloc, Kind::Expression, 7, "x = null", &tree)?;
    assert!(rt; shows(alloc, &name, "x")?);
    Ok(())
}

/// `this`, by which each of the three types of an expression is tried.
#[test]
fn expression_by_its_type(rt: HostRuntime) -> Result<(), Fail> {
    let alloc = rt.alloc();
    let tree = Tree::Expression(Expr::This { span: NOWHERE });
    let void = subkind_of(ExpressionType::Void, &tree);
    assert!(rt; matches!(void, Subkind::Statement));
    let null = subkind_of(ExpressionType::Null, &tree);
    assert!(rt; matches!(null, Subkind::OtherExpression));
    let value = subkind_of(ExpressionType::Value, &tree);
    assert!(rt; matches!(value, Subkind::TempVarExpression));
    let key = key_of(alloc, value.kind(), 7, &tree)?;
    assert!(rt; key == Key::OfVar(Name::from_text(alloc, "$7")?));
    let name = name_of(alloc, value.kind(), 7, "this", &tree)?;
    assert!(rt; shows(alloc, &name, "$7")?);
    Ok(())
}
