//! The rows of the table.

use crate::rows::MethodRow::{self, Abstract, Own, Static, Void};
use crate::rows::TypeRow::{self, Final, Other, Throwable};
use crate::rows::Word::{Boolean, Char, Int, Long, Object, Runnable, String};
use crate::rows::{ConstantRow, OtherRow};

const OBJECT: [MethodRow; 2] = [
    Own("equals", &[Object], Boolean),
    Own("toString", &[], String),
];

const STRING: [MethodRow; 15] = [
    Own("length", &[], Int),
    Own("charAt", &[Int], Char),
    Own("substring", &[Int], String),
    Own("substring", &[Int, Int], String),
    Own("indexOf", &[String], Int),
    Own("isEmpty", &[], Boolean),
    Own("equals", &[Object], Boolean),
    Own("compareTo", &[String], Int),
    Own("concat", &[String], String),
    Own("toString", &[], String),
    Static("valueOf", &[Int], String),
    Static("valueOf", &[Long], String),
    Static("valueOf", &[Char], String),
    Static("valueOf", &[Boolean], String),
    Static("valueOf", &[Object], String),
];

const MATH: [MethodRow; 10] = [
    Static("abs", &[Int], Int),
    Static("abs", &[Long], Long),
    Static("min", &[Int, Int], Int),
    Static("min", &[Long, Long], Long),
    Static("max", &[Int, Int], Int),
    Static("max", &[Long, Long], Long),
    Static("floorDiv", &[Int, Int], Int),
    Static("floorDiv", &[Long, Long], Long),
    Static("floorMod", &[Int, Int], Int),
    Static("floorMod", &[Long, Long], Long),
];

const INTEGER: [MethodRow; 2] = [
    Static("parseInt", &[String], Int),
    Static("toString", &[Int], String),
];

const INTEGER_CONSTANTS: [ConstantRow; 2] = [
    ConstantRow::Int("MAX_VALUE", 2147483647),
    ConstantRow::Int("MIN_VALUE", -2147483648),
];

const LONG: [MethodRow; 2] = [
    Static("parseLong", &[String], Long),
    Static("toString", &[Long], String),
];

const LONG_CONSTANTS: [ConstantRow; 2] = [
    ConstantRow::Long("MAX_VALUE", 9223372036854775807),
    ConstantRow::Long("MIN_VALUE", -9223372036854775808),
];

const RUNNABLE: [MethodRow; 1] = [Abstract("run", &[])];

const THREAD: [MethodRow; 4] = [
    Void("start", &[]),
    Void("join", &[]),
    Own("isAlive", &[], Boolean),
    Void("run", &[]),
];

const THROWABLE: [MethodRow; 2] = [Own("getMessage", &[], String), Own("toString", &[], String)];

const ATOMIC_INTEGER: [MethodRow; 11] = [
    Own("get", &[], Int),
    Void("set", &[Int]),
    Own("incrementAndGet", &[], Int),
    Own("decrementAndGet", &[], Int),
    Own("getAndIncrement", &[], Int),
    Own("getAndDecrement", &[], Int),
    Own("addAndGet", &[Int], Int),
    Own("getAndAdd", &[Int], Int),
    Own("getAndSet", &[Int], Int),
    Own("compareAndSet", &[Int, Int], Boolean),
    Own("toString", &[], String),
];

const ATOMIC_LONG: [MethodRow; 11] = [
    Own("get", &[], Long),
    Void("set", &[Long]),
    Own("incrementAndGet", &[], Long),
    Own("decrementAndGet", &[], Long),
    Own("getAndIncrement", &[], Long),
    Own("getAndDecrement", &[], Long),
    Own("addAndGet", &[Long], Long),
    Own("getAndAdd", &[Long], Long),
    Own("getAndSet", &[Long], Long),
    Own("compareAndSet", &[Long, Long], Boolean),
    Own("toString", &[], String),
];

pub(crate) const TYPES: [TypeRow; 31] = [
    Other(OtherRow {
        qualifier: "java.lang",
        name: "Object",
        is_interface: false,
        is_final: false,
        is_abstract: false,
        extends: None,
        implements: &[],
        constructors: &[&[]],
        methods: &OBJECT,
    }),
    Final("String", &STRING, &[]),
    Final("Math", &MATH, &[]),
    Final("Integer", &INTEGER, &INTEGER_CONSTANTS),
    Final("Long", &LONG, &LONG_CONSTANTS),
    Final("System", &[], &[]),
    Other(OtherRow {
        qualifier: "java.lang",
        name: "Runnable",
        is_interface: true,
        is_final: false,
        is_abstract: true,
        extends: None,
        implements: &[],
        constructors: &[],
        methods: &RUNNABLE,
    }),
    Other(OtherRow {
        qualifier: "java.lang",
        name: "Thread",
        is_interface: false,
        is_final: false,
        is_abstract: false,
        extends: Some("Object"),
        implements: &["Runnable"],
        constructors: &[&[], &[Runnable]],
        methods: &THREAD,
    }),
    Other(OtherRow {
        qualifier: "java.lang",
        name: "Throwable",
        is_interface: false,
        is_final: false,
        is_abstract: false,
        extends: Some("Object"),
        implements: &[],
        constructors: &[&[], &[String]],
        methods: &THROWABLE,
    }),
    Throwable("Exception", "Throwable"),
    Throwable("Error", "Throwable"),
    Throwable("RuntimeException", "Exception"),
    Throwable("InterruptedException", "Exception"),
    Throwable("ArithmeticException", "RuntimeException"),
    Throwable("NullPointerException", "RuntimeException"),
    Throwable("ClassCastException", "RuntimeException"),
    Throwable("IndexOutOfBoundsException", "RuntimeException"),
    Throwable("NegativeArraySizeException", "RuntimeException"),
    Throwable("ArrayStoreException", "RuntimeException"),
    Throwable("IllegalArgumentException", "RuntimeException"),
    Throwable("IllegalStateException", "RuntimeException"),
    Throwable("UnsupportedOperationException", "RuntimeException"),
    Throwable(
        "ArrayIndexOutOfBoundsException",
        "IndexOutOfBoundsException",
    ),
    Throwable(
        "StringIndexOutOfBoundsException",
        "IndexOutOfBoundsException",
    ),
    Throwable("NumberFormatException", "IllegalArgumentException"),
    Throwable("IllegalThreadStateException", "IllegalArgumentException"),
    Other(OtherRow {
        qualifier: "java.lang",
        name: "VirtualMachineError",
        is_interface: false,
        is_final: false,
        is_abstract: true,
        extends: Some("Error"),
        implements: &[],
        constructors: &[&[], &[String]],
        methods: &[],
    }),
    Throwable("OutOfMemoryError", "VirtualMachineError"),
    Throwable("StackOverflowError", "VirtualMachineError"),
    Other(OtherRow {
        qualifier: "java.util.concurrent.atomic",
        name: "AtomicInteger",
        is_interface: false,
        is_final: true,
        is_abstract: false,
        extends: Some("Object"),
        implements: &[],
        constructors: &[&[], &[Int]],
        methods: &ATOMIC_INTEGER,
    }),
    Other(OtherRow {
        qualifier: "java.util.concurrent.atomic",
        name: "AtomicLong",
        is_interface: false,
        is_final: true,
        is_abstract: false,
        extends: Some("Object"),
        implements: &[],
        constructors: &[&[], &[Long]],
        methods: &ATOMIC_LONG,
    }),
];

pub(crate) const PACKAGES: [&str; 12] = [
    "java.lang",
    "java.io",
    "java.math",
    "java.net",
    "java.nio.file",
    "java.util",
    "java.util.concurrent",
    "java.util.concurrent.atomic",
    "java.util.function",
    "java.util.prefs",
    "java.util.regex",
    "java.util.stream",
];

/// What is called on `System.out`.
pub(crate) const OUT: [MethodRow; 13] = [
    Void("print", &[Boolean]),
    Void("print", &[Char]),
    Void("print", &[Int]),
    Void("print", &[Long]),
    Void("print", &[String]),
    Void("print", &[Object]),
    Void("println", &[Boolean]),
    Void("println", &[Char]),
    Void("println", &[Int]),
    Void("println", &[Long]),
    Void("println", &[String]),
    Void("println", &[Object]),
    Void("println", &[]),
];
