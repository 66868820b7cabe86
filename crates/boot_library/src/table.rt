//! The classes of the library, as rows.

ghost use Rattle.std.specs.Prelude.{◌≡◌};
ghost use Rattle.boot_library.specs.Rows.{method_of};

use self::ClassKind::{Class, Final, Interface};
use self::MethodRow::{Instance, Native, Static};
use crate::rule::LibraryRule::{
    Append, BoxHash, BoxOf, Cause, CharAt, ClassName, Concat, Copy, Describe, DescribeBox,
    DescribeThrowable, DoNothing, Exit, FillBuffer, ForName, GetClass, HashOf, IdentityHash,
    Itself, Length, Message, Print, PrintLine, SameBox, SameObject, SameText, SetBox, SetMessage,
    SetMessageAndCause, Substring, TextHash, Unbox, ValueOf,
};
use crate::rule::Spelling::{OfBoolean, OfChar, OfInt, OfLong, OfObject, OfText};
use crate::rule::{LibraryRule, Primitive};

/// A public method by its name and descriptor, and what it does.
#[derive(Clone, Copy)]
pub(crate) enum MethodRow {
    Instance(&'static str, &'static str, LibraryRule),
    Static(&'static str, &'static str, LibraryRule),
    /// A static native method, whose answers come from outside.
    Native(&'static str, &'static str),
}

impl MethodRow {
    pub(crate) fn name(&self) -> &'static str
        ensures { result.now ≡ (method_of self.now).name }
    {
        match self {
            Instance(name, _, _) | Static(name, _, _) | Native(name, _) => name,
        }
    }

    pub(crate) fn descriptor(&self) -> &'static str
        ensures { result.now ≡ (method_of self.now).descriptor }
    {
        match self {
            Instance(_, descriptor, _) | Static(_, descriptor, _) | Native(_, descriptor) =>
                descriptor,
        }
    }

    /// What the method does, unless it is native.
    pub(crate) fn rule(&self) -> Option<LibraryRule>
        ensures { result ≡ (method_of self.now).rule }
    {
        match self {
            Instance(_, _, rule) | Static(_, _, rule) => Some(*rule),
            Native(..) => None,
        }
    }
}

/// A public static final field by its name and descriptor.
#[derive(Clone, Copy)]
pub(crate) struct FieldRow(pub(crate) &'static str, pub(crate) &'static str);

/// Whether a class may have subclasses, or is an interface.
#[derive(Clone, Copy)]
pub(crate) enum ClassKind {
    Class,
    Final,
    Interface,
}

/// A class of exceptions with its superclass. It has the constructors of Throwable.
#[derive(Clone, Copy)]
pub(crate) struct ExceptionRow(pub(crate) &'static str, pub(crate) &'static str);

/// A public class or interface.
#[derive(Clone, Copy)]
pub(crate) struct ClassRow {
    pub(crate) name: &'static str,
    pub(crate) kind: ClassKind,
    /// `None` of `java/lang/Object` alone.
    pub(crate) super_class: Option<&'static str>,
    pub(crate) fields: &'static [FieldRow],
    pub(crate) methods: &'static [MethodRow],
}

const OBJECT: [MethodRow; 5] = [
    Instance("<init>", "()V", DoNothing),
    Instance("equals", "(Ljava/lang/Object;)Z", SameObject),
    Instance("hashCode", "()I", IdentityHash),
    Instance("toString", "()Ljava/lang/String;", Describe),
    Instance("getClass", "()Ljava/lang/Class;", GetClass),
];

const CLASS: [MethodRow; 2] = [
    Instance("getName", "()Ljava/lang/String;", ClassName),
    Static("forName", "(Ljava/lang/String;)Ljava/lang/Class;", ForName),
];

const STRING: [MethodRow; 12] = [
    Instance("length", "()I", Length),
    Instance("charAt", "(I)C", CharAt),
    Instance("equals", "(Ljava/lang/Object;)Z", SameText),
    Instance("hashCode", "()I", TextHash),
    Instance("concat", "(Ljava/lang/String;)Ljava/lang/String;", Concat),
    Instance("substring", "(II)Ljava/lang/String;", Substring),
    Instance("toString", "()Ljava/lang/String;", Itself),
    Static("valueOf", "(I)Ljava/lang/String;", ValueOf(OfInt)),
    Static("valueOf", "(J)Ljava/lang/String;", ValueOf(OfLong)),
    Static("valueOf", "(C)Ljava/lang/String;", ValueOf(OfChar)),
    Static("valueOf", "(Z)Ljava/lang/String;", ValueOf(OfBoolean)),
    Static(
        "valueOf",
        "(Ljava/lang/Object;)Ljava/lang/String;",
        ValueOf(OfObject),
    ),
];

const STRING_BUFFER: [MethodRow; 10] = [
    Instance("<init>", "()V", DoNothing),
    Instance("<init>", "(Ljava/lang/String;)V", FillBuffer),
    Instance(
        "append",
        "(Ljava/lang/String;)Ljava/lang/StringBuffer;",
        Append(OfText),
    ),
    Instance(
        "append",
        "(Ljava/lang/Object;)Ljava/lang/StringBuffer;",
        Append(OfObject),
    ),
    Instance("append", "(I)Ljava/lang/StringBuffer;", Append(OfInt)),
    Instance("append", "(J)Ljava/lang/StringBuffer;", Append(OfLong)),
    Instance("append", "(C)Ljava/lang/StringBuffer;", Append(OfChar)),
    Instance("append", "(Z)Ljava/lang/StringBuffer;", Append(OfBoolean)),
    Instance("length", "()I", Length),
    Instance("toString", "()Ljava/lang/String;", Copy),
];

const STRING_BUILDER: [MethodRow; 10] = [
    Instance("<init>", "()V", DoNothing),
    Instance("<init>", "(Ljava/lang/String;)V", FillBuffer),
    Instance(
        "append",
        "(Ljava/lang/String;)Ljava/lang/StringBuilder;",
        Append(OfText),
    ),
    Instance(
        "append",
        "(Ljava/lang/Object;)Ljava/lang/StringBuilder;",
        Append(OfObject),
    ),
    Instance("append", "(I)Ljava/lang/StringBuilder;", Append(OfInt)),
    Instance("append", "(J)Ljava/lang/StringBuilder;", Append(OfLong)),
    Instance("append", "(C)Ljava/lang/StringBuilder;", Append(OfChar)),
    Instance("append", "(Z)Ljava/lang/StringBuilder;", Append(OfBoolean)),
    Instance("length", "()I", Length),
    Instance("toString", "()Ljava/lang/String;", Copy),
];

/// The constructors of Throwable, which each class of exceptions has too.
pub(crate) static CONSTRUCTORS: [MethodRow; 3] = [
    Instance("<init>", "()V", DoNothing),
    Instance("<init>", "(Ljava/lang/String;)V", SetMessage),
    Instance(
        "<init>",
        "(Ljava/lang/String;Ljava/lang/Throwable;)V",
        SetMessageAndCause,
    ),
];

const THROWABLE: [MethodRow; 6] = [
    Instance("<init>", "()V", DoNothing),
    Instance("<init>", "(Ljava/lang/String;)V", SetMessage),
    Instance(
        "<init>",
        "(Ljava/lang/String;Ljava/lang/Throwable;)V",
        SetMessageAndCause,
    ),
    Instance("getMessage", "()Ljava/lang/String;", Message),
    Instance("getCause", "()Ljava/lang/Throwable;", Cause),
    Instance("toString", "()Ljava/lang/String;", DescribeThrowable),
];

const SYSTEM: [MethodRow; 4] = [
    Static("exit", "(I)V", Exit),
    Static("identityHashCode", "(Ljava/lang/Object;)I", HashOf),
    Native("currentTimeMillis", "()J"),
    Native("nanoTime", "()J"),
];

const PRINT_STREAM: [MethodRow; 13] = [
    Instance(
        "print",
        "(Ljava/lang/String;)V",
        Print {
            how: OfText,
            line: false,
        },
    ),
    Instance(
        "print",
        "(Ljava/lang/Object;)V",
        Print {
            how: OfObject,
            line: false,
        },
    ),
    Instance(
        "print",
        "(I)V",
        Print {
            how: OfInt,
            line: false,
        },
    ),
    Instance(
        "print",
        "(J)V",
        Print {
            how: OfLong,
            line: false,
        },
    ),
    Instance(
        "print",
        "(C)V",
        Print {
            how: OfChar,
            line: false,
        },
    ),
    Instance(
        "print",
        "(Z)V",
        Print {
            how: OfBoolean,
            line: false,
        },
    ),
    Instance(
        "println",
        "(Ljava/lang/String;)V",
        Print {
            how: OfText,
            line: true,
        },
    ),
    Instance(
        "println",
        "(Ljava/lang/Object;)V",
        Print {
            how: OfObject,
            line: true,
        },
    ),
    Instance(
        "println",
        "(I)V",
        Print {
            how: OfInt,
            line: true,
        },
    ),
    Instance(
        "println",
        "(J)V",
        Print {
            how: OfLong,
            line: true,
        },
    ),
    Instance(
        "println",
        "(C)V",
        Print {
            how: OfChar,
            line: true,
        },
    ),
    Instance(
        "println",
        "(Z)V",
        Print {
            how: OfBoolean,
            line: true,
        },
    ),
    Instance("println", "()V", PrintLine),
];

const INTEGER: [MethodRow; 6] = [
    Instance("<init>", "(I)V", SetBox(Primitive::Int)),
    Instance("intValue", "()I", Unbox(Primitive::Int)),
    Instance("equals", "(Ljava/lang/Object;)Z", SameBox(Primitive::Int)),
    Static("valueOf", "(I)Ljava/lang/Integer;", BoxOf(Primitive::Int)),
    Instance("hashCode", "()I", BoxHash(Primitive::Int)),
    Instance(
        "toString",
        "()Ljava/lang/String;",
        DescribeBox(Primitive::Int),
    ),
];

const LONG: [MethodRow; 6] = [
    Instance("<init>", "(J)V", SetBox(Primitive::Long)),
    Instance("longValue", "()J", Unbox(Primitive::Long)),
    Instance("equals", "(Ljava/lang/Object;)Z", SameBox(Primitive::Long)),
    Static("valueOf", "(J)Ljava/lang/Long;", BoxOf(Primitive::Long)),
    Instance("hashCode", "()I", BoxHash(Primitive::Long)),
    Instance(
        "toString",
        "()Ljava/lang/String;",
        DescribeBox(Primitive::Long),
    ),
];

const SHORT: [MethodRow; 6] = [
    Instance("<init>", "(S)V", SetBox(Primitive::Short)),
    Instance("shortValue", "()S", Unbox(Primitive::Short)),
    Instance("equals", "(Ljava/lang/Object;)Z", SameBox(Primitive::Short)),
    Static("valueOf", "(S)Ljava/lang/Short;", BoxOf(Primitive::Short)),
    Instance("hashCode", "()I", BoxHash(Primitive::Short)),
    Instance(
        "toString",
        "()Ljava/lang/String;",
        DescribeBox(Primitive::Short),
    ),
];

const BYTE: [MethodRow; 6] = [
    Instance("<init>", "(B)V", SetBox(Primitive::Byte)),
    Instance("byteValue", "()B", Unbox(Primitive::Byte)),
    Instance("equals", "(Ljava/lang/Object;)Z", SameBox(Primitive::Byte)),
    Static("valueOf", "(B)Ljava/lang/Byte;", BoxOf(Primitive::Byte)),
    Instance("hashCode", "()I", BoxHash(Primitive::Byte)),
    Instance(
        "toString",
        "()Ljava/lang/String;",
        DescribeBox(Primitive::Byte),
    ),
];

const CHARACTER: [MethodRow; 6] = [
    Instance("<init>", "(C)V", SetBox(Primitive::Char)),
    Instance("charValue", "()C", Unbox(Primitive::Char)),
    Instance("equals", "(Ljava/lang/Object;)Z", SameBox(Primitive::Char)),
    Static(
        "valueOf",
        "(C)Ljava/lang/Character;",
        BoxOf(Primitive::Char),
    ),
    Instance("hashCode", "()I", BoxHash(Primitive::Char)),
    Instance(
        "toString",
        "()Ljava/lang/String;",
        DescribeBox(Primitive::Char),
    ),
];

const BOOLEAN: [MethodRow; 6] = [
    Instance("<init>", "(Z)V", SetBox(Primitive::Boolean)),
    Instance("booleanValue", "()Z", Unbox(Primitive::Boolean)),
    Instance(
        "equals",
        "(Ljava/lang/Object;)Z",
        SameBox(Primitive::Boolean),
    ),
    Static(
        "valueOf",
        "(Z)Ljava/lang/Boolean;",
        BoxOf(Primitive::Boolean),
    ),
    Instance("hashCode", "()I", BoxHash(Primitive::Boolean)),
    Instance(
        "toString",
        "()Ljava/lang/String;",
        DescribeBox(Primitive::Boolean),
    ),
];

const FLOAT: [MethodRow; 4] = [
    Instance("<init>", "(F)V", SetBox(Primitive::Float)),
    Instance("floatValue", "()F", Unbox(Primitive::Float)),
    Instance("equals", "(Ljava/lang/Object;)Z", SameBox(Primitive::Float)),
    Static("valueOf", "(F)Ljava/lang/Float;", BoxOf(Primitive::Float)),
];

const DOUBLE: [MethodRow; 4] = [
    Instance("<init>", "(D)V", SetBox(Primitive::Double)),
    Instance("doubleValue", "()D", Unbox(Primitive::Double)),
    Instance(
        "equals",
        "(Ljava/lang/Object;)Z",
        SameBox(Primitive::Double),
    ),
    Static("valueOf", "(D)Ljava/lang/Double;", BoxOf(Primitive::Double)),
];

/// The root of all classes, its class objects, and what can be thrown.
pub(crate) static OBJECTS: [ClassRow; 3] = [
    // The root of all classes.
    ClassRow {
        name: "java/lang/Object",
        kind: Class,
        super_class: None,
        fields: &[],
        methods: &OBJECT,
    },
    // What stands for a class at run time.
    ClassRow {
        name: "java/lang/Class",
        kind: Final,
        super_class: Some("java/lang/Object"),
        fields: &[],
        methods: &CLASS,
    },
    // What can be thrown, with a message and a cause.
    ClassRow {
        name: "java/lang/Throwable",
        kind: Class,
        super_class: Some("java/lang/Object"),
        fields: &[],
        methods: &THROWABLE,
    },
];

/// Texts that never change.
pub(crate) static STRINGS: [ClassRow; 1] = [
    // Texts that never change.
    ClassRow {
        name: "java/lang/String",
        kind: Final,
        super_class: Some("java/lang/Object"),
        fields: &[],
        methods: &STRING,
    },
];

/// Texts that grow.
pub(crate) static BUFFERS: [ClassRow; 2] = [
    // Texts that grow.
    ClassRow {
        name: "java/lang/StringBuffer",
        kind: Final,
        super_class: Some("java/lang/Object"),
        fields: &[],
        methods: &STRING_BUFFER,
    },
    // Texts that grow, without locks.
    ClassRow {
        name: "java/lang/StringBuilder",
        kind: Final,
        super_class: Some("java/lang/Object"),
        fields: &[],
        methods: &STRING_BUILDER,
    },
];

/// What programs here see of the outside.
pub(crate) static SYSTEMS: [ClassRow; 2] = [
    // The standard output, the end of the run, and the clocks.
    ClassRow {
        name: "java/lang/System",
        kind: Final,
        super_class: Some("java/lang/Object"),
        fields: &[FieldRow("out", "Ljava/io/PrintStream;")],
        methods: &SYSTEM,
    },
    // Where texts are printed.
    ClassRow {
        name: "java/io/PrintStream",
        kind: Class,
        super_class: Some("java/lang/Object"),
        fields: &[],
        methods: &PRINT_STREAM,
    },
];

/// The boxes of values with a text.
pub(crate) static TEXT_BOXES: [ClassRow; 6] = [
    // Objects that hold an int.
    ClassRow {
        name: "java/lang/Integer",
        kind: Final,
        super_class: Some("java/lang/Object"),
        fields: &[],
        methods: &INTEGER,
    },
    // Objects that hold a long.
    ClassRow {
        name: "java/lang/Long",
        kind: Final,
        super_class: Some("java/lang/Object"),
        fields: &[],
        methods: &LONG,
    },
    // Objects that hold a short.
    ClassRow {
        name: "java/lang/Short",
        kind: Final,
        super_class: Some("java/lang/Object"),
        fields: &[],
        methods: &SHORT,
    },
    // Objects that hold a byte.
    ClassRow {
        name: "java/lang/Byte",
        kind: Final,
        super_class: Some("java/lang/Object"),
        fields: &[],
        methods: &BYTE,
    },
    // Objects that hold a char.
    ClassRow {
        name: "java/lang/Character",
        kind: Final,
        super_class: Some("java/lang/Object"),
        fields: &[],
        methods: &CHARACTER,
    },
    // Objects that hold a boolean.
    ClassRow {
        name: "java/lang/Boolean",
        kind: Final,
        super_class: Some("java/lang/Object"),
        fields: &[],
        methods: &BOOLEAN,
    },
];

/// The boxes of floats and doubles, which have no text here.
pub(crate) static FLOAT_BOXES: [ClassRow; 2] = [
    // Objects that hold a float.
    ClassRow {
        name: "java/lang/Float",
        kind: Final,
        super_class: Some("java/lang/Object"),
        fields: &[],
        methods: &FLOAT,
    },
    // Objects that hold a double.
    ClassRow {
        name: "java/lang/Double",
        kind: Final,
        super_class: Some("java/lang/Object"),
        fields: &[],
        methods: &DOUBLE,
    },
];

/// The interfaces.
pub(crate) static INTERFACES: [ClassRow; 5] = [
    // What can be run.
    ClassRow {
        name: "java/lang/Runnable",
        kind: Interface,
        super_class: Some("java/lang/Object"),
        fields: &[],
        methods: &[],
    },
    // What can be cloned, as arrays can.
    ClassRow {
        name: "java/lang/Cloneable",
        kind: Interface,
        super_class: Some("java/lang/Object"),
        fields: &[],
        methods: &[],
    },
    // What has an order.
    ClassRow {
        name: "java/lang/Comparable",
        kind: Interface,
        super_class: Some("java/lang/Object"),
        fields: &[],
        methods: &[],
    },
    // What has units of text.
    ClassRow {
        name: "java/lang/CharSequence",
        kind: Interface,
        super_class: Some("java/lang/Object"),
        fields: &[],
        methods: &[],
    },
    // What can be written as bytes, as arrays can.
    ClassRow {
        name: "java/io/Serializable",
        kind: Interface,
        super_class: Some("java/lang/Object"),
        fields: &[],
        methods: &[],
    },
];

/// The classes of exceptions below Throwable, each below its superclass.
pub(crate) static EXCEPTIONS: [ExceptionRow; 19] = [
    // What a program may want to catch.
    ExceptionRow("java/lang/Exception", "java/lang/Throwable"),
    // What a program does not want to catch.
    ExceptionRow("java/lang/Error", "java/lang/Throwable"),
    // What can be thrown without being declared.
    ExceptionRow("java/lang/RuntimeException", "java/lang/Exception"),
    // No class has the name that was looked up.
    ExceptionRow("java/lang/ClassNotFoundException", "java/lang/Exception"),
    // A class does not fit the classes that it depends on.
    ExceptionRow("java/lang/LinkageError", "java/lang/Error"),
    // A class has no definition, or could not be initialised.
    ExceptionRow("java/lang/NoClassDefFoundError", "java/lang/LinkageError"),
    // An integer was divided by zero.
    ExceptionRow(
        "java/lang/ArithmeticException",
        "java/lang/RuntimeException",
    ),
    // An object does not fit the type of the array that it was stored to.
    ExceptionRow(
        "java/lang/ArrayStoreException",
        "java/lang/RuntimeException",
    ),
    // An object is not of the class that it was cast to.
    ExceptionRow("java/lang/ClassCastException", "java/lang/RuntimeException"),
    // A method was passed what it does not take.
    ExceptionRow(
        "java/lang/IllegalArgumentException",
        "java/lang/RuntimeException",
    ),
    // A method was called at a wrong time.
    ExceptionRow(
        "java/lang/IllegalStateException",
        "java/lang/RuntimeException",
    ),
    // A monitor was left that was not entered.
    ExceptionRow(
        "java/lang/IllegalMonitorStateException",
        "java/lang/RuntimeException",
    ),
    // An index is out of range.
    ExceptionRow(
        "java/lang/IndexOutOfBoundsException",
        "java/lang/RuntimeException",
    ),
    // An array was to have fewer than no elements.
    ExceptionRow(
        "java/lang/NegativeArraySizeException",
        "java/lang/RuntimeException",
    ),
    // Null was used as an object.
    ExceptionRow(
        "java/lang/NullPointerException",
        "java/lang/RuntimeException",
    ),
    // An operation is not supported.
    ExceptionRow(
        "java/lang/UnsupportedOperationException",
        "java/lang/RuntimeException",
    ),
    // An index is out of an array.
    ExceptionRow(
        "java/lang/ArrayIndexOutOfBoundsException",
        "java/lang/IndexOutOfBoundsException",
    ),
    // An index is out of a text.
    ExceptionRow(
        "java/lang/StringIndexOutOfBoundsException",
        "java/lang/IndexOutOfBoundsException",
    ),
    // An aspect has no instance.
    ExceptionRow(
        "org/aspectj/lang/NoAspectBoundException",
        "java/lang/RuntimeException",
    ),
];
