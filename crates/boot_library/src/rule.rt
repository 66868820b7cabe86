//! What the methods of the library mean, told apart by name alone: how each runs is the machine's.

/// A primitive type (JVMS 2.4.1), as the boxes in `java.lang` hold its values.
#[derive(Clone, Copy, Debug, PartialEq, Eq)]
pub enum Primitive {
    Boolean,
    Byte,
    Char,
    Short,
    Int,
    Long,
    Float,
    Double,
}

/// How a value becomes a text.
#[derive(Clone, Copy, Debug, PartialEq, Eq)]
pub enum Spelling {
    /// A String's own units.
    OfText,
    /// What `toString()` of the object gives.
    OfObject,
    /// In decimal.
    OfInt,
    /// In decimal.
    OfLong,
    /// The unit itself.
    OfChar,
    /// `true` or `false`.
    OfBoolean,
}

/// The meaning of a method of the library that isn't native.
#[derive(Clone, Copy, Debug, PartialEq, Eq)]
pub enum LibraryRule {
    /// A constructor that leaves the new object as it is.
    DoNothing,
    /// `Object.equals`: whether both are the same object.
    SameObject,
    /// `Object.hashCode`: the identity hash.
    IdentityHash,
    /// `Object.toString`: the class's name and the identity hash.
    Describe,
    /// `Object.getClass`: the class object of the receiver's class.
    GetClass,

    /// `Class.getName`: the class's name with dots.
    ClassName,
    /// `Class.forName`: the class object of a name, its class initialised.
    ForName,

    /// `length` of a String or a buffer: the number of its units.
    Length,
    /// `String.charAt`: one unit.
    CharAt,
    /// `String.equals`: whether the other is a String of the same units.
    SameText,
    /// `String.hashCode`: the units times powers of 31.
    TextHash,
    /// `String.concat`: the receiver's units and then the other's.
    Concat,
    /// `String.substring`: the units of a range.
    Substring,
    /// `String.toString`: the receiver.
    Itself,
    /// `String.valueOf`: the value's text.
    ValueOf(Spelling),
    /// The constructor of a buffer that holds a String's units.
    FillBuffer,
    /// `append` of a buffer: the value's text is added at its end, and the result is the buffer.
    Append(Spelling),
    /// `toString` of a buffer: a new String of its units.
    Copy,

    /// The constructor of an exception with a message.
    SetMessage,
    /// The constructor of an exception with a message and a cause.
    SetMessageAndCause,
    /// `Throwable.getMessage`.
    Message,
    /// `Throwable.getCause`.
    Cause,
    /// `Throwable.toString`: the class's name and the message of `getMessage`.
    DescribeThrowable,

    /// `System.exit`: the run ends.
    Exit,
    /// `System.identityHashCode`: the identity hash of an object, 0 of null.
    HashOf,

    /// `print` and `println` of a PrintStream: the value's text is printed, and with `line` a line
    /// feed behind it.
    Print { how: Spelling, line: bool },
    /// `println()` of a PrintStream: a line feed is printed.
    PrintLine,

    /// The constructor of a box, which holds the value.
    SetBox(Primitive),
    /// `valueOf` of a box's class: a new box with the value.
    BoxOf(Primitive),
    /// `intValue` and its like: the value.
    Unbox(Primitive),
    /// `equals` of a box: whether the other is a box of the same class and value.
    SameBox(Primitive),
    /// `hashCode` of a box, by its value.
    BoxHash(Primitive),
    /// `toString` of a box: the value's text.
    DescribeBox(Primitive),
}
