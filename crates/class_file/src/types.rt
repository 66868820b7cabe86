use crate::access::AccessFlags;
use crate::pool::PoolEntry;
use sqlite_items::Items;

/// A class file (JVMS 4.1). The numbers `this_class`, `super_class`, `interfaces` and those of names
/// and descriptors are indices of the pool.
#[derive(Debug, Drop)]
pub struct ClassFile {
    pub minor: u16,
    pub major: u16,
    pub pool: Items<PoolEntry>,
    pub flags: AccessFlags,
    pub this_class: u16,
    pub super_class: u16,
    pub interfaces: Items<u16>,
    pub fields: Items<Member>,
    pub methods: Items<Member>,
    pub attributes: Items<Attribute>,
}

/// A field or a method (JVMS 4.5, 4.6).
#[derive(Debug, Drop)]
pub struct Member {
    pub flags: AccessFlags,
    pub name: u16,
    pub descriptor: u16,
    pub attributes: Items<Attribute>,
}

/// An attribute of a class, a field or a method (JVMS 4.7).
#[derive(Debug, Drop)]
pub struct Attribute {
    pub name: u16,
    pub content: Content,
}

/// What an attribute of a class, a field or a method holds. A known attribute that stands elsewhere
/// than the format has it, or a second one where the format has at most one, is kept as bytes.
#[derive(Debug, Drop)]
pub enum Content {
    /// The code of a method (JVMS 4.7.3).
    Code(CodeAttr),
    /// The index of a field's constant (JVMS 4.7.2).
    ConstantValue(u16),
    /// The indices of the classes that a method declares to throw (JVMS 4.7.4).
    Exceptions(Items<u16>),
    /// The inner classes that a class refers to (JVMS 4.7.5).
    InnerClasses(Items<InnerClass>),
    /// A member or class that no source has (JVMS 4.7.6).
    Synthetic,
    /// The bytes of any other attribute.
    Other(Items<u8>),
}

/// The code of a method, with its exception table, which is searched in order (JVMS 4.7.3).
#[derive(Debug, Drop)]
pub struct CodeAttr {
    pub max_stack: u16,
    pub max_locals: u16,
    pub code: Items<u8>,
    pub entries: Items<ExceptionEntry>,
    pub attributes: Items<CodeAttribute>,
}

/// An entry of an exception table: the range of places from `start` to before `end`, where control
/// goes, and the index of the class that is caught, or 0 for any.
#[derive(Clone, Copy, PartialEq, Eq, Debug)]
pub struct ExceptionEntry {
    pub start: u16,
    pub end: u16,
    pub handler: u16,
    pub catch_type: u16,
}

/// An attribute of a Code attribute. It is a type apart from `Attribute`, so that no Code can stand
/// in a Code.
#[derive(Debug, Drop)]
pub struct CodeAttribute {
    pub name: u16,
    pub content: CodeContent,
}

/// What an attribute of a Code attribute holds.
#[derive(Debug, Drop)]
pub enum CodeContent {
    /// The lines of places (JVMS 4.7.8).
    LineNumberTable(Items<LineRow>),
    /// The names of local variables (JVMS 4.7.9).
    LocalVariableTable(Items<VariableRow>),
    /// The generic types of local variables (JVMS of Java 5, 4.8.14).
    LocalVariableTypeTable(Items<VariableRow>),
    /// The bytes of any other attribute.
    Other(Items<u8>),
}

/// A row of InnerClasses (JVMS 4.7.5). The outer class and the name may be 0.
#[derive(Clone, Copy, PartialEq, Eq, Debug)]
pub struct InnerClass {
    pub inner: u16,
    pub outer: u16,
    pub name: u16,
    pub flags: AccessFlags,
}

/// A row of a LineNumberTable: a place in the code, and the line that begins there (JVMS 4.7.8).
#[derive(Clone, Copy, PartialEq, Eq, Debug)]
pub struct LineRow {
    pub start: u16,
    pub line: u16,
}

/// A row of a table of local variables: the places at which the variable has a value, the indices of
/// its name and of its descriptor or signature, and its local (JVMS 4.7.9).
#[derive(Clone, Copy, PartialEq, Eq, Debug)]
pub struct VariableRow {
    pub start: u16,
    pub length: u16,
    pub name: u16,
    pub descriptor: u16,
    pub index: u16,
}
