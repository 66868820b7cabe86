use aj_names::ByteString;

/// An entry of the constant pool (JVMS 4.4). The entry of index i stands at place i - 1 of a class's
/// `pool`, and the pool count is one more than its length.
#[derive(Debug, Drop, PartialEq, Eq, Hash)]
pub enum PoolEntry {
    /// A text in modified UTF-8 (JVMS 4.4.7).
    Utf8(ByteString),
    /// An int (JVMS 4.4.4).
    Integer(i32),
    /// The bits of a float (JVMS 4.4.4).
    Float(u32),
    /// A long, which takes two indices (JVMS 4.4.5).
    Long(i64),
    /// The bits of a double, which takes two indices (JVMS 4.4.5).
    Double(u64),
    /// A class or an array type, by the index of its name (JVMS 4.4.1).
    Class(u16),
    /// A string constant, by the index of its text (JVMS 4.4.3).
    String(u16),
    /// A field, by the indices of its class and of its name and type (JVMS 4.4.2).
    Fieldref(u16, u16),
    /// A method of a class, by the same indices (JVMS 4.4.2).
    Methodref(u16, u16),
    /// A method of an interface, by the same indices (JVMS 4.4.2).
    InterfaceMethodref(u16, u16),
    /// A member's name and descriptor, by their indices (JVMS 4.4.6).
    NameAndType(u16, u16),
    /// The second index of a Long or Double, which holds nothing (JVMS 4.4.5).
    Second,
}
