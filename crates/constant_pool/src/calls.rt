//! The calls that add entries.

ghost use Rattle.std.specs.Prelude.{◌≡◌, ◌≤◌, length, Some, IfOk, OnErr};
ghost use Rattle.aj_names.specs.ModifiedUtf8.{text_spelling};
ghost use Rattle.class_file.specs.declared.pool.PoolEntry.{PoolEntry};
ghost use Rattle.constant_pool.specs.Edit.{with_entry, with_text, with_class, with_string, with_string_text, with_named_type, with_member, with_field, with_method, method_kind, member_entry, Extends};
ghost use Rattle.class_file.specs.Pool.{entry_at, text_at, class_at, string_at, field_at};
ghost use Rattle.constant_pool.specs.Meaning.{reference, NamesMember};
ghost use Rattle.constant_pool.specs.Answers.{Gives, IsFull};

use crate::{PoolEdit, PoolFault};
use aj_names::{ByteString, FieldName, InternalName, MethodName, utf8_write};
use class_file::PoolEntry;

/// Which entry names a member (JVMS 4.4.2).
#[derive(Clone, Copy)]
pub(crate) enum MemberKind {
    Field,
    Method,
    InterfaceMethod,
}

impl MemberKind {
    fn entry(self, class: u16, member: u16) -> PoolEntry
        ensures { result ≡ member_entry self class member }
    {
        match self {
            MemberKind::Field => PoolEntry::Fieldref(class, member),
            MemberKind::Method => PoolEntry::Methodref(class, member),
            MemberKind::InterfaceMethod => PoolEntry::InterfaceMethodref(class, member),
        }
    }
}

fn method_kind(interface: bool) -> MemberKind
    ensures { result ≡ method_kind interface }
{
    if interface {
        MemberKind::InterfaceMethod
    } else {
        MemberKind::Method
    }
}

// Each of these appends what it needs in turn; what is appended stays where it is refused.
impl PoolEdit {
    fn class_entries(&mut self, name: &[u8]) -> Result<u16, PoolFault>
        ensures found { Gives (with_class self.old name.now) self.new result }
        ensures full { IsFull (with_class self.old name.now) result }
        ensures fits { length self.new ≤ 65534 }
        ensures kept { OnErr result (Extends self.old self.new) }
    {
        let text = self.text(name)?;
        self.place(PoolEntry::Class(text))
    }

    fn string_entries(&mut self, units: &[u16]) -> Result<u16, PoolFault>
        ensures found { Gives (with_string self.old units.now) self.new result }
        ensures full { IsFull (with_string self.old units.now) result }
        ensures fits { length self.new ≤ 65534 }
        ensures kept { OnErr result (Extends self.old self.new) }
    {
        let bytes = utf8_write(self.allocator(), units)?;
        let text = self.place(PoolEntry::Utf8(ByteString::from_vec(bytes)))?;
        self.place(PoolEntry::String(text))
    }

    fn string_text_entries(&mut self, text: &[u8]) -> Result<u16, PoolFault>
        ensures found { Gives (with_string_text self.old text.now) self.new result }
        ensures full { IsFull (with_string_text self.old text.now) result }
        ensures fits { length self.new ≤ 65534 }
        ensures kept { OnErr result (Extends self.old self.new) }
    {
        let spelled = self.text(text)?;
        self.place(PoolEntry::String(spelled))
    }

    fn named_type_entries(&mut self, name: &[u8], descriptor: &[u8]) -> Result<u16, PoolFault>
        ensures found { Gives (with_named_type self.old name.now descriptor.now) self.new result }
        ensures full { IsFull (with_named_type self.old name.now descriptor.now) result }
        ensures fits { length self.new ≤ 65534 }
        ensures kept { OnErr result (Extends self.old self.new) }
    {
        let first = self.text(name)?;
        let second = self.text(descriptor)?;
        self.place(PoolEntry::NameAndType(first, second))
    }

    fn member_entries(
        &mut self,
        kind: MemberKind,
        class: &[u8],
        name: &[u8],
        descriptor: &[u8],
    ) -> Result<u16, PoolFault>
        ensures found { Gives (with_member self.old kind class.now name.now descriptor.now) self.new result }
        ensures full { IsFull (with_member self.old kind class.now name.now descriptor.now) result }
        ensures fits { length self.new ≤ 65534 }
        ensures kept { OnErr result (Extends self.old self.new) }
    {
        let first = self.class_entries(class)?;
        let second = self.named_type_entries(name, descriptor)?;
        self.place(kind.entry(first, second))
    }

    fn member(
        &mut self,
        kind: MemberKind,
        class: &[u8],
        name: &[u8],
        descriptor: &[u8],
    ) -> Result<u16, PoolFault>
        ensures found { Gives (with_member self.old kind class.now name.now descriptor.now) self.new result }
        ensures full { IsFull (with_member self.old kind class.now name.now descriptor.now) result }
        ensures fits { length self.new ≤ 65534 }
        ensures stands { IfOk result (λ index. NamesMember self.new index kind (reference class.now name.now descriptor.now)) }
        ensures stays { Extends self.old self.new }
        ensures kept { OnErr result (self.new ≡ self.old) }
    {
        let len = self.entries().len();
        match self.member_entries(kind, class, name, descriptor) {
            Ok(index) => Ok(index),
            Err(fault) => {
                self.cut(len);
                Err(fault)
            }
        }
    }
}

/// Each call answers the index of the entry that it is asked for: the least index of an equal entry,
/// or else that of the entry appended, behind the entries that it names. `PoolFull` is answered
/// exactly where the entries that are needed would make the count pass 65535, unless memory runs out
/// before. No text has more than 65535 bytes of modified UTF-8.
impl PoolEdit {
    /// The index of a text in modified UTF-8 (JVMS 4.4.7).
    pub fn utf8(&mut self, text: &[u8]) -> Result<u16, PoolFault>
        requires { length text.now ≤ 65535 }
        ensures found { Gives (with_text self.old text.now) self.new result }
        ensures full { IsFull (with_text self.old text.now) result }
        ensures fits { length self.new ≤ 65534 }
        ensures stands { IfOk result (λ index. text_at self.new index ≡ Some text.now) }
        ensures stays { Extends self.old self.new }
        ensures kept { OnErr result (self.new ≡ self.old) }
    {
        self.text(text)
    }

    /// The index of a class or array type (JVMS 4.4.1).
    pub fn class(&mut self, name: &InternalName) -> Result<u16, PoolFault>
        requires { length name.now ≤ 65535 }
        ensures found { Gives (with_class self.old name.now) self.new result }
        ensures full { IsFull (with_class self.old name.now) result }
        ensures fits { length self.new ≤ 65534 }
        ensures stands { IfOk result (λ index. class_at self.new index ≡ Some name.now) }
        ensures stays { Extends self.old self.new }
        ensures kept { OnErr result (self.new ≡ self.old) }
    {
        let len = self.entries().len();
        match self.class_entries(name.as_slice()) {
            Ok(index) => Ok(index),
            Err(fault) => {
                self.cut(len);
                Err(fault)
            }
        }
    }

    /// The index of a string constant of these UTF-16 units (JVMS 4.4.3).
    pub fn string(&mut self, units: &[u16]) -> Result<u16, PoolFault>
        requires { length (text_spelling units.now) ≤ 65535 }
        ensures found { Gives (with_string self.old units.now) self.new result }
        ensures full { IsFull (with_string self.old units.now) result }
        ensures fits { length self.new ≤ 65534 }
        ensures stands { IfOk result (λ index. string_at self.new index ≡ Some (text_spelling units.now)) }
        ensures stays { Extends self.old self.new }
        ensures kept { OnErr result (self.new ≡ self.old) }
    {
        let len = self.entries().len();
        match self.string_entries(units) {
            Ok(index) => Ok(index),
            Err(fault) => {
                self.cut(len);
                Err(fault)
            }
        }
    }

    /// The index of a string constant of this text in modified UTF-8 (JVMS 4.4.3).
    pub fn string_text(&mut self, text: &[u8]) -> Result<u16, PoolFault>
        requires { length text.now ≤ 65535 }
        ensures found { Gives (with_string_text self.old text.now) self.new result }
        ensures full { IsFull (with_string_text self.old text.now) result }
        ensures fits { length self.new ≤ 65534 }
        ensures stands { IfOk result (λ index. string_at self.new index ≡ Some text.now) }
        ensures stays { Extends self.old self.new }
        ensures kept { OnErr result (self.new ≡ self.old) }
    {
        let len = self.entries().len();
        match self.string_text_entries(text) {
            Ok(index) => Ok(index),
            Err(fault) => {
                self.cut(len);
                Err(fault)
            }
        }
    }

    /// The index of a field (JVMS 4.4.2).
    pub fn field_ref(&mut self, field: &FieldName) -> Result<u16, PoolFault>
        requires class { length field.now.class ≤ 65535 }
        requires name { length field.now.name ≤ 65535 }
        requires descriptor { length field.now.descriptor ≤ 65535 }
        ensures found { Gives (with_field self.old field.now) self.new result }
        ensures full { IsFull (with_field self.old field.now) result }
        ensures fits { length self.new ≤ 65534 }
        ensures stands { IfOk result (λ index. field_at self.new index ≡ Some (reference field.now.class field.now.name field.now.descriptor)) }
        ensures stays { Extends self.old self.new }
        ensures kept { OnErr result (self.new ≡ self.old) }
    {
        self.member(
            MemberKind::Field,
            field.class.as_slice(),
            field.name.as_slice(),
            field.descriptor.as_slice(),
        )
    }

    /// The index of a method, by an InterfaceMethodref where it is an interface's (JVMS 4.4.2).
    pub fn method_ref(&mut self, method: &MethodName) -> Result<u16, PoolFault>
        requires class { length method.now.class ≤ 65535 }
        requires name { length method.now.name ≤ 65535 }
        requires descriptor { length method.now.descriptor ≤ 65535 }
        ensures found { Gives (with_method self.old method.now) self.new result }
        ensures full { IsFull (with_method self.old method.now) result }
        ensures fits { length self.new ≤ 65534 }
        ensures stands { IfOk result (λ index. NamesMember self.new index (method_kind method.now.interface) (reference method.now.class method.now.name method.now.descriptor)) }
        ensures stays { Extends self.old self.new }
        ensures kept { OnErr result (self.new ≡ self.old) }
    {
        self.member(
            method_kind(method.interface),
            method.class.as_slice(),
            method.name.as_slice(),
            method.descriptor.as_slice(),
        )
    }

    /// The index of an int (JVMS 4.4.4).
    pub fn int(&mut self, number: i32) -> Result<u16, PoolFault>
        ensures found { Gives (with_entry self.old (PoolEntry.Integer number)) self.new result }
        ensures full { IsFull (with_entry self.old (PoolEntry.Integer number)) result }
        ensures fits { length self.new ≤ 65534 }
        ensures stands { IfOk result (λ index. entry_at self.new index ≡ Some (PoolEntry.Integer number)) }
        ensures stays { Extends self.old self.new }
        ensures kept { OnErr result (self.new ≡ self.old) }
    {
        self.place(PoolEntry::Integer(number))
    }

    /// The index of a long, which takes two indices (JVMS 4.4.5).
    pub fn long(&mut self, number: i64) -> Result<u16, PoolFault>
        ensures found { Gives (with_entry self.old (PoolEntry.Long number)) self.new result }
        ensures full { IsFull (with_entry self.old (PoolEntry.Long number)) result }
        ensures fits { length self.new ≤ 65534 }
        ensures stands { IfOk result (λ index. entry_at self.new index ≡ Some (PoolEntry.Long number)) }
        ensures stays { Extends self.old self.new }
        ensures kept { OnErr result (self.new ≡ self.old) }
    {
        self.place(PoolEntry::Long(number))
    }

    /// The index of a float of these bits (JVMS 4.4.4).
    pub fn float(&mut self, bits: u32) -> Result<u16, PoolFault>
        ensures found { Gives (with_entry self.old (PoolEntry.Float bits)) self.new result }
        ensures full { IsFull (with_entry self.old (PoolEntry.Float bits)) result }
        ensures fits { length self.new ≤ 65534 }
        ensures stands { IfOk result (λ index. entry_at self.new index ≡ Some (PoolEntry.Float bits)) }
        ensures stays { Extends self.old self.new }
        ensures kept { OnErr result (self.new ≡ self.old) }
    {
        self.place(PoolEntry::Float(bits))
    }

    /// The index of a double of these bits, which takes two indices (JVMS 4.4.5).
    pub fn double(&mut self, bits: u64) -> Result<u16, PoolFault>
        ensures found { Gives (with_entry self.old (PoolEntry.Double bits)) self.new result }
        ensures full { IsFull (with_entry self.old (PoolEntry.Double bits)) result }
        ensures fits { length self.new ≤ 65534 }
        ensures stands { IfOk result (λ index. entry_at self.new index ≡ Some (PoolEntry.Double bits)) }
        ensures stays { Extends self.old self.new }
        ensures kept { OnErr result (self.new ≡ self.old) }
    {
        self.place(PoolEntry::Double(bits))
    }
}
