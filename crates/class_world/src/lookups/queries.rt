//! What is asked of a world.

use crate::World;
use crate::lookups::members::{Found, first_field, method_in};
use crate::lookups::naming::find_named;
use crate::lookups::numbers::{member_of, number_of};
use crate::lookups::places::place_of;
use crate::lookups::{subtypes, upward};
use aj_names::{ClassId, FieldId, Hierarchy, InternalName, MemberName, MethodId};
use class_file::ClassFile;
use class_heads::ClassHead;

/// No look-up takes memory.
impl World {
    ghost use Rattle.std.specs.Prelude.{◌≡◌, ◌<◌, length, slice_get, IfSome};
    ghost use Rattle.std.specs.List.{sum};
    ghost use Rattle.std.specs.Option.{option_map, option_copied};
    ghost use Rattle.class_heads.specs.Hierarchy.{place_of};
    ghost use Rattle.class_heads.specs.Searches as rule;
    ghost use Rattle.class_heads.specs.Numbers.{number_of, field_counts, method_counts, IsNumbered};
    ghost use Rattle.class_world.specs.Found.{member_named};

    /// How many classes there are.
    pub fn classes(&self) -> u32
        ensures { result ≡ length self.now.heads }
    {
        self.heads.len() as u32
    }

    /// The class of that name.
    pub fn class(&self, name: &InternalName) -> Option<ClassId>
        ensures place { option_map (λ class. class.0) result ≡ place_of self.now.heads name.now }
        ensures within { IfSome result (λ class. class.0 < length self.now.heads) }
    {
        self.class_named(name.as_slice())
    }

    /// The class of that name, by its bytes.
    pub fn class_named(&self, name: &[u8]) -> Option<ClassId>
        ensures place { option_map (λ class. class.0) result ≡ place_of self.now.heads name.now }
        ensures within { IfSome result (λ class. class.0 < length self.now.heads) }
    {
        let place = place_of(self.heads.as_slice(), self.names.as_slice(), name)?;
        Some(ClassId(place))
    }

    /// What the class declares.
    pub fn head(&self, class: ClassId) -> &ClassHead
        requires { class.0 < length self.now.heads }
        ensures { slice_get self.now.heads class.0 ≡ Some result.now }
    {
        &self.heads[class.0 as usize]
    }

    /// The file of the class, or none of a class that wasn't given as a file.
    pub fn file(&self, class: ClassId) -> Option<&ClassFile>
        ensures { option_copied result ≡ slice_get self.now.files class.0 }
    {
        self.files.get(class.0 as usize)
    }

    /// The field that a search from the class finds: in the class, then in its direct superinterfaces
    /// in order and theirs, then in the superclass (JVMS 5.4.3.2).
    pub fn find_field(&self, class: ClassId, member: &MemberName) -> Option<FieldId>
        requires { class.0 < length self.now.heads }
        ensures number { option_map (λ field. field.0) result ≡ option_map (number_of (field_counts self.now.heads)) (rule.find_field self.now.heads class.0 member.now) }
        ensures within { IfSome result (λ field. field.0 < sum (field_counts self.now.heads)) }
    {
        self.find_field_named(class, member.name.as_slice(), member.descriptor.as_slice())
    }

    /// The field that a search from the class finds, by the bytes of its name and descriptor (JVMS
    /// 5.4.3.2).
    pub fn find_field_named(
        &self,
        class: ClassId,
        name: &[u8],
        descriptor: &[u8],
    ) -> Option<FieldId>
        requires { class.0 < length self.now.heads }
        ensures number { option_map (λ field. field.0) result ≡ option_map (number_of (field_counts self.now.heads)) (rule.find_field self.now.heads class.0 (member_named name.now descriptor.now)) }
        ensures within { IfSome result (λ field. field.0 < sum (field_counts self.now.heads)) }
    {
        let table = self.supers[class.0 as usize].as_slice();
        let found = first_field(self.heads.as_slice(), table, name, descriptor)?;
        Some(FieldId(number_of(self.first_fields.as_slice(), found)))
    }

    /// The method that a search from the class finds: in the class and its superclasses, then in all
    /// superinterfaces, depth first in order (JVMS 5.4.3.3, 5.4.3.4).
    pub fn find_method(&self, class: ClassId, member: &MemberName) -> Option<MethodId>
        requires { class.0 < length self.now.heads }
        ensures number { option_map (λ method. method.0) result ≡ option_map (number_of (method_counts self.now.heads)) (rule.find_method self.now.heads class.0 member.now) }
        ensures within { IfSome result (λ method. method.0 < sum (method_counts self.now.heads)) }
    {
        self.find_method_named(class, member.name.as_slice(), member.descriptor.as_slice())
    }

    /// The method that a search from the class finds, by the bytes of its name and descriptor (JVMS
    /// 5.4.3.3, 5.4.3.4).
    pub fn find_method_named(
        &self,
        class: ClassId,
        name: &[u8],
        descriptor: &[u8],
    ) -> Option<MethodId>
        requires { class.0 < length self.now.heads }
        ensures number { option_map (λ method. method.0) result ≡ option_map (number_of (method_counts self.now.heads)) (rule.find_method self.now.heads class.0 (member_named name.now descriptor.now)) }
        ensures within { IfSome result (λ method. method.0 < sum (method_counts self.now.heads)) }
    {
        let table = self.supers[class.0 as usize].as_slice();
        let found = upward::find_method(
            self.heads.as_slice(),
            self.names.as_slice(),
            table,
            class.0,
            name,
            descriptor,
        )?;
        Some(MethodId(number_of(self.first_methods.as_slice(), found)))
    }

    /// The first method of the name and descriptor that the class itself declares.
    pub fn declared_method(
        &self,
        class: ClassId,
        name: &[u8],
        descriptor: &[u8],
    ) -> Option<MethodId>
        requires { class.0 < length self.now.heads }
        ensures number { option_map (λ method. method.0) result ≡ option_map (λ position. number_of (method_counts self.now.heads) (rule.in_class class.0 position)) (rule.method_in self.now.heads (member_named name.now descriptor.now) class.0) }
        ensures within { IfSome result (λ method. method.0 < sum (method_counts self.now.heads)) }
    {
        let position = method_in(self.heads.as_slice(), class.0, name, descriptor)?;
        let found = Found {
            class: class.0,
            position,
        };
        Some(MethodId(number_of(self.first_methods.as_slice(), found)))
    }

    /// The method that runs on an object of the runtime class where this one was found: itself, if it
    /// is private, else the first of its name and descriptor from the runtime class upward that is
    /// neither static nor private (JVMS 6, invokevirtual, invokeinterface).
    pub fn select(&self, runtime: ClassId, method: MethodId) -> Option<MethodId>
        requires runtime { runtime.0 < length self.now.heads }
        requires method { method.0 < sum (method_counts self.now.heads) }
        ensures number { (found : rule.MemberPlace) → IsNumbered (method_counts self.now.heads) method.0 found → option_map (λ m. m.0) result ≡ option_map (number_of (method_counts self.now.heads)) (rule.select self.now.heads runtime.0 found) }
        ensures within { IfSome result (λ m. m.0 < sum (method_counts self.now.heads)) }
    {
        let found = member_of(self.first_methods.as_slice(), method.0);
        let selected = upward::select(
            self.heads.as_slice(),
            self.names.as_slice(),
            runtime.0,
            found,
        )?;
        Some(MethodId(number_of(self.first_methods.as_slice(), selected)))
    }

    /// The class that declares the method, and its position among the class's methods.
    pub fn method_at(&self, method: MethodId) -> (ClassId, u32)
        requires { method.0 < sum (method_counts self.now.heads) }
        ensures member { IsNumbered (method_counts self.now.heads) method.0 (rule.in_class result.0.0 result.1) }
        ensures within { result.0.0 < length self.now.heads }
    {
        let found = member_of(self.first_methods.as_slice(), method.0);
        (ClassId(found.class), found.position as u32)
    }

    /// The class that declares the field, and its position among the class's fields.
    pub fn field_at(&self, field: FieldId) -> (ClassId, u32)
        requires { field.0 < sum (field_counts self.now.heads) }
        ensures member { IsNumbered (field_counts self.now.heads) field.0 (rule.in_class result.0.0 result.1) }
        ensures within { result.0.0 < length self.now.heads }
    {
        let found = member_of(self.first_fields.as_slice(), field.0);
        (ClassId(found.class), found.position as u32)
    }
}

impl Hierarchy for World {
    ghost use Rattle.class_heads.specs.Hierarchy as names;

    ghost classes = { λ world. names.class_names world.heads };

    ghost subtypes = { λ world low high. names.is_subtype world.heads low high };

    ghost supertypes = { λ world class. names.supertype_names world.heads class };

    fn find(&self, package: &[u8], name: &[u8], dollars: u32) -> Option<&InternalName> {
        find_named(self.heads.as_slice(), package, name, dollars)
    }

    fn is_subtype(&self, low: &InternalName, high: &InternalName) -> bool {
        subtypes::is_subtype(
            self.heads.as_slice(),
            self.names.as_slice(),
            self.supers.as_slice(),
            low.as_slice(),
            high.as_slice(),
        )
    }

    fn supertype(&self, low: &InternalName, index: u32) -> Option<&InternalName> {
        subtypes::supertype(
            self.heads.as_slice(),
            self.names.as_slice(),
            self.supers.as_slice(),
            low.as_slice(),
            index,
        )
    }
}
