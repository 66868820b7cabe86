//! What is known of a class while its parts are read.

ghost use Rattle.std.specs.Prelude.{◌≡◌};
ghost use Rattle.class_rules.specs.Forms.{Judges};
ghost use Rattle.class_format.specs.Gives.{GivesBy};
ghost use Rattle.class_format.specs.Readers.{index_that};
ghost use Rattle.class_file.specs.WellFormed.{is_class_index};
ghost use Rattle.class_file.specs.WellFormed as form;
ghost use Rattle.class_format.specs.Roles.{serves, is_this_index, is_constant_index};

use crate::fault::ClassFault;
use crate::numbers::u2_at;
use crate::scope::Scope;
use class_file::{PoolEntry, class_at, entry_at};
use class_rules::TextForms;

/// What an index of the pool must stand for where it is read.
#[derive(Clone, Copy, Debug, PartialEq, Eq)]
pub(crate) enum Role {
    /// Any text.
    Text,
    /// A class or an array type.
    Class,
    /// The same, or 0 for none.
    ClassOrNone,
    /// The class that the file declares, which is no array type.
    ThisClass,
    /// The name of a member or a local variable.
    Name,
    /// The same, or 0 for none.
    NameOrNone,
    /// The descriptor of a field or a local variable.
    FieldType,
    /// The descriptor of a method, with or without a receiver.
    MethodType(bool),
    /// The constant of a field.
    Constant,
}

/// The major version and the pool of the class whose parts are read.
#[derive(Clone, Copy)]
pub(crate) struct Known<'a> {
    pub(crate) major: u16,
    pub(crate) pool: &'a [PoolEntry],
    /// What the texts of the pool may serve as.
    pub(crate) forms: &'a TextForms,
    ghost judged: { Judges forms.now pool.now },
}

fn is_constant(entry: &PoolEntry) -> bool
    ensures { result ≡ form.is_constant entry.now }
{
    matches!(
        entry,
        PoolEntry::Integer(_)
            | PoolEntry::Float(_)
            | PoolEntry::Long(_)
            | PoolEntry::Double(_)
            | PoolEntry::String(_)
    )
}

impl Known<'_> {
    fn is_class(&self, index: u16) -> bool
        ensures { result ≡ is_class_index self.now.pool.now index }
    {
        class_at(self.pool, index).is_some()
    }

    fn is_this_class(&self, index: u16) -> bool
        ensures { result ≡ is_this_index self.now.pool.now index }
    {
        match entry_at(self.pool, index) {
            Some(PoolEntry::Class(name)) => self.forms.is_class_name(*name),
            _ => false,
        }
    }

    fn is_constant(&self, index: u16) -> bool
        ensures { result ≡ is_constant_index self.now.pool.now index }
    {
        match entry_at(self.pool, index) {
            Some(entry) => is_constant(entry),
            None => false,
        }
    }

    /// Whether the index stands for what must stand there.
    fn serves(&self, role: Role, index: u16) -> bool
        ensures { result ≡ serves self.now.pool.now role index }
    {
        match role {
            Role::Text => self.forms.is_text(index),
            Role::Class => self.is_class(index),
            Role::ClassOrNone => index == 0 || self.is_class(index),
            Role::ThisClass => self.is_this_class(index),
            Role::Name => self.forms.is_member_name(index),
            Role::NameOrNone => index == 0 || self.forms.is_member_name(index),
            Role::FieldType => self.forms.is_field_descriptor(index),
            Role::MethodType(receiver) => self.forms.is_method_descriptor(receiver, index),
            Role::Constant => self.is_constant(index),
        }
    }
}

/// An index that must stand for this.
pub(crate) fn index_at<'a>(
    known: &Known<'_>,
    role: Role,
    scope: Scope,
    bytes: &'a [u8],
) -> Result<(u16, &'a [u8]), ClassFault>
    ensures { GivesBy (λ x. (x.0, x.1.now)) result (index_that (serves known.now.pool.now role) scope bytes.now) }
{
    let (index, rest) = u2_at(scope, bytes)?;
    if !known.serves(role, index) {
        return Err(ClassFault::PoolRef(index));
    }
    Ok((index, rest))
}
