//! What the texts of a constant pool may serve as.

ghost use Rattle.std.specs.Prelude.{◌≡◌, List, if◌then◌else◌, Some, is_some, IfOk};
ghost use Rattle.std.specs.Option.{option_copied};
ghost use Rattle.class_file.specs.Text as form;
ghost use Rattle.class_file.specs.Pool.{text_at};
ghost use Rattle.class_file.specs.Sound.{is_some_that};
ghost use Rattle.class_file.specs.declared.pool.PoolEntry.{PoolEntry};
ghost use Rattle.class_rules.specs.Forms.{Judges, text_form, form_of, form_at};

use class_file::{
    PoolEntry, is_class_name, is_field_descriptor, is_internal_name, is_member_name,
    is_method_descriptor_with,
};
use std::alloc::{AllocError, Global};

/// What an entry of a pool may serve as. An entry that is no text serves as nothing.
#[derive(Clone, Copy, Debug)]
pub(crate) struct TextForm {
    pub(crate) text: bool,
    pub(crate) class_name: bool,
    pub(crate) internal_name: bool,
    pub(crate) member_name: bool,
    pub(crate) field_descriptor: bool,
    /// The parameters take at most 255 slots.
    pub(crate) method_descriptor: bool,
    /// The parameters take at most 255 slots with that of the receiver.
    pub(crate) instance_descriptor: bool,
}

const NOTHING: TextForm = TextForm {
    text: false,
    class_name: false,
    internal_name: false,
    member_name: false,
    field_descriptor: false,
    method_descriptor: false,
    instance_descriptor: false,
};

fn text_form(bytes: &[u8]) -> TextForm
    ensures { result ≡ text_form (Some bytes.now) }
{
    TextForm {
        text: true,
        class_name: is_class_name(bytes),
        internal_name: is_internal_name(bytes),
        member_name: is_member_name(bytes),
        field_descriptor: is_field_descriptor(bytes),
        method_descriptor: is_method_descriptor_with(bytes, false),
        instance_descriptor: is_method_descriptor_with(bytes, true),
    }
}

fn form_of(entry: &PoolEntry) -> TextForm
    ensures { result ≡ form_of entry.now }
{
    match entry {
        PoolEntry::Utf8(text) => text_form(text.as_slice()),
        _ => NOTHING,
    }
}

// The form of the entry of an index. Index 0 has none.
fn form_at(forms: &[TextForm], index: u16) -> Option<&TextForm>
    ensures { option_copied result ≡ form_at forms.now index }
{
    if index == 0 {
        None
    } else {
        forms.get(usize::from(index) - 1)
    }
}

/// What each text of a constant pool may serve as: names, descriptors (JVMS 4.2, 4.3). Each text is
/// judged once, and then each question takes constant time. An index that is 0, past the end or of
/// another kind of entry serves as nothing.
#[derive(Debug, Drop)]
pub struct TextForms {
    pub(crate) forms: Vec<TextForm>,
}

impl TextForms {
    /// Judges the texts of the pool, in time linear in their bytes.
    pub fn judge(alloc: Global, pool: &[PoolEntry]) -> Result<TextForms, AllocError>
        ensures { IfOk result (λ forms. Judges forms pool.now) }
    {
        let mut forms = Vec::with_capacity(alloc, pool.len())?;
        for entry in pool {
            forms.push(form_of(entry))?;
        }
        Ok(TextForms { forms })
    }

    // What the text of an index may serve as.
    fn at(&self, index: u16) -> TextForm
        ensures { (pool : List PoolEntry) → Judges self.now pool → result ≡ text_form (text_at pool index) }
    {
        match form_at(self.forms.as_slice(), index) {
            Some(form) => *form,
            None => NOTHING,
        }
    }

    /// Whether the index is that of a text.
    pub fn is_text(&self, index: u16) -> bool
        ensures { (pool : List PoolEntry) → Judges self.now pool → result ≡ is_some (text_at pool index) }
    {
        self.at(index).text
    }

    /// Whether the index is that of the name of a class (JVMS 4.2).
    pub fn is_class_name(&self, index: u16) -> bool
        ensures { (pool : List PoolEntry) → Judges self.now pool → result ≡ is_some_that form.is_class_name (text_at pool index) }
    {
        self.at(index).class_name
    }

    /// Whether the index is that of the name of a class or of an array descriptor (JVMS 4.4.1).
    pub fn is_internal_name(&self, index: u16) -> bool
        ensures { (pool : List PoolEntry) → Judges self.now pool → result ≡ is_some_that form.is_internal_name (text_at pool index) }
    {
        self.at(index).internal_name
    }

    /// Whether the index is that of the name of a field or a method.
    pub fn is_member_name(&self, index: u16) -> bool
        ensures { (pool : List PoolEntry) → Judges self.now pool → result ≡ is_some_that form.is_member_name (text_at pool index) }
    {
        self.at(index).member_name
    }

    /// Whether the index is that of the descriptor of a field (JVMS 4.3.2).
    pub fn is_field_descriptor(&self, index: u16) -> bool
        ensures { (pool : List PoolEntry) → Judges self.now pool → result ≡ is_some_that form.is_field_descriptor (text_at pool index) }
    {
        self.at(index).field_descriptor
    }

    /// Whether the index is that of the descriptor of a method whose parameters take at most 255
    /// slots, with one for the receiver where there is one (JVMS 4.3.3).
    pub fn is_method_descriptor(&self, receiver: bool, index: u16) -> bool
        ensures { (pool : List PoolEntry) → Judges self.now pool → result ≡ is_some_that (form.is_method_descriptor_with (if receiver then 1 else 0)) (text_at pool index) }
    {
        let form = self.at(index);
        if receiver {
            form.instance_descriptor
        } else {
            form.method_descriptor
        }
    }
}
