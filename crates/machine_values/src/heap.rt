//! The heap.

ghost use Rattle.std.specs.Prelude.{◌≡◌, ◌≢◌, ◌<◌, ◌-◌, ◌++◌, List, [], ◌∷◌, cond, None, Some, true, length, map, replicate, take, slice_get, slice_set, is_some, IfOk, OnOk, OnErr};
ghost use Rattle.std.specs.Option.{unwrap_or};
ghost use Rattle.machine_values.specs.declared.names.Maker.TheVariants.{Class, Array};
ghost use Rattle.machine_values.specs.declared.names.Name.TheVariants.{Literal, ClassObject};
ghost use Rattle.machine_values.specs.declared.content.Content.TheVariants.{Values, Text, Fixed};
ghost use Rattle.machine_values.specs.First.{first_value, first_element};
ghost use Rattle.indexmap.specs.IndexMap.{get};
ghost use Rattle.machine_values.specs.declared.names.Maker.{Maker as MakerOf};
ghost use Rattle.machine_values.specs.declared.names.Name.{Name as NameOf};
ghost use Rattle.machine_values.specs.Tables.{IsCounted, AreCounted, ArePlaced};
ghost use Rattle.machine_values.specs.Things.{same_maker, same_name, nothing, with_thing, made, with_made, place_of, with_constant, is_constant, changed, values_at, text_at, units_at};

use crate::content::Content;
use crate::fields::Fields;
use crate::names::{Maker, Name};
use crate::units::Units;
use crate::values::{Ref, Value, first_element};
use aj_names::{ClassId, FieldType};
use indexmap::IndexMap;
use std::alloc::{AllocError, Global};
use std::marker::Model;

/// The objects and arrays that there are (JVMS 3.5.3). Each has a place, from 0 on, by which it is
/// referred to, and a name of its own. A call that adds one puts it at the next place, and a call that
/// fails changes nothing.
#[derive(Drop)]
pub struct Heap {
    names: Vec<Name>,
    contents: Vec<Content>,
    // How many objects were made, by what they were made of.
    counts: IndexMap<Maker, u64>,
    // The places of literals and of class objects.
    places: IndexMap<Name, u32>,
}

impl Model for Heap {
    ghost use Rattle.machine_values.specs.Things.{Things};
    ghost use Rattle.machine_values.specs.Tables.{IsHeap};

    ghost Value = { Things };

    ghost view = { λ h. record { names = h.names.items; contents = h.contents.items } };

    ghost invariant = { λ h. IsHeap h.names.items h.contents.items h.counts h.places };
}

// The greatest place.
const MOST: usize = 4294967295;

// One less was made of it.
fn count_down(counts: &mut IndexMap<Maker, u64>, maker: Maker)
    requires { 0 < unwrap_or (get same_maker counts.old maker) 0 }
    ensures { (other : MakerOf) → get same_maker counts.new other ≡ cond (same_maker maker other) (Some (unwrap_or (get same_maker counts.old maker) 0 - 1)) (get same_maker counts.old other) }
{
    let count = counts.get(&maker).copied().unwrap_or(0);
    match counts.insert(maker, count - 1) {
        Ok(_old) => {}
        Err(_failed) => unreachable!(),
    }
}

// The name no longer has the place, if that was its place.
fn forget_place(places: &mut IndexMap<Name, u32>, name: &Name, place: usize)
    ensures at { get same_name places.old name.now ≡ Some place → (other : NameOf) → get same_name places.new other ≡ cond (same_name name.now other) None (get same_name places.old other) }
    ensures elsewhere { get same_name places.old name.now ≢ Some place → (other : NameOf) → get same_name places.new other ≡ get same_name places.old other }
{
    let Some(found) = places.get(name).copied() else {
        return;
    };
    if found as usize == place {
        let _place = places.swap_remove(name);
    }
}

// The object of the name is no longer at the last place, this one.
fn forget(
    counts: &mut IndexMap<Maker, u64>,
    places: &mut IndexMap<Name, u32>,
    name: Name,
    place: usize,
)
    requires { IsCounted name counts.old }
    ensures counted { (names : List NameOf) → AreCounted (names ++ name ∷ []) counts.old → AreCounted names counts.new }
    ensures placed { (names : List NameOf) → length names ≡ place → ArePlaced (names ++ name ∷ []) places.old → ArePlaced names places.new }
{
    match name {
        Name::Made(maker, _number) => count_down(counts, maker),
        Name::Literal(units) => forget_place(places, &Name::Literal(units), place),
        Name::ClassObject(class) => forget_place(places, &Name::ClassObject(class), place),
    }
}

impl Heap {
    /// A heap without objects. It takes no memory.
    pub fn new(alloc: Global) -> Heap
        ensures { result ≡ nothing }
    {
        Heap {
            names: Vec::new(alloc),
            contents: Vec::new(alloc),
            counts: IndexMap::new(alloc),
            places: IndexMap::new(alloc),
        }
    }

    // How many objects were made of it.
    fn made(&self, maker: &Maker) -> u64
        ensures { result ≡ made self.now.names maker.now }
    {
        self.counts.get(maker).copied().unwrap_or(0)
    }

    // The place of a literal or of a class object.
    fn find(&self, name: &Name) -> Option<u32>
        requires { is_constant name.now ≡ true }
        ensures { result ≡ place_of self.now.names name.now }
    {
        self.places.get(name).copied()
    }

    // Adds the next object of what it is made of.
    fn add_made(&mut self, maker: Maker, content: Content) -> Result<Ref, AllocError>
        ensures ok { IfOk result (λ at. (at.0, self.new) ≡ with_made self.old maker content) }
        ensures within { IfOk result (λ at. at.0 < length self.new.names) }
        ensures err { OnErr result (self.new ≡ self.old) }
    {
        let place = self.names.len();
        if place > MOST {
            return Err(AllocError);
        }
        let count = self.made(&maker);
        let number = count + 1;
        let key = maker.copy()?;
        self.names.reserve(1)?;
        self.contents.reserve(1)?;
        self.counts.insert(key, number)?;
        self.names.push_reserved(Name::Made(maker, number));
        self.contents.push_reserved(content);
        Ok(Ref(place as u32))
    }

    // Adds the object of that name, which isn't there.
    fn add_fixed(&mut self, name: Name) -> Result<Ref, AllocError>
        requires constant { is_constant name ≡ true }
        requires absent { place_of self.old.names name ≡ None }
        ensures ok { OnOk result (self.new ≡ with_thing self.old name Fixed) }
        ensures at { IfOk result (λ at. at.0 ≡ length self.old.names) }
        ensures err { OnErr result (self.new ≡ self.old) }
    {
        let place = self.names.len();
        if place > MOST {
            return Err(AllocError);
        }
        let key = name.copy()?;
        self.names.reserve(1)?;
        self.contents.reserve(1)?;
        self.places.insert(key, place as u32)?;
        self.names.push_reserved(name);
        self.contents.push_reserved(Content::Fixed);
        Ok(Ref(place as u32))
    }

    // Finds the object of that name, or adds it.
    fn add_constant(&mut self, name: Name) -> Result<Ref, AllocError>
        requires { is_constant name ≡ true }
        ensures ok { IfOk result (λ at. (at.0, self.new) ≡ with_constant self.old name) }
        ensures within { IfOk result (λ at. at.0 < length self.new.names) }
        ensures err { OnErr result (self.new ≡ self.old) }
    {
        match self.find(&name) {
            Some(place) => Ok(Ref(place)),
            None => self.add_fixed(name),
        }
    }

    // Forgets the object at the last place.
    fn forget_last(&mut self)
        ensures names { self.new.names ≡ take (length self.old.names - 1) self.old.names }
        ensures contents { self.new.contents ≡ take (length self.old.contents - 1) self.old.contents }
    {
        let Some(name) = self.names.pop() else {
            return;
        };
        let _content = self.contents.pop();
        forget(&mut self.counts, &mut self.places, name, self.names.len());
    }

    /// Gives an object a text. A call that fails leaves the heap as it was.
    pub fn set_text(&mut self, at: Ref, units: &[u16]) -> Result<(), AllocError>
        requires { at.0 < length self.old.names }
        ensures ok { OnOk result (self.new ≡ changed self.old at.0 (Text units.now)) }
        ensures err { OnErr result (self.new ≡ self.old) }
    {
        let text = Units::from_slice(*self.names.allocator(), units)?;
        self.contents[at.0 as usize] = Content::Text(text);
        Ok(())
    }

    /// Forgets the objects from that place on. What refers to none of them stands as before.
    pub fn truncate(&mut self, count: usize)
        ensures names { self.new.names ≡ take count self.old.names }
        ensures contents { self.new.contents ≡ take count self.old.contents }
    {
        let mut size = self.count();
        while size > count {
            self.forget_last();
            size -= 1;
        }
    }

    /// Makes an object of the class that has fields of these types, with the first values of their
    /// types (JVMS 2.5.1). The name is the next one of the class.
    pub fn make(&mut self, class: ClassId, fields: &[FieldType]) -> Result<Ref, AllocError>
        ensures ok { IfOk result (λ at. (at.0, self.new) ≡ with_made self.old (Class class) (Values (map first_value fields.now))) }
        ensures within { IfOk result (λ at. at.0 < length self.new.names) }
        ensures err { OnErr result (self.new ≡ self.old) }
    {
        let values = Fields::first(*self.names.allocator(), fields)?;
        self.add_made(Maker::Class(class), Content::Values(values))
    }

    /// Makes an array of the array type, with so many elements of the first value of their type (JVMS
    /// 2.15). The name is the next one of the type.
    pub fn make_array(&mut self, class: &FieldType, count: u32) -> Result<Ref, AllocError>
        requires { 0 < class.now.dims }
        ensures ok { IfOk result (λ at. (at.0, self.new) ≡ with_made self.old (Array class.now) (Values (replicate count (first_element class.now)))) }
        ensures within { IfOk result (λ at. at.0 < length self.new.names) }
        ensures err { OnErr result (self.new ≡ self.old) }
    {
        let maker = class.copy()?;
        let values = Fields::repeat(*self.names.allocator(), first_element(class), count)?;
        self.add_made(Maker::Array(maker), Content::Values(values))
    }

    /// Makes a String or a buffer of the class, which holds these units. The name is the next one of
    /// the class.
    pub fn make_text(&mut self, class: ClassId, units: &[u16]) -> Result<Ref, AllocError>
        ensures ok { IfOk result (λ at. (at.0, self.new) ≡ with_made self.old (Class class) (Text units.now)) }
        ensures within { IfOk result (λ at. at.0 < length self.new.names) }
        ensures err { OnErr result (self.new ≡ self.old) }
    {
        let text = Units::from_slice(*self.names.allocator(), units)?;
        self.add_made(Maker::Class(class), Content::Text(text))
    }

    /// The String of the literal of these units, the same one each time (JVMS 3.10.5).
    pub fn literal(&mut self, units: &[u16]) -> Result<Ref, AllocError>
        ensures ok { IfOk result (λ at. (at.0, self.new) ≡ with_constant self.old (Literal units.now)) }
        ensures within { IfOk result (λ at. at.0 < length self.new.names) }
        ensures err { OnErr result (self.new ≡ self.old) }
    {
        let text = Units::from_slice(*self.names.allocator(), units)?;
        self.add_constant(Name::Literal(text))
    }

    /// The object that stands for the class or array type, the same one each time.
    pub fn class_object(&mut self, class: &FieldType) -> Result<Ref, AllocError>
        ensures ok { IfOk result (λ at. (at.0, self.new) ≡ with_constant self.old (ClassObject class.now)) }
        ensures within { IfOk result (λ at. at.0 < length self.new.names) }
        ensures err { OnErr result (self.new ≡ self.old) }
    {
        let class = class.copy()?;
        self.add_constant(Name::ClassObject(class))
    }

    /// How many objects there are. Those that there are have the places below that number.
    pub fn count(&self) -> usize
        ensures count { result ≡ length self.now.names }
        ensures contents { result ≡ length self.now.contents }
    {
        self.names.len()
    }

    /// The name of an object.
    pub fn name(&self, at: Ref) -> &Name
        requires { at.0 < length self.now.names }
        ensures { slice_get self.now.names at.0 ≡ Some result.now }
    {
        &self.names[at.0 as usize]
    }

    /// What an object holds.
    pub fn content(&self, at: Ref) -> &Content
        requires { at.0 < length self.now.names }
        ensures { slice_get self.now.contents at.0 ≡ Some result.now }
    {
        &self.contents[at.0 as usize]
    }

    /// How many fields or elements an object has; none, where it is a text or stands for a class.
    pub fn len(&self, at: Ref) -> u32
        requires { at.0 < length self.now.names }
        ensures { result ≡ length (values_at self.now at.0) }
    {
        self.content(at).len()
    }

    /// The value of a field or element, by its number.
    pub fn load(&self, at: Ref, index: u32) -> Value
        requires known { at.0 < length self.now.names }
        requires within { index < length (values_at self.now at.0) }
        ensures { slice_get (values_at self.now at.0) index ≡ Some result }
    {
        self.content(at).load(index)
    }

    /// Gives a field or element another value.
    pub fn store(&mut self, at: Ref, index: u32, value: Value)
        requires known { at.0 < length self.old.names }
        requires within { index < length (values_at self.old at.0) }
        ensures { self.new ≡ changed self.old at.0 (Values (slice_set (values_at self.old at.0) index value)) }
    {
        self.contents[at.0 as usize].store(index, value);
    }

    /// The units of a text, a buffer or a literal.
    pub fn units(&self, at: Ref) -> &[u16]
        requires known { at.0 < length self.now.names }
        requires text { is_some (units_at self.now at.0) ≡ true }
        ensures { units_at self.now at.0 ≡ Some result.now }
    {
        match (&self.names[at.0 as usize], &self.contents[at.0 as usize]) {
            (Name::Literal(units), _) => units.as_slice(),
            (_, Content::Text(units)) => units.as_slice(),
            _ => unreachable!(),
        }
    }

    /// Appends units to a text or buffer that was made.
    pub fn append(&mut self, at: Ref, units: &[u16]) -> Result<(), AllocError>
        requires known { at.0 < length self.old.names }
        requires text { is_some (text_at self.old at.0) ≡ true }
        ensures ok { OnOk result (self.new ≡ changed self.old at.0 (Text (unwrap_or (text_at self.old at.0) [] ++ units.now))) }
        ensures err { OnErr result (self.new ≡ self.old) }
    {
        self.contents[at.0 as usize].append(units)
    }
}
