//! Weaving classes.

ghost use Rattle.std.specs.Prelude.{◌≡◌, ◌<◌, [], ◌∷◌, ◌++◌, length, map, IfOk, IsTrue, Some};
ghost use Rattle.std.specs.List.{AllByRecursion, AllZip};
ghost use Rattle.class_file.specs.FirstForm.{is_first_form};
ghost use Rattle.class_file.specs.Pool.{this_name};
ghost use Rattle.jp_model.specs.AspectText.{is_first_aspect, aspect_of};
ghost use Rattle.jp_model.specs.Headline.{AreApart, IsWeaving};
ghost use Rattle.before_weave.specs.Weaving.{with_calls, IsClassWeaving};

use crate::advice::aspect_class;
use crate::entries::with_call_entries;
use crate::marks::marks_of;
use crate::methods::weave_methods;
use class_file::{ClassFile, Member};
use jp_model::FirstAspect;
use sqlite_items::Items;
use std::alloc::{AllocError, Global};

/// How many entries are put behind the pool for a call of the advice's method. The last one is the
/// method's.
const CALL_ENTRIES: u16 = 6;

/// The class with the pool's entries for a call of the advice's method, and with these methods.
fn with_calls(
    alloc: Global,
    class: ClassFile,
    methods: Vec<Member>,
    aspect: &FirstAspect,
) -> Result<ClassFile, AllocError>
    requires { length class.pool < 10000 }
    ensures { IfOk result (λ w. w ≡ with_calls aspect.now class methods.items) }
{
    let ClassFile {
        minor,
        major,
        pool,
        flags,
        this_class,
        super_class,
        interfaces,
        fields,
        methods: _,
        attributes,
    } = class;
    let pool = with_call_entries(alloc, pool, aspect)?;
    Ok(ClassFile {
        minor,
        major,
        pool,
        flags,
        this_class,
        super_class,
        interfaces,
        fields,
        methods: Items::from_vec(methods),
        attributes,
    })
}

/// The class with calls of the advice put in, or as it was where the advice applies nowhere.
fn weave_class(
    alloc: Global,
    class: ClassFile,
    aspect: &FirstAspect,
) -> Result<ClassFile, AllocError>
    requires { IsTrue (is_first_form class) }
    ensures { IfOk result (λ w. IsClassWeaving aspect.now class w) }
{
    let marks = marks_of(alloc, class.pool.as_slice(), aspect)?;
    let index = class.pool.len() as u16 + CALL_ENTRIES;
    let woven = weave_methods(alloc, class.methods.as_slice(), &marks, index)?;
    if woven.advised {
        with_calls(alloc, class, woven.members, aspect)
    } else {
        Ok(class)
    }
}

/// Each class with calls of the advice put in, in order.
fn weave_each(
    alloc: Global,
    classes: Vec<ClassFile>,
    aspect: &FirstAspect,
) -> Result<Vec<ClassFile>, AllocError>
    requires { AllByRecursion (λ c. IsTrue (is_first_form c)) classes.items }
    ensures { IfOk result (λ woven. AllZip (IsClassWeaving aspect.now) classes.items woven.items) }
{
    let mut woven = Vec::with_capacity(alloc, classes.len())?;
    for class in classes {
        woven.push(weave_class(alloc, class, aspect)?)?;
    }
    Ok(woven)
}

/// Weaves an aspect into classes: a call of the advice stands before each call that the pointcut
/// matches. A class without such a call is given back as it was.
///
/// The woven classes come in order, and behind them the aspect's class. They run as the classes do
/// under the aspect.
pub fn weave_classes(
    alloc: Global,
    classes: Vec<ClassFile>,
    aspect: &FirstAspect,
) -> Result<Vec<ClassFile>, AllocError>
    requires class_forms { AllByRecursion (λ c. IsTrue (is_first_form c)) classes.items }
    requires aspect_form { IsTrue (is_first_aspect aspect.now) }
    requires names { AreApart (map this_name classes.items ++ Some aspect.now.name ∷ []) }
    ensures weaving { IfOk result (λ w. IsWeaving classes.items (aspect_of aspect.now ∷ []) w.items) }
{
    let mut written = weave_each(alloc, classes, aspect)?;
    written.push(aspect_class(alloc, aspect)?)?;
    Ok(written)
}
