//! Putting the calls into the methods of a class.

ghost use Rattle.std.specs.Prelude.{◌≡◌, IfOk, IsTrue, [], ◌∷◌};
ghost use Rattle.std.specs.List.{list_all};
ghost use Rattle.before_weave.specs.Walk.{is_straight_method, IsMarkedMethod, HasCalls, AreMarkedMethods};

use crate::code::weave_code;
use crate::entries::code_attribute;
use class_file::{Content, Member};
use std::alloc::{AllocError, Global};

/// A method with calls put in.
#[derive(Drop)]
struct WovenMethod {
    member: Member,
    /// Whether there is any.
    advised: bool,
}

/// The methods of a class with calls put in.
#[derive(Drop)]
pub(crate) struct WovenMethods {
    pub(crate) members: Vec<Member>,
    /// Whether there is any.
    pub(crate) advised: bool,
}

/// The method with the calls put into its code.
fn weave_method(
    alloc: Global,
    method: &Member,
    marks: &[bool],
    index: u16,
) -> Result<WovenMethod, AllocError>
    requires { IsTrue (is_straight_method method.now) }
    ensures member { IfOk result (λ w. IsMarkedMethod marks.now index method.now w.member) }
    ensures advised { IfOk result (λ w. HasCalls marks.now w.advised method.now) }
{
    let [attribute] = method.attributes.as_slice() else {
        unreachable!()
    };
    let Content::Code(code) = &attribute.content else {
        unreachable!()
    };
    let woven = weave_code(alloc, code.code.as_slice(), marks, index)?;
    let attributes = code_attribute(
        alloc,
        attribute.name,
        code.max_stack,
        code.max_locals,
        woven.bytes,
    )?;
    let member = Member {
        flags: method.flags,
        name: method.name,
        descriptor: method.descriptor,
        attributes,
    };
    Ok(WovenMethod {
        member,
        advised: woven.advised,
    })
}

/// The methods with the calls put into their code.
pub(crate) fn weave_methods(
    alloc: Global,
    methods: &[Member],
    marks: &[bool],
    index: u16,
) -> Result<WovenMethods, AllocError>
    requires { IsTrue (list_all is_straight_method methods.now) }
    ensures { IfOk result (λ w. AreMarkedMethods marks.now index methods.now w.members.items w.advised) }
{
    let mut members = Vec::with_capacity(alloc, methods.len())?;
    let mut advised = false;
    for method in methods {
        let woven = weave_method(alloc, method, marks, index)?;
        members.push(woven.member)?;
        advised = advised || woven.advised;
    }
    Ok(WovenMethods { members, advised })
}
