use class_file::{ClassFile, Content, PoolEntry};
use class_listing::to_text;
use class_text::{TextFault, to_class};

/// Texts, and what the classes that they are are written as.
const TEXTS: [(&str, &str); 3] = [
    (
        "class p/C\u{1f600} super java/lang/Object version 48
method static m\u{20ac} (Lp/C\u{1f600};)V stack 1 locals 1
  ldc \"\\u0000\\ud83d\u{1f600}\u{e9}\\n\"
  pop
  return
end
",
        "class p/C\u{1f600} super java/lang/Object version 48 flags 33
method m\u{20ac} (Lp/C\u{1f600};)V flags 9 stack 1 locals 1
  ldc \"\\u0000\\ud83d\\ud83d\\ude00\\u00e9\\n\"
  pop
  return
end
",
    ),
    (
        "class\tC super\tD version 48 interface A B
field static x J
method a ()V flags 1025 none
method m (I)I stack 1 locals 2
 catch here there here any
here:\tiload 1
 ifne far
 goto here
there: nop
far: bipush -3
 ireturn
end
field y [LC; flags 0",
        "class C super D version 48 flags 33 interface A B
field x J flags 9
field y [LC; flags 0
method a ()V flags 1025 none
method m (I)I flags 1 stack 1 locals 2
  L0: iload 1
  ifne L9
  goto L0
  L8: nop
  L9: bipush -3
  ireturn
  catch L0 L8 L0 any
end
",
    ),
    (
        "class C super D version 49
method m (I)V stack 2 locals 1
 iload 0
 lookupswitch -5:b 7:a default b
a: ldc C
 tableswitch 1 a b default a
b: ldc2_w -1
 invokeinterface I f (J)V
 return
 catch a b b java/lang/Error
end
",
        "class C super D version 49 flags 33
method m (I)V flags 1 stack 2 locals 1
  iload 0
  lookupswitch -5:L52 7:L28 default L52
  L28: ldc C
  tableswitch 1 L28 L52 default L28
  L52: ldc2_w -1
  invokeinterface I f (J)V
  return
  catch L28 L52 L52 java/lang/Error
end
",
    ),
];

fn code_of(class: &ClassFile, method: usize) -> &[u8] {
    match class.methods.get(method) {
        Some(member) => match member.attributes.get(0) {
            Some(attribute) => match &attribute.content {
                Content::Code(code) => code.code.as_slice(),
                _ => b"",
            },
            None => b"",
        },
        None => b"",
    }
}

fn are_alike(first: &ClassFile, second: &ClassFile) -> bool {
    let pool: &[PoolEntry] = first.pool.as_slice();
    pool == second.pool.as_slice()
        && first.this_class == second.this_class
        && first.methods.len() == second.methods.len()
        && (0..first.methods.len()).all(|i| code_of(first, i) == code_of(second, i))
}

#[test]
fn classes_of_texts_come_back(rt: HostRuntime) -> Result<(), TextFault> {
    for (text, wanted) in TEXTS {
        let class = to_class(rt.alloc(), text.as_bytes())?;
        let listing = to_text(rt.alloc(), &class)?;
        assert!(rt; listing.as_slice() == wanted.as_bytes());
        let again = to_class(rt.alloc(), listing.as_slice())?;
        assert!(rt; are_alike(&class, &again));
    }
    Ok(())
}
